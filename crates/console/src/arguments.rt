// The arguments: the command, and after it options, each with a value, and files, in any order.
ghost use Rattle.std.specs.Prelude.{◌≡◌, ◌+◌, ◌<◌, ◌≤◌, ◌^◌, length};
ghost use Rattle.language.specs.Tokens.{same, starts, is};
ghost use Rattle.console.specs.Arguments.{command_of, word_of, run_takes, exec_takes, takes_of, files_of, given_for, with_given, with_file, sources, valued, filed, named, see_of, ended, said};

// Of the functions over places (`table`) the two whose names nothing else has here.
pub use crate::table::{given_for, place_of};

#[derive(Clone, Copy, PartialEq, Eq)]
pub enum Command {
    Help,
    Check,
    Run,
    Build,
    Exec,
    Compare,
}

// The options, by their names.
#[derive(Clone, Copy, PartialEq, Eq)]
pub enum Setting {
    Input,
    Block,
    Fuel,
    Limit,
    Room,
    Memory,
}

// What an argument is by its own: an option's name, one that is unknown, or any other word.
#[derive(Clone, Copy)]
pub enum Word {
    Name(Setting),
    Unknown,
    Other,
}

// What can be wrong with the arguments, each with its number.
#[derive(Clone, Copy)]
pub enum Problem {
    NotTaken = 1,
    Twice = 2,
    NoValue = 3,
    TooManyFiles = 4,
    NoFile = 5,
    InputAndBlock = 6,
}

// What is wrong, and at which argument.
#[derive(Clone, Copy)]
pub struct Wrong {
    pub problem: Problem,
    pub at: usize,
}

// Which argument is given as the value of each option, and as each of two files.
#[derive(Clone, Copy)]
pub struct Given {
    pub input: Option<usize>,
    pub block: Option<usize>,
    pub fuel: Option<usize>,
    pub limit: Option<usize>,
    pub room: Option<usize>,
    pub memory: Option<usize>,
    pub first: Option<usize>,
    pub second: Option<usize>,
}

// The arguments so far: what is given; the option whose value comes next; the argument that named an option last; how many files there were.
#[derive(Clone, Copy)]
struct Seen {
    given: Given,
    expected: Option<Setting>,
    at: usize,
    files: usize,
}

// Whether the word is this text.
pub fn is_spelt(word: &[u8], text: &[u8]) -> bool
    ensures { result ≡ same word.now text.now }
{
    word == text
}

fn begins_with_dash(word: &[u8]) -> bool
    ensures { result ≡ starts (is "-") word.now }
{
    !word.is_empty() && word[0] == b'-'
}

// The command of this name.
pub fn command_of(word: &[u8]) -> Option<Command>
    ensures { result ≡ command_of word.now }
{
    if is_spelt(word, b"help") {
        return Some(Command::Help);
    }
    if is_spelt(word, b"check") {
        return Some(Command::Check);
    }
    if is_spelt(word, b"run") {
        return Some(Command::Run);
    }
    if is_spelt(word, b"build") {
        return Some(Command::Build);
    }
    if is_spelt(word, b"exec") {
        return Some(Command::Exec);
    }
    if is_spelt(word, b"compare") {
        return Some(Command::Compare);
    }
    None
}

pub fn word_of(word: &[u8]) -> Word
    ensures { result ≡ word_of word.now }
{
    if is_spelt(word, b"--input") {
        return Word::Name(Setting::Input);
    }
    if is_spelt(word, b"--block") {
        return Word::Name(Setting::Block);
    }
    if is_spelt(word, b"--fuel") {
        return Word::Name(Setting::Fuel);
    }
    if is_spelt(word, b"--limit") {
        return Word::Name(Setting::Limit);
    }
    if is_spelt(word, b"--room") {
        return Word::Name(Setting::Room);
    }
    if is_spelt(word, b"--memory") {
        return Word::Name(Setting::Memory);
    }
    if begins_with_dash(word) {
        return Word::Unknown;
    }
    Word::Other
}

impl Command {
    // Whether the command takes the option.
    #[tactic(auto, unfolding(crate::specs::Arguments::takes_of, crate::specs::Arguments::run_takes, crate::specs::Arguments::exec_takes))]
    pub fn takes(self, setting: Setting) -> bool
        ensures { result ≡ takes_of self setting }
    {
        match self {
            Command::Help | Command::Check | Command::Build => false,
            Command::Run | Command::Compare => match setting {
                Setting::Input | Setting::Block | Setting::Fuel | Setting::Room => true,
                Setting::Limit | Setting::Memory => false,
            },
            Command::Exec => match setting {
                Setting::Input
                | Setting::Block
                | Setting::Limit
                | Setting::Room
                | Setting::Memory => true,
                Setting::Fuel => false,
            },
        }
    }

    // How many files the command takes: two at most.
    #[tactic(auto, unfolding(crate::specs::Arguments::files_of))]
    pub fn files(self) -> usize
        ensures number { result ≡ files_of self }
        ensures most { result ≤ 2 }
    {
        match self {
            Command::Help => 0,
            Command::Check | Command::Run | Command::Exec | Command::Compare => 1,
            Command::Build => 2,
        }
    }
}

impl Given {
    // The argument that is given for an option.
    #[tactic(auto, unfolding(crate::specs::Arguments::given_for))]
    pub fn value(self, setting: Setting) -> Option<usize>
        ensures { result ≡ given_for setting self }
    {
        match setting {
            Setting::Input => self.input,
            Setting::Block => self.block,
            Setting::Fuel => self.fuel,
            Setting::Limit => self.limit,
            Setting::Room => self.room,
            Setting::Memory => self.memory,
        }
    }

    // The same with argument i given for an option.
    #[tactic(auto, unfolding(crate::specs::Arguments::with_given))]
    fn with(self, setting: Setting, i: usize) -> Given
        ensures { result ≡ with_given setting i self }
    {
        let value = Some(i);
        match setting {
            Setting::Input => Given {
                input: value,
                ..self
            },
            Setting::Block => Given {
                block: value,
                ..self
            },
            Setting::Fuel => Given {
                fuel: value,
                ..self
            },
            Setting::Limit => Given {
                limit: value,
                ..self
            },
            Setting::Room => Given {
                room: value,
                ..self
            },
            Setting::Memory => Given {
                memory: value,
                ..self
            },
        }
    }

    // The same with argument i as the file after so many.
    #[tactic(auto, unfolding(crate::specs::Arguments::with_file))]
    fn with_file(self, files: usize, i: usize) -> Given
        ensures { result ≡ with_file files i self }
    {
        if files == 0 {
            return Given {
                first: Some(i),
                ..self
            };
        }
        Given {
            second: Some(i),
            ..self
        }
    }

    // The same, if there is at most one input block.
    #[tactic(auto, unfolding(crate::specs::Arguments::sources))]
    fn sources(self) -> Result<Given, Wrong>
        ensures { result ≡ sources self.input self.block self }
    {
        match self.input {
            None => Ok(self),
            Some(_) => match self.block {
                None => Ok(self),
                Some(at) => Err(Wrong {
                    problem: Problem::InputAndBlock,
                    at,
                }),
            },
        }
    }
}

impl Seen {
    // A file more.
    fn file(self, command: Command, i: usize) -> Result<Seen, Wrong>
        ensures { result ≡ filed command i self }
    {
        let files = self.files;
        if files < command.files() {
            return Ok(Seen {
                given: self.given.with_file(files, i),
                files: files + 1,
                ..self
            });
        }
        Err(Wrong {
            problem: Problem::TooManyFiles,
            at: i,
        })
    }

    // An option, whose value is to come.
    fn name(self, command: Command, setting: Setting, i: usize) -> Result<Seen, Wrong>
        ensures { result ≡ named command setting i self }
    {
        if !command.takes(setting) {
            return Err(Wrong {
                problem: Problem::NotTaken,
                at: i,
            });
        }
        match self.given.value(setting) {
            Some(_) => Err(Wrong {
                problem: Problem::Twice,
                at: i,
            }),
            None => Ok(Seen {
                expected: Some(setting),
                at: i,
                ..self
            }),
        }
    }

    // The value of the option that was before it. An option's name is no value: the option before it has none.
    fn value(self, setting: Setting, word: Word, i: usize) -> Result<Seen, Wrong>
        ensures { result ≡ valued setting word i self }
    {
        match word {
            Word::Name(_) => Err(Wrong {
                problem: Problem::NoValue,
                at: self.at,
            }),
            Word::Unknown | Word::Other => Ok(Seen {
                given: self.given.with(setting, i),
                expected: None,
                ..self
            }),
        }
    }

    // Argument i.
    fn see(self, command: Command, word: Word, i: usize) -> Result<Seen, Wrong>
        ensures { result ≡ see_of command word i self }
    {
        if let Some(setting) = self.expected {
            return self.value(setting, word, i);
        }
        match word {
            Word::Name(setting) => self.name(command, setting, i),
            Word::Unknown => Err(Wrong {
                problem: Problem::NotTaken,
                at: i,
            }),
            Word::Other => self.file(command, i),
        }
    }

    // What is given, if nothing is missing at the end, or too much.
    fn end(self, command: Command) -> Result<Given, Wrong>
        ensures { result ≡ ended command self }
    {
        let at = self.at;
        if let Some(_) = self.expected {
            return Err(Wrong {
                problem: Problem::NoValue,
                at,
            });
        }
        if self.files < command.files() {
            return Err(Wrong {
                problem: Problem::NoFile,
                at,
            });
        }
        self.given.sources()
    }
}

// What all arguments after the command give; the first of them is argument 2.
pub fn see_all(command: Command, words: &[Word]) -> Result<Given, Wrong>
    requires { length words.now < 2 ^ 32 }
    ensures { result ≡ said command words.now }
{
    let mut seen = Seen {
        given: Given {
            input: None,
            block: None,
            fuel: None,
            limit: None,
            room: None,
            memory: None,
            first: None,
            second: None,
        },
        expected: None,
        at: 0,
        files: 0,
    };
    for (i, word) in words.iter().enumerate() {
        seen = seen.see(command, *word, i + 2)?;
    }
    seen.end(command)
}
