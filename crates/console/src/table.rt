// The arguments by the numbers of their places, and a table that the caller lends. `arguments` has names and a struct in their stead; this is for a caller that keeps such
// a table, of any length and with anything in it already, or has places of its own.
ghost use Rattle.std.specs.Prelude.{◌≡◌, ◌<◌, ◌≤◌, ◌^◌, IfSome, is_some, length, get_or, set};
ghost use Rattle.console.specs.Table.{place_of, option_place, is_option, takes_of, files_of, number_of, line, wrong as wrong_of, valued, filed, named, see_of, ended, said};

use crate::arguments::{Command, Problem, Setting, Word, word_of};
use word::lists::item_or;

// The places of what may be given: one for each option, and for each of two files.
pub const UNKNOWN: usize = 0;

pub const INPUT: usize = 1;

pub const BLOCK: usize = 2;

pub const FUEL: usize = 3;

pub const LIMIT: usize = 4;

pub const ROOM: usize = 5;

pub const MEMORY: usize = 6;

pub const FIRST: usize = 7;

pub const SECOND: usize = 8;

pub const PLACES: usize = 9;

// The place that an argument is of, by its name.
pub fn place_of(word: &[u8]) -> usize
    ensures { result ≡ place_of word.now }
{
    match word_of(word) {
        Word::Name(Setting::Input) => INPUT,
        Word::Name(Setting::Block) => BLOCK,
        Word::Name(Setting::Fuel) => FUEL,
        Word::Name(Setting::Limit) => LIMIT,
        Word::Name(Setting::Room) => ROOM,
        Word::Name(Setting::Memory) => MEMORY,
        Word::Unknown => UNKNOWN,
        Word::Other => FIRST,
    }
}

// The option that has the place.
#[tactic(auto, unfolding(crate::specs::Table::option_place, crate::specs::Table::is_option))]
fn option_at(place: usize) -> Option<Setting>
    ensures some { IfSome result (λ setting. option_place setting ≡ place) }
    ensures test { is_some result ≡ is_option place }
{
    match place {
        INPUT => Some(Setting::Input),
        BLOCK => Some(Setting::Block),
        FUEL => Some(Setting::Fuel),
        LIMIT => Some(Setting::Limit),
        ROOM => Some(Setting::Room),
        MEMORY => Some(Setting::Memory),
        _ => None,
    }
}

// Whether the command takes the option of that place. Past the options each number is one that is taken where --input is: by every command that takes any.
fn takes(command: Option<Command>, place: usize) -> bool
    ensures { result ≡ takes_of command place }
{
    let Some(command) = command else {
        return false;
    };
    match option_at(place) {
        Some(setting) => command.takes(setting),
        None => place != UNKNOWN && command.takes(Setting::Input),
    }
}

// How many files the command takes: two at most.
#[tactic(auto, unfolding(crate::specs::Table::files_of))]
fn files(command: Option<Command>) -> usize
    ensures number { result ≡ files_of command }
    ensures most { result ≤ 2 }
{
    match command {
        None => 0,
        Some(command) => command.files(),
    }
}

// The argument that was given for a place; 0 for none.
pub fn given_for(given: &[usize], place: usize) -> usize
    ensures { result ≡ get_or given.now place 0 }
{
    item_or(given, place, 0)
}

fn give(given: &mut [usize], place: usize, i: usize)
    ensures { given.new ≡ set given.old place i }
{
    if place < given.len() {
        given[place] = i;
    }
}

// The arguments so far: what is wrong; at which argument, or which named an option last; the place of the option whose value comes next; how many files there were.
#[derive(Clone, Copy)]
pub struct Seen {
    pub problem: Option<Problem>,
    pub at: usize,
    pub expected: usize,
    pub files: usize,
}

impl Seen {
    // The number of what is wrong; 0 for nothing.
    #[tactic(auto, unfolding(crate::specs::Table::number_of))]
    pub fn number(self) -> u32
        ensures { result ≡ number_of self.problem }
    {
        match self.problem {
            None => 0,
            Some(problem) => problem as u32,
        }
    }

    // The same, with something wrong at argument i.
    fn wrong(self, problem: Problem, i: usize) -> Seen
        ensures { result ≡ wrong_of problem i self }
    {
        Seen {
            problem: Some(problem),
            at: i,
            ..self
        }
    }

    // A file more.
    fn file(self, command: Option<Command>, i: usize, given: &mut [usize]) -> Seen
        ensures { line result given.new ≡ filed command i (line self given.old) }
    {
        let n = self.files;
        if n < files(command) {
            give(given, FIRST + n, i);
            return Seen {
                problem: None,
                files: n + 1,
                ..self
            };
        }
        self.wrong(Problem::TooManyFiles, i)
    }

    // An option, whose value is to come.
    fn name(self, command: Option<Command>, place: usize, i: usize, given: &[usize]) -> Seen
        ensures { result ≡ named command place i self given.now }
    {
        if !takes(command, place) {
            return self.wrong(Problem::NotTaken, i);
        }
        if given_for(given, place) != 0 {
            return self.wrong(Problem::Twice, i);
        }
        Seen {
            problem: None,
            at: i,
            expected: place,
            ..self
        }
    }

    // The value of the option that was before it.
    fn value(self, i: usize, given: &mut [usize]) -> Seen
        ensures { line result given.new ≡ valued i (line self given.old) }
    {
        give(given, self.expected, i);
        Seen {
            problem: None,
            expected: UNKNOWN,
            ..self
        }
    }

    // Argument i, which is of this place by its name. An option's name is no value: the option before it has none.
    fn see(self, command: Option<Command>, place: usize, i: usize, given: &mut [usize]) -> Seen
        ensures { line result given.new ≡ see_of command place i (line self given.old) }
    {
        if self.problem.is_some() {
            return self;
        }
        if self.expected != UNKNOWN {
            if option_at(place).is_some() {
                return self.wrong(Problem::NoValue, self.at);
            }
            return self.value(i, given);
        }
        if place == FIRST {
            return self.file(command, i, given);
        }
        self.name(command, place, i, given)
    }

    // What is still missing at the end, or too much.
    fn end(self, command: Option<Command>, given: &[usize]) -> Seen
        ensures { result ≡ ended command self given.now }
    {
        if self.problem.is_some() {
            return self;
        }
        if self.expected != UNKNOWN {
            return self.wrong(Problem::NoValue, self.at);
        }
        if self.files < files(command) {
            return self.wrong(Problem::NoFile, self.at);
        }
        let block = given_for(given, BLOCK);
        if given_for(given, INPUT) == 0 || block == 0 {
            return self;
        }
        self.wrong(Problem::InputAndBlock, block)
    }
}

// All arguments after the command, of these places by their names; the first of them is argument 2.
pub fn see_all(command: Option<Command>, places: &[usize], given: &mut [usize]) -> Seen
    requires { length places.now < 2 ^ 32 }
    ensures { line result given.new ≡ said command places.now given.old }
{
    let mut seen = Seen {
        problem: None,
        at: 0,
        expected: UNKNOWN,
        files: 0,
    };
    for (i, place) in places.iter().enumerate() {
        seen = seen.see(command, *place, i + 2, given);
    }
    seen.end(command, given)
}
