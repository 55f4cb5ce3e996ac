// The command-line program: files and arguments around the tool chain's entries.
#![tactic(auto)]

ghost use Rattle.std.specs.Prelude.{◌<◌, ◌^◌, length};

use console::arguments;
use console::arguments::{Command, Problem, Word, Wrong};
use console::lent::filled;
use output::{Status, Told, argument, tell, tell_argument};
use std::env::FillError;
use std::process::ExitCode;
use std::rt::Env;

mod build; // the image of a text
mod check; // the answer to a text
mod compare; // the run of a text beside the run of its image
mod exec; // the run of an image
mod files; // files by the arguments that name them
mod help; // how the program is used
mod output; // lines, sentences and the status
mod rooms; // the buffers
mod run; // the run of a text
mod texts; // a text, its input block and its refusal
mod values; // the numbers that options give

// The most arguments: more than any command takes.
const MOST_ARGUMENTS: usize = 24;

// A sentence about an argument, and how the program is used.
fn bad_usage(rt: &HostRuntime, about: &str, argument: Option<usize>) -> Told {
    tell(rt, format_args!("doorlang: {about}"));
    if let Some(i) = argument {
        tell(rt, ": ");
        tell_argument(rt, i);
    }
    tell(rt, "\n\n");
    let _ = help::usage(&rt.stderr());
    Told
}

// What is wrong with the arguments.
fn tell_wrong(rt: &HostRuntime, wrong: Wrong) -> Told {
    let at = Some(wrong.at);
    match wrong.problem {
        Problem::NotTaken => bad_usage(rt, "this command takes no such option", at),
        Problem::Twice => bad_usage(rt, "an option is given twice", at),
        Problem::NoValue => bad_usage(rt, "an option has no value", at),
        Problem::TooManyFiles => bad_usage(rt, "a file more than this command takes", at),
        Problem::NoFile => bad_usage(rt, "the command lacks a file", Some(1)),
        Problem::InputAndBlock => bad_usage(rt, "--input and --block exclude each other", None),
    }
}

fn command_of(rt: &HostRuntime) -> Option<Command> {
    let mut word = filled::<u8, { rooms::WORD }>(0);
    let n = argument(rt, 1, &mut word);
    arguments::command_of(&word[..n])
}

// What argument i is, if it is there and no longer than a file's name may be.
fn word_of(rt: &HostRuntime, i: usize) -> Option<Word> {
    let mut word = filled::<u8, { rooms::WORD }>(0);
    match rt.arg(i, &mut word) {
        Ok(n) => Some(arguments::word_of(&word[..n])),
        Err(_) => None,
    }
}

// The arguments after the command, put into the table.
fn read_words(rt: &HostRuntime, words: &mut [Word]) -> Result<(), Told>
    requires { length words.old < 2 ^ 32 }
{
    for (i, place) in words.iter_mut().enumerate() {
        match word_of(rt, i + 2) {
            Some(word) => *place = word,
            None => return Err(bad_usage(rt, "an argument is longer than 4096 bytes", None)),
        }
    }
    Ok(())
}

// The command, with arguments after it, for which there is this table.
fn command(rt: &HostRuntime, words: &mut [Word]) -> Result<Status, Told>
    requires { length words.old < 2 ^ 32 }
{
    let Some(command) = command_of(rt) else {
        return Err(bad_usage(rt, "there is no such command", Some(1)));
    };
    read_words(rt, words)?;
    let given = match arguments::see_all(command, words) {
        Ok(given) => given,
        Err(wrong) => return Err(tell_wrong(rt, wrong)),
    };
    match command {
        Command::Help => help::help(rt),
        Command::Check => check::check(rt, given),
        Command::Run => run::run(rt, given),
        Command::Build => build::build(rt, given),
        Command::Exec => exec::exec(rt, given),
        Command::Compare => compare::compare(rt, given),
    }
}

// Whether there is an argument i.
fn is_given(rt: &HostRuntime, i: usize) -> bool {
    let mut byte = [0u8; 1];
    !matches!(rt.arg(i, &mut byte), Err(FillError::NotPresent))
}

// How many arguments there are, with the program's name; of more than any command takes, one more than that.
fn argument_count(rt: &HostRuntime) -> usize {
    for i in 0..MOST_ARGUMENTS + 3 {
        if !is_given(rt, i) {
            return i;
        }
    }
    MOST_ARGUMENTS + 3
}

fn start(rt: &HostRuntime) -> Result<Status, Told> {
    let mut words = [Word::Other; MOST_ARGUMENTS];
    let n = argument_count(rt);
    if n < 2 {
        return Err(bad_usage(rt, "there is no command", None));
    }
    if MOST_ARGUMENTS < n - 2 {
        return Err(bad_usage(rt, "there are more arguments than any command takes", None));
    }
    command(rt, &mut words[..n - 2])
}

fn main(rt: HostRuntime) -> ExitCode {
    ExitCode::from(start(&rt).unwrap_or(Status::BadUsage))
}
