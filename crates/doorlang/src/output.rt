// What the program says: lines `key: value` on standard output, sentences on standard error, and its status.
ghost use Rattle.std.specs.Prelude.{◌≡◌, ◌≤◌, length};
ghost use Rattle.processor.specs.Machine.{data_start};

use crate::rooms;
use console::lent::filled;
use console::shown;
use std::fmt::Display;
use std::io;
use std::io::Write;
use std::process::ExitCode;
use std::rt::Env;

// How the program ends.
#[derive(Clone, Copy)]
pub enum Status {
    Done = 0,
    Refused = 1,
    Stopped = 2,
    BadUsage = 64,
}

impl From<Status> for ExitCode {
    fn from(status: Status) -> ExitCode {
        ExitCode::from(status as u8)
    }
}

// The error that a sentence has told of already: a bad usage, or a file or standard output that cannot be read or written.
#[derive(Clone, Copy)]
pub struct Told;

// Says on standard error. Where that cannot be written, nothing is left to say it on.
pub fn tell<T: Display + Drop>(rt: &HostRuntime, what: T) {
    let _ = rt.eprint(what);
}

// The same of bytes, which need be no text.
pub fn tell_bytes(rt: &HostRuntime, bytes: &[u8]) {
    let _ = rt.stderr().write_all(bytes);
}

// Puts argument i at the start of a buffer: how many bytes it has. One that is missing or longer than the buffer reads as one of no byte, and so as no file's name,
// no number and no command: with `None` each of the callers would say that again.
pub fn argument(rt: &HostRuntime, i: usize, buffer: &mut [u8]) -> usize
    ensures { result ≤ length buffer.new }
{
    rt.arg(i, buffer).unwrap_or(0)
}

// An argument, for people.
pub fn tell_argument(rt: &HostRuntime, i: usize) {
    let mut room = filled::<u8, { rooms::WORD }>(0);
    let n = argument(rt, i, &mut room);
    tell_bytes(rt, &room[..n]);
}

// The start of a sentence about the file that an argument names.
pub fn about(rt: &HostRuntime, file: Option<usize>) {
    tell(rt, "doorlang: ");
    if let Some(i) = file {
        tell_argument(rt, i);
    }
    tell(rt, ": ");
}

// Of the last line of an answer: where it could not be written, that is said.
pub fn written(rt: &HostRuntime, line: io::Result<()>) -> Result<(), Told> {
    match line {
        Ok(()) => Ok(()),
        Err(_) => {
            tell(rt, "doorlang: cannot write to standard output\n");
            Err(Told)
        }
    }
}

// A word in signed decimal, after a blank.
fn say_signed(rt: &HostRuntime, word: u32) {
    let mut text = shown::room();
    let n = shown::show(word, &mut text);
    let _ = io::writer(rt).write_all(&text[..n]);
}

// A line with so many words of a log.
pub fn log_line(rt: &HostRuntime, key: &str, log: &[u32], count: usize) -> io::Result<()> {
    let _ = print!(rt; "{key}:");
    for word in log.iter().take(count) {
        say_signed(rt, *word);
    }
    println!(rt; "")
}

// Where the input block lies in memory: named, so that a part of it is proved with no count up to it.
pub fn arrays_start() -> usize
    ensures { result ≡ data_start }
{
    0x100000
}

// A line with so many words of the arrays, in memory.
pub fn arrays_line(rt: &HostRuntime, key: &str, memory: &[u8], count: usize) {
    let _ = print!(rt; "{key}:");
    let (words, _) = memory.as_chunks::<4>();
    for word in words.iter().skip(arrays_start() / 4).take(count) {
        say_signed(rt, u32::from_le_bytes(*word));
    }
    let _ = println!(rt; "");
}

// A line with the registers.
pub fn registers_line(rt: &HostRuntime, registers: &[u32]) -> io::Result<()> {
    let _ = print!(rt; "registers:");
    for register in registers {
        let _ = print!(rt; " 0x{register:08x}");
    }
    println!(rt; "")
}
