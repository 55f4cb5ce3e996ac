// Files by the arguments that name them. Where one cannot be read or written, a sentence says why.
ghost use Rattle.std.specs.Prelude.{◌≤◌, IfOk, IfSome, length};

use crate::output::{Told, argument, tell, tell_bytes};
use crate::rooms;
use console::arguments::Given;
use console::lent::filled;
use console::numbers::{Fault, Phase, Reading};
use console::{arguments, numbers};
use std::fs::File;
use std::io::{Cursor, Read, Write};
use std::{fs, io, str};

// The system's number of the error that a name is no text.
const NO_TEXT: i32 = 84;

// Why something failed, without the error's number, which stands in parentheses behind it.
fn tell_error(rt: &HostRuntime, error: io::Error) {
    let mut said = Cursor::new([0u8; 256]);
    let _ = write!(said, "{error}");
    let n = said.position() as usize;
    let bytes = said.into_inner();
    if bytes.len() < n {
        return;
    }
    let text = str::from_utf8(&bytes[..n]).unwrap_or("");
    match text.rsplit_once(" (os error ") {
        Some((reason, _)) => tell(rt, reason),
        None => tell(rt, text),
    }
}

// What cannot be done with a file, and why.
fn cannot(rt: &HostRuntime, what: &str, path: &[u8], error: io::Error) -> Told {
    tell(rt, format_args!("doorlang: cannot {what} "));
    tell_bytes(rt, path);
    tell(rt, ": ");
    tell_error(rt, error);
    tell(rt, "\n");
    Told
}

// A file's name as text, which it has to be for the library.
fn name_of(path: &[u8]) -> io::Result<&str> {
    match str::from_utf8(path) {
        Ok(name) => Ok(name),
        Err(_) => Err(io::Error::from_raw_os_error(NO_TEXT)),
    }
}

fn open(rt: &HostRuntime, path: &[u8]) -> io::Result<File> {
    fs::open(rt, name_of(path)?)
}

fn write(rt: &HostRuntime, path: &[u8], bytes: &[u8]) -> io::Result<()> {
    fs::write(rt, name_of(path)?, bytes)
}

// Reads until the buffer is full, the file ends or a read fails: how many bytes stand at the buffer's start. `read_to_end` would take a heap, and `read_exact`
// fails at an end without saying how many there are.
fn read_full(file: &mut File, buffer: &mut [u8]) -> usize
    ensures { result ≤ length buffer.new }
{
    let mut done = 0;
    while done < buffer.len() {
        let n = file.read(&mut buffer[done..]).unwrap_or(0);
        if n == 0 {
            break;
        }
        done += n;
    }
    done
}

// Whether a further read fails, which `read_full` does not tell from a file's end.
fn at_end(file: &mut File) -> io::Result<()> {
    let mut one = [0u8; 1];
    file.read(&mut one)?;
    Ok(())
}

// The bytes of a file, as many as the buffer holds.
fn bytes_in(rt: &HostRuntime, path: &[u8], buffer: &mut [u8]) -> io::Result<usize>
    ensures { IfOk result (λ n. n ≤ length buffer.old) }
{
    let mut file = open(rt, path)?;
    let size = read_full(&mut file, buffer);
    at_end(&mut file)?;
    Ok(size)
}

// The argument of a file that the command takes. `see_all` has refused a command that lacks one, and that is told: on no input is there none.
pub fn wanted(file: Option<usize>) -> Result<usize, Told> {
    match file {
        Some(i) => Ok(i),
        None => Err(Told),
    }
}

// The bytes of the file that an argument names, as many as the buffer holds.
pub fn read_file(rt: &HostRuntime, i: usize, buffer: &mut [u8]) -> Result<usize, Told>
    ensures { IfOk result (λ n. n ≤ length buffer.old) }
{
    let mut path = filled::<u8, { rooms::WORD }>(0);
    let n = argument(rt, i, &mut path);
    match bytes_in(rt, &path[..n], buffer) {
        Ok(size) => Ok(size),
        Err(error) => Err(cannot(rt, "read", &path[..n], error)),
    }
}

// An input text to its end, or to where it is at fault. Nothing says that a file ends, so the turns are counted.
fn read_text(file: &mut File, block: &mut [u8]) -> io::Result<Reading> {
    let mut part = filled::<u8, { rooms::PART }>(0);
    let mut reading = numbers::start();
    for _ in 0..u64::MAX {
        let n = read_full(file, &mut part);
        if n == 0 {
            at_end(file)?;
            return Ok(numbers::blank_after(reading, block));
        }
        reading = numbers::read_bytes(&part[..n], reading, block);
        if let Phase::Faulty(_) = reading.phase {
            break;
        }
    }
    Ok(reading)
}

// What is at fault in an input text, after so many numbers.
fn tell_fault(rt: &HostRuntime, path: &[u8], fault: Fault, count: usize) -> Told {
    tell(rt, "doorlang: ");
    tell_bytes(rt, path);
    let number = (count as u64) % 4294967296 + 1;
    match fault {
        Fault::TooMany => tell(rt, ": there are more numbers than the arrays can have\n"),
        Fault::OutOfRange => tell(
            rt,
            format_args!(": number {number} is not between -2147483648 and 2147483647\n"),
        ),
        Fault::NoNumber => tell(
            rt,
            format_args!(": number {number} is not a decimal number\n"),
        ),
    }
    Told
}

// The input text of this name, opened and read.
fn numbers_of(rt: &HostRuntime, path: &[u8], block: &mut [u8]) -> io::Result<Reading> {
    let mut file = open(rt, path)?;
    read_text(&mut file, block)
}

// The input block that the text of argument i has, in bytes.
fn read_numbers(rt: &HostRuntime, i: usize, block: &mut [u8]) -> Result<usize, Told>
    ensures { IfOk result (λ n. n ≤ length block.old) }
{
    let mut path = filled::<u8, { rooms::WORD }>(0);
    let n = argument(rt, i, &mut path);
    let reading = match numbers_of(rt, &path[..n], block) {
        Ok(reading) => reading,
        Err(error) => return Err(cannot(rt, "read", &path[..n], error)),
    };
    match reading.phase {
        Phase::Faulty(fault) => Err(tell_fault(rt, &path[..n], fault, reading.count)),
        _ => Ok(reading.count.min(block.len() / 4) * 4),
    }
}

// The argument that names the input block's file.
pub fn block_argument(given: Given) -> Option<usize> {
    given.input.or(given.block)
}

// Whether two arguments name a file in the same way.
pub fn is_same(rt: &HostRuntime, i: usize, j: usize) -> bool {
    let mut one = filled::<u8, { rooms::WORD }>(0);
    let mut other = filled::<u8, { rooms::WORD }>(0);
    let n = argument(rt, i, &mut one);
    let k = argument(rt, j, &mut other);
    one[..n] == other[..k]
}

// The input block that --input or --block gives, in bytes; with neither there is none.
pub fn read_block(rt: &HostRuntime, given: Given, block: &mut [u8]) -> Result<Option<usize>, Told>
    ensures { IfOk result (λ k. IfSome k (λ n. n ≤ length block.old)) }
{
    match (given.input, given.block) {
        (Some(text), _) => Ok(Some(read_numbers(rt, text, block)?)),
        (None, Some(raw)) => Ok(Some(read_file(rt, raw, block)?)),
        (None, None) => Ok(None),
    }
}

// Writes the file that argument i names.
pub fn write_file(rt: &HostRuntime, i: usize, bytes: &[u8]) -> Result<(), Told> {
    let mut path = filled::<u8, { rooms::WORD }>(0);
    let n = argument(rt, i, &mut path);
    match write(rt, &path[..n], bytes) {
        Ok(()) => Ok(()),
        Err(error) => Err(cannot(rt, "write", &path[..n], error)),
    }
}
