// Document 03's vectors, and further runs: what the lines of standard input ask, it answers a line each. `tests/document_03` has the lines' form.
#![tactic(auto)]

use console::lent::{filled, first, read_full};
use console::shown::Stop;
use emulator::run::Ended;
use line::Numbers;
use std::io;
use std::io::Write;
use toolchain::Refusal;
use words::Named;

mod line; // numbers of a line, and the bytes that they stand for
mod words; // an instruction, named

// What lies in lent buffers before a call.
const BYTE: u8 = 0xa5;

const WORD: u32 = 0xa5a5a5a5;

// The bytes of memory and the registers that a run may write.
const MEMORY: usize = 0x200000;

const REGISTERS: usize = 32;

// Whether a buffer is from there on as it was filled. The other test program has these lines too: public in `console` they would need a clause on the `==` of any
// type, of which no caller makes use.
fn is_kept<T: PartialEq + Copy>(buffer: &[T], from: usize, filling: T) -> bool {
    buffer.iter().skip(from).all(|item| *item == filling)
}

// The buffers of which runs are lent a part.
#[derive(Drop)]
struct Buffers<'a> {
    code: &'a mut [u8],
    input: &'a mut [u8],
    memory: &'a mut [u8],
    registers: &'a mut [u32],
    log: &'a mut [u32],
}

// A run: what is run, and what it is lent.
#[derive(Drop)]
struct Run<'a> {
    code: &'a [u8],
    input: &'a [u8],
    memory: &'a mut [u8],
    registers: &'a mut [u32],
    log: &'a mut [u32],
    room: usize,
}

impl Run<'_> {
    // From the start, with the buffers filled first.
    fn emulate(&mut self, limit: u64) -> Result<Ended, Refusal> {
        self.memory.fill(BYTE);
        self.registers.fill(WORD);
        self.log.fill(WORD);
        toolchain::emulate(
            self.code,
            self.input,
            self.memory,
            self.registers,
            self.log,
            self.room,
            limit,
        )
    }

    // Gone on with, once x0's place holds this number.
    fn resume(&mut self, from: Ended, x0: u32, limit: u64) -> Result<Ended, Refusal> {
        if let Some(place) = self.registers.first_mut() {
            *place = x0;
        }
        toolchain::resume(
            self.code.len(),
            from,
            self.memory,
            self.registers,
            self.log,
            self.room,
            limit,
        )
    }

    // Whether all that the call had to keep was kept: memory, registers and log from there on.
    fn kept(&self, memory: usize, registers: usize, log: usize) -> &'static str {
        if is_kept(self.memory, memory, BYTE)
            && is_kept(self.registers, registers, WORD)
            && is_kept(self.log, log, WORD)
        {
            "kept"
        } else {
            "CHANGED"
        }
    }

    // Where the run ended.
    fn say_end(&self, out: &mut impl Write, ended: Ended) -> io::Result<()> {
        let Ended {
            pc,
            logged,
            steps,
            status,
        } = ended;
        write!(out, "{} steps {steps} pc {pc:x} x10 ", Stop(status))?;
        if let Some(x10) = self.registers.get(10) {
            write!(out, "{x10:x}")?;
        }
        write!(out, " log")?;
        for word in self.log.iter().take(logged) {
            write!(out, " {word:08x}")?;
        }
        writeln!(out, " {}", self.kept(MEMORY, REGISTERS, logged))
    }
}

// The run gone on with: how many times, then for each what stands in x0's place and the limit.
fn resume_all(
    out: &mut impl Write,
    numbers: &mut Numbers<'_>,
    run: &mut Run<'_>,
    ended: Ended,
) -> io::Result<()> {
    let mut last = ended;
    for _ in 0..numbers.next_number() {
        let x0 = numbers.next_word();
        let limit = numbers.next_number();
        match run.resume(last, x0, limit) {
            Err(_) => writeln!(out, "not gone on with")?,
            Ok(next) => {
                run.say_end(out, next)?;
                last = next;
            }
        }
    }
    Ok(())
}

// Room, limit, the sizes of what is lent, code and input block in bytes; then the words of code and input block; then how it goes on.
fn run_line(
    out: &mut impl Write,
    numbers: &mut Numbers<'_>,
    buffers: &mut Buffers<'_>,
) -> io::Result<()> {
    let room = numbers.next_number() as usize;
    let limit = numbers.next_number();
    let memory = first(buffers.memory, numbers.next_number());
    let registers = first(buffers.registers, numbers.next_number());
    let log = first(buffers.log, numbers.next_number());
    let code_size = numbers.next_number();
    let input_size = numbers.next_number();
    numbers.put_pairs(buffers.code);
    numbers.put_pairs(buffers.input);
    let mut run = Run {
        code: first(buffers.code, code_size),
        input: first(buffers.input, input_size),
        memory,
        registers,
        log,
        room,
    };
    match run.emulate(limit) {
        Err(refusal) => {
            let number = refusal.number();
            writeln!(out, "refused {number} {}", run.kept(0, 0, 0))
        }
        Ok(ended) => {
            run.say_end(out, ended)?;
            resume_all(out, numbers, &mut run, ended)
        }
    }
}

// A word, decoded, and the word of that.
fn word_line(out: &mut impl Write, numbers: &mut Numbers<'_>) -> io::Result<()> {
    let word = numbers.next_word();
    let instruction = processor::decode(word);
    writeln!(
        out,
        "{word:08x} {} {:08x}",
        Named(instruction),
        processor::encode(instruction)
    )
}

// A line: `"` and a title, `d` and a word, `r` and a run. Any other is passed over.
fn one_line(out: &mut impl Write, line: &[u8], buffers: &mut Buffers<'_>) -> io::Result<()> {
    match line {
        [b'"', title @ ..] => {
            out.write_all(title)?;
            writeln!(out)
        }
        [b'd', numbers @ ..] => word_line(out, &mut Numbers::of(numbers)),
        [b'r', numbers @ ..] => run_line(out, &mut Numbers::of(numbers), buffers),
        _ => Ok(()),
    }
}

fn main(rt: HostRuntime) -> io::Result<()> {
    let mut text = filled::<u8, 262144>(0);
    let mut buffers = Buffers {
        code: &mut filled::<u8, 524304>(0),
        input: &mut filled::<u8, 1048592>(0),
        memory: &mut filled::<u8, 2097216>(0),
        registers: &mut [0; REGISTERS + 8],
        log: &mut [0; 64],
    };
    let size = read_full(&mut rt.stdin(), &mut text)?;
    let mut out = rt.stdout();
    for line in text[..size].split(|byte| *byte == b'\n') {
        one_line(&mut out, line, &mut buffers)?;
    }
    Ok(())
}
