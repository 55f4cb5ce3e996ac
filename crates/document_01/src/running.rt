// Document 01 §5 and document 03 §5: texts, run by the interpreter, and images, run by the emulator.
use crate::lent::{Short, Work, shortened};
use crate::line::Line;
use crate::say::{Answer, BYTE, Left, WORD, is_kept, kept};
use console::lent::filled;
use console::shown::End;
use emulator::run::Ended;
use interpreter::Ran;
use processor::Status;
use std::io::Write;
use std::{fmt, io};
use toolchain::{Refusal, interpret};

// Document 01 §4: elements in all.
const MOST_ELEMENTS: usize = 16384;

// Where the input block lies in memory, in words, and how many bytes and registers a run may write.
const BLOCK_WORD: usize = 0x40000;

const MEMORY: usize = 0x200000;

const REGISTERS: usize = 32;

// What a line asks: which buffers of working room are a word short, the fuel, the log's room, the words of log and of arrays that are lent, and the bytes of
// the input block.
#[derive(Clone, Copy)]
pub struct Asked {
    pub short: Short,
    pub fuel: u64,
    pub room: u64,
    pub log: u64,
    pub arrays: u64,
    pub block: u64,
}

impl Asked {
    pub fn of(line: &mut Line<'_>) -> Self {
        Asked {
            short: line.next_number(),
            fuel: line.next_number(),
            room: line.next_number(),
            log: line.next_number(),
            arrays: line.next_number(),
            block: line.next_number(),
        }
    }
}

// How a run of an image stopped, by the names of a text's outcomes, so that the two lines are the same; `console` has the names of stops.
#[derive(Clone, Copy)]
struct Stop(Status);

impl fmt::Display for Stop {
    fn fmt<W: fmt::Write>(&self, f: &mut fmt::Formatter<W>) -> fmt::Result {
        match self.0 {
            Status::Going => write!(f, "going"),
            Status::Exit => write!(f, "finished"),
            Status::Trap(number) => write!(f, "trap {number}"),
            Status::Fault(number) => write!(f, "fault {number}"),
            Status::Limit => write!(f, "limit"),
        }
    }
}

// A hundred steps for each unit of fuel, and a thousand besides.
fn limit_of(fuel: u64) -> u64 {
    (fuel & 0xffffffff) * 100 + 1000
}

// The words of the arrays, from where the input block lies in memory; past the most elements 0.
fn copy_arrays(memory: &[u8], arrays: &mut [u32], elements: usize) {
    let (words, _) = memory.as_chunks::<4>();
    for (i, place) in arrays.iter_mut().take(elements).enumerate() {
        *place = match words.get(BLOCK_WORD + i) {
            Some(word) if i < MOST_ELEMENTS => u32::from_le_bytes(*word),
            _ => 0,
        };
    }
}

// A run on a block: of a text, or of its image; and what it is lent.
#[derive(Drop)]
pub struct Run<'a> {
    pub program: &'a [u8],
    pub block: &'a [u8],
    pub arrays: &'a mut [u32],
    pub log: &'a mut [u32],
    pub room: usize,
}

impl Run<'_> {
    // What was left; the block has a word for each element.
    fn left(&self, logged: usize) -> Left<'_> {
        Left {
            log: self.log,
            logged,
            arrays: self.arrays,
            elements: self.block.len() / 4,
        }
    }

    // Of a text, with so much fuel.
    pub fn interpret(
        &mut self,
        out: &mut impl Write,
        fuel: u64,
        short: Short,
        work: &mut Work<'_>,
    ) -> io::Result<()> {
        self.arrays.fill(WORD);
        self.log.fill(WORD);
        let tokens = shortened(work.tokens, short, 1);
        let tree = shortened(work.tree, short, 2);
        let starts = shortened(work.starts, short, 4);
        let core = shortened(work.core, short, 8);
        let answered = interpret::interpret(
            self.program,
            self.block,
            self.arrays,
            self.log,
            self.room,
            fuel,
            tokens,
            tree,
            starts,
            core,
        );
        self.answer(out, answered, fuel)
    }

    // The outcome, then whether all that the call had to keep was kept.
    fn answer(
        &self,
        out: &mut impl Write,
        answered: Result<Ran, Refusal>,
        fuel: u64,
    ) -> io::Result<()> {
        match answered {
            Err(refusal) => {
                let all = is_kept(self.arrays, 0, WORD) && is_kept(self.log, 0, WORD);
                writeln!(out, "{} {}", Answer::of(refusal), kept(all))
            }
            Ok(ran) => {
                let used = fuel.saturating_sub(ran.fuel);
                let outcome = ran.outcome;
                writeln!(
                    out,
                    "{} fuel {used} {}",
                    End(outcome),
                    self.left(ran.logged)
                )
            }
        }
    }

    // Of an image; its words and steps are said too, if that is asked.
    pub fn emulate(&mut self, out: &mut impl Write, fuel: u64, counted: bool) -> io::Result<()> {
        let mut memory = filled::<u8, 2097216>(BYTE);
        let mut registers = [WORD; 40];
        self.arrays.fill(WORD);
        self.log.fill(WORD);
        let answered = toolchain::emulate(
            self.program,
            self.block,
            &mut memory,
            &mut registers,
            self.log,
            self.room,
            limit_of(fuel),
        );
        match answered {
            Err(refusal) => {
                let all = is_kept(self.log, 0, WORD) && is_kept(&memory, 0, BYTE);
                writeln!(out, "{} {}", Answer::of(refusal), kept(all))
            }
            Ok(ended) => { self.say_ended(out, ended, counted, &memory, &registers) }
        }
    }

    // Where a run of an image ended: said as one of its text is.
    fn say_ended(
        &mut self,
        out: &mut impl Write,
        ended: Ended,
        counted: bool,
        memory: &[u8],
        registers: &[u32],
    ) -> io::Result<()> {
        let Ended {
            logged,
            steps,
            status,
            pc: _,
        } = ended;
        write!(out, "{}", Stop(status))?;
        if counted {
            write!(out, " words {} steps {steps}", self.program.len() / 4)?;
        }
        if !is_kept(memory, MEMORY, BYTE) {
            write!(out, " CHANGED")?;
        }
        if !is_kept(registers, REGISTERS, WORD) {
            write!(out, " CHANGED")?;
        }
        copy_arrays(memory, self.arrays, self.block.len() / 4);
        writeln!(out, " {}", self.left(logged))
    }
}
