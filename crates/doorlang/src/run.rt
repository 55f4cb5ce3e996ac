// `doorlang run`: the run of a text by the interpreter.
ghost use Rattle.std.specs.Prelude.{◌≡◌, ◌≤◌, ◌-◌, length};

use crate::output::{Status, Told, about, tell, written};
use crate::values::Values;
use crate::{exec, files, output, rooms, texts};
use console::arguments::Given;
use console::lent::filled;
use console::shown::End;
use interpreter::{Outcome, Ran};
use std::io;
use toolchain::work::{CORE_ROOM, STARTS_ROOM, TOKENS_ROOM, TREE_ROOM};
use toolchain::{Refusal, interpret};

// What became of the program, for people.
pub fn tell_outcome(rt: &HostRuntime, given: Given, outcome: Outcome) {
    about(rt, given.first);
    match outcome {
        Outcome::Finished => tell(rt, "the program finished\n"),
        Outcome::Trapped(number) => tell(rt, exec::trap_meaning(number)),
        Outcome::OutOfFuel => tell(rt, "the program ran out of fuel\n"),
    }
}

pub fn status_of(outcome: Outcome) -> Status {
    match outcome {
        Outcome::Finished => Status::Done,
        Outcome::Trapped(_) | Outcome::OutOfFuel => Status::Stopped,
    }
}

pub fn used(fuel: u64, left: u64) -> u64
    ensures { result ≡ fuel - left }
{
    fuel.saturating_sub(left)
}

// Where a run of a text ended, and what it left.
#[derive(Clone, Copy)]
pub struct Left<'a> {
    pub ran: Ran,
    pub arrays: &'a [u32],
    pub log: &'a [u32],
}

// The lines of a run: whether the last could be written; `size` is that of the input block.
pub fn lines(rt: &HostRuntime, left: Left<'_>, fuel: u64, size: usize) -> io::Result<()> {
    let outcome = left.ran.outcome;
    let used = used(fuel, left.ran.fuel);
    let _ = println!(rt; "answer: 0");
    let _ = println!(rt; "outcome: {}", End(outcome));
    let _ = println!(rt; "fuel: {used}");
    let _ = output::log_line(rt, "log", left.log, left.ran.logged);
    output::log_line(rt, "arrays", left.arrays, size / 4)
}

// What `interpret` answers, and the size of the input block that it was given.
#[derive(Clone, Copy)]
pub struct Answered {
    pub said: Result<Ran, Refusal>,
    pub size: usize,
}

// The run on an input block of the size that is given, or of zeros for the text, which are counted in the run's own working room: it is filled once, and is free
// again afterwards.
pub fn answer_of(
    text: &[u8],
    block: &[u8],
    given: Option<usize>,
    values: Values,
    arrays: &mut [u32],
    log: &mut [u32],
) -> Answered
    ensures { result.size ≤ length block.now }
{
    let mut tokens = filled::<u32, TOKENS_ROOM>(0);
    let mut tree = filled::<u32, TREE_ROOM>(0);
    let mut starts = filled::<u32, STARTS_ROOM>(0);
    let mut core = filled::<u32, CORE_ROOM>(0);
    let size = texts::block_size(
        given,
        text,
        block.len(),
        &mut tokens,
        &mut tree,
        &mut starts,
        &mut core,
    );
    let said = interpret::interpret(
        text,
        &block[..size],
        arrays,
        log,
        values.room,
        values.most,
        &mut tokens,
        &mut tree,
        &mut starts,
        &mut core,
    );
    Answered { said, size }
}

fn go(
    rt: &HostRuntime,
    given: Given,
    text: &[u8],
    block: &[u8],
    size: Option<usize>,
    values: Values,
) -> Result<Status, Told> {
    let mut arrays = filled::<u32, { rooms::ARRAYS }>(0);
    let mut log = filled::<u32, { rooms::LOG }>(0);
    let Answered { said, size } = answer_of(text, block, size, values, &mut arrays, &mut log);
    match said {
        Err(refusal) => texts::refused(rt, given, text, refusal, size),
        Ok(ran) => {
            let left = Left {
                ran,
                arrays: &arrays,
                log: &log,
            };
            written(rt, lines(rt, left, values.most, size))?;
            let outcome = ran.outcome;
            tell_outcome(rt, given, outcome);
            Ok(status_of(outcome))
        }
    }
}

pub fn run(rt: &HostRuntime, given: Given) -> Result<Status, Told> {
    let values = Values::of_text(rt, given)?;
    let mut text = filled::<u8, { rooms::TEXT }>(0);
    let mut block = filled::<u8, { rooms::BLOCK }>(0);
    let n = files::read_file(rt, files::wanted(given.first)?, &mut text)?;
    let size = files::read_block(rt, given, &mut block)?;
    go(rt, given, &text[..n], &block, size, values)
}
