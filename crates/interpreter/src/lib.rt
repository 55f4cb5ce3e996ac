// Document 01 §5, run: the flat core program that `flat` describes, over the caller's buffers. What `run` ensures is the meaning of the words, and with
// the laws of `flat` that of the program they are the words of (proofs/Whole.antt).
#![tactic(auto)]

ghost use Rattle.std.specs.Prelude.{◌≤◌, length};
ghost use Rattle.interpreter.specs.Post.{working_room, IsOutcome, malformed_of, Runs};

use crate::parts::Code;
use crate::walk::call;
use flat::trap::Trap;
use flat::{UnknownNumber, program};

pub mod words; // words in slices
pub mod parts; // what stands at a place in the words
pub mod operators; // operators by their numbers
pub mod operands; // an activation's locals and operands
pub mod items; // items that call nothing
pub mod state; // what statements and calls change
pub mod walk; // expressions, statements, blocks and calls

// The words of working room that so many activations take: 64 locals and 324 operands each.
pub const WORKING_ROOM: usize = 24832;

// Why a run stops before its end.
#[derive(Clone, Copy, Debug, PartialEq, Eq)]
pub enum Stop {
    Trapped(Trap),
    OutOfFuel,
}

impl From<UnknownNumber> for Stop {
    ghost from_gives = { malformed_of };

    fn from(_number: UnknownNumber) -> Stop {
        Stop::Trapped(Trap::Malformed)
    }
}

// "Outcomes: finished, trapped with a number, out of fuel". An enum of its own: the theorems above speak of these three (`outcome_of`).
#[derive(Clone, Copy, Debug, PartialEq, Eq)]
pub enum Outcome {
    Finished,
    Trapped(u32),
    OutOfFuel,
}

// By how the call of main ended.
impl From<Result<u32, Stop>> for Outcome {
    ghost from_gives = { IsOutcome };

    fn from(called: Result<u32, Stop>) -> Outcome {
        match called {
            Ok(_) => Outcome::Finished,
            Err(Stop::Trapped(trap)) => Outcome::Trapped(trap as u32),
            Err(Stop::OutOfFuel) => Outcome::OutOfFuel,
        }
    }
}

// n items or statements, whose words begin at p.
#[derive(Clone, Copy)]
pub struct Span {
    pub p: usize,
    pub n: u32,
}

// What an activation runs, and what bounds it: how many more may be made, how many locals it has, and how much of the log may be used.
#[derive(Clone, Copy)]
pub struct Activation<'a> {
    pub code: Code<'a>,
    pub left: u32,
    pub locals: usize,
    pub room: usize,
}

// The fuel that is left, and how many words are logged.
#[derive(Clone, Copy)]
pub struct Meter {
    pub fuel: u64,
    pub logged: usize,
}

// A run's outcome, the fuel that is left and how many words are logged.
#[derive(Clone, Copy, Debug, PartialEq, Eq)]
pub struct Ran {
    pub outcome: Outcome,
    pub fuel: u64,
    pub logged: usize,
}

// "A run takes the initial contents of all arrays, in order of declaration, and a fuel figure; it calls main."
pub fn run(
    words: &[u32],
    arrays: &mut [u32],
    log: &mut [u32],
    room: usize,
    fuel: u64,
    work: &mut [u32],
) -> Ran
    requires { (room ≤ length log.old) × (working_room ≤ length work.old) }
    ensures { Runs words.now room fuel arrays.old log.old result.outcome result.fuel result.logged arrays.new log.new }
{
    let code = Code { words };
    let main = code.field(0, program::MAIN);
    let left = program::MOST_ACTIVATIONS;
    let caller = Activation {
        code,
        left,
        locals: 0,
        room,
    };
    let mut meter = Meter { fuel, logged: 0 };
    let called = call(caller, main, 0, work, arrays, log, &mut meter);
    Ran {
        outcome: Outcome::from(called),
        fuel: meter.fuel,
        logged: meter.logged,
    }
}
