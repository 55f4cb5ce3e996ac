// `interpret` for C: the run of a text.
ghost use Rattle.std.specs.Prelude.{◌≡◌};
ghost use Rattle.toolchain.specs.Checking.{work};
ghost use Rattle.toolchain.specs.Interpretation.{Interprets, lent};
ghost use Rattle.doorlang_c.specs.Told.{Tells, told};
ghost use Rattle.doorlang_c.specs.Interpretation.{end_of, trap_of, figures, interpreted};

use crate::refused::refused;
use interpreter::{Outcome, Ran};
use toolchain::Refusal;
use toolchain::interpret::interpret;

// Which outcome, and the number of a trap.
fn numbers_of(outcome: Outcome) -> (u32, u32)
    ensures { result ≡ (end_of outcome, trap_of outcome) }
{
    match outcome {
        Outcome::Finished => (0, 0),
        Outcome::Trapped(n) => (1, n),
        Outcome::OutOfFuel => (2, 0),
    }
}

// Writes the figures of a run, or the place in a text that is refused; returns the answer.
#[tactic(auto, unfolding(crate::specs::Interpretation::interpreted))]
fn tell(
    ran: Result<Ran, Refusal>,
    outcome: &mut u32,
    number: &mut u32,
    fuel_left: &mut u64,
    logged: &mut usize,
    place: &mut usize,
) -> u32
    ensures { told result (figures outcome.new number.new fuel_left.new logged.new place.new) ≡ interpreted (figures outcome.old number.old fuel_left.old logged.old place.old) ran }
{
    match ran {
        Ok(r) => {
            let o = r.outcome;
            (*outcome, *number) = numbers_of(o);
            *fuel_left = r.fuel;
            *logged = r.logged;
            0
        }
        Err(r) => refused(r, place),
    }
}

// Returns the answer; where that is 0, the four before the last say how the run ended, and else they stay as they were. The last is the place in a
// text that is refused.
#[unsafe(no_mangle)]
pub extern "C" fn doorlang_interpret(
    text: &[u8],
    input: &[u8],
    arrays: &mut [u32],
    log: &mut [u32],
    room: usize,
    fuel: u64,
    tokens: &mut [u32],
    tree: &mut [u32],
    starts: &mut [u32],
    core: &mut [u32],
    outcome: &mut u32,
    number: &mut u32,
    fuel_left: &mut u64,
    logged: &mut usize,
    place: &mut usize,
) -> u32
    ensures { Tells (Interprets text.now input.now fuel room (work tokens.old tree.old starts.old core.old) (lent arrays.old log.old) (lent arrays.new log.new)) interpreted (figures outcome.old number.old fuel_left.old logged.old place.old) (told result (figures outcome.new number.new fuel_left.new logged.new place.new)) }
{
    let ran = interpret(
        text, input, arrays, log, room, fuel, tokens, tree, starts, core,
    );
    tell(ran, outcome, number, fuel_left, logged, place)
}
