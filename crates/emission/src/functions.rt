// What a function begins and ends with, and what statements have besides their expressions.
ghost use Rattle.std.specs.Prelude.{◌∷◌, [], ◌+◌, ◌≤◌};
ghost use Rattle.processor.specs.declared.Alu.TheVariants.{Add as AddOf};
ghost use Rattle.processor.specs.declared.Cond.TheVariants.{Ne as NeOf};
ghost use Rattle.symbolic.specs.Symbolic.{x0, ra, sp, answer, branch, call as call_of, opi, sw, ecall as ecall_of};
ghost use Rattle.symbolic.specs.Fine.{far};
ghost use Rattle.codegen.specs.Operators.{stub};
ghost use Rattle.codegen.specs.Statements.{limit, leaving as leaving_of, clears as clears_of};
ghost use Rattle.emission.specs.Tape.{Emits};
ghost use Rattle.emission.specs.OnTape.{OnTape};

use crate::jumps::RA;
use crate::places::{ANSWER, SP, load, store};
use crate::tape::Tape;
use processor::{Alu, Cond, Instr};

// The register that holds the stack's end.
pub const LIMIT: u32 = 3;

// The stub of one activation too many.
pub const ACTIVATIONS_STUB: usize = 12;

// The way out of a function.
pub fn leaving(tape: &mut Tape)
    ensures { OnTape (Emits leaving_of) tape.old tape.new }
{
    tape.put(Instr::Jalr(0, RA, 0));
    load(tape, RA, 0);
}

// The way out with 0 as the result.
pub fn leaving_zero(tape: &mut Tape)
    ensures { OnTape (Emits (opi AddOf answer x0 0 ∷ leaving_of)) tape.old tape.new }
{
    leaving(tape);
    tape.put(Instr::OpImm(Alu::Add, ANSWER, 0, 0));
}

// The n locals from the first let on become 0.
pub fn clears(tape: &mut Tape, first: u32, n: u32)
    requires { (first ≤ 64) × (n ≤ 64) }
    ensures { OnTape (Emits (clears_of first n)) tape.old tape.new }
{
    for k in (0..n).rev() {
        store(tape, 0, 4 * (first as u64 + k as u64 + 1));
    }
}

// A function's first instructions: is there room for one more activation? Then the return address is stored.
pub fn opening(tape: &mut Tape)
    requires { tape.old.at ≤ far }
    ensures { OnTape (Emits (branch NeOf sp limit 2 ∷ call_of (stub 3) ∷ sw ra sp 0 ∷ [])) tape.old tape.new }
{
    store(tape, RA, 0);
    let to_stub = tape.reach(ACTIVATIONS_STUB);
    tape.put(Instr::Jal(RA, to_stub));
    let around = tape.onward(2);
    tape.put(Instr::Branch(Cond::Ne, SP, LIMIT, around));
}

// The request to log the result of an expression, or to stop.
pub fn ecall(tape: &mut Tape)
    ensures { OnTape (Emits (ecall_of ∷ [])) tape.old tape.new }
{
    tape.put(Instr::Ecall);
}
