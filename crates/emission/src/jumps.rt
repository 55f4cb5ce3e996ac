// Jumps and conditions: how code is passed over.
ghost use Rattle.std.specs.Prelude.{◌≡◌, ◌∷◌, [], suc, ◌-◌, ◌≤◌};
ghost use Rattle.processor.specs.declared.Cond.TheVariants.{Ne as NeOf};
ghost use Rattle.processor.specs.declared.Instr.TheVariants.{Jal};
ghost use Rattle.symbolic.specs.Symbolic.{x0, answer, jump as jump_of};
ghost use Rattle.symbolic.specs.Fine.{far};
ghost use Rattle.symbolic.specs.Real.{distance};
ghost use Rattle.codegen.specs.Operators.{opposite as opposite_of, skip as skip_of, sense as sense_of, testing as testing_of, comparing as comparing_of, always as always_of};
ghost use Rattle.emission.specs.Tape.{Emits};
ghost use Rattle.emission.specs.OnTape.{OnTape, Fills};
ghost use Rattle.emission.specs.Macros.{placed, EmitsFor};

use crate::places::{ANSWER, fetch, source};
use crate::tape::Tape;
use crate::{Jump, Place, Sides};
use processor::{Cond, Instr};

pub const RA: u32 = 1;

// The comparison that holds where this one doesn't.
pub fn opposite(c: Cond) -> Cond
    ensures { result ≡ opposite_of c }
{
    match c {
        Cond::Eq => Cond::Ne,
        Cond::Ne => Cond::Eq,
        Cond::Lt => Cond::Ge,
        Cond::Ge => Cond::Lt,
        Cond::Ltu => Cond::Geu,
        Cond::Geu => Cond::Ltu,
    }
}

// The comparison that holds where the truth of this one is t.
pub fn sense(t: bool, c: Cond) -> Cond
    ensures { result ≡ sense_of t c }
{
    if t { c } else { opposite(c) }
}

// Jumps to position `to`, over all that stands before it.
pub fn jump(tape: &mut Tape, to: usize)
    requires { (tape.old.at ≤ to) × (to ≤ far) }
    ensures { OnTape (Emits (jump_of (suc (to - tape.old.at)) ∷ [])) tape.old tape.new }
{
    let by = tape.reach(to);
    tape.put(Instr::Jal(0, by));
}

// Jumps there if a comparison holds: near by a branch, far by a branch around a jump.
pub fn skip(tape: &mut Tape, way: Jump, c: Cond, r: u32, s: u32)
    requires { tape.old.at ≤ way.to }
    ensures { OnTape (EmitsFor (λ p q. skip_of way.near c p q (way.to - tape.old.at)) r s) tape.old tape.new }
{
    if way.near {
        let by = tape.reach(way.to);
        tape.put(Instr::Branch(c, r, s, by));
    } else {
        let other = opposite(c);
        jump(tape, way.to);
        let around = tape.onward(2);
        tape.put(Instr::Branch(other, r, s, around));
    }
}

// Jumps where a value's truth is the jump's.
pub fn testing(tape: &mut Tape, way: Jump, p: Place)
    requires { tape.old.at ≤ way.to }
    ensures { OnTape (Emits (testing_of way.near way.when (placed p) (way.to - tape.old.at))) tape.old tape.new }
{
    let c = sense(way.when, Cond::Ne);
    let from = source(p, 0);
    skip(tape, way, c, from, 0);
    fetch(tape, p, 0);
}

// Jumps where the truth of a call's result is the jump's.
pub fn testing_answer(tape: &mut Tape, way: Jump)
    requires { tape.old.at ≤ way.to }
    ensures { OnTape (Emits (skip_of way.near (sense_of way.when NeOf) answer x0 (way.to - tape.old.at))) tape.old tape.new }
{
    let c = sense(way.when, Cond::Ne);
    skip(tape, way, c, ANSWER, 0);
}

// Jumps where a comparison's truth is the jump's; the second half says whether the sides are exchanged.
pub fn comparing(tape: &mut Tape, way: Jump, comparison: (Cond, bool), sides: Sides)
    requires { tape.old.at ≤ way.to }
    ensures { OnTape (Emits (comparing_of way.near way.when comparison.0 comparison.1 (placed sides.left) (placed sides.right) (way.to - tape.old.at))) tape.old tape.new }
{
    let (c, turned) = comparison;
    let cond = sense(way.when, c);
    let from = source(sides.left, 0);
    let other = source(sides.right, 1);
    if turned {
        skip(tape, way, cond, other, from);
        fetch(tape, sides.right, 1);
        fetch(tape, sides.left, 0);
    } else {
        skip(tape, way, cond, from, other);
        fetch(tape, sides.right, 1);
        fetch(tape, sides.left, 0);
    }
}

// A constant's truth is known.
pub fn always(tape: &mut Tape, way: Jump, n: u32)
    requires { tape.old.at ≤ way.to }
    ensures { OnTape (Emits (always_of way.when n (way.to - tape.old.at))) tape.old tape.new }
{
    let truth = n != 0;
    if truth == way.when {
        jump(tape, way.to);
    }
}

// Fills the word before position `end`, which was left free, with the jump to where the code begins that is written.
pub fn jump_back(tape: &mut Tape, end: usize)
    requires { (tape.old.at ≤ far) × (end ≤ far) }
    ensures { OnTape (Fills (Jal 0 (distance (end - 1) tape.old.at)) end) tape.old tape.new }
{
    let start = tape.at;
    tape.at = end;
    let by = tape.reach(start);
    tape.put(Instr::Jal(0, by));
    tape.at = start;
}
