// Calls: arguments go to the locals of the frame behind this one; temporaries in registers are saved, and loaded afterwards.
ghost use Rattle.std.specs.Prelude.{◌≡◌, ◌∷◌, [], ◌++◌, ◌+◌, ◌*◌, ◌≤◌};
ghost use Rattle.symbolic.specs.Symbolic.{sp, answer, mv, sw};
ghost use Rattle.symbolic.specs.Fine.{far};
ghost use Rattle.codegen.specs.Places.{frame_bytes, local_word, source as source_of, fetch as fetch_of, target as target_of, keep as keep_of};
ghost use Rattle.codegen.specs.Expressions.{saves as saves_of, loads as loads_of, registers_of, returning as returning_of, entering as entering_of};
ghost use Rattle.emission.specs.Tape.{Emits};
ghost use Rattle.emission.specs.OnTape.{OnTape};
ghost use Rattle.emission.specs.Macros.{placed};

use crate::Place;
use crate::jumps::RA;
use crate::places::{
    ANSWER, FIRST_TEMPORARY, IN_REGISTERS, SP, TEMPORARIES, fetch, keep, load, source, store,
    target_of,
};
use crate::tape::Tape;
use processor::{Alu, Instr};

pub const FRAME_BYTES: u32 = 1984;

// What takes the stack pointer back by a frame: 2 ^ 32 less its bytes.
pub const FRAME_BACK: u32 = 4294965312;

// A value from its place to a word of memory, so many bytes behind the frame's start.
pub fn stored(tape: &mut Tape, p: Place, n: u64)
    ensures { OnTape (Emits (fetch_of (placed p) 0 ++ (sw (source_of (placed p) 0) sp n ∷ []))) tape.old tape.new }
{
    let from = source(p, 0);
    store(tape, from, n);
    fetch(tape, p, 0);
}

// A value becomes argument i of a call.
pub fn pass(tape: &mut Tape, p: Place, i: u32)
    ensures { OnTape (Emits (fetch_of (placed p) 0 ++ (sw (source_of (placed p) 0) sp (frame_bytes + 4 * local_word i) ∷ []))) tape.old tape.new }
{
    stored(tape, p, FRAME_BYTES as u64 + 4 * (i as u64 + 1));
}

// A value becomes local x.
pub fn assign(tape: &mut Tape, p: Place, x: u32)
    ensures { OnTape (Emits (fetch_of (placed p) 0 ++ (sw (source_of (placed p) 0) sp (4 * local_word x) ∷ []))) tape.old tape.new }
{
    stored(tape, p, 4 * (x as u64 + 1));
}

// The first n temporaries from their registers to the frame.
pub fn saves(tape: &mut Tape, n: u32)
    requires { n ≤ 7 }
    ensures { OnTape (Emits (saves_of n)) tape.old tape.new }
{
    for k in (0..n).rev() {
        store(tape, TEMPORARIES + k, 4 * (FIRST_TEMPORARY + k as u64));
    }
}

// The first n temporaries from the frame to their registers. With a closure for the step, this and `saves` would be no shorter.
pub fn loads(tape: &mut Tape, n: u32)
    requires { n ≤ 7 }
    ensures { OnTape (Emits (loads_of n)) tape.old tape.new }
{
    for k in (0..n).rev() {
        load(tape, TEMPORARIES + k, 4 * (FIRST_TEMPORARY + k as u64));
    }
}

// How many of d temporaries are in registers.
pub fn registers(d: u32) -> u32
    ensures value { result ≡ registers_of d }
    ensures few { result ≤ 7 }
{
    d.min(IN_REGISTERS)
}

// What follows a call.
pub fn returning(tape: &mut Tape, d: u32)
    ensures { OnTape (Emits (returning_of d)) tape.old tape.new }
{
    let n = registers(d);
    loads(tape, n);
    tape.put(Instr::OpImm(Alu::Add, SP, SP, FRAME_BACK));
}

// A call of the function at position `to`, once its arguments are passed and temporaries are saved.
pub fn entering(tape: &mut Tape, to: usize, d: u32)
    requires { (tape.old.at ≤ far) × (to ≤ far) }
    ensures { OnTape (Emits (entering_of to d)) tape.old tape.new }
{
    returning(tape, d);
    let by = tape.reach(to);
    tape.put(Instr::Jal(RA, by));
    tape.put(Instr::OpImm(Alu::Add, SP, SP, FRAME_BYTES));
}

// All of a call that follows its arguments.
pub fn calling(tape: &mut Tape, to: usize, d: u32)
    requires { (tape.old.at ≤ far) × (to ≤ far) }
    ensures { OnTape (Emits (saves_of (registers_of d) ++ entering_of to d)) tape.old tape.new }
{
    let n = registers(d);
    entering(tape, to, d);
    saves(tape, n);
}

// A call's result becomes temporary d.
pub fn answered(tape: &mut Tape, d: u32)
    ensures { OnTape (Emits (mv (target_of d) answer ∷ keep_of d)) tape.old tape.new }
{
    let to = target_of(d);
    keep(tape, d);
    tape.put(Instr::OpImm(Alu::Add, to, ANSWER, 0));
}
