// Elements of arrays. Scratch register 0 and an offset give an element's address.
ghost use Rattle.std.specs.Prelude.{◌≡◌, ℕ, ◌^◌, ◌≤◌, ◌<◌};
ghost use Rattle.symbolic.specs.Fine.{far};
ghost use Rattle.codegen.specs.Operators.{address as address_of, inside as inside_of, index as index_of, indexed as indexed_of, locate as locate_of, offset as offset_of, reading as reading_of, writing as writing_of};
ghost use Rattle.emission.specs.Tape.{Emits};
ghost use Rattle.emission.specs.OnTape.{OnTape};
ghost use Rattle.emission.specs.Macros.{placed, array, arrayed};

use crate::jumps::RA;
use crate::places::{SCRATCH, constant_to, fetch, keep, lower, source, target_of, upper};
use crate::tape::Tape;
use crate::{Array, Place};
use processor::{Alu, Cond, Instr, Width};

pub const DATA_START: u64 = 0x100000;

// The stub of an index outside its array.
pub const INDEX_STUB: usize = 9;

// An element's address.
pub fn address(offset: u32, i: u32) -> u64
    ensures value { result ≡ address_of (array offset 0) i }
    ensures small { result < 2 ^ 40 }
{
    DATA_START + 4 * (offset as u64 + i as u64)
}

// Whether an index is known to be inside.
pub fn inside(size: u32, p: Place) -> bool
    ensures { (o : ℕ) → result ≡ inside_of (array o size) (placed p) }
{
    match p {
        Place::Constant(n) => n < size,
        _ => false,
    }
}

// Its number.
pub fn index(p: Place) -> u32
    ensures { result ≡ index_of (placed p) }
{
    match p {
        Place::Constant(n) => n,
        _ => 0,
    }
}

// Tests an index against the size, which is in scratch register 1, and makes its address of it.
pub fn indexed(tape: &mut Tape, offset: u32, p: Place)
    requires { tape.old.at ≤ far }
    ensures { OnTape (Emits (indexed_of (array offset 0) (placed p))) tape.old tape.new }
{
    let from = source(p, 0);
    let base = address(offset, 0);
    let high = upper(base);
    tape.put(Instr::Op(Alu::Add, SCRATCH, SCRATCH, SCRATCH + 1));
    tape.put(Instr::Lui(SCRATCH + 1, high));
    tape.put(Instr::Shift(Alu::Sll, SCRATCH, from, 2));
    let to_stub = tape.reach(INDEX_STUB);
    tape.put(Instr::Jal(RA, to_stub));
    let around = tape.onward(2);
    tape.put(Instr::Branch(Cond::Ltu, from, SCRATCH + 1, around));
}

// Makes an element's address.
pub fn locate(tape: &mut Tape, a: Array, p: Place)
    requires { tape.old.at ≤ far }
    ensures { OnTape (Emits (locate_of (arrayed a) (placed p))) tape.old tape.new }
{
    if inside(a.size, p) {
        let known = address(a.offset, index(p));
        let high = upper(known);
        tape.put(Instr::Lui(SCRATCH, high));
    } else {
        indexed(tape, a.offset, p);
        constant_to(tape, SCRATCH + 1, a.size);
        fetch(tape, p, 0);
    }
}

// The offset that belongs to it.
pub fn offset_of(a: Array, p: Place) -> u32
    ensures { result ≡ offset_of (arrayed a) (placed p) }
{
    if inside(a.size, p) {
        let known = address(a.offset, index(p));
        return lower(known);
    }
    let base = address(a.offset, 0);
    lower(base)
}

// An element becomes temporary d.
pub fn reading(tape: &mut Tape, a: Array, p: Place, d: u32)
    requires { tape.old.at ≤ far }
    ensures { OnTape (Emits (reading_of (arrayed a) (placed p) d)) tape.old tape.new }
{
    let to = target_of(d);
    let low = offset_of(a, p);
    keep(tape, d);
    tape.put(Instr::Load(Width::Word, to, SCRATCH, low));
    locate(tape, a, p);
}

// A value becomes an element.
pub fn writing(tape: &mut Tape, a: Array, p: Place, v: Place)
    requires { tape.old.at ≤ far }
    ensures { OnTape (Emits (writing_of (arrayed a) (placed p) (placed v))) tape.old tape.new }
{
    let from = source(v, 1);
    let low = offset_of(a, p);
    tape.put(Instr::Store(Width::Word, SCRATCH, from, low));
    fetch(tape, v, 1);
    locate(tape, a, p);
}
