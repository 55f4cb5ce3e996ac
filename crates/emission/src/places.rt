// Where values are: constants made, operands fetched, results kept.
ghost use Rattle.std.specs.Prelude.{◌≡◌, ◌∷◌, [], ◌++◌, ◌+◌, ◌*◌, ◌%◌, ◌^◌, ◌<◌};
ghost use Rattle.symbolic.specs.Symbolic.{number, sp, lw, sw};
ghost use Rattle.codegen.specs.Places.{short as short_of, upper_of, lower_of, constant_to, source as source_of, fetch as fetch_of, target as target_of, keep as keep_of, settle as settle_of, move as move_of, bring as bring_of};
ghost use Rattle.emission.specs.Tape.{Emits};
ghost use Rattle.emission.specs.OnTape.{OnTape};
ghost use Rattle.emission.specs.Macros.{placed, EmitsAt, EmitsOne};

use crate::Place;
use crate::tape::Tape;
use processor::{Alu, Instr, Width};
use word::bits::sign_extend;

// Registers are numbers, as instructions hold them: temporaries are counted on from the first.
pub const SP: u32 = 2;

pub const SCRATCH: u32 = 4;

pub const ANSWER: u32 = 10;

pub const REQUEST: u32 = 17;

pub const TEMPORARIES: u32 = 25;

pub const IN_REGISTERS: u32 = 7;

// The word of the frame that the first temporary has.
pub const FIRST_TEMPORARY: u64 = 65;

// Whether 12 bits, sign-extended, give the word.
pub fn short(n: u32) -> bool
    ensures { result ≡ short_of n }
{
    n < 2048 || 4294965248 <= n
}

// The upper part of a word, for lui.
pub fn upper(n: u64) -> u32
    requires { n < 2 ^ 40 }
    ensures { result ≡ upper_of n }
{
    ((n + 2048) / 4096 * 4096 % 4294967296) as u32
}

// The lower part, an immediate.
pub fn lower(n: u64) -> u32
    ensures { result ≡ lower_of n }
{
    sign_extend(12, (n % 4096) as u32)
}

// A constant to a register: one instruction, or two.
pub fn constant_to(tape: &mut Tape, r: u32, n: u32)
    ensures { OnTape (EmitsAt (λ p. constant_to p n) r) tape.old tape.new }
{
    if short(n) {
        tape.put(Instr::OpImm(Alu::Add, r, 0, n));
    } else {
        let low = lower(n as u64);
        let high = upper(n as u64);
        tape.put(Instr::OpImm(Alu::Add, r, r, low));
        tape.put(Instr::Lui(r, high));
    }
}

// A word of the frame, so many bytes behind its start, to a register.
pub fn load(tape: &mut Tape, r: u32, n: u64)
    ensures { OnTape (EmitsAt (λ p. lw p sp n ∷ []) r) tape.old tape.new }
{
    let low = (n % 4096) as u32;
    tape.put(Instr::Load(Width::Word, r, SP, low));
}

// A register to a word of the frame.
pub fn store(tape: &mut Tape, r: u32, n: u64)
    ensures { OnTape (EmitsAt (λ p. sw p sp n ∷ []) r) tape.old tape.new }
{
    let low = (n % 4096) as u32;
    tape.put(Instr::Store(Width::Word, SP, r, low));
}

// Of an operand, the number of its register, once it is fetched to scratch register w where it is in none.
pub fn source(p: Place, w: u32) -> u32
    requires { w < 2 }
    ensures { result ≡ number (source_of (placed p) w) }
{
    match p {
        Place::Constant(n) => if n == 0 { 0 } else { SCRATCH + w },
        Place::Local(_) => SCRATCH + w,
        Place::Temporary(d) => if d < IN_REGISTERS {
            TEMPORARIES + d
        } else {
            SCRATCH + w
        },
    }
}

// Fetches an operand.
pub fn fetch(tape: &mut Tape, p: Place, w: u32)
    requires { w < 2 }
    ensures { OnTape (Emits (fetch_of (placed p) w)) tape.old tape.new }
{
    match p {
        Place::Constant(n) => {
            if n != 0 {
                constant_to(tape, SCRATCH + w, n);
            }
        }
        Place::Local(y) => load(tape, SCRATCH + w, 4 * (y as u64 + 1)),
        Place::Temporary(d) => {
            if IN_REGISTERS <= d {
                load(tape, SCRATCH + w, 4 * (FIRST_TEMPORARY + d as u64));
            }
        }
    }
}

// The number of the register that what becomes temporary d is put into.
pub fn target_of(d: u32) -> u32
    ensures { result ≡ number (target_of d) }
{
    if d < IN_REGISTERS {
        return TEMPORARIES + d;
    }
    SCRATCH
}

// Keeps it there.
pub fn keep(tape: &mut Tape, d: u32)
    ensures { OnTape (Emits (keep_of d)) tape.old tape.new }
{
    if IN_REGISTERS <= d {
        store(tape, SCRATCH, 4 * (FIRST_TEMPORARY + d as u64));
    }
}

// One instruction on an operand, whose result becomes temporary d.
pub fn kept(tape: &mut Tape, p: Place, d: u32, i: Instr)
    ensures { OnTape (EmitsOne (λ x. fetch_of (placed p) 0 ++ (x ∷ keep_of d)) i) tape.old tape.new }
{
    keep(tape, d);
    tape.put(i);
    fetch(tape, p, 0);
}

// 0 or 1 becomes temporary d.
pub fn settle(tape: &mut Tape, v: u32, d: u32)
    ensures { OnTape (Emits (settle_of v d)) tape.old tape.new }
{
    let to = target_of(d);
    keep(tape, d);
    tape.put(Instr::OpImm(Alu::Add, to, 0, v));
}

// A value from its place to temporary d, where it may be already.
pub fn carry(tape: &mut Tape, p: Place, d: u32)
    ensures { OnTape (Emits (move_of (placed p) d)) tape.old tape.new }
{
    let to = target_of(d);
    let from = source(p, 0);
    match p {
        Place::Constant(_) | Place::Local(_) => {
            kept(tape, p, d, Instr::OpImm(Alu::Add, to, from, 0));
        }
        Place::Temporary(_) => {}
    }
}

// A value from its place to the register of results.
pub fn bring(tape: &mut Tape, p: Place)
    ensures { OnTape (Emits (bring_of (placed p))) tape.old tape.new }
{
    match p {
        Place::Constant(n) => constant_to(tape, ANSWER, n),
        Place::Local(y) => load(tape, ANSWER, 4 * (y as u64 + 1)),
        Place::Temporary(d) => {
            if d < IN_REGISTERS {
                tape.put(Instr::OpImm(Alu::Add, ANSWER, TEMPORARIES + d, 0));
            } else {
                load(tape, ANSWER, 4 * (FIRST_TEMPORARY + d as u64));
            }
        }
    }
}
