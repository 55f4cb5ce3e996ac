// The strict operators, each by itself or by its number: as a value, as one branch, as one instruction with an immediate.
ghost use Rattle.std.specs.Prelude.{◌≡◌, ◌∷◌, ◌-◌, ◌≤◌};
ghost use Rattle.processor.specs.declared.Alu.TheVariants.{Add as AddOf};
ghost use Rattle.processor.specs.declared.Cond.TheVariants.{Ne as NeOf};
ghost use Rattle.symbolic.specs.Symbolic.{x0, op, opi, branch, jump as jump_of, call as call_of};
ghost use Rattle.symbolic.specs.Fine.{far};
ghost use Rattle.flat.specs.Numbers.{strict_of};
ghost use Rattle.codegen.specs.Places.{short as short_of, target as target_of, keep as keep_of};
ghost use Rattle.word.specs.Choice.{pick};
ghost use Rattle.std.proofs.Math.Option.{some, none};
ghost use Rattle.codegen.specs.Operators.{stub, work as work_of, working as working_of, relation as relation_of, with_constant, immediate as immediate_of, operating as operating_of};
ghost use Rattle.codegen.specs.Expressions.{deciding_by};
ghost use Rattle.emission.specs.Tape.{Emits};
ghost use Rattle.emission.specs.OnTape.{OnTape};
ghost use Rattle.emission.specs.Macros.{placed, EmitsFor, EmitsAny, worked, optional};

use crate::jumps::{RA, comparing, testing};
use crate::places::{fetch, keep, kept, short, source, target_of};
use crate::tape::Tape;
use crate::{Jump, Place, Sides, Work};
use flat::number::Names;
use flat::operator::Strict;
use processor::{Alu, Cond, Instr};
use word::arithmetic::neg;

// The stub of a division by zero.
pub const DIVISION_STUB: usize = 6;

// What an operator is as a value.
pub fn work<O: Names<Strict>>(o: O) -> Work
    ensures { worked result ≡ work_of (strict_of (O.named o)) }
{
    match o.operator() {
        Strict::Eq => Work::Tested(Cond::Eq, false),
        Strict::Ne => Work::Tested(Cond::Ne, false),
        Strict::Lt => Work::Plain(Alu::Slt, false),
        Strict::Le => Work::Tested(Cond::Ge, true),
        Strict::Gt => Work::Plain(Alu::Slt, true),
        Strict::Ge => Work::Tested(Cond::Ge, false),
        Strict::Add => Work::Plain(Alu::Add, false),
        Strict::Sub => Work::Plain(Alu::Sub, false),
        Strict::Mul => Work::Plain(Alu::Mul, false),
        Strict::Div => Work::Divided(Alu::Div),
        Strict::Rem => Work::Divided(Alu::Rem),
    }
}

// The one branch that it is as a condition, if it is one: a comparison, and whether the sides are exchanged.
pub fn relation<O: Names<Strict>>(o: O) -> Option<(Cond, bool)>
    ensures { optional result ≡ relation_of (strict_of (O.named o)) }
{
    match o.operator() {
        Strict::Eq => Some((Cond::Eq, false)),
        Strict::Ne => Some((Cond::Ne, false)),
        Strict::Lt => Some((Cond::Lt, false)),
        Strict::Le => Some((Cond::Ge, true)),
        Strict::Gt => Some((Cond::Lt, true)),
        Strict::Ge => Some((Cond::Ge, false)),
        _ => None,
    }
}

// An operation and its immediate, if the immediate is short.
pub fn if_short(o: Alu, n: u32) -> Option<(Alu, u32)>
    ensures { optional result ≡ pick (short_of n) (some (o, n)) none }
{
    if short(n) { Some((o, n)) } else { None }
}

// The one operation with an immediate that an operator is with a constant on the right, if it is one.
pub fn with_constant<O: Names<Strict>>(o: O, n: u32) -> Option<(Alu, u32)>
    ensures { optional result ≡ with_constant (strict_of (O.named o)) n }
{
    match o.operator() {
        Strict::Lt => if_short(Alu::Slt, n),
        Strict::Add => if_short(Alu::Add, n),
        Strict::Sub => if_short(Alu::Add, neg(n)),
        _ => None,
    }
}

// The same with its right side at a place.
pub fn immediate<O: Names<Strict>>(o: O, q: Place) -> Option<(Alu, u32)>
    ensures { optional result ≡ immediate_of (strict_of (O.named o)) (placed q) }
{
    match q {
        Place::Constant(n) => with_constant(o, n),
        _ => None,
    }
}

// One instruction.
pub fn plain(tape: &mut Tape, o: Alu, r: u32, s: u32, d: u32)
    ensures { OnTape (EmitsFor (λ p q. op o (target_of d) p q ∷ keep_of d) r s) tape.old tape.new }
{
    let to = target_of(d);
    keep(tape, d);
    tape.put(Instr::Op(o, to, r, s));
}

// One instruction behind a test of the divisor.
pub fn divided(tape: &mut Tape, o: Alu, r: u32, s: u32, d: u32)
    requires { tape.old.at ≤ far }
    ensures { OnTape (EmitsFor (λ p q. branch NeOf q x0 2 ∷ call_of (stub 1) ∷ op o (target_of d) p q ∷ keep_of d) r s) tape.old tape.new }
{
    plain(tape, o, r, s, d);
    let to_stub = tape.reach(DIVISION_STUB);
    tape.put(Instr::Jal(RA, to_stub));
    let around = tape.onward(2);
    tape.put(Instr::Branch(Cond::Ne, s, 0, around));
}

// 1 where a comparison holds, and else 0.
pub fn tested(tape: &mut Tape, c: Cond, r: u32, s: u32, d: u32)
    requires { tape.old.at ≤ far }
    ensures { OnTape (EmitsFor (λ p q. branch c p q 3 ∷ opi AddOf (target_of d) x0 0 ∷ jump_of 2 ∷ opi AddOf (target_of d) x0 1 ∷ keep_of d) r s) tape.old tape.new }
{
    let to = target_of(d);
    keep(tape, d);
    tape.put(Instr::OpImm(Alu::Add, to, 0, 1));
    let by = tape.onward(2);
    tape.put(Instr::Jal(0, by));
    tape.put(Instr::OpImm(Alu::Add, to, 0, 0));
    let around = tape.onward(3);
    tape.put(Instr::Branch(c, r, s, around));
}

// An operator on two registers, whose result becomes temporary d.
pub fn working<O: Names<Strict>>(tape: &mut Tape, o: O, r: u32, s: u32, d: u32)
    requires { tape.old.at ≤ far }
    ensures { OnTape (EmitsFor (λ p q. working_of (work_of (strict_of (O.named o))) p q d) r s) tape.old tape.new }
{
    let w = work(o);
    match w {
        Work::Plain(a, turned) => {
            if turned {
                plain(tape, a, s, r, d);
            } else {
                plain(tape, a, r, s, d);
            }
        }
        Work::Divided(a) => divided(tape, a, r, s, d),
        Work::Tested(c, turned) => {
            if turned {
                tested(tape, c, s, r, d);
            } else {
                tested(tape, c, r, s, d);
            }
        }
    }
}

// The value of an operator becomes temporary d.
pub fn operating<O: Names<Strict>>(tape: &mut Tape, o: O, sides: Sides, d: u32)
    requires { tape.old.at ≤ far }
    ensures { OnTape (Emits (operating_of (strict_of (O.named o)) (placed sides.left) (placed sides.right) d)) tape.old tape.new }
{
    let from = source(sides.left, 0);
    match immediate(o, sides.right) {
        Some((a, n)) => {
            let to = target_of(d);
            kept(tape, sides.left, d, Instr::OpImm(a, to, from, n));
        }
        None => {
            let other = source(sides.right, 1);
            working(tape, o, from, other, d);
            fetch(tape, sides.right, 1);
            fetch(tape, sides.left, 0);
        }
    }
}

// Jumps where the truth of an operator is the jump's: by one branch if it is one, else by its value.
pub fn deciding<O: Names<Strict>>(tape: &mut Tape, way: Jump, o: O, sides: Sides, d: u32)
    requires { tape.old.at ≤ way.to }
    ensures { OnTape (EmitsAny (λ entry. deciding_by entry way.near (relation_of (strict_of (O.named o))) way.when (strict_of (O.named o)) (placed sides.left) (placed sides.right) d (way.to - tape.old.at))) tape.old tape.new }
{
    match relation(o) {
        Some(comparison) => comparing(tape, way, comparison, sides),
        None => {
            testing(tape, way, Place::Temporary(d));
            operating(tape, o, sides, d);
        }
    }
}
