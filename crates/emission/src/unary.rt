// The unary operators, each by itself or by its number. Of a constant the result is one.
ghost use Rattle.std.specs.Prelude.{◌≡◌, ◌∷◌, ◌++◌};
ghost use Rattle.language.specs.Meaning.{apply as apply_of};
ghost use Rattle.flat.specs.Numbers.{unary_of};
ghost use Rattle.codegen.specs.Places.{source as source_of, fetch as fetch_of, target as target_of, keep as keep_of};
ghost use Rattle.codegen.specs.Operators.{result as result_of, alone as alone_of, applying as applying_of};
ghost use Rattle.emission.specs.Tape.{Emits};
ghost use Rattle.emission.specs.OnTape.{OnTape};
ghost use Rattle.emission.specs.Macros.{placed};

use crate::Place;
use crate::places::{kept, source, target_of};
use crate::tape::Tape;
use flat::number::Names;
use flat::operator::Unary;
use processor::{Alu, Instr};
use word::arithmetic::neg;

// What an operator makes of a constant.
pub fn apply<O: Names<Unary>>(o: O, n: u32) -> u32
    ensures { result ≡ apply_of (unary_of (O.named o)) n }
{
    match o.operator() {
        Unary::Negate => neg(n),
        Unary::Not => if n == 0 { 1 } else { 0 },
    }
}

// Where its result is.
pub fn result<O: Names<Unary>>(o: O, p: Place, d: u32) -> Place
    ensures { placed result ≡ result_of (unary_of (O.named o)) (placed p) d }
{
    match p {
        Place::Constant(n) => Place::Constant(apply(o, n)),
        _ => Place::Temporary(d),
    }
}

// An operator's one instruction on an operand, whose result becomes temporary d.
pub fn alone<O: Names<Unary>>(tape: &mut Tape, o: O, p: Place, d: u32)
    ensures { OnTape (Emits (fetch_of (placed p) 0 ++ (alone_of (unary_of (O.named o)) (target_of d) (source_of (placed p) 0) ∷ keep_of d))) tape.old tape.new }
{
    let to = target_of(d);
    let from = source(p, 0);
    match o.operator() {
        Unary::Negate => kept(tape, p, d, Instr::Op(Alu::Sub, to, 0, from)),
        Unary::Not => kept(tape, p, d, Instr::OpImm(Alu::Sltu, to, from, 1)),
    }
}

// The code that an operator has.
pub fn applying<O: Names<Unary>>(tape: &mut Tape, o: O, p: Place, d: u32)
    ensures { OnTape (Emits (applying_of (unary_of (O.named o)) (placed p) d)) tape.old tape.new }
{
    match p {
        Place::Constant(_) => {}
        Place::Local(_) | Place::Temporary(_) => alone(tape, o, p, d),
    }
}
