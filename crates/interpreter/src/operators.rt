// The operators of items, by their numbers.
ghost use Rattle.std.specs.Prelude.{◌≡◌};
ghost use Rattle.interpreter.specs.Post.{Strictly, Unarily};

use crate::Stop;
use flat::operator::{Strict, Unary};
use flat::trap::Trap;
use word::arithmetic::{add, mul, neg, sub};
use word::division::{quotient_signed, remainder_signed};
use word::order::{bit_of, less_signed};

// With two sides.
pub fn strict(op: u32, a: u32, b: u32) -> Result<u32, Stop>
    ensures { Strictly op a b result }
{
    match Strict::try_from(op)? {
        Strict::Eq => Ok(bit_of(a == b)),
        Strict::Ne => Ok(bit_of(a != b)),
        Strict::Lt => Ok(bit_of(less_signed(a, b))),
        Strict::Le => Ok(bit_of(!less_signed(b, a))),
        Strict::Gt => Ok(bit_of(less_signed(b, a))),
        Strict::Ge => Ok(bit_of(!less_signed(a, b))),
        Strict::Add => Ok(add(a, b)),
        Strict::Sub => Ok(sub(a, b)),
        Strict::Mul => Ok(mul(a, b)),
        Strict::Div => if b == 0 {
            Err(Stop::Trapped(Trap::DivisionByZero))
        } else {
            Ok(quotient_signed(a, b))
        },
        Strict::Rem => if b == 0 {
            Err(Stop::Trapped(Trap::DivisionByZero))
        } else {
            Ok(remainder_signed(a, b))
        },
    }
}

// With one side.
pub fn unary(op: u32, a: u32) -> Result<u32, Stop>
    ensures { Unarily op a result }
{
    match Unary::try_from(op)? {
        Unary::Negate => Ok(neg(a)),
        Unary::Not => Ok(bit_of(a == 0)),
    }
}
