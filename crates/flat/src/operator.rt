ghost use Rattle.flat.specs.Numbers.{Decodes, unary_number, strict_number};

use crate::UnknownNumber;

// An operator with one side. Its number in words is `Unary::Not as u32`.
#[derive(Clone, Copy, Debug, PartialEq, Eq)]
pub enum Unary {
    Negate,
    Not,
}

impl TryFrom<u32> for Unary {
    type Error = UnknownNumber;

    ghost try_from_gives = { Decodes unary_number 1 };

    fn try_from(number: u32) -> Result<Self, UnknownNumber> {
        match number {
            0 => Ok(Unary::Negate),
            1 => Ok(Unary::Not),
            _ => Err(UnknownNumber(number)),
        }
    }
}

// An operator with two sides that are both evaluated. Its number in words is `Strict::Rem as u32`.
#[derive(Clone, Copy, Debug, PartialEq, Eq)]
pub enum Strict {
    Eq,
    Ne,
    Lt,
    Le,
    Gt,
    Ge,
    Add,
    Sub,
    Mul,
    Div,
    Rem,
}

impl TryFrom<u32> for Strict {
    type Error = UnknownNumber;

    ghost try_from_gives = { Decodes strict_number 10 };

    fn try_from(number: u32) -> Result<Self, UnknownNumber> {
        match number {
            0 => Ok(Strict::Eq),
            1 => Ok(Strict::Ne),
            2 => Ok(Strict::Lt),
            3 => Ok(Strict::Le),
            4 => Ok(Strict::Gt),
            5 => Ok(Strict::Ge),
            6 => Ok(Strict::Add),
            7 => Ok(Strict::Sub),
            8 => Ok(Strict::Mul),
            9 => Ok(Strict::Div),
            10 => Ok(Strict::Rem),
            _ => Err(UnknownNumber(number)),
        }
    }
}
