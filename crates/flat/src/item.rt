ghost use Rattle.flat.specs.Numbers.{Decodes, kind_number};

use crate::UnknownNumber;

// An item is four words.
pub const WORDS: u32 = 4;

// Which of them is what: its kind, its charge, and two that the kind has a use for.
pub const KIND: u32 = 0;

pub const CHARGE: u32 = 1;

pub const A: u32 = 2;

pub const B: u32 = 3;

// The room for operands while an expression is scanned.
pub const MOST_OPERANDS: usize = 324;

// What an item is. Its number in words is `Kind::Join as u32`.
#[derive(Clone, Copy, Debug, PartialEq, Eq)]
pub enum Kind {
    Number, // A is the number
    Local, // A is the slot
    Element, // A is the array's offset, B its size
    Call, // A is the function, B how many arguments
    Unary, // A is the operator
    Strict, // A is the operator
    And, // A is how many items to skip
    Or, // A is how many items to skip
    Join,
}

impl TryFrom<u32> for Kind {
    type Error = UnknownNumber;

    ghost try_from_gives = { Decodes kind_number 8 };

    fn try_from(number: u32) -> Result<Self, UnknownNumber> {
        match number {
            0 => Ok(Kind::Number),
            1 => Ok(Kind::Local),
            2 => Ok(Kind::Element),
            3 => Ok(Kind::Call),
            4 => Ok(Kind::Unary),
            5 => Ok(Kind::Strict),
            6 => Ok(Kind::And),
            7 => Ok(Kind::Or),
            8 => Ok(Kind::Join),
            _ => Err(UnknownNumber(number)),
        }
    }
}
