ghost use Rattle.flat.specs.Numbers.{Decodes, statement_number};

use crate::UnknownNumber;

// A statement's header is eight words. Its expressions and its blocks follow.
pub const WORDS: u32 = 8;

// Which of them is what: its kind, two that the kind has a use for, how many items its expressions have, how many statements its
// blocks have, and how many words follow the header.
pub const KIND: u32 = 0;

pub const A: u32 = 1;

pub const B: u32 = 2;

pub const FIRST_ITEMS: u32 = 3;

pub const SECOND_ITEMS: u32 = 4;

pub const FIRST_STATEMENTS: u32 = 5;

pub const SECOND_STATEMENTS: u32 = 6;

pub const REST: u32 = 7;

// Blocks nest at most so deep.
pub const MOST_NESTING: u32 = 32;

// What a statement is. Its number in words is `Kind::Run as u32`.
#[derive(Clone, Copy, Debug, PartialEq, Eq)]
pub enum Kind {
    Put, // A is the slot
    Store, // A is the array's offset, B its size
    Choose, // A is how many words the first block has
    While,
    Leave,
    Give,
    Emit,
    Run,
}

impl TryFrom<u32> for Kind {
    type Error = UnknownNumber;

    ghost try_from_gives = { Decodes statement_number 7 };

    fn try_from(number: u32) -> Result<Self, UnknownNumber> {
        match number {
            0 => Ok(Kind::Put),
            1 => Ok(Kind::Store),
            2 => Ok(Kind::Choose),
            3 => Ok(Kind::While),
            4 => Ok(Kind::Leave),
            5 => Ok(Kind::Give),
            6 => Ok(Kind::Emit),
            7 => Ok(Kind::Run),
            _ => Err(UnknownNumber(number)),
        }
    }
}
