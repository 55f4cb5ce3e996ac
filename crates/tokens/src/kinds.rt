// The kinds of tokens. In the tokens' words each is its number, and `try_from` reads it back.
ghost use Rattle.std.specs.Prelude.{◌≡◌};
ghost use Rattle.tokens.specs.Numbers.{number_of_kind, ReadsKind};

use std::error::Error;
use std::fmt;

// What a token is: a name, a number, a sign or a word.
#[derive(Clone, Copy, Debug, PartialEq, Eq, Hash)]
pub enum Kind {
    Name = 1,
    Number = 2,
    DoubleEquals = 3,
    BangEquals = 4,
    LessEquals = 5,
    GreaterEquals = 6,
    DoubleAmpersand = 7,
    DoubleBar = 8,
    Plus = 9,
    Minus = 10,
    Star = 11,
    Slash = 12,
    Percent = 13,
    Less = 14,
    Greater = 15,
    Equals = 16,
    Bang = 17,
    LeftParen = 18,
    RightParen = 19,
    LeftBrace = 20,
    RightBrace = 21,
    LeftBracket = 22,
    RightBracket = 23,
    Colon = 24,
    Semicolon = 25,
    Comma = 26,
    Var = 27,
    Fn = 28,
    Let = 29,
    If = 30,
    Else = 31,
    While = 32,
    Return = 33,
    Emit = 34,
    Int = 35,
    Bool = 36,
    True = 37,
    False = 38,
}

// A number that stands for no kind of token.
#[derive(Clone, Copy, Debug, PartialEq, Eq, Hash)]
pub struct UnknownKind(pub u32);

impl TryFrom<u32> for Kind {
    type Error = UnknownKind;

    ghost try_from_gives = { ReadsKind };

    // Of the table's 38 rows each is a line.
    fn try_from(number: u32) -> Result<Self, UnknownKind> {
        match number {
            1 => Ok(Kind::Name),
            2 => Ok(Kind::Number),
            3 => Ok(Kind::DoubleEquals),
            4 => Ok(Kind::BangEquals),
            5 => Ok(Kind::LessEquals),
            6 => Ok(Kind::GreaterEquals),
            7 => Ok(Kind::DoubleAmpersand),
            8 => Ok(Kind::DoubleBar),
            9 => Ok(Kind::Plus),
            10 => Ok(Kind::Minus),
            11 => Ok(Kind::Star),
            12 => Ok(Kind::Slash),
            13 => Ok(Kind::Percent),
            14 => Ok(Kind::Less),
            15 => Ok(Kind::Greater),
            16 => Ok(Kind::Equals),
            17 => Ok(Kind::Bang),
            18 => Ok(Kind::LeftParen),
            19 => Ok(Kind::RightParen),
            20 => Ok(Kind::LeftBrace),
            21 => Ok(Kind::RightBrace),
            22 => Ok(Kind::LeftBracket),
            23 => Ok(Kind::RightBracket),
            24 => Ok(Kind::Colon),
            25 => Ok(Kind::Semicolon),
            26 => Ok(Kind::Comma),
            27 => Ok(Kind::Var),
            28 => Ok(Kind::Fn),
            29 => Ok(Kind::Let),
            30 => Ok(Kind::If),
            31 => Ok(Kind::Else),
            32 => Ok(Kind::While),
            33 => Ok(Kind::Return),
            34 => Ok(Kind::Emit),
            35 => Ok(Kind::Int),
            36 => Ok(Kind::Bool),
            37 => Ok(Kind::True),
            38 => Ok(Kind::False),
            _ => Err(UnknownKind(number)),
        }
    }
}

impl From<Kind> for u32 {
    ghost from_gives = { λ kind n. n ≡ number_of_kind kind };

    fn from(kind: Kind) -> u32 {
        kind as u32
    }
}

impl fmt::Display for UnknownKind {
    fn fmt<W: fmt::Write>(&self, f: &mut fmt::Formatter<W>) -> fmt::Result {
        write!(f, "no kind of token has the number {}", self.0)
    }
}

impl Error for UnknownKind {}
