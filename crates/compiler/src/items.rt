// Items of expressions, by the position behind them, and where the expression starts that ends there.
// What is asked of a position, here and in the modules above, is of a plain number, from which a function goes on at four less: a type of its own would be made
// anew at each step.
ghost use Rattle.std.specs.Prelude.{◌≡◌, ◌-◌, ◌≤◌, get_or, eqb};
ghost use Rattle.flat.specs.Numbers.{Decodes, kind_number, unary_of, strict_of};
ghost use Rattle.compiler.specs.Lies.{first as first_of, second as second_of};
ghost use Rattle.compiler.specs.Post.{operands_of, unary_of_number, strict_of_number, Starts};

use flat::UnknownNumber;
use flat::item::Kind;
use flat::operator::{Strict, Unary};
use word::lists::word;

// What the item is that ends at `end`.
pub fn kind_of(words: &[u32], end: usize) -> Result<Kind, UnknownNumber>
    requires { 4 ≤ end }
    ensures { Decodes kind_number 8 (get_or words.now (end - 4) 0) result }
{
    let number = word(words, end - 4);
    Kind::try_from(number)
}

// Whether it is of this kind.
pub fn is_kind(words: &[u32], end: usize, kind: Kind) -> bool
    requires { 4 ≤ end }
    ensures { result ≡ eqb (get_or words.now (end - 4) 0) (kind_number kind) }
{
    let number = kind as u32;
    word(words, end - 4) == number
}

// The operator of a unary item; a number past the table stands for the last one.
pub fn unary_operator(words: &[u32], end: usize) -> Unary
    requires { 4 ≤ end }
    ensures { unary_of result ≡ unary_of_number (first_of words.now end) }
{
    let number = word(words, end - 2);
    Unary::try_from(number).unwrap_or(Unary::Not)
}

// The operator of a strict item; a number past the table stands for the last one.
pub fn strict_operator(words: &[u32], end: usize) -> Strict
    requires { 4 ≤ end }
    ensures { strict_of result ≡ strict_of_number (first_of words.now end) }
{
    let number = word(words, end - 2);
    Strict::try_from(number).unwrap_or(Strict::Rem)
}

// The numbers of the kinds that take operands.
const ELEMENT: u32 = Kind::Element as u32;

const CALL: u32 = Kind::Call as u32;

const UNARY: u32 = Kind::Unary as u32;

const STRICT: u32 = Kind::Strict as u32;

const AND: u32 = Kind::And as u32;

const OR: u32 = Kind::Or as u32;

const JOIN: u32 = Kind::Join as u32;

// How many operands the item takes that ends at `end`: by its number, since each item that a scan passes over is looked at here, and a match of `Kind` is a jump
// by a table or a table's word, with which `build` of a long right side takes up to twice the time.
pub fn operands(words: &[u32], end: usize) -> u32
    requires { 4 ≤ end }
    ensures { result ≡ operands_of (get_or words.now (end - 4) 0) (second_of words.now end) }
{
    let k = word(words, end - 4);
    match k {
        ELEMENT => 1,
        CALL => word(words, end - 1),
        UNARY => 1,
        STRICT => 2,
        AND => 1,
        OR => 1,
        JOIN => 2,
        _ => 0,
    }
}

// Where the expression starts that ends at `end`: a scan backwards that counts the expressions yet to come, for as many items as these ask for, which no range
// has.
pub fn start_of(words: &[u32], end: usize) -> usize
    requires { end ≤ 1073741824 }
    ensures starts { Starts words.now end result }
    ensures within { result ≤ end - 4 }
{
    if end < 4 {
        return 0;
    }
    let mut p = end - 4;
    let mut need = operands(words, end) as usize;
    while 0 < need {
        if p < 4 {
            return 0;
        }
        need = need - 1 + operands(words, p) as usize;
        p -= 4;
    }
    p
}
