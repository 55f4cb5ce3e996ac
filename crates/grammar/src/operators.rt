// The operators between two sides: their levels, and the items that they become.
ghost use Rattle.std.specs.Prelude.{◌≡◌, ◌≤◌, ◌<◌};
ghost use Rattle.tokens.specs.Numbers.{number_of_kind};
ghost use Rattle.grammar.specs.Parse.{most};
ghost use Rattle.grammar.specs.Numbers.{number_of_item};
ghost use Rattle.grammar.specs.Operator.{binary_of, OperatorOf, OperatorAt};
ghost use Rattle.grammar.specs.Told.{item_kind};

use crate::input::Tokens;
use crate::tree::Item;
use crate::words::MANY;
use flat::operator::Strict;
use tokens::kinds::Kind;

// The levels of operators, document 01 §3: the weakest binds first. They are numbers, since the parser counts from one to the next.
pub const EXPR_LEVEL: u32 = 1;

const CONJ_LEVEL: u32 = 2;

const COMP_LEVEL: u32 = 3;

const SUM_LEVEL: u32 = 4;

const TERM_LEVEL: u32 = 5;

pub const UNARY_LEVEL: u32 = 6;

// What an operator does with its two sides: `And` and `Or` evaluate the right one only if they must.
#[derive(Clone, Copy, Debug, PartialEq, Eq)]
pub enum Operation {
    Strict(Strict),
    And,
    Or,
}

impl Operation {
    // The kind of its item.
    pub fn item(self) -> Item
        ensures { number_of_item result ≡ item_kind (binary_of self) }
    {
        match self {
            Operation::Strict(_) => Item::Strict,
            Operation::And => Item::And,
            Operation::Or => Item::Or,
        }
    }
}

// An operator between two sides, and its level.
#[derive(Clone, Copy, Debug, PartialEq, Eq)]
pub struct Operator {
    pub level: u32,
    pub operation: Operation,
}

// An operator that evaluates both its sides.
fn strict(level: u32, operator: Strict) -> Operator
    ensures level { result.level ≡ level }
    ensures operation { result.operation ≡ Operation.Strict operator }
{
    Operator {
        level,
        operation: Operation::Strict(operator),
    }
}

// The operator that a kind of token is, if it is one.
fn operator_of(kind: Kind) -> Option<Operator>
    ensures { OperatorOf (number_of_kind kind) result }
{
    match kind {
        Kind::DoubleBar => Some(Operator {
            level: EXPR_LEVEL,
            operation: Operation::Or,
        }),
        Kind::DoubleAmpersand => Some(Operator {
            level: CONJ_LEVEL,
            operation: Operation::And,
        }),
        Kind::DoubleEquals => Some(strict(COMP_LEVEL, Strict::Eq)),
        Kind::BangEquals => Some(strict(COMP_LEVEL, Strict::Ne)),
        Kind::Less => Some(strict(COMP_LEVEL, Strict::Lt)),
        Kind::LessEquals => Some(strict(COMP_LEVEL, Strict::Le)),
        Kind::Greater => Some(strict(COMP_LEVEL, Strict::Gt)),
        Kind::GreaterEquals => Some(strict(COMP_LEVEL, Strict::Ge)),
        Kind::Plus => Some(strict(SUM_LEVEL, Strict::Add)),
        Kind::Minus => Some(strict(SUM_LEVEL, Strict::Sub)),
        Kind::Star => Some(strict(TERM_LEVEL, Strict::Mul)),
        Kind::Slash => Some(strict(TERM_LEVEL, Strict::Div)),
        Kind::Percent => Some(strict(TERM_LEVEL, Strict::Rem)),
        _ => None,
    }
}

// The operator at token i, if it is one of level l.
pub fn operator_at(ts: Tokens, i: usize, l: u32) -> Option<Operator>
    requires { 0 < l }
    ensures { OperatorAt ts.entry.words.now ts.entry.count i l result }
{
    let kind = ts.kind(i)?;
    let operator = operator_of(kind)?;
    if operator.level == l {
        Some(operator)
    } else {
        None
    }
}

// How many operators of a level may follow one another: comparisons don't.
pub fn most_of(l: u32) -> usize
    ensures { (result ≡ most l) × (result ≤ 65536) }
{
    if l == COMP_LEVEL { 1 } else { MANY }
}
