// Numbers in place of what they number.
ghost use Rattle.std.specs.Prelude.{◌≡◌, ℕ};
ghost use Rattle.flat.specs.declared.operator.Strict as O;
ghost use Rattle.flat.specs.declared.operator.Unary as U;
ghost use Rattle.flat.specs.Numbers.{kind_number, statement_number, trap_number, unary_named, strict_named};

use crate::operator::{Strict, Unary};
use crate::trap::Trap;
use crate::{item, statement};

// What is written as a number: a kind or a trap, or any number itself.
pub trait Numbered: Copy {
    ghost number_of: { Self → ℕ };

    fn number(self) -> u32
        ensures { result ≡ number_of self };
}

impl Numbered for u32 {
    ghost number_of = { λ n. n };

    fn number(self) -> u32 {
        self
    }
}

impl Numbered for item::Kind {
    ghost number_of = { kind_number };

    fn number(self) -> u32 {
        self as u32
    }
}

impl Numbered for statement::Kind {
    ghost number_of = { statement_number };

    fn number(self) -> u32 {
        self as u32
    }
}

impl Numbered for Trap {
    ghost number_of = { trap_number };

    fn number(self) -> u32 {
        self as u32
    }
}

// What names an operator: the operator itself, or any number, of which those past the table name the last.
pub trait Names<O>: Copy {
    ghost named: { Self → O };

    fn operator(self) -> O
        ensures { result ≡ named self };
}

impl Names<Unary> for Unary {
    ghost named = { λ o. o };

    fn operator(self) -> Unary {
        self
    }
}

impl Names<Unary> for u32 {
    ghost named = { unary_named };

    fn operator(self) -> Unary {
        Unary::try_from(self).unwrap_or(Unary::Not)
    }
}

impl Names<Strict> for Strict {
    ghost named = { λ o. o };

    fn operator(self) -> Strict {
        self
    }
}

impl Names<Strict> for u32 {
    ghost named = { strict_named };

    fn operator(self) -> Strict {
        Strict::try_from(self).unwrap_or(Strict::Rem)
    }
}
