// Types, and the numbers that stand for them in the lent words.
ghost use Rattle.std.specs.Prelude.{◌≡◌, ℕ, ◌≤◌, refl};
ghost use Rattle.std.proofs.Math.Option as M;
ghost use Rattle.language.specs.Tree.{Ty};
ghost use Rattle.language.specs.Rules.{same_ty};
ghost use Rattle.grammar.specs.Numbers.{number_of_type};
ghost use Rattle.rules.specs.Tables.{type_of, result_of, types_from, same_types};
ghost use Rattle.rules.specs.Bounds.{most_places};
ghost use Rattle.rules.specs.Values.{meant, number_means, result_in};

use grammar::tree::ValueType;
use word::lists::word;

// The type of this number. No tree has another than the two: it counts as an int's, so that any words can be read.
pub fn value_type(number: u32) -> ValueType
    ensures { meant result ≡ type_of number }
{
    ValueType::try_from(number).unwrap_or(ValueType::Int)
}

// A function's result type, by its number; 0 where it has none.
pub fn result_type(n: u32) -> Option<ValueType>
    ensures { result_in result ≡ result_of n }
{
    if n == 0 {
        return None;
    }
    Some(value_type(n))
}

// What says which type a function's result has, if it has one: a type or none, or any number (`result_type`).
pub trait ResultType: Copy {
    ghost result_named: { Self → M.Option Ty };

    fn named(self) -> Option<ValueType>
        ensures { result_in result ≡ result_named self };
}

impl ResultType for Option<ValueType> {
    ghost result_named = { result_in };

    fn named(self) -> Option<ValueType> {
        self
    }
}

impl ResultType for u32 {
    ghost result_named = { result_of };

    fn named(self) -> Option<ValueType> {
        result_type(self)
    }
}

// Whether n types are the same: those from word i of one row on, and every third from word j of the other on.
pub fn same_types(ts: &[u32], i: usize, tree: &[u32], j: usize, n: u32) -> bool
    requires { (i ≤ most_places) × (j ≤ most_places) }
    ensures { result ≡ same_types (types_from ts.now 1 i n) (types_from tree.now 3 j n) }
{
    for k in 0..n {
        let x = word(ts, i + k as usize);
        let y = word(tree, j + 3 * k as usize);
        if !same_type(x, y) {
            return false;
        }
    }
    true
}

// What names a type and is written as a word: a type, by its number; or any number itself, whose type `value_type` gives.
pub trait Typed: Copy {
    ghost number_of: { Self → ℕ };

    ghost type_named: { Self → Ty };

    fn number(self) -> u32
        ensures { result ≡ number_of self };

    fn value_type(self) -> ValueType
        ensures { meant result ≡ type_named self };

    // What is written is read back as the same type.
    ghost read_back: { (t : Self) → type_of (number_of t) ≡ type_named t };
}

impl Typed for ValueType {
    ghost number_of = { number_of_type };

    ghost type_named = { meant };

    ghost read_back = { number_means };

    fn number(self) -> u32 {
        self as u32
    }

    fn value_type(self) -> ValueType {
        self
    }
}

impl Typed for u32 {
    ghost number_of = { λ n. n };

    ghost type_named = { type_of };

    ghost read_back = { λ _. refl };

    fn number(self) -> u32 {
        self
    }

    fn value_type(self) -> ValueType {
        value_type(self)
    }
}

// Whether two types are the same.
pub fn same_type<T: Typed, U: Typed>(x: T, y: U) -> bool
    ensures { result ≡ same_ty (T.type_named x) (U.type_named y) }
{
    x.value_type() == y.value_type()
}
