// type, and what has one: a name with its type, and a result.
ghost use Rattle.std.specs.Prelude.{[], ◌+◌, ◌≤◌};
ghost use Rattle.grammar.specs.Parse.{type_of, typed_of, result_of};
ghost use Rattle.grammar.specs.Told.{Told, type_form, result_form};
ghost use Rattle.grammar.specs.Types.{told_type, told_result};

use crate::input::{Fault, Tokens};
use crate::tree::ValueType;
use tokens::kinds::Kind;

// A type, or whether there is one, and the token after it.
#[derive(Clone, Copy, Debug, PartialEq, Eq, Hash)]
pub struct TypeRead<T> {
    pub next: usize,
    pub value_type: T,
}

// type = "int" | "bool"
fn type_at(ts: Tokens, i: usize) -> Result<TypeRead<ValueType>, Fault>
    requires { i ≤ ts.count }
    ensures { Told type_form (λ tok. type_of tok i) ts.entry.words.now ts.entry.count [] i 0 (told_type result) [] }
{
    if ts.is(i, Kind::Int) {
        return Ok(TypeRead {
            next: i + 1,
            value_type: ValueType::Int,
        });
    }
    ts.expect(i, Kind::Bool)?;
    Ok(TypeRead {
        next: i + 1,
        value_type: ValueType::Bool,
    })
}

// name ":" type
pub fn typed(ts: Tokens, i: usize) -> Result<TypeRead<ValueType>, Fault>
    requires { i ≤ ts.count }
    ensures { Told type_form (λ tok. typed_of tok i) ts.entry.words.now ts.entry.count [] (i + 1) 0 (told_type result) [] }
{
    ts.expect(i, Kind::Name)?;
    ts.expect(i + 1, Kind::Colon)?;
    type_at(ts, i + 2)
}

// [ ":" type ]
pub fn result(ts: Tokens, i: usize) -> Result<TypeRead<Option<ValueType>>, Fault>
    requires { i ≤ ts.count }
    ensures { Told result_form (λ tok. result_of tok i) ts.entry.words.now ts.entry.count [] i 0 (told_result result) [] }
{
    if !ts.is(i, Kind::Colon) {
        return Ok(TypeRead {
            next: i,
            value_type: None,
        });
    }
    let typed = type_at(ts, i + 1)?;
    Ok(TypeRead {
        next: typed.next,
        value_type: Some(typed.value_type),
    })
}
