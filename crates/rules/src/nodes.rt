// What an item of the tree becomes, by its kind: rules of document 01 §4 for names, operators and calls.
ghost use Rattle.std.specs.Prelude.{◌≡◌, ℕ, ◌≤◌, eqb, ltb};
ghost use Rattle.rules.specs.Bounds.{most_entries, most_places};
ghost use Rattle.rules.specs.Tables.{locals_in};
ghost use Rattle.rules.specs.Values.{meant, held, node_in, made, globals_of};
ghost use Rattle.rules.specs.Scan.{leaf as leaf_of, name_node, element_node, unary_node, strict_node, mark_node, join_node};
ghost use Rattle.rules.specs.Post.{Reads};
ghost use Rattle.word.specs.Choice.{pick};
ghost use Rattle.language.specs.Tree.{int, bool};

use crate::names::{Name, find_local};
use crate::operands::Operand;
use crate::program::{HEADER_SIZE, Program, is_array};
use crate::types::Typed;
use flat::item::Kind;
use flat::number::Numbered;
use flat::operator::{Strict, Unary};
use grammar::tree::ValueType;
use word::lists::word;

// An item of the tree: its kind's number, its place, two words that the kind has a use for, and where the core's item goes, counted from the
// expression's first. `node` reads the kind back: where the number is no kind's, the place is what is reported.
#[derive(Clone, Copy)]
pub struct TreeItem {
    pub kind: u32,
    pub place: u32,
    pub a: u32,
    pub b: u32,
    pub here: u32,
}

// The item at p.
pub fn item_at(tree: &[u32], p: usize, here: u32) -> TreeItem
    requires { p ≤ most_places }
    ensures { Reads tree.now p result.kind result.place result.a result.b × (result.here ≡ here) }
{
    TreeItem {
        kind: word(tree, p),
        place: word(tree, p + 1),
        a: word(tree, p + 2),
        b: word(tree, p + 3),
        here,
    }
}

// What an item becomes: how many operands it takes, the one that it gives, how many nodes begin there, and the core's item, its kind by its number.
#[derive(Clone, Copy)]
pub struct Made {
    pub takes: u32,
    pub gives: Operand<ValueType>,
    pub begins: u32,
    pub kind: u32,
    pub a: u32,
    pub b: u32,
}

// A number, a truth or a local.
pub fn leaf<T: Typed, K: Numbered>(ty: T, here: u32, kind: K, a: u32) -> Made
    ensures { node_in result ≡ leaf_of (T.type_named ty) here (K.number_of kind) a }
{
    Made {
        takes: 0,
        gives: Operand {
            ty: ty.value_type(),
            start: here,
        },
        begins: 1,
        kind: kind.number(),
        a,
        b: 0,
    }
}

// A name: a visible local.
pub fn name(text: &[u8], locals: &[u32], count: usize, name: Name, here: u32) -> Option<Made>
    requires { count ≤ most_entries }
    ensures { made result ≡ name_node text.now (locals_in text.now locals.now count) name.place name.length here }
{
    let local = find_local(text, locals, count, name)?;
    Some(leaf(local.ty, here, Kind::Local, local.slot))
}

// An element of an array, at an index.
pub fn element<T: Typed>(program: &Program, name: Name, index: Operand<T>) -> Option<Made>
    ensures { made result ≡ element_node program.now.text.now (globals_of program.now) name.place name.length (held T.type_named index) }
{
    let array = program.find_global(name)?;
    let header = array.header as usize;
    if !is_array(program.tree, header) {
        return None;
    }
    if index.ty.value_type() != ValueType::Int {
        return None;
    }
    let size = word(program.tree, header + HEADER_SIZE);
    Some(Made {
        takes: 1,
        gives: Operand {
            ty: ValueType::Int,
            start: index.start,
        },
        begins: 1,
        kind: Kind::Element as u32,
        a: array.value,
        b: size,
    })
}

// What an operator with one side takes and gives: `-` an int, `!` a bool, as a number that no operator has.
fn unary_type(a: u32) -> ValueType
    ensures { meant result ≡ pick (eqb a 0) int bool }
{
    match Unary::try_from(a) {
        Ok(Unary::Negate) => ValueType::Int,
        _ => ValueType::Bool,
    }
}

// An operator with one side, by its number, of which `unary_node` speaks and which is the core's item's.
pub fn unary<T: Typed>(a: u32, operand: Operand<T>) -> Option<Made>
    ensures { made result ≡ unary_node a (held T.type_named operand) }
{
    let ty = unary_type(a);
    if operand.ty.value_type() != ty {
        return None;
    }
    Some(Made {
        takes: 1,
        gives: Operand {
            ty,
            start: operand.start,
        },
        begins: 1,
        kind: Kind::Unary as u32,
        a,
        b: 0,
    })
}

// What an operator that evaluates both sides takes, whose left side is of this type, and what it gives. A number that no operator has takes and gives
// ints.
fn strict_types<T: Typed>(a: u32, left: T) -> (ValueType, ValueType)
    ensures takes { meant result.0 ≡ pick (ltb a 2) (T.type_named left) int }
    ensures gives { meant result.1 ≡ pick (ltb a 6) bool int }
{
    match Strict::try_from(a) {
        Ok(Strict::Eq | Strict::Ne) => (left.value_type(), ValueType::Bool),
        Ok(Strict::Lt | Strict::Le | Strict::Gt | Strict::Ge) => (ValueType::Int, ValueType::Bool),
        _ => (ValueType::Int, ValueType::Int),
    }
}

// An operator that evaluates both sides, by its number: `strict_node` speaks of each number and puts the number itself into the core's item.
pub fn strict<L: Typed, R: Typed>(a: u32, left: Operand<L>, right: Operand<R>) -> Option<Made>
    ensures { (j : ℕ) → made result ≡ strict_node a (held L.type_named left) (record { type = R.type_named right.ty; start = j }) }
{
    let (wanted, ty) = strict_types(a, left.ty);
    if left.ty.value_type() != wanted {
        return None;
    }
    if right.ty.value_type() != wanted {
        return None;
    }
    Some(Made {
        takes: 2,
        gives: Operand {
            ty,
            start: left.start,
        },
        begins: 1,
        kind: Kind::Strict as u32,
        a,
        b: 0,
    })
}

// `&&` or `||` after its left side.
pub fn mark<K: Numbered, T: Typed>(kind: K, a: u32, left: Operand<T>) -> Made
    ensures { node_in result ≡ mark_node (K.number_of kind) a (held T.type_named left) }
{
    Made {
        takes: 1,
        gives: Operand {
            ty: left.ty.value_type(),
            start: left.start,
        },
        begins: 0,
        kind: kind.number(),
        a,
        b: 0,
    }
}

// `&&` or `||` after both sides.
pub fn join<L: Typed, R: Typed>(left: Operand<L>, right: Operand<R>) -> Option<Made>
    ensures { (j : ℕ) → made result ≡ join_node (held L.type_named left) (record { type = R.type_named right.ty; start = j }) }
{
    if left.ty.value_type() != ValueType::Bool {
        return None;
    }
    if right.ty.value_type() != ValueType::Bool {
        return None;
    }
    Some(Made {
        takes: 2,
        gives: Operand {
            ty: ValueType::Bool,
            start: left.start,
        },
        begins: 1,
        kind: Kind::Join as u32,
        a: 0,
        b: 0,
    })
}
