// Calls: "Calls have the right number and types of arguments." The arguments are the uppermost operands.
ghost use Rattle.std.specs.Prelude.{◌≡◌, ◌+◌, ◌≤◌};
ghost use Rattle.rules.specs.Bounds.{most_places};
ghost use Rattle.rules.specs.Tables.{signature};
ghost use Rattle.rules.specs.Values.{made, globals_of};
ghost use Rattle.rules.specs.Scan.{first_start, call_node, called_node};
ghost use Rattle.rules.specs.Post.{operands_in};
ghost use Rattle.rules.specs.Statements.{dropped_node};

use crate::head::Head;
use crate::names::Name;
use crate::nodes::{Made, TreeItem};
use crate::operands::{Operand, top};
use crate::program::{Global, Program};
use crate::types::{Typed, result_type, same_types};
use flat::item::Kind;
use grammar::tree::ValueType;
use word::lists::word;

// Which word of a function's header is what; where its first parameter's type stands.
pub const PARAMETERS: usize = 3;

pub const RESULT: usize = 4;

pub const FIRST_TYPE: usize = 10;

// Where a call begins: at its first argument, if it has one.
pub fn first_start(types: &[u32], starts: &[u32], h: usize, n: u32, here: u32) -> u32
    ensures { result ≡ first_start n here (operands_in types.now starts.now h) }
{
    if n == 0 {
        return here;
    }
    let o = top(types, starts, h, n as usize - 1);
    o.start
}

// A call of a function, with the n uppermost operands.
pub fn arguments<T: Typed>(
    tree: &[u32],
    types: &[u32],
    starts: &[u32],
    h: usize,
    f: Global,
    n: u32,
    here: u32,
    begins: u32,
    ty: T,
) -> Option<Made>
    requires { h ≤ most_places }
    ensures { made result ≡ call_node (signature tree.now f.header f.value) n here begins (T.type_named ty) (operands_in types.now starts.now h) }
{
    if h < n as usize {
        return None;
    }
    let header = f.header as usize;
    let m = word(tree, header + PARAMETERS);
    if m != n {
        return None;
    }
    if !same_types(types, h - n as usize, tree, header + FIRST_TYPE, n) {
        return None;
    }
    let start = first_start(types, starts, h, n, here);
    Some(Made {
        takes: n,
        gives: Operand {
            ty: ty.value_type(),
            start,
        },
        begins,
        kind: Kind::Call as u32,
        a: f.value,
        b: n,
    })
}

// A call in an expression: the function must have a result type.
pub fn call(
    program: &Program,
    types: &[u32],
    starts: &[u32],
    h: usize,
    this: TreeItem,
) -> Option<Made>
    requires { h ≤ most_places }
    ensures { made result ≡ called_node program.now.text.now (globals_of program.now) this.place this.a this.b this.here (operands_in types.now starts.now h) }
{
    let f = program.find_function(Name {
        place: this.place,
        length: this.a,
    })?;
    let tree = program.tree;
    let ty = result_type(word(tree, f.header as usize + RESULT))?;
    arguments(tree, types, starts, h, f, this.b, this.here, 1, ty)
}

// A call as a statement, with n arguments: its result, if the function has one, is dropped.
pub fn dropped<K: Copy>(
    program: &Program,
    types: &[u32],
    starts: &[u32],
    h: usize,
    head: Head<K>,
    n: u32,
) -> Option<Made>
    requires { h ≤ most_places }
    ensures { made result ≡ dropped_node program.now.text.now (globals_of program.now) head.at head.size n (operands_in types.now starts.now h) }
{
    let f = program.find_function(Name {
        place: head.at,
        length: head.size,
    })?;
    let tree = program.tree;
    arguments(tree, types, starts, h, f, n, 0, 0, ValueType::Int)
}
