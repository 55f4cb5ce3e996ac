// A store to an element: both expressions first, then the statement's own rules, then its header.
ghost use Rattle.std.specs.Prelude.{◌+◌, ◌*◌, ◌≤◌, drop};
ghost use Rattle.language.specs.Tree.{store as store_of};
ghost use Rattle.rules.specs.Tables.{part, locals_in};
ghost use Rattle.rules.specs.Values.{globals_of};
ghost use Rattle.rules.specs.Post.{Elaborates};
ghost use Rattle.rules.specs.Statements.{Moves, StmtRoom, StatesTwo};

use crate::expression::{expression, first_expression};
use crate::head::{Head, header_of_two};
use crate::names::Name;
use crate::nodes::element;
use crate::operands::Operand;
use crate::program::Program;
use crate::types::ResultType;
use crate::{Broken, Scope, Spot};
use flat::statement::Kind;
use grammar::tree::ValueType;

// The second expression of the statement whose header stands here, after the items of the first.
fn second_expression<R: Copy, K: Copy>(
    program: &Program,
    locals: &[u32],
    types: &mut [u32],
    starts: &mut [u32],
    core: &mut [u32],
    spot: Spot<R>,
    head: Head<K>,
) -> Result<ValueType, Broken>
    requires { StmtRoom program.now.tree.now locals.now spot.scope.visible spot.scope.count types.old starts.old core.old spot.tree spot.core head.rest }
    ensures { 4 * head.first ≤ head.rest → Elaborates program.now.text.now (globals_of program.now) (locals_in program.now.text.now locals.now spot.scope.visible)
        head.second (drop (spot.tree + 8 + 4 * head.first) program.now.tree.now) (spot.core + 8 + 4 * head.first) core.old result core.new }
{
    let items = 4 * head.first as usize;
    // no statement has fewer words than its first expression
    if (head.rest as usize) < items {
        return Err(Broken(0));
    }
    let mut second = spot;
    second.tree = spot.tree + 8 + items;
    second.core = spot.core + 8 + items;
    let n = head.second;
    expression(program, locals, types, starts, core, second, n)
}

// "Array elements and indices are int."
pub fn store<R: ResultType, K: Copy>(
    program: &Program,
    locals: &[u32],
    types: &mut [u32],
    starts: &mut [u32],
    core: &mut [u32],
    spot: Spot<R>,
    head: Head<K>,
) -> Result<Scope, Broken>
    requires { StmtRoom program.now.tree.now locals.now spot.scope.visible spot.scope.count types.old starts.old core.old spot.tree spot.core head.rest }
    ensures states_two { StatesTwo program.now.text.now (globals_of program.now) locals.now spot.scope.visible spot.scope.count (R.result_named spot.result)
        (λ i e. store_of head.at (part program.now.text.now head.at head.size) i e) head.first head.second head.rest (drop (spot.tree + 8) program.now.tree.now) spot.core core.old result locals.now core.new }
    ensures moves { Moves spot.scope.visible spot.scope.count locals.now result locals.now }
{
    let ty = first_expression(program, locals, types, starts, core, spot, head)?;
    let value = second_expression(program, locals, types, starts, core, spot, head)?;
    let name = Name {
        place: head.at,
        length: head.size,
    };
    let index = Operand { ty, start: 0 };
    let Some(a) = element(program, name, index) else {
        return Err(Broken(head.at as usize));
    };
    if value != ValueType::Int {
        return Err(Broken(head.at as usize));
    }
    header_of_two(core, spot.core, Kind::Store, a.a, a.b, head);
    Ok(spot.scope)
}
