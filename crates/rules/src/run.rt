// A call as a statement: "as a statement it may, and the result is dropped".
ghost use Rattle.std.specs.Prelude.{◌+◌, ◌-◌, ◌<◌, drop};
ghost use Rattle.rules.specs.Tables.{part, locals_in};
ghost use Rattle.rules.specs.Values.{globals_of};
ghost use Rattle.rules.specs.Post.{Scans};
ghost use Rattle.rules.specs.Statements.{Moves, StmtRoom, Runs};

use crate::calls::dropped;
use crate::head::{Head, header_of_one};
use crate::operands::item as put_item;
use crate::program::Program;
use crate::scan::scan;
use crate::types::ResultType;
use crate::{Broken, Scope, Spot};
use flat::statement::Kind;
use word::lists::word;

// The items of the call whose header stands here, but for the last, which is its own.
fn call_arguments<R: Copy, K: Copy>(
    program: &Program,
    locals: &[u32],
    types: &mut [u32],
    starts: &mut [u32],
    core: &mut [u32],
    spot: Spot<R>,
    head: Head<K>,
) -> Result<usize, Broken>
    requires { StmtRoom program.now.tree.now locals.now spot.scope.visible spot.scope.count types.old starts.old core.old spot.tree spot.core head.rest × (0 < head.first) }
    ensures { Scans program.now.text.now (globals_of program.now) (locals_in program.now.text.now locals.now spot.scope.visible)
        (head.first - 1) (drop (spot.tree + 8) program.now.tree.now) (spot.core + 8) core.old result types.new starts.new core.new }
{
    let mut first = spot;
    first.tree += 8;
    first.core += 8;
    let n = head.first - 1;
    scan(program, locals, types, starts, core, first, n)
}

// The arguments' items, then the call's own rules, then its item and the header.
pub fn run<R: ResultType, K: Copy>(
    program: &Program,
    locals: &[u32],
    types: &mut [u32],
    starts: &mut [u32],
    core: &mut [u32],
    spot: Spot<R>,
    head: Head<K>,
) -> Result<Scope, Broken>
    requires { StmtRoom program.now.tree.now locals.now spot.scope.visible spot.scope.count types.old starts.old core.old spot.tree spot.core head.rest }
    ensures runs { Runs program.now.text.now (globals_of program.now) locals.now spot.scope.visible spot.scope.count (R.result_named spot.result)
        head.at (part program.now.text.now head.at head.size) head.first head.rest (drop (spot.tree + 8) program.now.tree.now) spot.core core.old result locals.now core.new }
    ensures moves { Moves spot.scope.visible spot.scope.count locals.now result locals.now }
{
    if head.first == 0 {
        return Err(Broken(0));
    }
    let last = 4 * (head.first as usize - 1);
    if (head.rest as usize) < last + 4 {
        return Err(Broken(0));
    }
    let h = call_arguments(program, locals, types, starts, core, spot, head)?;
    let n = word(program.tree, spot.tree + 8 + last + 3);
    let Some(m) = dropped(program, types, starts, h, head, n) else {
        return Err(Broken(head.at as usize));
    };
    put_item(core, spot.core + 8 + last, m.kind, m.a, m.b);
    header_of_one(core, spot.core, Kind::Run, 0, head);
    Ok(spot.scope)
}
