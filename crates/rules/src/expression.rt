// An expression: its core, and its type.
ghost use Rattle.std.specs.Prelude.{◌+◌, drop};
ghost use Rattle.rules.specs.Tables.{locals_in};
ghost use Rattle.rules.specs.Values.{globals_of};
ghost use Rattle.rules.specs.Post.{Room, Elaborates};

use crate::head::Head;
use crate::operands::top;
use crate::program::Program;
use crate::scan::scan;
use crate::{Broken, Spot};
use grammar::tree::ValueType;

// The expression of n items that stands here.
pub fn expression<R: Copy>(
    program: &Program,
    locals: &[u32],
    types: &mut [u32],
    starts: &mut [u32],
    core: &mut [u32],
    spot: Spot<R>,
    n: u32,
) -> Result<ValueType, Broken>
    requires { Room program.now.tree.now spot.scope.visible types.old starts.old core.old spot.tree spot.core }
    ensures { Elaborates program.now.text.now (globals_of program.now) (locals_in program.now.text.now locals.now spot.scope.visible)
        n (drop spot.tree program.now.tree.now) spot.core core.old result core.new }
{
    let h = scan(program, locals, types, starts, core, spot, n)?;
    let o = top(types, starts, h, 0);
    Ok(o.ty)
}

// The first expression of the statement whose header stands here.
pub fn first_expression<R: Copy, K: Copy>(
    program: &Program,
    locals: &[u32],
    types: &mut [u32],
    starts: &mut [u32],
    core: &mut [u32],
    spot: Spot<R>,
    head: Head<K>,
) -> Result<ValueType, Broken>
    requires { Room program.now.tree.now spot.scope.visible types.old starts.old core.old (spot.tree + 8) (spot.core + 8) }
    ensures { Elaborates program.now.text.now (globals_of program.now) (locals_in program.now.text.now locals.now spot.scope.visible)
        head.first (drop (spot.tree + 8) program.now.tree.now) (spot.core + 8) core.old result core.new }
{
    let mut first = spot;
    first.tree += 8;
    first.core += 8;
    let n = head.first;
    expression(program, locals, types, starts, core, first, n)
}
