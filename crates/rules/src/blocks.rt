// Blocks, statement by statement, and statements that have blocks. A block's locals end with it, and stay counted.
ghost use Rattle.std.specs.Prelude.{◌≡◌, ◌+◌, ◌*◌, ◌≤◌, length, drop};
ghost use Rattle.std.proofs.lemmas.List.Edits.{sets};
ghost use Rattle.grammar.specs.Numbers.{number_of_statement};
ghost use Rattle.rules.specs.Tables.{locals_in};
ghost use Rattle.rules.specs.Values.{result_in, globals_of};
ghost use Rattle.rules.specs.Post.{Room};
ghost use Rattle.rules.specs.Statements.{Headed, Moves, BlockRoom, StmtRoom, Statement as StatesOne, Conditions, nest_words, Branches, Blocks, holds_blocks};

use crate::expression::first_expression;
use crate::head::{Head, header_of_blocks};
use crate::program::Program;
use crate::simple::simple;
use crate::{Broken, Scope, Spot};
use flat::statement::Kind;
use grammar::tree::{Statement, ValueType};

// Whether a statement of this kind has blocks.
fn holds_blocks(kind: Statement) -> bool
    ensures { result ≡ holds_blocks (number_of_statement kind) }
{
    matches!(kind, Statement::Choose | Statement::While | Statement::When)
}

// "conditions take bools": the condition of the statement whose header stands here.
fn condition(
    program: &Program,
    locals: &[u32],
    types: &mut [u32],
    starts: &mut [u32],
    core: &mut [u32],
    spot: Spot<Option<ValueType>>,
    head: Head<Statement>,
) -> Result<(), Broken>
    requires { Room program.now.tree.now spot.scope.visible types.old starts.old core.old (spot.tree + 8) (spot.core + 8) }
    ensures { Conditions program.now.text.now (globals_of program.now) (locals_in program.now.text.now locals.now spot.scope.visible)
        head.at head.first (drop (spot.tree + 8) program.now.tree.now) (spot.core + 8) core.old result core.new }
{
    let ty = first_expression(program, locals, types, starts, core, spot, head)?;
    if ty != ValueType::Bool {
        return Err(Broken(head.at as usize));
    }
    Ok(())
}

// The header of a statement with blocks: of `if`, its second word is how many words the first block has.
fn nest(core: &mut [u32], q: usize, head: Head<Statement>)
    requires { q + 8 ≤ length core.old }
    ensures { core.new ≡ sets core.old q (nest_words (number_of_statement head.kind) head.size head.first head.body head.other head.rest) }
{
    match head.kind {
        Statement::While => header_of_blocks(core, q, Kind::While, 0, head),
        _ => header_of_blocks(core, q, Kind::Choose, head.size, head),
    }
}

// The body of the statement whose header stands here, then its other block, which is empty unless there is an `else`.
#[cycle(block_branches_stmt)]
fn branches(
    program: &Program,
    locals: &mut [u32],
    types: &mut [u32],
    starts: &mut [u32],
    core: &mut [u32],
    spot: Spot<Option<ValueType>>,
    head: Head<Statement>,
) -> Result<u32, Broken>
    requires { StmtRoom program.now.tree.now locals.old spot.scope.visible spot.scope.count types.old starts.old core.old spot.tree spot.core head.rest × (4 * head.first + head.size ≤ head.rest) }
    ensures { Branches program.now.text.now (globals_of program.now) locals.old spot.scope.visible spot.scope.count (result_in spot.result) program.now.tree.now spot.tree spot.core
        (8 + 4 * head.first) head.body (8 + 4 * head.first + head.size) head.other core.old result locals.new core.new }
{
    let a = 8 + 4 * head.first as usize;
    let mut body = spot;
    body.tree += a;
    body.core += a;
    let n = head.body;
    let count = block(program, locals, types, starts, core, body, n)?;
    let b = a + head.size as usize;
    let mut other = spot;
    other.tree += b;
    other.core += b;
    other.scope.count = count;
    let m = head.other;
    block(program, locals, types, starts, core, other, m)
}

// A statement. If it has blocks, its condition comes first, then both, then its header.
#[cycle(block_branches_stmt)]
fn stmt(
    program: &Program,
    locals: &mut [u32],
    types: &mut [u32],
    starts: &mut [u32],
    core: &mut [u32],
    spot: Spot<Option<ValueType>>,
    head: Head<Statement>,
) -> Result<Scope, Broken>
    requires { StmtRoom program.now.tree.now locals.old spot.scope.visible spot.scope.count types.old starts.old core.old spot.tree spot.core head.rest × Headed (drop spot.tree program.now.tree.now) head }
    ensures statement { StatesOne program.now.text.now (globals_of program.now) locals.old spot.scope.visible spot.scope.count (result_in spot.result)
        (drop spot.tree program.now.tree.now) spot.core core.old result locals.new core.new }
    ensures moves { Moves spot.scope.visible spot.scope.count locals.old result locals.new }
{
    if !holds_blocks(head.kind) {
        return simple(program, locals, types, starts, core, spot, head);
    }
    if (head.rest as usize) < 4 * head.first as usize + head.size as usize {
        return Err(Broken(0));
    }
    condition(program, locals, types, starts, core, spot, head)?;
    let count = branches(program, locals, types, starts, core, spot, head)?;
    nest(core, spot.core, head);
    Ok(Scope {
        visible: spot.scope.visible,
        count,
    })
}

// The n statements from here on.
#[cycle(block_branches_stmt)]
pub fn block(
    program: &Program,
    locals: &mut [u32],
    types: &mut [u32],
    starts: &mut [u32],
    core: &mut [u32],
    spot: Spot<Option<ValueType>>,
    n: u32,
) -> Result<u32, Broken>
    requires { BlockRoom program.now.tree.now locals.old spot.scope.visible spot.scope.count types.old starts.old core.old spot.tree spot.core }
    ensures { Blocks program.now.text.now (globals_of program.now) locals.old spot.scope.visible spot.scope.count (result_in spot.result)
        n (drop spot.tree program.now.tree.now) spot.core core.old result locals.new core.new }
{
    let mut here = spot;
    for _ in 0..n {
        if program.tree.len() < here.tree + 8 {
            return Err(Broken(0));
        }
        let Some(head) = Head::read(program.tree, here.tree) else {
            return Err(Broken(0));
        };
        let size = 8 + head.rest as usize;
        if program.tree.len() < here.tree + size {
            return Err(Broken(0));
        }
        here.scope = stmt(program, locals, types, starts, core, here, head)?;
        here.tree += size;
        here.core += size;
    }
    Ok(here.scope.count)
}
