// Statements with no block: one function for each kind.
ghost use Rattle.std.specs.Prelude.{◌≡◌, false, drop};
ghost use Rattle.rules.specs.Values.{globals_of};
ghost use Rattle.rules.specs.Statements.{Heads, Moves, StmtRoom, Statement as StatesOne, holds_blocks};

use crate::head::{Head, StatementKind};
use crate::program::Program;
use crate::run::run;
use crate::single::{assign, declare, emit, give, leave};
use crate::store::store;
use crate::types::ResultType;
use crate::{Broken, Scope, Spot};
use grammar::tree::Statement;

// The statement whose header stands here.
pub fn simple<R: ResultType, K: StatementKind>(
    program: &Program,
    locals: &mut [u32],
    types: &mut [u32],
    starts: &mut [u32],
    core: &mut [u32],
    spot: Spot<R>,
    head: Head<K>,
) -> Result<Scope, Broken>
    requires { StmtRoom program.now.tree.now locals.old spot.scope.visible spot.scope.count types.old starts.old core.old spot.tree spot.core head.rest × Heads (drop spot.tree program.now.tree.now) (K.number_of head.kind) head.at head.size head.first head.second head.body head.other head.rest }
    ensures statement { holds_blocks (K.number_of head.kind) ≡ false → StatesOne program.now.text.now (globals_of program.now) locals.old spot.scope.visible spot.scope.count (R.result_named spot.result)
        (drop spot.tree program.now.tree.now) spot.core core.old result locals.new core.new }
    ensures moves { Moves spot.scope.visible spot.scope.count locals.old result locals.new }
{
    // no statement has a number that is no kind's
    let Some(kind) = head.kind.statement() else {
        return Err(Broken(0));
    };
    match kind {
        Statement::Assign => assign(program, locals, types, starts, core, spot, head),
        Statement::Store => store(program, locals, types, starts, core, spot, head),
        Statement::Leave => leave(core, spot, head),
        Statement::Give => give(program, locals, types, starts, core, spot, head),
        Statement::Emit => emit(program, locals, types, starts, core, spot, head),
        Statement::Run => run(program, locals, types, starts, core, spot, head),
        Statement::DeclareInt => declare(program, locals, types, starts, core, spot, head),
        Statement::DeclareBool => declare(program, locals, types, starts, core, spot, head),
        // these have blocks
        _ => Err(Broken(0)),
    }
}
