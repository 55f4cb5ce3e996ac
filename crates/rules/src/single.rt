// Statements with one expression and no block: the expression first, then the statement's own rules, then its header.
ghost use Rattle.std.specs.Prelude.{◌≡◌, List, ℕ, ◌+◌, ◌*◌, ◌≤◌, length, drop};
ghost use Rattle.language.specs.Tree.{emit as emit_of, give as give_of, assign as assign_of, declare as declare_of};
ghost use Rattle.rules.specs.Bounds.{most_entries};
ghost use Rattle.rules.specs.Tables.{part};
ghost use Rattle.rules.specs.Values.{meant, globals_of};
ghost use Rattle.rules.specs.Post.{HeaderRoom, States, Leaves, Freshly};
ghost use Rattle.rules.specs.Statements.{Moves, declared_type};

use crate::expression::first_expression;
use crate::head::{CoreHead, Head, StatementKind, header_of_one};
use crate::names::{Local, Name, find_local};
use crate::program::Program;
use crate::types::ResultType;
use crate::{Broken, Scope, Spot};
use flat::program::MOST_LOCALS;
use flat::statement::Kind;
use grammar::tree::{Statement, ValueType};

// "`emit` takes an int."
pub fn emit<R: ResultType, K: Copy>(
    program: &Program,
    locals: &[u32],
    types: &mut [u32],
    starts: &mut [u32],
    core: &mut [u32],
    spot: Spot<R>,
    head: Head<K>,
) -> Result<Scope, Broken>
    requires { HeaderRoom program.now.tree.now spot.scope.visible types.old starts.old core.old spot.tree spot.core }
    ensures states { States program.now.text.now (globals_of program.now) locals.now spot.scope.visible spot.scope.count (R.result_named spot.result)
        (λ e. emit_of head.at e) head.first head.rest (drop (spot.tree + 8) program.now.tree.now) spot.core core.old result locals.now core.new }
    ensures moves { Moves spot.scope.visible spot.scope.count locals.now result locals.now }
{
    let ty = first_expression(program, locals, types, starts, core, spot, head)?;
    if ty != ValueType::Int {
        return Err(Broken(head.at as usize));
    }
    header_of_one(core, spot.core, Kind::Emit, 0, head);
    Ok(spot.scope)
}

// "A function with a result type returns that type everywhere. Others only use `return;`."
pub fn give<R: ResultType, K: Copy>(
    program: &Program,
    locals: &[u32],
    types: &mut [u32],
    starts: &mut [u32],
    core: &mut [u32],
    spot: Spot<R>,
    head: Head<K>,
) -> Result<Scope, Broken>
    requires { HeaderRoom program.now.tree.now spot.scope.visible types.old starts.old core.old spot.tree spot.core }
    ensures states { States program.now.text.now (globals_of program.now) locals.now spot.scope.visible spot.scope.count (R.result_named spot.result)
        (λ e. give_of head.at e) head.first head.rest (drop (spot.tree + 8) program.now.tree.now) spot.core core.old result locals.now core.new }
    ensures moves { Moves spot.scope.visible spot.scope.count locals.now result locals.now }
{
    let ty = first_expression(program, locals, types, starts, core, spot, head)?;
    let Some(wanted) = spot.result.named() else {
        return Err(Broken(head.at as usize));
    };
    if ty != wanted {
        return Err(Broken(head.at as usize));
    }
    header_of_one(core, spot.core, Kind::Give, 0, head);
    Ok(spot.scope)
}

// "assignments keep it": a visible local's type.
pub fn assign<R: ResultType, K: Copy>(
    program: &Program,
    locals: &[u32],
    types: &mut [u32],
    starts: &mut [u32],
    core: &mut [u32],
    spot: Spot<R>,
    head: Head<K>,
) -> Result<Scope, Broken>
    requires { HeaderRoom program.now.tree.now spot.scope.visible types.old starts.old core.old spot.tree spot.core }
    ensures states { States program.now.text.now (globals_of program.now) locals.now spot.scope.visible spot.scope.count (R.result_named spot.result)
        (λ e. assign_of head.at (part program.now.text.now head.at head.size) e) head.first head.rest (drop (spot.tree + 8) program.now.tree.now) spot.core core.old result locals.now core.new }
    ensures moves { Moves spot.scope.visible spot.scope.count locals.now result locals.now }
{
    let ty = first_expression(program, locals, types, starts, core, spot, head)?;
    let name = Name {
        place: head.at,
        length: head.size,
    };
    let Some(local) = find_local(program.text, locals, spot.scope.visible, name) else {
        return Err(Broken(head.at as usize));
    };
    if ty != local.ty {
        return Err(Broken(head.at as usize));
    }
    header_of_one(core, spot.core, Kind::Put, local.slot, head);
    Ok(spot.scope)
}

// "Others only use `return;`."
pub fn leave<R: ResultType, K: Copy>(
    core: &mut [u32],
    spot: Spot<R>,
    head: Head<K>,
) -> Result<Scope, Broken>
    requires { spot.core + 8 ≤ length core.old }
    ensures leaves { Leaves spot.scope.visible spot.scope.count (R.result_named spot.result) head.at spot.core core.old result core.new }
    ensures by_index { (locals : List ℕ) → Moves spot.scope.visible spot.scope.count locals result locals }
{
    if spot.result.named().is_some() {
        return Err(Broken(head.at as usize));
    }
    let header = CoreHead {
        kind: Kind::Leave,
        a: 0,
        b: 0,
        first: 0,
        second: 0,
        body: 0,
        other: 0,
        rest: 0,
    };
    header.write(core, spot.core);
    Ok(spot.scope)
}

// "No local or parameter may have the name of an array, a function, or another local or parameter visible there."
pub fn fresh(program: &Program, locals: &[u32], l: usize, name: Name) -> bool
    requires { l ≤ most_entries }
    ensures { Freshly program.now.text.now (globals_of program.now) locals.now l name.place name.length result }
{
    if program.find_global(name).is_some() {
        return false;
    }
    find_local(program.text, locals, l, name).is_none()
}

// The type that a declaration of this kind declares.
fn declared_type<K: StatementKind>(kind: K) -> ValueType
    ensures { meant result ≡ declared_type (K.number_of kind) }
{
    let Some(kind) = kind.statement() else {
        return ValueType::Int;
    };
    match kind {
        Statement::DeclareBool => ValueType::Bool,
        _ => ValueType::Int,
    }
}

// A local is declared: it is visible from the end of its `let`.
pub fn declare<R: ResultType, K: StatementKind>(
    program: &Program,
    locals: &mut [u32],
    types: &mut [u32],
    starts: &mut [u32],
    core: &mut [u32],
    spot: Spot<R>,
    head: Head<K>,
) -> Result<Scope, Broken>
    requires { HeaderRoom program.now.tree.now spot.scope.visible types.old starts.old core.old spot.tree spot.core × (4 * spot.scope.visible + 4 ≤ length locals.old) }
    ensures states { States program.now.text.now (globals_of program.now) locals.old spot.scope.visible spot.scope.count (R.result_named spot.result)
        (λ e. declare_of head.at (part program.now.text.now head.at head.size) (declared_type (K.number_of head.kind)) e) head.first head.rest (drop (spot.tree + 8) program.now.tree.now) spot.core core.old result locals.new core.new }
    ensures moves { Moves spot.scope.visible spot.scope.count locals.old result locals.new }
{
    let ty = first_expression(program, locals, types, starts, core, spot, head)?;
    let local = Local {
        name: Name {
            place: head.at,
            length: head.size,
        },
        ty: declared_type(head.kind),
        slot: spot.scope.count,
    };
    if ty != local.ty {
        return Err(Broken(head.at as usize));
    }
    if !fresh(program, locals, spot.scope.visible, local.name) {
        return Err(Broken(head.at as usize));
    }
    // "64 parameters and lets together per function"
    if MOST_LOCALS <= local.slot as usize {
        return Err(Broken(head.at as usize));
    }
    local.enter(locals, spot.scope.visible);
    header_of_one(core, spot.core, Kind::Put, local.slot, head);
    Ok(Scope {
        visible: spot.scope.visible + 1,
        count: local.slot + 1,
    })
}
