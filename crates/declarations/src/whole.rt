// The whole of document 01 §4: the declarations, `main`, the functions.
ghost use Rattle.std.specs.Prelude.{◌≡◌, [], ◌∷◌, ◌≤◌, length};
ghost use Rattle.std.proofs.lemmas.List.Edits.{sets};
ghost use Rattle.language.specs.Rules.{most_functions};
ghost use Rattle.grammar.specs.Flat.{tree_room};
ghost use Rattle.rules.specs.Values.{globals_of};
ghost use Rattle.declarations.specs.Post.{Rooms, Lent, Builds, Elaborates};

use crate::Tally;
use crate::entry::main_of;
use crate::functions::functions;
use crate::globals::declare_all;
use flat::program;
use rules::Broken;
use rules::program::Program;

// Words of room for locals, for each of the two rows of operands, and for the core.
pub const LOCALS_ROOM: usize = 260;

pub const OPERANDS_ROOM: usize = 131072;

pub const CORE_ROOM: usize = 525315;

// A program's first words: how many functions, main's number, how many elements the arrays have together. Store by store, since a slice would drop the
// words' names.
pub fn put_header(core: &mut [u32], functions: u32, main: u32, elements: u32)
    requires { 3 ≤ length core.old }
    ensures { core.new ≡ sets core.old 0 (functions ∷ main ∷ elements ∷ []) }
{
    core[program::FUNCTIONS as usize] = functions;
    core[program::MAIN as usize] = main;
    core[program::ELEMENTS as usize] = elements;
}

// After the declarations: `main`, and then the functions.
pub fn build(
    program: &Program,
    words: usize,
    locals: &mut [u32],
    types: &mut [u32],
    starts: &mut [u32],
    core: &mut [u32],
    tally: Tally,
) -> Result<usize, Broken>
    requires { Rooms program.now.tree.now locals.old types.old starts.old core.old × (words ≤ tree_room) × (tally.functions ≤ most_functions) }
    ensures { Builds program.now.text.now program.now.tree.now words (globals_of program.now) tally.functions tally.elements core.old result core.new }
{
    let main = main_of(program)?;
    let total = tally.functions;
    put_header(core, total, main, tally.elements);
    let reached = functions(program, words, locals, types, starts, core, total)?;
    Ok(reached.core)
}

// The core program of a text whose tree stands in the first `words` words of `tree`, in the first words of `core`; or the place of a broken rule.
pub fn elaborate(
    text: &[u8],
    tree: &[u32],
    words: usize,
    globals: &mut [u32],
    locals: &mut [u32],
    types: &mut [u32],
    starts: &mut [u32],
    core: &mut [u32],
) -> Result<usize, Broken>
    requires { Lent tree.now words globals.old locals.old types.old starts.old core.old }
    ensures { Elaborates text.now tree.now words core.old result core.new }
{
    let tally = declare_all(text, tree, words, globals)?;
    let count = (tally.arrays + tally.functions) as usize;
    let program = Program {
        text,
        tree,
        globals,
        count,
    };
    build(&program, words, locals, types, starts, core, tally)
}
