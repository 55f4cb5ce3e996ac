// Document 01 §2 to §4: from a text to its program's words, in working room.
ghost use Rattle.std.specs.Prelude.{◌≡◌, ◌≤◌, length};
ghost use Rattle.tokens.specs.Kinds.{token_room};
ghost use Rattle.grammar.specs.Flat.{tree_room};
ghost use Rattle.toolchain.specs.Checking.{Enough, work, starts_room, core_room};
ghost use Rattle.toolchain.specs.Accepting.{Accepts, Elaborated, elements_of};

use crate::refusals::Refusal;
use crate::work::TREE_ROOM;
use declarations::globals::GLOBALS_ROOM;
use declarations::whole::{LOCALS_ROOM, elaborate};
use flat::program;
use grammar::parse;
use interpreter::words::field;

// How many words the program of a tree takes that `parse` wrote, of so many words.
fn elaborated(
    text: &[u8],
    tree: &[u32],
    words: usize,
    types: &mut [u32],
    starts: &mut [u32],
    core: &mut [u32],
) -> Result<usize, Refusal>
    requires { (length tree.now ≡ tree_room) × (words ≤ tree_room) × (starts_room ≤ length types.old) × (starts_room ≤ length starts.old) × (core_room ≤ length core.old) }
    ensures { Elaborated text.now tree.now words result core.new }
{
    let mut globals = [0u32; GLOBALS_ROOM];
    let mut locals = [0u32; LOCALS_ROOM];
    let size = elaborate(
        text,
        tree,
        words,
        &mut globals,
        &mut locals,
        types,
        starts,
        core,
    )?;
    Ok(size)
}

// How many words of the core's buffer the program of a text takes, in a tree's whole room.
fn read(
    text: &[u8],
    tokens: &mut [u32],
    tree: &mut [u32],
    starts: &mut [u32],
    core: &mut [u32],
) -> Result<usize, Refusal>
    requires { (length tree.old ≡ tree_room) × (token_room ≤ length tokens.old) × (starts_room ≤ length starts.old) × (core_room ≤ length core.old) }
    ensures { Accepts text.now result core.new }
{
    let parsed = parse(text, tokens, tree)?;
    elaborated(text, tree, parsed.words, tokens, starts, core)
}

// How many words of the core's buffer the program of a text takes.
pub fn accept(
    text: &[u8],
    tokens: &mut [u32],
    tree: &mut [u32],
    starts: &mut [u32],
    core: &mut [u32],
) -> Result<usize, Refusal>
    requires { Enough (work tokens.old tree.old starts.old core.old) }
    ensures { Accepts text.now result core.new }
{
    read(text, tokens, &mut tree[..TREE_ROOM], starts, core)
}

// How many elements the arrays of a program have together, by its words.
pub fn elements(core: &[u32]) -> u32
    ensures { result ≡ elements_of core.now }
{
    field(core, 0, program::ELEMENTS)
}
