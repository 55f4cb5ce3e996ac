// "All arrays and functions have different names", and their sizes: the table of the globals, from the first item of the tree to the last.
ghost use Rattle.std.specs.Prelude.{◌≡◌, ◌+◌, ◌*◌, ◌≤◌, ◌<◌, length};
ghost use Rattle.language.specs.Rules.{most_elements_in_all};
ghost use Rattle.grammar.specs.Flat.{tree_room};
ghost use Rattle.rules.specs.Bounds.{most_entries, most_places};
ghost use Rattle.declarations.specs.Post.{globals_room, next_of, is_new, array_fits, function_fits, Adds, Few, Declares, DeclaresAll};

use crate::Tally;
use rules::Broken;
use rules::calls::PARAMETERS;
use rules::names::Name;
use rules::program::{
    GLOBAL_VALUE, GLOBAL_WORDS, Global, HEADER_SIZE, NAME_LENGTH, NAME_PLACE, Program, is_array,
};
use word::lists::word;

// Words of room for the table.
pub const GLOBALS_ROOM: usize = 640;

// "an array has 1 to 4,096 elements; at most 64 arrays, 16,384 elements in all; 256 functions; 8 parameters"
const MOST_ELEMENTS: u32 = 4096;

const MOST_ARRAYS: u32 = 64;

const MOST_ELEMENTS_IN_ALL: u32 = 16384;

const MOST_FUNCTIONS: u32 = 256;

pub const MOST_PARAMETERS: u32 = 8;

// Words of an item's header and of a parameter; which word of a function's header says how many words its body has.
pub const HEADER_WORDS: usize = 8;

pub const PARAMETER_WORDS: usize = 3;

pub const BODY_WORDS: usize = 6;

// Where the item after the one at p stands.
pub fn next(tree: &[u32], p: usize) -> usize
    requires { p ≤ most_places }
    ensures { result ≡ next_of tree.now p }
{
    if is_array(tree, p) {
        return p + HEADER_WORDS;
    }
    let n = word(tree, p + PARAMETERS);
    let body = word(tree, p + BODY_WORDS);
    p + HEADER_WORDS + PARAMETER_WORDS * n as usize + body as usize
}

// Whether no array or function so far has the name of the item at p.
pub fn is_new(text: &[u8], tree: &[u32], globals: &[u32], g: usize, p: usize) -> bool
    requires { (g ≤ most_entries) × (p ≤ most_places) }
    ensures { result ≡ is_new text.now tree.now globals.now g p }
{
    let program = Program {
        text,
        tree,
        globals,
        count: g,
    };
    let place = word(tree, p + NAME_PLACE);
    let length = word(tree, p + NAME_LENGTH);
    program.find_global(Name { place, length }).is_none()
}

// Whether an array of n elements is allowed.
pub fn array_fits(arrays: u32, elements: u32, n: u32) -> bool
    requires { elements ≤ most_elements_in_all }
    ensures { result ≡ array_fits arrays elements n }
{
    if n < 1 {
        return false;
    }
    if MOST_ELEMENTS < n {
        return false;
    }
    if MOST_ARRAYS <= arrays {
        return false;
    }
    elements + n <= MOST_ELEMENTS_IN_ALL
}

// Whether a function of n parameters is allowed.
pub fn function_fits(functions: u32, n: u32) -> bool
    ensures { result ≡ function_fits functions n }
{
    if MOST_FUNCTIONS <= functions {
        return false;
    }
    n <= MOST_PARAMETERS
}

// An entry more, after g of them.
pub fn add(globals: &mut [u32], g: usize, global: Global)
    requires { (g ≤ most_entries) × (2 * g + 2 ≤ length globals.old) }
    ensures { Adds globals.old g global.header global.value globals.new }
{
    let i = GLOBAL_WORDS * g;
    globals[i] = global.header;
    globals[i + GLOBAL_VALUE] = global.value;
}

// The item at p is declared, after so many.
pub fn declare(
    text: &[u8],
    tree: &[u32],
    globals: &mut [u32],
    p: usize,
    tally: Tally,
) -> Result<Tally, Broken>
    requires { (globals_room ≤ length globals.old) × (p < tree_room) × Few tally.arrays tally.elements tally.functions }
    ensures { Declares text.now tree.now p globals.old tally.arrays tally.elements tally.functions result globals.new }
{
    let at = word(tree, p + NAME_PLACE) as usize;
    let g = (tally.arrays + tally.functions) as usize;
    if !is_new(text, tree, globals, g, p) {
        return Err(Broken(at));
    }
    let n = word(tree, p + HEADER_SIZE);
    let header = p as u32;
    if is_array(tree, p) {
        if !array_fits(tally.arrays, tally.elements, n) {
            return Err(Broken(at));
        }
        let value = tally.elements;
        add(globals, g, Global { header, value });
        return Ok(Tally {
            arrays: tally.arrays + 1,
            elements: tally.elements + n,
            ..tally
        });
    }
    if !function_fits(tally.functions, n) {
        return Err(Broken(at));
    }
    let value = tally.functions;
    add(globals, g, Global { header, value });
    Ok(Tally {
        functions: tally.functions + 1,
        ..tally
    })
}

// All items, in the `words` words of the tree.
pub fn declare_all(
    text: &[u8],
    tree: &[u32],
    words: usize,
    globals: &mut [u32],
) -> Result<Tally, Broken>
    requires { (globals_room ≤ length globals.old) × (words ≤ tree_room) }
    ensures { DeclaresAll text.now tree.now words result globals.new }
{
    let mut p: usize = 0;
    let mut tally = Tally {
        arrays: 0,
        elements: 0,
        functions: 0,
    };
    // a walk and no count: an item's header says how far it reaches
    while p < words {
        tally = declare(text, tree, globals, p, tally)?;
        p = next(tree, p);
    }
    Ok(tally)
}
