// Functions: the body of each and its entry among the core's words.
ghost use Rattle.std.specs.Prelude.{◌≡◌, [], ◌∷◌, ◌+◌, ◌*◌, ◌≤◌, ◌<◌, length, drop};
ghost use Rattle.std.proofs.lemmas.List.Edits.{sets};
ghost use Rattle.language.specs.Rules.{most_functions, most_parameters};
ghost use Rattle.grammar.specs.Flat.{tree_room};
ghost use Rattle.rules.specs.Bounds.{most_places, most_words};
ghost use Rattle.rules.specs.Values.{globals_of};
ghost use Rattle.declarations.specs.Post.{MustEnd, Rooms, Placed, Finishes, Makes, Passes, Fills};

use crate::globals::{BODY_WORDS, HEADER_WORDS, MOST_PARAMETERS, PARAMETER_WORDS, next};
use crate::parameters::parameters;
use crate::{Reached, Site};
use flat::program;
use rules::blocks::block;
use rules::calls::{PARAMETERS, RESULT};
use rules::endings::ends_in_return;
use rules::program::{NAME_PLACE, Program, is_array};
use rules::types::{ResultType, result_type};
use rules::{Broken, Scope, Spot};
use word::lists::word;

// Which word of a function's header says how many statements its body has.
const STATEMENTS: usize = 5;

// Whether a function's block ends in return where it must: the n statements from p on, and its result's type.
pub fn must_end<R: ResultType>(tree: &[u32], p: usize, n: u32, result_type: R) -> bool
    requires { (length tree.now ≤ most_words) × (p ≤ most_places) }
    ensures { MustEnd n (drop p tree.now) (R.result_named result_type) result }
{
    match result_type.named() {
        None => true,
        Some(_) => ends_in_return(tree, p, n),
    }
}

// A function's entry: its body's place, how many statements that has, its parameters, its lets.
#[derive(Clone, Copy)]
pub struct Entry {
    pub place: u32,
    pub statements: u32,
    pub parameters: u32,
    pub lets: u32,
}

impl Entry {
    // The entry stands at this word. Store by store, as a header (`rules::head::CoreHead::write`).
    pub fn write(self, core: &mut [u32], at: usize)
        requires { at + 4 ≤ length core.old }
        ensures { core.new ≡ sets core.old at (self.place ∷ self.statements ∷ self.parameters ∷ self.lets ∷ []) }
    {
        core[at] = self.place;
        core[at + 1] = self.statements;
        core[at + 2] = self.parameters;
        core[at + 3] = self.lets;
    }
}

// The body of the function here, which has n parameters, and its entry.
pub fn finish(
    program: &Program,
    locals: &mut [u32],
    types: &mut [u32],
    starts: &mut [u32],
    core: &mut [u32],
    site: Site,
    n: u32,
) -> Result<(), Broken>
    requires { Rooms program.now.tree.now locals.old types.old starts.old core.old × Placed site.item site.body site.entry × (n ≤ most_parameters) }
    ensures { Finishes program.now.text.now program.now.tree.now (globals_of program.now) locals.old site.item site.body site.entry n core.old result core.new }
{
    let tree = program.tree;
    let result = result_type(word(tree, site.item + RESULT));
    let many = word(tree, site.item + STATEMENTS);
    let first = site.item + HEADER_WORDS + PARAMETER_WORDS * n as usize;
    let body = Spot {
        tree: first,
        core: site.body,
        scope: Scope {
            visible: n as usize,
            count: n,
        },
        result,
    };
    let count = block(program, locals, types, starts, core, body, many)?;
    if !must_end(tree, first, many, result) {
        return Err(Broken(word(tree, site.item + NAME_PLACE) as usize));
    }
    let entry = Entry {
        place: site.body as u32,
        statements: many,
        parameters: n,
        lets: count - n,
    };
    entry.write(core, site.entry);
    Ok(())
}

// The function here: its body and its entry.
pub fn function(
    program: &Program,
    locals: &mut [u32],
    types: &mut [u32],
    starts: &mut [u32],
    core: &mut [u32],
    site: Site,
) -> Result<(), Broken>
    requires { Rooms program.now.tree.now locals.old types.old starts.old core.old × Placed site.item site.body site.entry }
    ensures { Makes program.now.text.now program.now.tree.now (globals_of program.now) site.item site.body site.entry core.old result core.new }
{
    let n = word(program.tree, site.item + PARAMETERS);
    // no function with more was declared
    if MOST_PARAMETERS < n {
        return Err(Broken(0));
    }
    parameters(program, locals, site.item + HEADER_WORDS, n)?;
    finish(program, locals, types, starts, core, site, n)
}

// The item at p, up to which so much was reached.
pub fn item(
    program: &Program,
    locals: &mut [u32],
    types: &mut [u32],
    starts: &mut [u32],
    core: &mut [u32],
    p: usize,
    reached: Reached,
) -> Result<Reached, Broken>
    requires { Rooms program.now.tree.now locals.old types.old starts.old core.old × Placed p reached.core (3 + 4 * reached.functions) }
    ensures { Passes program.now.text.now program.now.tree.now (globals_of program.now) p reached.core reached.functions core.old result core.new }
{
    if is_array(program.tree, p) {
        return Ok(reached);
    }
    let entry = program::WORDS as usize + program::FUNCTION_WORDS as usize * reached.functions;
    let site = Site {
        item: p,
        body: reached.core,
        entry,
    };
    function(program, locals, types, starts, core, site)?;
    let body = word(program.tree, p + BODY_WORDS);
    Ok(Reached {
        core: reached.core + body as usize,
        functions: reached.functions + 1,
    })
}

// All functions, `total` of them: their bodies and their entries.
pub fn functions(
    program: &Program,
    words: usize,
    locals: &mut [u32],
    types: &mut [u32],
    starts: &mut [u32],
    core: &mut [u32],
    total: u32,
) -> Result<Reached, Broken>
    requires { Rooms program.now.tree.now locals.old types.old starts.old core.old × (words ≤ tree_room) × (total ≤ most_functions) }
    ensures { Fills program.now.text.now program.now.tree.now words (globals_of program.now) total core.old result core.new }
{
    let mut p: usize = 0;
    let mut reached = Reached {
        core: program::WORDS as usize + program::FUNCTION_WORDS as usize * total as usize,
        functions: 0,
    };
    // a walk and no count: an item's header says how far it reaches
    while p < words {
        reached = item(program, locals, types, starts, core, p, reached)?;
        p = next(program.tree, p);
    }
    Ok(reached)
}
