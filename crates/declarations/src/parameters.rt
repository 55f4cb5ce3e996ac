// "a parameter, in the whole body": a function's parameters are its first locals.
ghost use Rattle.std.specs.Prelude.{◌≤◌, length, drop};
ghost use Rattle.language.specs.Rules.{most_parameters};
ghost use Rattle.rules.specs.Bounds.{most_places};
ghost use Rattle.rules.specs.Values.{globals_of};
ghost use Rattle.declarations.specs.Post.{locals_room, Takes};

use crate::globals::PARAMETER_WORDS;
use rules::Broken;
use rules::names::{Local, Name};
use rules::program::Program;
use rules::single::fresh;
use rules::types::value_type;
use word::lists::word;

// Which words of a parameter are its name's length and its type; the first is its place.
const PARAMETER_LENGTH: usize = 1;

const PARAMETER_TYPE: usize = 2;

// The n parameters from word p on are visible in the whole body.
pub fn parameters(program: &Program, locals: &mut [u32], p: usize, n: u32) -> Result<(), Broken>
    requires { (locals_room ≤ length locals.old) × (p ≤ most_places) × (n ≤ most_parameters) }
    ensures { Takes program.now.text.now (globals_of program.now) n (drop p program.now.tree.now) result locals.new }
{
    for k in 0..n {
        let i = p + PARAMETER_WORDS * k as usize;
        let place = word(program.tree, i);
        let length = word(program.tree, i + PARAMETER_LENGTH);
        let ty = value_type(word(program.tree, i + PARAMETER_TYPE));
        let name = Name { place, length };
        if !fresh(program, locals, k as usize, name) {
            return Err(Broken(place as usize));
        }
        let local = Local { name, ty, slot: k };
        local.enter(locals, k as usize);
    }
    Ok(())
}
