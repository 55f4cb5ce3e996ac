// "There is a function `main` without parameters or result type."
ghost use Rattle.std.specs.Prelude.{◌≡◌, length};
ghost use Rattle.language.specs.Rules.{main_name};
ghost use Rattle.language.specs.Tokens.{same};
ghost use Rattle.rules.specs.Tables.{part};
ghost use Rattle.rules.specs.Values.{globals_of, FindsGlobal};
ghost use Rattle.declarations.specs.Post.{Begins};

use rules::Broken;
use rules::calls::{PARAMETERS, RESULT};
use rules::names::{Name, byte};
use rules::program::{Global, NAME_PLACE, Program, is_array};
use word::lists::word;

// Whether a name is `main`. Byte by byte, since a name of a tree that no text has may reach past the text's end.
pub fn is_main(text: &[u8], name: Name) -> bool
    ensures { result ≡ same (part text.now name.place name.length) main_name }
{
    if name.length != 4 {
        return false;
    }
    let i = name.place as usize;
    if byte(text, i) != b'm' {
        return false;
    }
    if byte(text, i + 1) != b'a' {
        return false;
    }
    if byte(text, i + 2) != b'i' {
        return false;
    }
    byte(text, i + 3) == b'n'
}

// The array or function whose name is `main`.
pub fn find_main(program: &Program) -> Option<Global>
    ensures { FindsGlobal program.now main_name result }
{
    program.find(|name| is_main(program.text, name))
}

// The number of the function `main`.
pub fn main_of(program: &Program) -> Result<u32, Broken>
    ensures { Begins (globals_of program.now) (length program.now.text.now) result }
{
    let Some(global) = find_main(program) else {
        return Err(Broken(program.text.len()));
    };
    let h = global.header as usize;
    let place = word(program.tree, h + NAME_PLACE) as usize;
    if is_array(program.tree, h) {
        return Err(Broken(place));
    }
    if word(program.tree, h + PARAMETERS) != 0 {
        return Err(Broken(place));
    }
    if word(program.tree, h + RESULT) != 0 {
        return Err(Broken(place));
    }
    Ok(global.value)
}
