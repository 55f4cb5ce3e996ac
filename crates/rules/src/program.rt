// What is read and never written: the text, its tree, and the arrays and functions that names stand for.
ghost use Rattle.std.specs.Prelude.{◌≡◌, ◌+◌, ◌*◌, ◌≤◌, eqb, get_or};
ghost use Rattle.grammar.specs.Flat.{array_kind};
ghost use Rattle.rules.specs.Bounds.{most_entries};

use crate::names::{Name, same_name};
use grammar::tree::Declaration;
use word::lists::word;

// Words of a global's entry: its header's place in the tree, its array's offset or its function's number. The caller lends the table, as that of the
// locals.
pub const GLOBAL_WORDS: usize = 2;

pub const GLOBAL_HEADER: usize = 0;

pub const GLOBAL_VALUE: usize = 1;

// Words of a header in the tree: its kind, its name's place and length, and of an array its size.
pub const HEADER_KIND: usize = 0;

pub const NAME_PLACE: usize = 1;

pub const NAME_LENGTH: usize = 2;

pub const HEADER_SIZE: usize = 3;

// Whether the header at h is an array's.
pub fn is_array(tree: &[u32], h: usize) -> bool
    ensures { result ≡ eqb (get_or tree.now h 0) array_kind }
{
    word(tree, h) == Declaration::Array as u32
}

// An array or a function: where its header stands in the tree, and its offset or its number.
#[derive(Clone, Copy)]
pub struct Global {
    pub header: u32,
    pub value: u32,
}

impl Global {
    ghost use Rattle.rules.specs.Tables.{word};

    // Entry i of the table.
    pub fn read(globals: &[u32], i: usize) -> Global
        requires { i ≤ most_entries }
        ensures header { result.header ≡ word globals.now (2 * i) }
        ensures value { result.value ≡ word globals.now (2 * i + 1) }
    {
        let at = GLOBAL_WORDS * i;
        let header = word(globals, at);
        let value = word(globals, at + GLOBAL_VALUE);
        Global { header, value }
    }
}

// The text, its tree, and the table of the arrays and functions, of which there are so many.
#[derive(Clone, Copy)]
pub struct Program<'a> {
    pub text: &'a [u8],
    pub tree: &'a [u32],
    pub globals: &'a [u32],
    pub count: usize,
    ghost few: { count ≤ most_entries },
}

impl<'a> Program<'a> {
    ghost use Rattle.rules.specs.Tables.{part};
    ghost use Rattle.rules.specs.Values.{FindsBy, FindsGlobal, FindsFunction};

    // The last array or function whose name is wanted.
    pub fn find<F: Fn(Name) -> bool>(&self, is_wanted: F) -> Option<Global>
        requires { F.IsAlwaysCallable is_wanted }
        ensures { FindsBy (F.post is_wanted) self.now result }
    {
        for i in (0..self.count).rev() {
            // The header's place alone: most entries are passed over.
            let h = word(self.globals, GLOBAL_WORDS * i) as usize;
            let place = word(self.tree, h + NAME_PLACE);
            let length = word(self.tree, h + NAME_LENGTH);
            if is_wanted(Name { place, length }) {
                return Some(Global::read(self.globals, i));
            }
        }
        None
    }

    // The array or function of this name. A loop beside `find`'s: a name of another length is passed over before it is read where it stands, which a
    // look-up among many names spends most of its time on.
    pub fn find_global(&self, name: Name) -> Option<Global>
        ensures { FindsGlobal self.now (part self.now.text.now name.place name.length) result }
    {
        for i in (0..self.count).rev() {
            let header = word(self.globals, GLOBAL_WORDS * i);
            let length = word(self.tree, header as usize + NAME_LENGTH);
            if length == name.length {
                let place = word(self.tree, header as usize + NAME_PLACE);
                if same_name(self.text, Name { place, length }, name) {
                    let value = word(self.globals, GLOBAL_WORDS * i + GLOBAL_VALUE);
                    return Some(Global { header, value });
                }
            }
        }
        None
    }

    // The function of this name.
    pub fn find_function(&self, name: Name) -> Option<Global>
        ensures { FindsFunction self.now name.place name.length result }
    {
        let global = self.find_global(name)?;
        if is_array(self.tree, global.header as usize) {
            return None;
        }
        Some(global)
    }
}
