// Names are parts of the text. What a name stands for is looked up from the last entry down; document 01 §4 keeps the tables short.
ghost use Rattle.std.specs.Prelude.{◌≡◌, List, ℕ, ◌+◌, ◌*◌, ◌≤◌, get_or, length};
ghost use Rattle.language.specs.Tokens.{same};
ghost use Rattle.rules.specs.Bounds.{most_entries};
ghost use Rattle.rules.specs.Tables.{part, local_at};
ghost use Rattle.rules.specs.Values.{known, FindsLocal, Enters};

use crate::types::value_type;
use grammar::tree::ValueType;
use word::lists::{item_or, word};

// Words of a local's entry, and which is what: the table is words that the caller lends, since no part has a heap.
pub const LOCAL_WORDS: usize = 4;

pub const LOCAL_PLACE: usize = 0;

pub const LOCAL_LENGTH: usize = 1;

pub const LOCAL_TYPE: usize = 2;

pub const LOCAL_SLOT: usize = 3;

// Byte p of the text; 0 past its end.
pub fn byte(text: &[u8], p: usize) -> u8
    ensures { result ≡ get_or text.now p 0 }
{
    item_or(text, p, 0)
}

// A name: its bytes' place in the text, and how many there are.
#[derive(Clone, Copy)]
pub struct Name {
    pub place: u32,
    pub length: u32,
}

// Whether the bytes of two names are the same. No slices are compared, since a name of a tree that no text has may reach past the text's end.
pub fn same_name(text: &[u8], x: Name, y: Name) -> bool
    ensures { result ≡ same (part text.now x.place x.length) (part text.now y.place y.length) }
{
    if x.length != y.length {
        return false;
    }
    // By hand: over a range, a look-up of names is measured to cost a quarter more.
    let mut i: u32 = 0;
    while i < x.length {
        let b = byte(text, x.place as usize + i as usize);
        let c = byte(text, y.place as usize + i as usize);
        if b != c {
            return false;
        }
        i += 1;
    }
    true
}

// A visible local. The table of them is four words for each.
#[derive(Clone, Copy)]
pub struct Local {
    pub name: Name,
    pub ty: ValueType,
    pub slot: u32,
}

impl Local {
    // Entry i of the table.
    pub fn read(locals: &[u32], i: usize) -> Local
        requires { i ≤ most_entries }
        ensures { (text : List ℕ) → known text result ≡ local_at text locals.now i }
    {
        let at = LOCAL_WORDS * i;
        let place = word(locals, at);
        let length = word(locals, at + LOCAL_LENGTH);
        let ty = value_type(word(locals, at + LOCAL_TYPE));
        let slot = word(locals, at + LOCAL_SLOT);
        Local {
            name: Name { place, length },
            ty,
            slot,
        }
    }

    // The local is entry i of the table. Store by store, since a slice would drop the words' names by which `read` reads them.
    pub fn enter(self, locals: &mut [u32], i: usize)
        requires { (i ≤ most_entries) × (4 * i + 4 ≤ length locals.old) }
        ensures { Enters locals.old i self locals.new }
    {
        let at = LOCAL_WORDS * i;
        locals[at] = self.name.place;
        locals[at + LOCAL_LENGTH] = self.name.length;
        locals[at + LOCAL_TYPE] = self.ty as u32;
        locals[at + LOCAL_SLOT] = self.slot;
    }
}

// The visible local of this name.
pub fn find_local(text: &[u8], locals: &[u32], count: usize, name: Name) -> Option<Local>
    requires { count ≤ most_entries }
    ensures { FindsLocal text.now locals.now count (part text.now name.place name.length) result }
{
    for i in (0..count).rev() {
        // The name alone: most entries are passed over.
        let at = LOCAL_WORDS * i;
        let place = word(locals, at);
        let length = word(locals, at + LOCAL_LENGTH);
        if same_name(text, Name { place, length }, name) {
            return Some(Local::read(locals, i));
        }
    }
    None
}
