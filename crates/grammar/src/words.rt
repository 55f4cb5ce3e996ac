// The words that a tree is, written.
ghost use Rattle.std.specs.Prelude.{◌≡◌, ◌+◌, ◌≤◌, length};
ghost use Rattle.std.proofs.lemmas.List.Edits.{sets};

// Words of an item, and of a header.
pub const ITEM_WORDS: usize = 4;

pub const HEADER_WORDS: usize = 8;

// More than a text has tokens, statements, operators or arguments.
pub const MANY: usize = 65536;

// Writes the words of an item, a header or a parameter; the next free word.
pub fn put(out: &mut [u32], at: usize, words: &[u32]) -> usize
    requires { at + length words.now ≤ length out.old }
    ensures end { result ≡ at + length words.now }
    ensures written { out.new ≡ sets out.old at words.now }
{
    let end = at + words.len();
    out[at..end].copy_from_slice(words);
    end
}
