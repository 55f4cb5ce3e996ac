// What stands at a place in the words: an item, a statement's expressions and blocks, what comes after those, and a function.
ghost use Rattle.std.specs.Prelude.{◌≡◌, ℕ, ◌+◌, ◌*◌, ◌-◌, get_or, drop};
ghost use Rattle.language.specs.Meaning.{branch};
ghost use Rattle.flat.specs.Items.{item as charged};
ghost use Rattle.flat.specs.Words.{item_of, kind_of, items_of, words_per_item, header_words, rest_words, first_end, first as first_of, second as second_of, block_of};
ghost use Rattle.interpreter.specs.Post.{first_block, second_block, Heads};

use crate::Span;
use crate::words::{field, onward};
use flat::{item, program, statement};

// An item's words. Its kind stays a number until the charge is paid, since an unknown one traps only then.
#[derive(Clone, Copy)]
pub struct Item {
    pub kind: u32,
    pub charge: u32,
    pub a: u32,
    pub b: u32,
}

// What the words say of a function.
#[derive(Clone, Copy)]
pub struct Head {
    pub body: Span,
    pub lets: u32,
}

// The words that are run.
#[derive(Clone, Copy)]
pub struct Code<'a> {
    pub words: &'a [u32],
}

impl Code<'_> {
    // Word i of what stands at p.
    pub fn field(self, p: usize, i: u32) -> u32
        ensures { result ≡ get_or (drop p self.entry.words.now) i 0 }
    {
        field(self.words, p, i)
    }

    // The item at p.
    pub fn item_at(self, p: usize) -> Item
        ensures { item_of (drop p self.entry.words.now) ≡ charged result.charge (kind_of result.kind result.a result.b) }
    {
        let kind = self.field(p, item::KIND);
        let charge = self.field(p, item::CHARGE);
        let a = self.field(p, item::A);
        let b = self.field(p, item::B);
        Item { kind, charge, a, b }
    }

    // The items that are left after the first one and so many more.
    pub fn past(self, at: Span, skip: u32) -> Span
        ensures { (result.n ≡ at.n - 1 - skip) × (drop result.p self.entry.words.now ≡ drop (words_per_item + words_per_item * skip) (drop at.p self.entry.words.now)) }
    {
        let w = item::WORDS as usize;
        let n = at.n.saturating_sub(1).saturating_sub(skip);
        let p = onward(self.words, at.p, w + w * skip as usize);
        Span { p, n }
    }

    // Where the statement after the one at p begins.
    pub fn after(self, p: usize) -> usize
        ensures { drop result self.entry.words.now ≡ drop (header_words + rest_words (drop p self.entry.words.now)) (drop p self.entry.words.now) }
    {
        let rest = self.field(p, statement::REST);
        onward(self.words, p, statement::WORDS as usize + rest as usize)
    }

    // The first expression of the statement at p.
    pub fn first(self, p: usize) -> Span
        ensures { items_of result.n (drop result.p self.entry.words.now) ≡ first_of (drop p self.entry.words.now) }
    {
        let n = self.field(p, statement::FIRST_ITEMS);
        let p = onward(self.words, p, statement::WORDS as usize);
        Span { p, n }
    }

    // Where the first expression of the statement at p ends.
    pub fn first_end(self, p: usize) -> usize
        ensures { drop result self.entry.words.now ≡ drop (first_end (drop p self.entry.words.now)) (drop p self.entry.words.now) }
    {
        let n = self.field(p, statement::FIRST_ITEMS);
        let items = item::WORDS as usize * n as usize;
        onward(self.words, p, statement::WORDS as usize + items)
    }

    // What begins where the first expression of the statement at p ends, with the header's word i to say how much.
    fn following(self, p: usize, i: u32) -> Span
        ensures place { drop result.p self.entry.words.now ≡ drop (first_end (drop p self.entry.words.now)) (drop p self.entry.words.now) }
        ensures many { result.n ≡ get_or (drop p self.entry.words.now) i 0 }
    {
        let n = self.field(p, i);
        let p = self.first_end(p);
        Span { p, n }
    }

    // The second expression of the statement at p.
    pub fn second(self, p: usize) -> Span
        ensures { items_of result.n (drop result.p self.entry.words.now) ≡ second_of (drop p self.entry.words.now) }
    {
        self.following(p, statement::SECOND_ITEMS)
    }

    // The first block of the statement at p.
    pub fn body(self, p: usize) -> Span
        ensures { (depth : ℕ) → block_of depth result.n (drop result.p self.entry.words.now) ≡ first_block depth (drop p self.entry.words.now) }
    {
        self.following(p, statement::FIRST_STATEMENTS)
    }

    // The block that the `if` at p comes to by its condition's value.
    pub fn chosen(self, p: usize, v: u32) -> Span
        ensures { (depth : ℕ) → block_of depth result.n (drop result.p self.entry.words.now) ≡ branch v (first_block depth (drop p self.entry.words.now)) (second_block depth (drop p self.entry.words.now)) }
    {
        if v == 0 {
            let a = self.field(p, statement::A);
            let n = self.field(p, statement::SECOND_STATEMENTS);
            let p = onward(self.words, self.first_end(p), a as usize);
            return Span { p, n };
        }
        self.body(p)
    }

    // Function f; one that isn't there has an empty body.
    pub fn function(self, f: u32) -> Head
        ensures { Heads self.entry.words.now f result.body.p result.body.n result.lets }
    {
        if self.field(0, program::FUNCTIONS) <= f {
            let body = Span { p: 0, n: 0 };
            return Head { body, lets: 0 };
        }
        let entry = program::WORDS as usize + program::FUNCTION_WORDS as usize * f as usize;
        let place = self.field(entry, program::PLACE);
        let n = self.field(entry, program::STATEMENTS);
        let lets = self.field(entry, program::LETS);
        let p = place as usize;
        let body = Span { p, n };
        Head { body, lets }
    }
}
