// Headers of statements: eight words each, in the tree and in the core.
ghost use Rattle.std.specs.Prelude.{◌≡◌, ℕ, [], ◌∷◌, ◌+◌, ◌≤◌, length, drop};
ghost use Rattle.std.proofs.lemmas.List.Edits.{sets};
ghost use Rattle.grammar.specs.Numbers.{number_of_statement};
ghost use Rattle.rules.specs.Bounds.{most_places};
ghost use Rattle.rules.specs.Statements.{Heads, HeadCase, KindCase};

use flat::number::Numbered;
use grammar::tree::Statement;
use word::lists::word;

// What says of which kind a statement of the tree is: the kind itself, or any number, of which those past the last kind's are none's.
pub trait StatementKind: Copy {
    ghost number_of: { Self → ℕ };

    fn statement(self) -> Option<Statement>
        ensures { KindCase (number_of self) result };
}

impl StatementKind for Statement {
    ghost number_of = { number_of_statement };

    fn statement(self) -> Option<Statement> {
        Some(self)
    }
}

impl StatementKind for u32 {
    ghost number_of = { λ n. n };

    fn statement(self) -> Option<Statement> {
        Statement::try_from(self).ok()
    }
}

// A header in the tree: its kind, which may be a number (`StatementKind`), the place where the statement is reported, its name's length or how many words
// its first block has, how many items its first and its second expression have, how many statements its body and its other block, and how many words
// follow the header.
#[derive(Clone, Copy)]
pub struct Head<K> {
    pub kind: K,
    pub at: u32,
    pub size: u32,
    pub first: u32,
    pub second: u32,
    pub body: u32,
    pub other: u32,
    pub rest: u32,
}

// The header at p, whatever number stands there as its kind.
pub fn header_at(tree: &[u32], p: usize) -> Head<u32>
    requires { p ≤ most_places }
    ensures { Heads (drop p tree.now) result.kind result.at result.size result.first result.second result.body result.other result.rest }
{
    Head {
        kind: word(tree, p),
        at: word(tree, p + 1),
        size: word(tree, p + 2),
        first: word(tree, p + 3),
        second: word(tree, p + 4),
        body: word(tree, p + 5),
        other: word(tree, p + 6),
        rest: word(tree, p + 7),
    }
}

impl Head<Statement> {
    // The header at p, if a statement's kind stands there.
    pub fn read(tree: &[u32], p: usize) -> Option<Head<Statement>>
        requires { p ≤ most_places }
        ensures { HeadCase (drop p tree.now) result }
    {
        let words = header_at(tree, p);
        let Some(kind) = words.kind.statement() else {
            return None;
        };
        Some(Head {
            kind,
            at: words.at,
            size: words.size,
            first: words.first,
            second: words.second,
            body: words.body,
            other: words.other,
            rest: words.rest,
        })
    }
}

// A header in the core: the statement's kind, which may be a number (`Numbered`), two words that the kind has a use for, then as in the tree.
#[derive(Clone, Copy)]
pub struct CoreHead<K> {
    pub kind: K,
    pub a: u32,
    pub b: u32,
    pub first: u32,
    pub second: u32,
    pub body: u32,
    pub other: u32,
    pub rest: u32,
}

impl<K: Numbered> CoreHead<K> {
    // The header stands at q. Store by store: as a slice the eight words take a line each too, and that its copy is `sets` would be a second proof of
    // what `grammar::words::put`, private there, promises.
    pub fn write(self, core: &mut [u32], q: usize)
        requires { q + 8 ≤ length core.old }
        ensures { core.new ≡ sets core.old q (K.number_of self.kind ∷ self.a ∷ self.b ∷ self.first ∷ self.second ∷ self.body ∷ self.other ∷ self.rest ∷ []) }
    {
        core[q] = self.kind.number();
        core[q + 1] = self.a;
        core[q + 2] = self.b;
        core[q + 3] = self.first;
        core[q + 4] = self.second;
        core[q + 5] = self.body;
        core[q + 6] = self.other;
        core[q + 7] = self.rest;
    }
}

// The header of a statement with one expression and no block. What is built, its contract says: this and those of the next kinds differ in just that.
pub fn header_of_one<H: Numbered, K: Copy>(
    core: &mut [u32],
    q: usize,
    kind: H,
    a: u32,
    head: Head<K>,
)
    requires { q + 8 ≤ length core.old }
    ensures { core.new ≡ sets core.old q (H.number_of kind ∷ a ∷ 0 ∷ head.first ∷ 0 ∷ 0 ∷ 0 ∷ head.rest ∷ []) }
{
    let header = CoreHead {
        kind,
        a,
        b: 0,
        first: head.first,
        second: 0,
        body: 0,
        other: 0,
        rest: head.rest,
    };
    header.write(core, q);
}

// The header of a statement with two.
pub fn header_of_two<H: Numbered, K: Copy>(
    core: &mut [u32],
    q: usize,
    kind: H,
    a: u32,
    b: u32,
    head: Head<K>,
)
    requires { q + 8 ≤ length core.old }
    ensures { core.new ≡ sets core.old q (H.number_of kind ∷ a ∷ b ∷ head.first ∷ head.second ∷ 0 ∷ 0 ∷ head.rest ∷ []) }
{
    let header = CoreHead {
        kind,
        a,
        b,
        first: head.first,
        second: head.second,
        body: 0,
        other: 0,
        rest: head.rest,
    };
    header.write(core, q);
}

// The header of a statement with one expression and blocks.
pub fn header_of_blocks<H: Numbered, K: Copy>(
    core: &mut [u32],
    q: usize,
    kind: H,
    a: u32,
    head: Head<K>,
)
    requires { q + 8 ≤ length core.old }
    ensures { core.new ≡ sets core.old q (H.number_of kind ∷ a ∷ 0 ∷ head.first ∷ 0 ∷ head.body ∷ head.other ∷ head.rest ∷ []) }
{
    let header = CoreHead {
        kind,
        a,
        b: 0,
        first: head.first,
        second: 0,
        body: head.body,
        other: head.other,
        rest: head.rest,
    };
    header.write(core, q);
}
