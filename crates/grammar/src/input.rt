// The tokens that the parser reads, and what reading a thing gives.
ghost use Rattle.std.specs.Prelude.{◌≡◌, ◌≢◌, ◌*◌, ◌≤◌, ◌<◌, ◌↔◌, IsTrue, IsSome, IfSome, IsNone, MatchResult, length};
ghost use Rattle.tokens.specs.Numbers.{number_of_kind};
ghost use Rattle.grammar.specs.Told.{field_of, IsNoKind};

use tokens::kinds::Kind;

// How far a thing was read: the next token, the next free word, and a number that the thing tells.
#[derive(Clone, Copy, Debug, PartialEq, Eq, Hash)]
pub struct Read {
    pub next: usize,
    pub end: usize,
    pub told: usize,
}

// The token at fault.
#[derive(Clone, Copy, Debug, PartialEq, Eq, Hash)]
pub struct Fault(pub usize);

// The tokens of a text: the words that `tokens::tokens` wrote, and how many tokens stand there.
#[derive(Clone, Copy)]
pub struct Tokens<'a> {
    pub words: &'a [u32],
    pub count: usize,
    ghost few: { count ≤ 65536 },
    ghost held: { 3 * count ≤ length words.now },
}

impl<'a> Tokens<'a> {
    // Word k of token i: its kind, its place, its value; 0 past the last.
    fn word(self, i: usize, k: usize) -> u32
        requires { k < 3 }
        ensures { result ≡ field_of self.entry.words.now self.entry.count i k }
    {
        if i < self.count {
            self.words[tokens::TOKEN_WORDS * i + k]
        } else {
            0
        }
    }

    // The place of token i in the text.
    pub fn place(self, i: usize) -> u32
        ensures { result ≡ field_of self.entry.words.now self.entry.count i 1 }
    {
        self.word(i, 1)
    }

    // A name's length, or a number's number.
    pub fn value(self, i: usize) -> u32
        ensures { result ≡ field_of self.entry.words.now self.entry.count i 2 }
    {
        self.word(i, 2)
    }

    // The kind of token i; none past the last.
    pub fn kind(self, i: usize) -> Option<Kind>
        ensures some { IfSome result (λ kind. field_of self.entry.words.now self.entry.count i 0 ≡ number_of_kind kind) }
        ensures there { IsSome result → i < self.entry.count }
        ensures none { IsNone result → IsNoKind (field_of self.entry.words.now self.entry.count i 0) }
    {
        if i < self.count {
            Kind::try_from(self.word(i, 0)).ok()
        } else {
            None
        }
    }

    // Whether token i is of this kind.
    pub fn is(self, i: usize, kind: Kind) -> bool
        ensures same { IsTrue result ↔ (field_of self.entry.words.now self.entry.count i 0 ≡ number_of_kind kind) }
        ensures there { IsTrue result → i < self.entry.count }
    {
        self.word(i, 0) == kind as u32
    }

    // The fault at token i, unless it is of this kind.
    pub fn expect(self, i: usize, kind: Kind) -> Result<(), Fault>
        ensures { MatchResult result
            (λ _. (field_of self.entry.words.now self.entry.count i 0 ≡ number_of_kind kind) × (i < self.entry.count))
            (λ fault. (fault.0 ≡ i) × (field_of self.entry.words.now self.entry.count i 0 ≢ number_of_kind kind)) }
    {
        if self.is(i, kind) {
            Ok(())
        } else {
            Err(Fault(i))
        }
    }
}
