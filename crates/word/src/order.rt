// The two orders of words, and what a signed reading makes of one word.
#![tactic(auto, unfolding(crate::specs::Word::negative, crate::specs::Word::magnitude, crate::specs::Word::lt_s, crate::specs::Word::lt_u, crate::specs::Word::bit_of))]

ghost use Rattle.std.specs.Prelude.{◌≡◌};
ghost use Rattle.word.specs.Word.{negative, magnitude, lt_s, lt_u, bit_of};

// Whether the word stands for a negative number.
pub fn negative(a: u32) -> bool
    ensures { result ≡ negative a }
{
    a.cast_signed() < 0
}

// The number that the word stands for, without its sign.
pub fn magnitude(a: u32) -> u32
    ensures { result ≡ magnitude a }
{
    a.cast_signed().unsigned_abs()
}

// The signed order.
pub fn less_signed(a: u32, b: u32) -> bool
    ensures { result ≡ lt_s a b }
{
    a.cast_signed() < b.cast_signed()
}

// The unsigned order.
pub fn less_unsigned(a: u32, b: u32) -> bool
    ensures { result ≡ lt_u a b }
{
    a < b
}

// A test as a word.
pub fn bit_of(b: bool) -> u32
    ensures { result ≡ bit_of b }
{
    u32::from(b)
}
