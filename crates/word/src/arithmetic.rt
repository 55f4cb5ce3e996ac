// Sums, differences and products of words. They wrap.
#![tactic(auto, unfolding(crate::specs::Word::add_w, crate::specs::Word::sub_w, crate::specs::Word::neg_w, crate::specs::Word::mul_w))]

ghost use Rattle.std.specs.Prelude.{◌≡◌};
ghost use Rattle.word.specs.Word.{add_w, sub_w, neg_w, mul_w};

// The sum.
pub fn add(a: u32, b: u32) -> u32
    ensures { result ≡ add_w a b }
{
    a.wrapping_add(b)
}

// The difference.
pub fn sub(a: u32, b: u32) -> u32
    ensures { result ≡ sub_w a b }
{
    a.wrapping_sub(b)
}

// The negation, which is the word itself at 0 and at 2 ^ 31.
pub fn neg(a: u32) -> u32
    ensures { result ≡ neg_w a }
{
    a.wrapping_neg()
}

// The lower half of the product, the same for signed and unsigned words.
pub fn mul(a: u32, b: u32) -> u32
    ensures { result ≡ mul_w a b }
{
    a.wrapping_mul(b)
}
