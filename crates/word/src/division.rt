// Quotients and remainders. They are total: at a divisor of 0 the quotient is 0 and the remainder the dividend,
// which is what the definitions give there.
#![tactic(auto, unfolding(crate::specs::Word::quot_u, crate::specs::Word::rem_u))]

ghost use Rattle.std.specs.Prelude.{◌≡◌};
ghost use Rattle.word.specs.Word.{quot_s, rem_s, quot_u, rem_u};

// The signed quotient, rounded toward zero.
pub fn quotient_signed(a: u32, b: u32) -> u32
    ensures { result ≡ quot_s a b }
{
    if b == 0 {
        return 0;
    }
    a.cast_signed()
        .wrapping_div(b.cast_signed())
        .cast_unsigned()
}

// The signed remainder, with the dividend's sign.
pub fn remainder_signed(a: u32, b: u32) -> u32
    ensures { result ≡ rem_s a b }
{
    if b == 0 {
        return a;
    }
    a.cast_signed()
        .wrapping_rem(b.cast_signed())
        .cast_unsigned()
}

// The unsigned quotient.
pub fn quotient_unsigned(a: u32, b: u32) -> u32
    ensures { result ≡ quot_u a b }
{
    a.checked_div(b).unwrap_or(0)
}

// The unsigned remainder.
pub fn remainder_unsigned(a: u32, b: u32) -> u32
    ensures { result ≡ rem_u a b }
{
    a.checked_rem(b).unwrap_or(a)
}
