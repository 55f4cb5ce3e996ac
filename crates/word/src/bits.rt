// Words bit by bit, shifted, and made of fewer bits.
#![tactic(auto, unfolding(crate::specs::Word::and_w, crate::specs::Word::or_w, crate::specs::Word::xor_w, crate::specs::Word::shl_w, crate::specs::Word::shr_u, crate::specs::Word::shr_s))]

ghost use Rattle.std.specs.Prelude.{◌≡◌, ◌<◌, ◌≤◌, ◌^◌};
ghost use Rattle.word.specs.Word.{and_w, or_w, xor_w, shl_w, shr_u, shr_s, sign_extend};

use crate::arithmetic::sub;

// The bits that are set in both.
pub fn and(a: u32, b: u32) -> u32
    ensures { result ≡ and_w a b }
{
    a & b
}

// The bits that are set in either.
pub fn or(a: u32, b: u32) -> u32
    ensures { result ≡ or_w a b }
{
    a | b
}

// The bits that are set in one of them alone.
pub fn xor(a: u32, b: u32) -> u32
    ensures { result ≡ xor_w a b }
{
    a ^ b
}

// To the left by s places.
pub fn shift_left(a: u32, s: u32) -> u32
    requires { s < 32 }
    ensures { result ≡ shl_w a s }
{
    a << s
}

// To the right by s places, filling with zeros.
pub fn shift_right(a: u32, s: u32) -> u32
    requires { s < 32 }
    ensures { result ≡ shr_u a s }
{
    a >> s
}

// To the right by s places, filling with the top bit.
pub fn shift_right_signed(a: u32, s: u32) -> u32
    requires { s < 32 }
    ensures { result ≡ shr_s a s }
{
    (a.cast_signed() >> s).cast_unsigned()
}

// A number of so many bits, with copies of its top bit above it: the top bit is flipped and its weight taken away.
pub fn sign_extend(bits: u32, n: u32) -> u32
    requires { (0 < bits) × (bits ≤ 32) × (n < 2 ^ bits) }
    ensures { result ≡ sign_extend bits n }
{
    let half = 1 << (bits - 1);
    sub(n ^ half, half)
}
