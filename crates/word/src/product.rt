// The upper halves of products. A factor that stands for a negative number is 2 ^ 32
// less than it looks, so that the other factor is taken away from the upper half.
ghost use Rattle.std.specs.Prelude.{◌≡◌};
ghost use Rattle.word.specs.Word.{mulh_ss, mulh_su, mulh_uu};

use crate::arithmetic::sub;

// Of unsigned by unsigned.
pub fn upper_unsigned(a: u32, b: u32) -> u32
    ensures { result ≡ mulh_uu a b }
{
    a.carrying_mul(b, 0).1
}

// Of signed by unsigned.
pub fn upper_mixed(a: u32, b: u32) -> u32
    ensures { result ≡ mulh_su a b }
{
    let h = upper_unsigned(a, b);
    if a < 2147483648 { h } else { sub(h, b) }
}

// Of signed by signed.
pub fn upper_signed(a: u32, b: u32) -> u32
    ensures { result ≡ mulh_ss a b }
{
    let h = upper_mixed(a, b);
    if b < 2147483648 { h } else { sub(h, a) }
}
