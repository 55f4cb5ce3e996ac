// A word as four bytes, lowest byte first (document 03 §1).
#![tactic(auto, unfolding(crate::specs::Bytes::word_of, crate::specs::Bytes::bytes_of))]

ghost use Rattle.std.specs.Prelude.{◌≡◌};
ghost use Rattle.word.specs.Bytes.{word_of, bytes_of};

// The word of four bytes.
pub fn word_of(b0: u8, b1: u8, b2: u8, b3: u8) -> u32
    ensures { result ≡ word_of b0 b1 b2 b3 }
{
    u32::from_le_bytes([b0, b1, b2, b3])
}

// The four bytes of a word.
pub fn bytes_of(w: u32) -> [u8; 4]
    ensures { result ≡ bytes_of w }
{
    w.to_le_bytes()
}
