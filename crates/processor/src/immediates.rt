// The immediates of a word (document 03 §2), sign-extended from their top bit.
#![tactic(auto, unfolding(crate::specs::Formats::imm_i, crate::specs::Formats::imm_s, crate::specs::Formats::imm_b, crate::specs::Formats::imm_u, crate::specs::Formats::imm_j))]

ghost use Rattle.std.specs.Prelude.{◌≡◌};
ghost use Rattle.processor.specs.Formats.{imm_i, imm_s, imm_b, imm_u, imm_j};

use crate::columns::{funct7, rd, rs2};
use word::bits::sign_extend;

// imm[11:5] in bits 31 to 25, imm[4:0] in bits 24 to 20.
pub fn imm_i(w: u32) -> u32
    ensures { result ≡ imm_i w }
{
    sign_extend(12, funct7(w) * 32 + rs2(w))
}

// imm[11:5] in bits 31 to 25, imm[4:0] in bits 11 to 7.
pub fn imm_s(w: u32) -> u32
    ensures { result ≡ imm_s w }
{
    sign_extend(12, funct7(w) * 32 + rd(w))
}

// imm[12] in bit 31, imm[11] in bit 7, imm[10:5] in bits 30 to 25, imm[4:1] in bits 11 to 8.
pub fn imm_b(w: u32) -> u32
    ensures { result ≡ imm_b w }
{
    sign_extend(
        13,
        w / 2147483648 % 2 * 4096 + w / 128 % 2 * 2048 + w / 33554432 % 64 * 32 + w / 256 % 16 * 2,
    )
}

// imm[31:12] in its own place.
pub fn imm_u(w: u32) -> u32
    ensures { result ≡ imm_u w }
{
    w / 4096 % 1048576 * 4096
}

// imm[20] in bit 31, imm[19:12] in bits 19 to 12, imm[11] in bit 20, imm[10:1] in bits 30 to 21.
pub fn imm_j(w: u32) -> u32
    ensures { result ≡ imm_j w }
{
    sign_extend(
        21,
        w / 2147483648 % 2 * 1048576
            + w / 4096 % 256 * 4096
            + w / 1048576 % 2 * 2048
            + w / 2097152 % 1024 * 2,
    )
}
