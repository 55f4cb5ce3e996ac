// The word of each format (document 03 §2), of what stands in its columns from the left; the numbers of the second column of document 03 §3's
// table; and the word of an instruction by these.
#![tactic(auto, unfolding(crate::specs::Formats::r_word, crate::specs::Formats::i_word, crate::specs::Formats::s_word, crate::specs::Formats::b_word, crate::specs::Formats::u_word, crate::specs::Formats::j_word))]

ghost use Rattle.std.specs.Prelude.{◌≡◌};
ghost use Rattle.processor.specs.Formats.{r_word, i_word, s_word, b_word, u_word, j_word};
ghost use Rattle.processor.specs.Instructions.{alu_key, cond_key, width_key, encode_of};

use crate::{Alu, Cond, Instr, Width};

// funct7 and funct3 of an operation, in one number.
pub fn alu_key(o: Alu) -> u32
    ensures { result ≡ alu_key o }
{
    o as u32
}

// funct3 of a branch.
pub fn cond_key(c: Cond) -> u32
    ensures { result ≡ cond_key c }
{
    c as u32
}

// funct3 of a load or a store.
pub fn width_key(s: Width) -> u32
    ensures { result ≡ width_key s }
{
    s as u32
}

// R: every column by itself.
pub fn r_word(f7: u32, b: u32, a: u32, f3: u32, d: u32, o: u32) -> u32
    ensures { result ≡ r_word f7 b a f3 d o }
{
    f7 % 128 * 33554432 + b % 32 * 1048576 + a % 32 * 32768 + f3 % 8 * 4096 + d % 32 * 128 + o % 128
}

// I: the immediate in the place of funct7 and rs2.
pub fn i_word(imm: u32, a: u32, f3: u32, d: u32, o: u32) -> u32
    ensures { result ≡ i_word imm a f3 d o }
{
    r_word(imm / 32 % 128, imm % 32, a, f3, d, o)
}

// S: the immediate in the place of funct7 and rd.
pub fn s_word(imm: u32, b: u32, a: u32, f3: u32, o: u32) -> u32
    ensures { result ≡ s_word imm b a f3 o }
{
    r_word(imm / 32 % 128, b, a, f3, imm % 32, o)
}

// B: as S, with imm[12] and imm[11] put at the ends.
pub fn b_word(imm: u32, b: u32, a: u32, f3: u32, o: u32) -> u32
    ensures { result ≡ b_word imm b a f3 o }
{
    r_word(
        imm / 4096 % 2 * 64 + imm / 32 % 64,
        b,
        a,
        f3,
        imm / 2 % 16 * 2 + imm / 2048 % 2,
        o,
    )
}

// U: the immediate's upper 20 bits.
pub fn u_word(imm: u32, d: u32, o: u32) -> u32
    ensures { result ≡ u_word imm d o }
{
    imm / 4096 % 1048576 * 4096 + d % 32 * 128 + o % 128
}

// J: as U, of an immediate's bits 20 to 1 in another order.
pub fn j_word(imm: u32, d: u32, o: u32) -> u32
    ensures { result ≡ j_word imm d o }
{
    u_word(
        (imm / 1048576 % 2 * 524288
            + imm / 2 % 1024 * 512
            + imm / 2048 % 2 * 256
            + imm / 4096 % 256)
            * 4096,
        d,
        o,
    )
}

// The word of an instruction, in its row's format.
#[tactic(auto, unfolding(crate::specs::Instructions::encode_of))]
pub fn word_of(i: Instr) -> u32
    ensures { result ≡ encode_of i }
{
    match i {
        Instr::Lui(d, imm) => u_word(imm, d, 0x37),
        Instr::Auipc(d, imm) => u_word(imm, d, 0x17),
        Instr::Jal(d, imm) => j_word(imm, d, 0x6f),
        Instr::Jalr(d, a, imm) => i_word(imm, a, 0, d, 0x67),
        Instr::Branch(c, a, b, imm) => b_word(imm, b, a, cond_key(c), 0x63),
        Instr::Load(s, d, a, imm) => i_word(imm, a, width_key(s), d, 0x03),
        Instr::Store(s, a, b, imm) => s_word(imm, b, a, width_key(s), 0x23),
        Instr::OpImm(o, d, a, imm) => i_word(imm, a, alu_key(o), d, 0x13),
        Instr::Shift(o, d, a, b) => {
            let k = alu_key(o);
            r_word(k / 8, b, a, k % 8, d, 0x13)
        }
        Instr::Op(o, d, a, b) => {
            let k = alu_key(o);
            r_word(k / 8, b, a, k % 8, d, 0x33)
        }
        Instr::Fence(d, a, imm) => i_word(imm, a, 0, d, 0x0f),
        Instr::Ecall => 0x00000073,
        Instr::Ebreak => 0x00100073,
        Instr::Unknown => 0x00000000,
    }
}
