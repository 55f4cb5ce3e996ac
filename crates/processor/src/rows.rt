// The rows of document 03 §3's table: each is for a word that has its opcode, and the last function chooses the row.
#![tactic(auto, unfolding(crate::specs::Instructions::decode_jalr, crate::specs::Instructions::decode_branch, crate::specs::Instructions::decode_load, crate::specs::Instructions::decode_store, crate::specs::Instructions::decode_shift, crate::specs::Instructions::decode_op_imm, crate::specs::Instructions::decode_op, crate::specs::Instructions::decode_fence, crate::specs::Instructions::decode_system))]

ghost use Rattle.std.specs.Prelude.{◌≡◌};
ghost use Rattle.processor.specs.Instructions.{decode_jalr, decode_branch, decode_load, decode_store, decode_shift, decode_op_imm, decode_op, decode_fence, decode_system, decode_of};

use crate::columns::{funct3, key, opcode, rd, rs1, rs2};
use crate::immediates::{imm_b, imm_i, imm_j, imm_s, imm_u};
use crate::numbers::{immediate_of, shift_of, store_of};
use crate::{Alu, Cond, Instr, Width};

// jalr has funct3 0.
pub fn jalr(w: u32) -> Instr
    ensures { result ≡ decode_jalr w }
{
    if funct3(w) == 0 {
        Instr::Jalr(rd(w), rs1(w), imm_i(w))
    } else {
        Instr::Unknown
    }
}

// The branches, by funct3.
pub fn branch(w: u32) -> Instr
    ensures { result ≡ decode_branch w }
{
    match Cond::try_from(funct3(w)) {
        Ok(c) => Instr::Branch(c, rs1(w), rs2(w), imm_b(w)),
        Err(_) => Instr::Unknown,
    }
}

// The loads, by funct3.
pub fn load(w: u32) -> Instr
    ensures { result ≡ decode_load w }
{
    match Width::try_from(funct3(w)) {
        Ok(s) => Instr::Load(s, rd(w), rs1(w), imm_i(w)),
        Err(_) => Instr::Unknown,
    }
}

// The stores, by funct3.
pub fn store(w: u32) -> Instr
    ensures { result ≡ decode_store w }
{
    match store_of(funct3(w)) {
        Ok(s) => Instr::Store(s, rs1(w), rs2(w), imm_s(w)),
        Err(_) => Instr::Unknown,
    }
}

// Shifts by an amount, by funct7 and funct3.
pub fn shift(w: u32) -> Instr
    ensures { result ≡ decode_shift w }
{
    match shift_of(key(w)) {
        Ok(o) => Instr::Shift(o, rd(w), rs1(w), rs2(w)),
        Err(_) => Instr::Unknown,
    }
}

// Operations on a register and an immediate, by funct3; the others are shifts.
pub fn op_imm(w: u32) -> Instr
    ensures { result ≡ decode_op_imm w }
{
    match immediate_of(funct3(w)) {
        Ok(o) => Instr::OpImm(o, rd(w), rs1(w), imm_i(w)),
        Err(_) => shift(w),
    }
}

// Operations on two registers, by funct7 and funct3.
pub fn op(w: u32) -> Instr
    ensures { result ≡ decode_op w }
{
    match Alu::try_from(key(w)) {
        Ok(o) => Instr::Op(o, rd(w), rs1(w), rs2(w)),
        Err(_) => Instr::Unknown,
    }
}

// fence has funct3 0.
pub fn fence(w: u32) -> Instr
    ensures { result ≡ decode_fence w }
{
    if funct3(w) == 0 {
        Instr::Fence(rd(w), rs1(w), imm_i(w))
    } else {
        Instr::Unknown
    }
}

// ecall and ebreak are one word each.
pub fn system(w: u32) -> Instr
    ensures { result ≡ decode_system w }
{
    match w {
        0x00000073 => Instr::Ecall,
        0x00100073 => Instr::Ebreak,
        _ => Instr::Unknown,
    }
}

// The rows, by opcode: the instruction that a word is. decode_of's theorems speak of Unknown, so that it is no Option.
#[tactic(auto, unfolding(crate::specs::Instructions::decode_of))]
pub fn by_opcode(w: u32) -> Instr
    ensures { result ≡ decode_of w }
{
    match opcode(w) {
        0x37 => Instr::Lui(rd(w), imm_u(w)),
        0x17 => Instr::Auipc(rd(w), imm_u(w)),
        0x6f => Instr::Jal(rd(w), imm_j(w)),
        0x67 => jalr(w),
        0x63 => branch(w),
        0x03 => load(w),
        0x23 => store(w),
        0x13 => op_imm(w),
        0x33 => op(w),
        0x0f => fence(w),
        0x73 => system(w),
        _ => Instr::Unknown,
    }
}
