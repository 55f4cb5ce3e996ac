// The numbers of the second column of document 03 §3's table, as conversions: which operation, condition or width has a number.
ghost use Rattle.processor.specs.Instructions.{alu_key, cond_key, width_key, operations, immediates, shifts, branches, loads, stores, find, Finds};
ghost use Rattle.std.specs.Prelude.{◌≡◌};

use crate::{Alu, Cond, Width};

// A number that no row of the table has.
#[derive(Clone, Copy, Debug, PartialEq, Eq)]
pub struct Unlisted;

// An operation on two registers, by funct7 and funct3 in one number.
impl TryFrom<u32> for Alu {
    type Error = Unlisted;

    ghost try_from_gives = { λ k r. Finds (find alu_key operations k) r };

    fn try_from(number: u32) -> Result<Alu, Unlisted> {
        match number {
            0 => Ok(Alu::Add),
            256 => Ok(Alu::Sub),
            1 => Ok(Alu::Sll),
            2 => Ok(Alu::Slt),
            3 => Ok(Alu::Sltu),
            4 => Ok(Alu::Xor),
            5 => Ok(Alu::Srl),
            261 => Ok(Alu::Sra),
            6 => Ok(Alu::Or),
            7 => Ok(Alu::And),
            8 => Ok(Alu::Mul),
            9 => Ok(Alu::Mulh),
            10 => Ok(Alu::Mulhsu),
            11 => Ok(Alu::Mulhu),
            12 => Ok(Alu::Div),
            13 => Ok(Alu::Divu),
            14 => Ok(Alu::Rem),
            15 => Ok(Alu::Remu),
            _ => Err(Unlisted),
        }
    }
}

// An operation on a register and an immediate, by funct3.
pub fn immediate_of(funct3: u32) -> Result<Alu, Unlisted>
    ensures { Finds (find alu_key immediates funct3) result }
{
    match funct3 {
        0 => Ok(Alu::Add),
        2 => Ok(Alu::Slt),
        3 => Ok(Alu::Sltu),
        4 => Ok(Alu::Xor),
        6 => Ok(Alu::Or),
        7 => Ok(Alu::And),
        _ => Err(Unlisted),
    }
}

// A shift by an amount, by funct7 and funct3 in one number; 0x20 of funct7 makes 256 of it.
pub fn shift_of(key: u32) -> Result<Alu, Unlisted>
    ensures { Finds (find alu_key shifts key) result }
{
    match key {
        1 => Ok(Alu::Sll),
        5 => Ok(Alu::Srl),
        261 => Ok(Alu::Sra),
        _ => Err(Unlisted),
    }
}

// A branch's condition, by funct3.
impl TryFrom<u32> for Cond {
    type Error = Unlisted;

    ghost try_from_gives = { λ k r. Finds (find cond_key branches k) r };

    fn try_from(number: u32) -> Result<Cond, Unlisted> {
        match number {
            0 => Ok(Cond::Eq),
            1 => Ok(Cond::Ne),
            4 => Ok(Cond::Lt),
            5 => Ok(Cond::Ge),
            6 => Ok(Cond::Ltu),
            7 => Ok(Cond::Geu),
            _ => Err(Unlisted),
        }
    }
}

// What a load moves, by funct3.
impl TryFrom<u32> for Width {
    type Error = Unlisted;

    ghost try_from_gives = { λ k r. Finds (find width_key loads k) r };

    fn try_from(number: u32) -> Result<Width, Unlisted> {
        match number {
            0 => Ok(Width::Byte),
            1 => Ok(Width::Half),
            2 => Ok(Width::Word),
            4 => Ok(Width::ByteU),
            5 => Ok(Width::HalfU),
            _ => Err(Unlisted),
        }
    }
}

// What a store moves, by funct3.
pub fn store_of(size: u32) -> Result<Width, Unlisted>
    ensures { Finds (find width_key stores size) result }
{
    match size {
        0 => Ok(Width::Byte),
        1 => Ok(Width::Half),
        2 => Ok(Width::Word),
        _ => Err(Unlisted),
    }
}
