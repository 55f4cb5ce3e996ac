// What the operations and conditions of document 03 §3's table give.
#![tactic(auto, unfolding(processor::specs::Execute::alu_of))]

ghost use Rattle.std.specs.Prelude.{◌≡◌};
ghost use Rattle.processor.specs.Execute.{alu_of, cond_of};

use processor::{Alu, Cond};
use word::arithmetic::{add, mul, sub};
use word::bits::{and, or, shift_left, shift_right, shift_right_signed, xor};
use word::division::{quotient_signed, quotient_unsigned, remainder_signed, remainder_unsigned};
use word::order::{bit_of, less_signed, less_unsigned};
use word::product::{upper_mixed, upper_signed, upper_unsigned};

// "Register shifts use the low 5 bits."
pub fn sll(a: u32, b: u32) -> u32
    ensures { result ≡ alu_of Alu.Sll a b }
{
    shift_left(a, b % 32)
}

pub fn srl(a: u32, b: u32) -> u32
    ensures { result ≡ alu_of Alu.Srl a b }
{
    shift_right(a, b % 32)
}

pub fn sra(a: u32, b: u32) -> u32
    ensures { result ≡ alu_of Alu.Sra a b }
{
    shift_right_signed(a, b % 32)
}

// The orders, as words.
pub fn slt(a: u32, b: u32) -> u32
    ensures { result ≡ alu_of Alu.Slt a b }
{
    bit_of(less_signed(a, b))
}

pub fn sltu(a: u32, b: u32) -> u32
    ensures { result ≡ alu_of Alu.Sltu a b }
{
    bit_of(less_unsigned(a, b))
}

// "By zero: div and divu give all ones, rem and remu the dividend." Each is a row of the table, with an operation of its own.
pub fn div(a: u32, b: u32) -> u32
    ensures { result ≡ alu_of Alu.Div a b }
{
    if b == 0 {
        u32::MAX
    } else {
        quotient_signed(a, b)
    }
}

pub fn divu(a: u32, b: u32) -> u32
    ensures { result ≡ alu_of Alu.Divu a b }
{
    if b == 0 {
        u32::MAX
    } else {
        quotient_unsigned(a, b)
    }
}

pub fn rem(a: u32, b: u32) -> u32
    ensures { result ≡ alu_of Alu.Rem a b }
{
    if b == 0 { a } else { remainder_signed(a, b) }
}

pub fn remu(a: u32, b: u32) -> u32
    ensures { result ≡ alu_of Alu.Remu a b }
{
    if b == 0 { a } else { remainder_unsigned(a, b) }
}

// What an operation gives.
#[inline(always)]
pub fn value(o: Alu, a: u32, b: u32) -> u32
    ensures { result ≡ alu_of o a b }
{
    match o {
        Alu::Add => add(a, b),
        Alu::Sub => sub(a, b),
        Alu::Sll => sll(a, b),
        Alu::Slt => slt(a, b),
        Alu::Sltu => sltu(a, b),
        Alu::Xor => xor(a, b),
        Alu::Srl => srl(a, b),
        Alu::Sra => sra(a, b),
        Alu::Or => or(a, b),
        Alu::And => and(a, b),
        Alu::Mul => mul(a, b),
        Alu::Mulh => upper_signed(a, b),
        Alu::Mulhsu => upper_mixed(a, b),
        Alu::Mulhu => upper_unsigned(a, b),
        Alu::Div => div(a, b),
        Alu::Divu => divu(a, b),
        Alu::Rem => rem(a, b),
        Alu::Remu => remu(a, b),
    }
}

// Whether a branch's condition holds.
#[tactic(auto, unfolding(processor::specs::Execute::cond_of))]
pub fn holds(c: Cond, a: u32, b: u32) -> bool
    ensures { result ≡ cond_of c a b }
{
    match c {
        Cond::Eq => a == b,
        Cond::Ne => a != b,
        Cond::Lt => less_signed(a, b),
        Cond::Ge => !less_signed(a, b),
        Cond::Ltu => less_unsigned(a, b),
        Cond::Geu => !less_unsigned(a, b),
    }
}
