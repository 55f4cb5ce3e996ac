// The rows of document 03 §3's table, each carried out straight from a word that has its opcode. What a row gives is the pc of the next
// instruction, or how the run stopped, which leaves pc where it was. Operands are read before the row is chosen: the choice and what it leads
// to are then one jump.
#![tactic(auto, unfolding(processor::specs::Instructions::decode_jalr, processor::specs::Instructions::decode_branch, processor::specs::Instructions::decode_load, processor::specs::Instructions::decode_store, processor::specs::Instructions::decode_shift, processor::specs::Instructions::decode_op_imm, processor::specs::Instructions::decode_op, processor::specs::Instructions::decode_fence, processor::specs::Execute::exec_of, processor::specs::Execute::load_of, processor::specs::Execute::store_of, processor::specs::Execute::call_of))]

ghost use Rattle.std.specs.Prelude.{◌≡◌, List, ℕ, ◌≤◌, length};
ghost use Rattle.processor.specs.Formats.{rd, imm_u, imm_j};
ghost use Rattle.processor.specs.Instructions.{decode_jalr, decode_branch, decode_load, decode_store, decode_op_imm, decode_op, decode_fence};
ghost use Rattle.processor.specs.Machine.{state};
ghost use Rattle.processor.specs.Execute.{load_of, store_of as stores_to, call_of};
ghost use Rattle.emulator.specs.Fused.{emitted};
ghost use Rattle.emulator.specs.Stands.{stands, pc_after, status_after, Carries, Grows};

use crate::memory::{Memory, reaches, read_at, write_at};
use crate::registers::{Registers, first, get, put, second};
use crate::stop::Stop;
use crate::values::{holds, value};
use processor::columns::{funct3, key, rs2};
use processor::immediates::{imm_b, imm_i, imm_j, imm_s, imm_u};
use processor::numbers::{immediate_of, shift_of, store_of};
use processor::{Alu, Cond, Instr, Status, Width};
use word::arithmetic::add;

// 33: two registers.
pub fn op(w: u32, registers: &mut Registers, pc: u32) -> Result<u32, Stop>
    ensures { (m : List ℕ) → Carries (decode_op w) registers.old pc m registers.new (pc_after pc result) m (status_after result) }
{
    let a = first(registers, w);
    let b = second(registers, w);
    let o = Alu::try_from(key(w))?;
    put(registers, w, value(o, a, b));
    Ok(add(pc, 4))
}

// 13: a register and an immediate, or a register and an amount.
pub fn op_imm(w: u32, registers: &mut Registers, pc: u32) -> Result<u32, Stop>
    ensures { (m : List ℕ) → Carries (decode_op_imm w) registers.old pc m registers.new (pc_after pc result) m (status_after result) }
{
    let a = first(registers, w);
    let imm = imm_i(w);
    let v = match immediate_of(funct3(w)) {
        Ok(o) => value(o, a, imm),
        Err(_) => value(shift_of(key(w))?, a, rs2(w)),
    };
    put(registers, w, v);
    Ok(add(pc, 4))
}

// 63: branches, from the branch's own pc.
pub fn branch(w: u32, registers: &Registers, pc: u32) -> Result<u32, Stop>
    ensures { (m : List ℕ) → Carries (decode_branch w) registers.now pc m registers.now (pc_after pc result) m (status_after result) }
{
    let a = first(registers, w);
    let b = second(registers, w);
    let c = Cond::try_from(funct3(w))?;
    if holds(c, a, b) {
        Ok(add(pc, imm_b(w)))
    } else {
        Ok(add(pc, 4))
    }
}

// A load of this width from this address, or fault 3.
pub fn load_as(
    s: Width,
    at: u32,
    w: u32,
    memory: &Memory,
    registers: &mut Registers,
    pc: u32,
) -> Result<u32, Stop>
    ensures { (l : List ℕ) → state registers.new (pc_after pc result) memory.now l (status_after result) ≡ load_of s (rd w) at (state registers.old pc memory.now l Status.Going) }
{
    if reaches(s, at) {
        put(registers, w, read_at(s, memory, at as usize));
        Ok(add(pc, 4))
    } else {
        Err(Stop::Fault(3))
    }
}

// 03: loads, by funct3.
pub fn load(w: u32, memory: &Memory, registers: &mut Registers, pc: u32) -> Result<u32, Stop>
    ensures { Carries (decode_load w) registers.old pc memory.now registers.new (pc_after pc result) memory.now (status_after result) }
{
    let at = add(first(registers, w), imm_i(w));
    match Width::try_from(funct3(w))? {
        Width::Word => load_as(Width::Word, at, w, memory, registers, pc),
        s => load_as(s, at, w, memory, registers, pc),
    }
}

// A store of this width to this address, or fault 3.
pub fn store_as(s: Width, at: u32, v: u32, memory: &mut Memory, pc: u32) -> Result<u32, Stop>
    ensures { (x l : List ℕ) → state x (pc_after pc result) memory.new l (status_after result) ≡ stores_to s at v (state x pc memory.old l Status.Going) }
{
    if reaches(s, at) {
        write_at(s, memory, at as usize, v);
        Ok(add(pc, 4))
    } else {
        Err(Stop::Fault(3))
    }
}

// 23: stores, by funct3.
pub fn store(w: u32, memory: &mut Memory, registers: &Registers, pc: u32) -> Result<u32, Stop>
    ensures { Carries (decode_store w) registers.now pc memory.old registers.now (pc_after pc result) memory.new (status_after result) }
{
    let at = add(first(registers, w), imm_s(w));
    let v = second(registers, w);
    // Words, most of all stores, on a way of their own, which asks for the width once.
    match store_of(funct3(w))? {
        Width::Word => store_as(Width::Word, at, v, memory, pc),
        s => store_as(s, at, v, memory, pc),
    }
}

// 37: lui.
pub fn lui(w: u32, registers: &mut Registers, pc: u32) -> Result<u32, Stop>
    ensures { (m : List ℕ) → Carries (Instr.Lui (rd w) (imm_u w)) registers.old pc m registers.new (pc_after pc result) m (status_after result) }
{
    put(registers, w, imm_u(w));
    Ok(add(pc, 4))
}

// 17: auipc.
pub fn auipc(w: u32, registers: &mut Registers, pc: u32) -> Result<u32, Stop>
    ensures { (m : List ℕ) → Carries (Instr.Auipc (rd w) (imm_u w)) registers.old pc m registers.new (pc_after pc result) m (status_after result) }
{
    put(registers, w, add(pc, imm_u(w)));
    Ok(add(pc, 4))
}

// 6f: jal.
pub fn jal(w: u32, registers: &mut Registers, pc: u32) -> Result<u32, Stop>
    ensures { (m : List ℕ) → Carries (Instr.Jal (rd w) (imm_j w)) registers.old pc m registers.new (pc_after pc result) m (status_after result) }
{
    put(registers, w, add(pc, 4));
    Ok(add(pc, imm_j(w)))
}

// 67: jalr; rs1 is read before rd is written.
pub fn jalr(w: u32, registers: &mut Registers, pc: u32) -> Result<u32, Stop>
    ensures { (m : List ℕ) → Carries (decode_jalr w) registers.old pc m registers.new (pc_after pc result) m (status_after result) }
{
    if funct3(w) != 0 {
        return Err(Stop::Fault(2));
    }
    let to = add(first(registers, w), imm_i(w)) / 2 * 2;
    put(registers, w, add(pc, 4));
    Ok(to)
}

// 0f: fence.
pub fn fence(w: u32, pc: u32) -> Result<u32, Stop>
    ensures { (x m : List ℕ) → Carries (decode_fence w) x pc m x (pc_after pc result) m (status_after result) }
{
    if funct3(w) != 0 {
        return Err(Stop::Fault(2));
    }
    Ok(add(pc, 4))
}

// A word is appended to the log and the run goes on, or trap 4 where the log is full.
pub fn emit(x: u32, log: &mut [u32], logged: &mut usize, pc: u32) -> Result<u32, Stop>
    requires { logged.old ≤ length log.old }
    ensures by_index { (y m : List ℕ) → stands y (pc_after pc result) m log.new logged.new (status_after result) ≡ emitted (length log.old) x (stands y pc m log.old logged.old Status.Going) }
    ensures grows { Grows (length log.old) log.old logged.old log.new logged.new }
{
    let at = *logged;
    if at < log.len() {
        log[at] = x;
        *logged = at + 1;
        return Ok(add(pc, 4));
    }
    Err(Stop::Trap(4))
}

// ecall, by x17 (document 03 §4).
pub fn ecall(
    registers: &Registers,
    log: &mut [u32],
    logged: &mut usize,
    pc: u32,
) -> Result<u32, Stop>
    requires { logged.old ≤ length log.old }
    ensures by_index { (m : List ℕ) → stands registers.now (pc_after pc result) m log.new logged.new (status_after result) ≡ call_of (length log.old) (stands registers.now pc m log.old logged.old Status.Going) }
    ensures grows { Grows (length log.old) log.old logged.old log.new logged.new }
{
    let what = get(registers, 17);
    let x = get(registers, 10);
    match what {
        0 => Err(Stop::Exit),
        1 => emit(x, log, logged, pc),
        2 => Err(Stop::Trap(x)),
        _ => Err(Stop::Fault(5)),
    }
}
