// A step and a run (document 03 §4).
#![tactic(auto, unfolding(processor::specs::Instructions::decode_of, processor::specs::Instructions::decode_system, processor::specs::Execute::exec_of, processor::specs::Run::in_code, processor::specs::Run::step_of), using(crate::proofs::Log::same_log))]

ghost use Rattle.std.specs.Prelude.{◌≡◌, List, ℕ, ◌+◌, ◌≤◌, ◌<◌, ◌^◌, length};
ghost use Rattle.processor.specs.Instructions.{decode_of, decode_system};
ghost use Rattle.processor.specs.Machine.{register_count, memory_bytes};
ghost use Rattle.processor.specs.Execute.{exec_of};
ghost use Rattle.processor.specs.Run.{in_code, counted as count_of, step_of, run_of};
ghost use Rattle.processor.specs.Image.{longest_code};
ghost use Rattle.emulator.specs.Stands.{stands, pc_after, status_after, Grows};

use crate::memory::{Memory, word_at};
use crate::registers::Registers;
use crate::rows::{auipc, branch, ecall, fence, jal, jalr, load, lui, op, op_imm, store};
use crate::stop::Stop;
use processor::Status;
use processor::columns::opcode;

// 73: ecall and ebreak are one word each.
pub fn system(
    w: u32,
    registers: &Registers,
    log: &mut [u32],
    logged: &mut usize,
    pc: u32,
) -> Result<u32, Stop>
    requires { logged.old ≤ length log.old }
    ensures by_index { (m : List ℕ) → stands registers.now (pc_after pc result) m log.new logged.new (status_after result) ≡ exec_of (length log.old) (decode_system w) (stands registers.now pc m log.old logged.old Status.Going) }
    ensures grows { Grows (length log.old) log.old logged.old log.new logged.new }
{
    match w {
        0x00000073 => ecall(registers, log, logged, pc),
        0x00100073 => Err(Stop::Fault(4)),
        _ => Err(Stop::Fault(2)),
    }
}

// A word, carried out by the row of its opcode.
pub fn execute(
    w: u32,
    memory: &mut Memory,
    registers: &mut Registers,
    log: &mut [u32],
    logged: &mut usize,
    pc: u32,
) -> Result<u32, Stop>
    requires { logged.old ≤ length log.old }
    ensures status_after { stands registers.new (pc_after pc result) memory.new log.new logged.new (status_after result) ≡ exec_of (length log.old) (decode_of w) (stands registers.old pc memory.old log.old logged.old Status.Going) }
    ensures grows { Grows (length log.old) log.old logged.old log.new logged.new }
{
    match opcode(w) {
        0x13 => op_imm(w, registers, pc),
        0x33 => op(w, registers, pc),
        0x63 => branch(w, registers, pc),
        0x03 => load(w, memory, registers, pc),
        0x23 => store(w, memory, registers, pc),
        0x37 => lui(w, registers, pc),
        0x17 => auipc(w, registers, pc),
        0x6f => jal(w, registers, pc),
        0x67 => jalr(w, registers, pc),
        0x0f => fence(w, pc),
        0x73 => system(w, registers, log, logged, pc),
        _ => Err(Stop::Fault(2)),
    }
}

// Whether an instruction may start there.
pub fn in_code(size: u32, pc: u32) -> bool
    requires { size ≤ longest_code }
    ensures { result ≡ in_code size pc }
{
    pc % 4 == 0 && (0x1000..0x1000 + size).contains(&pc)
}

// One step, with code of this many bytes: fault 1 comes before an instruction.
pub fn step(
    memory: &mut Memory,
    registers: &mut Registers,
    log: &mut [u32],
    size: u32,
    logged: &mut usize,
    pc: u32,
) -> Result<u32, Stop>
    requires { (logged.old ≤ length log.old) × (size ≤ longest_code) }
    ensures status_after { stands registers.new (pc_after pc result) memory.new log.new logged.new (status_after result) ≡ step_of size (length log.old) (stands registers.old pc memory.old log.old logged.old Status.Going) }
    ensures grows { Grows (length log.old) log.old logged.old log.new logged.new }
{
    if !in_code(size, pc) {
        return Err(Stop::Fault(1));
    }
    let w = word_at(memory, pc as usize);
    execute(w, memory, registers, log, logged, pc)
}

// The steps that a stop counts.
pub fn counted(s: Status) -> u64
    ensures { (result ≡ count_of s) × (result ≤ 1) }
{
    match s {
        Status::Fault(1) | Status::Limit => 0,
        _ => 1,
    }
}

// Where a run ended: its pc, how many words the log has, its steps, and how it stopped.
#[derive(Clone, Copy)]
pub struct Ended {
    pub pc: u32,
    pub logged: usize,
    pub steps: u64,
    pub status: Status,
}

// A run of at most so many steps, after those before it. Its callers, C among them, lend slices: their lengths are asked for here, once, and
// what is below takes arrays. They are parameters and no struct: a row is lent those alone that it may touch, which its clause then needn't say of the others.
pub fn run(
    memory: &mut [u8],
    registers: &mut [u32],
    log: &mut [u32],
    room: usize,
    size: u32,
    limit: u64,
    logged0: usize,
    pc0: u32,
    before: u64,
) -> Ended
    requires { (length memory.old ≡ memory_bytes) × (length registers.old ≡ register_count) × (logged0 ≤ room) × (room ≤ length log.old) × (size ≤ longest_code) × (before + limit < 2 ^ 64) }
    ensures before_value { run_of size room limit (stands registers.old pc0 memory.old log.old logged0 Status.Going) before ≡ record { machine = stands registers.new result.pc memory.new log.new result.logged result.status; steps = result.steps } }
    ensures grows { Grows room log.old logged0 log.new result.logged }
{
    let Some(memory) = memory.as_mut_array::<0x200000>() else {
        unreachable!()
    };
    let Some(registers) = registers.as_mut_array::<32>() else {
        unreachable!()
    };
    let log = &mut log[..room];
    let mut pc = pc0;
    let mut logged = logged0;
    for n in 0..limit {
        match step(memory, registers, log, size, &mut logged, pc) {
            Ok(next) => pc = next,
            Err(stop) => {
                let status = Status::from(stop);
                return Ended {
                    pc,
                    logged,
                    steps: before + n + counted(status),
                    status,
                };
            }
        }
    }
    Ended {
        pc,
        logged,
        steps: before + limit,
        status: Status::Limit,
    }
}
