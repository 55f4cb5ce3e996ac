// What the emulator and the decoder tell a program in C. The crate emulator_c_c exports the three functions of the panel, and `tools/staticlib
// emulator_c` makes the library.
#![tactic(auto)]

ghost use Rattle.std.specs.Prelude.{◌≡◌, ◌≤◌, length};
ghost use Rattle.processor.specs.Instructions.{decode_of, encode_of};
ghost use Rattle.processor.specs.Machine.{register_count, memory_bytes};
ghost use Rattle.processor.specs.Image.{longest_code, longest_input, run_image};
ghost use Rattle.emulator_c.specs.Told.{columns_of, stop_of, number_of, Tells};

use emulator::image::run_image;
use processor::formats::{alu_key, cond_key, width_key};
use processor::{Instr, Status, decode, encode};

// An instruction as numbers: the opcode of its row in document 03 §3's table, the row's second column in one number, and the fields of its
// format. What it hasn't is 0.
#[derive(Clone, Copy)]
pub struct Columns {
    pub opcode: u32,
    pub key: u32,
    pub rd: u32,
    pub rs1: u32,
    pub rs2: u32,
    pub imm: u32,
}

// The columns, in the order of the struct: so `told` below is a table, a line for each row, which fourteen struct literals would not be.
pub fn row(opcode: u32, key: u32, rd: u32, rs1: u32, rs2: u32, imm: u32) -> Columns
    ensures { result ≡ record { opcode = opcode; key = key; rd = rd; rs1 = rs1; rs2 = rs2; imm = imm } }
{
    Columns {
        opcode,
        key,
        rd,
        rs1,
        rs2,
        imm,
    }
}

// An instruction's columns.
pub fn told(i: Instr) -> Columns
    ensures { result ≡ columns_of i }
{
    match i {
        Instr::Lui(d, imm) => row(0x37, 0, d, 0, 0, imm),
        Instr::Auipc(d, imm) => row(0x17, 0, d, 0, 0, imm),
        Instr::Jal(d, imm) => row(0x6f, 0, d, 0, 0, imm),
        Instr::Jalr(d, a, imm) => row(0x67, 0, d, a, 0, imm),
        Instr::Branch(c, a, b, imm) => row(0x63, cond_key(c), 0, a, b, imm),
        Instr::Load(s, d, a, imm) => row(0x03, width_key(s), d, a, 0, imm),
        Instr::Store(s, a, b, imm) => row(0x23, width_key(s), 0, a, b, imm),
        Instr::OpImm(o, d, a, imm) => row(0x13, alu_key(o), d, a, 0, imm),
        Instr::Shift(o, d, a, b) => row(0x13, alu_key(o), d, a, b, 0),
        Instr::Op(o, d, a, b) => row(0x33, alu_key(o), d, a, b, 0),
        Instr::Fence(d, a, imm) => row(0x0f, 0, d, a, 0, imm),
        Instr::Ecall => row(0x73, 0, 0, 0, 0, 0),
        Instr::Ebreak => row(0x73, 0, 0, 0, 0, 1),
        Instr::Unknown => row(0, 0, 0, 0, 0, 0),
    }
}

// The instruction that a word is, as numbers. What it tells goes through `&mut`s, which the C interface needs.
pub fn panel_decode(
    w: u32,
    opcode: &mut u32,
    key: &mut u32,
    rd: &mut u32,
    rs1: &mut u32,
    rs2: &mut u32,
    imm: &mut u32,
)
    ensures { record { opcode = opcode.new; key = key.new; rd = rd.new; rs1 = rs1.new; rs2 = rs2.new; imm = imm.new } ≡ columns_of (decode_of w) }
{
    let c = told(decode(w));
    *opcode = c.opcode;
    *key = c.key;
    *rd = c.rd;
    *rs1 = c.rs1;
    *rs2 = c.rs2;
    *imm = c.imm;
}

// The word of the instruction that a word is.
pub fn panel_recode(w: u32) -> u32
    ensures { result ≡ encode_of (decode_of w) }
{
    encode(decode(w))
}

// How a run stands, as a number, which the C interface needs.
pub fn stop(s: Status) -> u32
    ensures { result ≡ stop_of s }
{
    match s {
        Status::Going => 0,
        Status::Exit => 1,
        Status::Trap(_) => 2,
        Status::Fault(_) => 3,
        Status::Limit => 4,
    }
}

// The number of a trap or a fault.
pub fn number_of(s: Status) -> u32
    ensures { result ≡ number_of s }
{
    match s {
        Status::Going => 0,
        Status::Exit => 0,
        Status::Trap(t) => t,
        Status::Fault(n) => n,
        Status::Limit => 0,
    }
}

// The run of an image; the log's room is the whole of it. Returns how the run stopped.
pub fn panel_run(
    code: &[u8],
    input: &[u8],
    memory: &mut [u8],
    registers: &mut [u32],
    log: &mut [u32],
    limit: u64,
    pc: &mut u32,
    logged: &mut usize,
    steps: &mut u64,
    number: &mut u32,
) -> u32
    requires { (length memory.old ≡ memory_bytes) × (length registers.old ≡ register_count) × (length code.now ≤ longest_code) × (length input.now ≤ longest_input) }
    ensures { Tells (run_image code.now input.now (length log.old) limit) registers.new pc.new memory.new log.new logged.new steps.new result number.new }
{
    let e = run_image(code, input, memory, registers, log, log.len(), limit);
    let s = e.status;
    *pc = e.pc;
    *logged = e.logged;
    *steps = e.steps;
    *number = number_of(s);
    stop(s)
}
