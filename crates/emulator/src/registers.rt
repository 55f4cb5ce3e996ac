// The registers: 32 words that the caller lends. x0 is 0, whatever stands in its place.
#![tactic(auto, unfolding(processor::specs::Machine::register, processor::specs::Machine::set_register))]

ghost use Rattle.std.specs.Prelude.{◌≡◌, ◌<◌};
ghost use Rattle.processor.specs.Formats.{rs1, rs2, rd};
ghost use Rattle.processor.specs.Machine.{register_count, register, set_register};

use processor::columns::{rd, rs1, rs2};

// All of them.
pub type Registers = [u32; 32];

// What is read of a register.
pub fn get(registers: &Registers, r: u32) -> u32
    requires { r < register_count }
    ensures { result ≡ register registers.now r }
{
    if r == 0 { 0 } else { registers[r as usize] }
}

// The first operand of a word: the register that its column rs1 names.
pub fn first(registers: &Registers, w: u32) -> u32
    ensures { result ≡ register registers.now (rs1 w) }
{
    get(registers, rs1(w))
}

// The second operand of a word: the register that its column rs2 names.
pub fn second(registers: &Registers, w: u32) -> u32
    ensures { result ≡ register registers.now (rs2 w) }
{
    get(registers, rs2(w))
}

// The register that a word's column rd names becomes v; a write to x0 changes nothing.
pub fn put(registers: &mut Registers, w: u32, v: u32)
    ensures { registers.new ≡ set_register registers.old (rd w) v }
{
    let d = rd(w);
    if d != 0 {
        registers[d as usize] = v;
    }
}
