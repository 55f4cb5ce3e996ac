// The emulator and the decoder for programs in C: each export is the function of that name of the crate emulator_c. A slice is a pointer and a length
// to C.
#![tactic(auto)]

ghost use Rattle.std.specs.Prelude.{◌≡◌, ◌≤◌, length};
ghost use Rattle.processor.specs.Instructions.{decode_of, encode_of};
ghost use Rattle.processor.specs.Machine.{register_count, memory_bytes};
ghost use Rattle.processor.specs.Image.{longest_code, longest_input, run_image};
ghost use Rattle.emulator_c.specs.Told.{columns_of, Tells};

// The instruction that a word is, as numbers.
#[unsafe(no_mangle)]
pub extern "C" fn panel_decode(
    w: u32,
    opcode: &mut u32,
    key: &mut u32,
    rd: &mut u32,
    rs1: &mut u32,
    rs2: &mut u32,
    imm: &mut u32,
)
    ensures { record { opcode = opcode.new; key = key.new; rd = rd.new; rs1 = rs1.new; rs2 = rs2.new; imm = imm.new } ≡ columns_of (decode_of w) }
{
    emulator_c::panel_decode(w, opcode, key, rd, rs1, rs2, imm)
}

// The word of the instruction that a word is.
#[unsafe(no_mangle)]
pub extern "C" fn panel_recode(w: u32) -> u32
    ensures { result ≡ encode_of (decode_of w) }
{
    emulator_c::panel_recode(w)
}

// The run of an image; the log's room is the whole of it. Returns how the run stopped.
#[unsafe(no_mangle)]
pub extern "C" fn panel_run(
    code: &[u8],
    input: &[u8],
    memory: &mut [u8],
    registers: &mut [u32],
    log: &mut [u32],
    limit: u64,
    pc: &mut u32,
    logged: &mut usize,
    steps: &mut u64,
    number: &mut u32,
) -> u32
    requires { (length memory.old ≡ memory_bytes) × (length registers.old ≡ register_count) × (length code.now ≤ longest_code) × (length input.now ≤ longest_input) }
    ensures { Tells (run_image code.now input.now (length log.old) limit) registers.new pc.new memory.new log.new logged.new steps.new result number.new }
{
    emulator_c::panel_run(
        code, input, memory, registers, log, limit, pc, logged, steps, number,
    )
}
