// `emulate` for C: the run of an image.
ghost use Rattle.toolchain.specs.Emulation.{Emulates, buffers};
ghost use Rattle.doorlang_c.specs.Told.{Tells, told};
ghost use Rattle.doorlang_c.specs.Emulation.{figures, emulated};

use emulator_c::{number_of, stop as stop_of};
use toolchain::emulate;

// Returns the answer; where that is 0, the last five say how the run stopped, and else they stay as they were.
#[unsafe(no_mangle)]
#[tactic(auto, unfolding(crate::specs::Emulation::emulated))]
pub extern "C" fn doorlang_emulate(
    code: &[u8],
    input: &[u8],
    memory: &mut [u8],
    registers: &mut [u32],
    log: &mut [u32],
    room: usize,
    limit: u64,
    stop: &mut u32,
    number: &mut u32,
    pc: &mut u32,
    steps: &mut u64,
    logged: &mut usize,
) -> u32
    ensures { Tells (Emulates code.now input.now room limit (buffers memory.old registers.old log.old) (buffers memory.new registers.new log.new)) emulated (figures stop.old number.old pc.old steps.old logged.old) (told result (figures stop.new number.new pc.new steps.new logged.new)) }
{
    match emulate(code, input, memory, registers, log, room, limit) {
        Err(r) => r.number(),
        Ok(e) => {
            let s = e.status;
            *stop = stop_of(s);
            *number = number_of(s);
            *pc = e.pc;
            *steps = e.steps;
            *logged = e.logged;
            0
        }
    }
}
