// The tool chain's public entry points. None has a `requires`: each answers whatever it is given, and its contract is the whole of what is claimed.
#![tactic(auto)]

ghost use Rattle.std.specs.Prelude.{◌≡◌, ◌≤◌, ◌+◌, ◌^◌, ◌<◌, length};
ghost use Rattle.processor.specs.Machine.{memory_bytes, register_count};
ghost use Rattle.processor.specs.Image.{longest_code};
ghost use Rattle.processor.specs.Run.{onward};
ghost use Rattle.toolchain.specs.Emulation.{Emulates, Resumes, Holds, buffers, stood, steps_more};

use emulator::image::{answer, run_image};
use emulator::run::{Ended, run};
use processor::Status;

mod refusals; // the answers that refuse
pub mod work; // working room
mod accept; // document 01 §2 to §4: a text's program
pub mod check; // document 01 §1: the answer to a text
pub mod interpret; // document 01 §5: the run of a text
pub mod compile; // the image of a text

pub use refusals::Refusal;

// The sizes of memory and of the registers.
const MEMORY_BYTES: usize = 0x200000;

const REGISTER_COUNT: usize = 32;

// The run of an image on the panel processor (document 03), from its start: memory is cleared, code and input block are placed, and the run
// goes on until it stops or has made `limit` steps. Lent are 2 MiB of memory, 32 registers, and a log of at least `room` words; what lies
// beyond stays as it was.
pub fn emulate(
    code: &[u8],
    input: &[u8],
    memory: &mut [u8],
    registers: &mut [u32],
    log: &mut [u32],
    room: usize,
    limit: u64,
) -> Result<Ended, Refusal>
    ensures { Emulates code.now input.now room limit (buffers memory.old registers.old log.old) (buffers memory.new registers.new log.new) result }
{
    answer(
        code.len(),
        input.len(),
        memory.len(),
        registers.len(),
        log.len(),
        room,
    )?;
    Ok(run_image(
        code,
        input,
        &mut memory[..MEMORY_BYTES],
        &mut registers[..REGISTER_COUNT],
        log,
        room,
        limit,
    ))
}

// The steps that a run is gone on with for, so that all of them can be counted.
fn steps_more(limit: u64, steps: u64) -> u64
    ensures { (result ≡ steps_more limit steps) × (steps + result < 2 ^ 64) }
{
    limit.min(u64::MAX - steps)
}

// A run that the limit stopped, gone on with.
fn go_on(
    size: usize,
    from: Ended,
    memory: &mut [u8],
    registers: &mut [u32],
    log: &mut [u32],
    room: usize,
    limit: u64,
) -> Ended
    requires { (size ≤ longest_code) × (memory_bytes ≤ length memory.old) × (register_count ≤ length registers.old) × (room ≤ length log.old) × (from.logged ≤ room) × (from.status ≡ Status.Limit) }
    ensures { Holds (onward size room (steps_more limit from.steps) (stood from (buffers memory.old registers.old log.old))) (buffers memory.old registers.old log.old) (buffers memory.new registers.new log.new) result }
{
    let n = steps_more(limit, from.steps);
    run(
        &mut memory[..MEMORY_BYTES],
        &mut registers[..REGISTER_COUNT],
        log,
        room,
        size as u32,
        n,
        from.logged,
        from.pc,
        from.steps,
    )
}

// A run gone on with for `limit` steps more, where the limit stopped it; else it stays as it ended. `size` is its code's, in bytes, and `from` where it
// ended; memory, registers, log and room are those that it was lent.
pub fn resume(
    size: usize,
    from: Ended,
    memory: &mut [u8],
    registers: &mut [u32],
    log: &mut [u32],
    room: usize,
    limit: u64,
) -> Result<Ended, Refusal>
    ensures { Resumes size from room limit (buffers memory.old registers.old log.old) (buffers memory.new registers.new log.new) result }
{
    answer(size, 0, memory.len(), registers.len(), log.len(), room)?;
    if room < from.logged {
        return Err(Refusal::Room);
    }
    match from.status {
        Status::Limit => Ok(go_on(size, from, memory, registers, log, room, limit)),
        _ => Ok(from),
    }
}
