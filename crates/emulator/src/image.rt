// The image (document 03 §5): what a run of it is asked for, memory at its start (§1), and its run.
#![tactic(auto, unfolding(processor::specs::Machine::placed, processor::specs::Machine::zeros, processor::specs::Machine::start_memory, processor::specs::Image::fits, processor::specs::Image::answer_of, processor::specs::Image::run_image, processor::specs::Machine::start_of))]

ghost use Rattle.std.specs.Prelude.{◌≡◌, ◌+◌, ◌≤◌, ◌<◌, ◌^◌, length};
ghost use Rattle.processor.specs.Machine.{register_count, memory_bytes, zeros, placed, start_memory};
ghost use Rattle.processor.specs.Image.{longest_code, longest_input, fits as fits_of, answer_of, run_image};
ghost use Rattle.emulator.specs.Refusal.{answer_number};
ghost use Rattle.emulator.specs.Stands.{stands, Grows};

use crate::run::{Ended, run};

// Whole words, and at most this many bytes.
pub fn whole_words(most: usize, size: usize) -> bool
    ensures { result ≡ fits_of most size }
{
    size % 4 == 0 && size <= most
}

// Why a run is refused (document 03 §5). The tool chain has refusals of texts besides, which a part may not name.
#[derive(Clone, Copy, Debug, PartialEq, Eq)]
pub enum Refusal {
    Code = 4,
    Input = 5,
    Room = 6,
}

impl Refusal {
    ghost use Rattle.emulator.specs.Refusal.{number_of};

    // The number of the answer.
    pub fn number(self) -> u32
        ensures { result ≡ number_of self }
    {
        self as u32
    }
}

// The answer to what is lent, by its sizes: the first of the refusals that applies, or none. They are what document 03 §5 speaks of, once each.
pub fn answer(
    code: usize,
    input: usize,
    memory: usize,
    registers: usize,
    log: usize,
    room: usize,
) -> Result<(), Refusal>
    ensures { answer_number result ≡ answer_of (record { code = code; input = input; memory = memory; registers = registers; log = log; room = room }) }
{
    if !whole_words(524288, code) {
        return Err(Refusal::Code);
    }
    if !whole_words(0x100000, input) {
        return Err(Refusal::Input);
    }
    if memory < 0x200000 || registers < 32 || log < room {
        return Err(Refusal::Room);
    }
    Ok(())
}

// Bytes put into memory, from `at` on. By one and one: `copy_from_slice` would have a program in C bring a `memmove`.
pub fn place(memory: &mut [u8], at: usize, bytes: &[u8])
    requires { at + length bytes.now ≤ length memory.old }
    ensures { memory.new ≡ placed memory.old at bytes.now }
{
    for (j, byte) in bytes.iter().enumerate() {
        memory[at + j] = *byte;
    }
}

// Memory at the start.
pub fn start(code: &[u8], input: &[u8], memory: &mut [u8])
    requires { (length memory.old ≡ memory_bytes) × (length code.now ≤ longest_code) × (length input.now ≤ longest_input) }
    ensures { memory.new ≡ start_memory code.now input.now }
{
    memory.fill(0);
    place(memory, 0x1000, code);
    place(memory, 0x100000, input);
}

// The run of an image, from the start.
pub fn run_image(
    code: &[u8],
    input: &[u8],
    memory: &mut [u8],
    registers: &mut [u32],
    log: &mut [u32],
    room: usize,
    limit: u64,
) -> Ended
    requires { (length memory.old ≡ memory_bytes) × (length registers.old ≡ register_count) × (length code.now ≤ longest_code) × (length input.now ≤ longest_input) × (room ≤ length log.old) }
    ensures limit_value { run_image code.now input.now room limit ≡ record { machine = stands registers.new result.pc memory.new log.new result.logged result.status; steps = result.steps } }
    ensures grows { Grows room log.old 0 log.new result.logged }
{
    start(code, input, memory);
    registers.fill(0);
    run(
        memory,
        registers,
        log,
        room,
        code.len() as u32,
        limit,
        0,
        0x1000,
        0,
    )
}
