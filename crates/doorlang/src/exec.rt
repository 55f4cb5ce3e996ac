// `doorlang exec`: the run of an image.
use crate::output::{Status, Told, about, tell, written};
use crate::values::Values;
use crate::{files, output, rooms};
use console::arguments::Given;
use console::lent::filled;
use console::shown::Stop;
use emulator::run::Ended;
use toolchain::Refusal;

// What a trap of a rule program means (document 01 §5).
pub fn trap_meaning(number: u32) -> &'static str {
    match number {
        1 => "trap 1: division or remainder by zero\n",
        2 => "trap 2: an index is below 0 or not below the array's size\n",
        3 => "trap 3: a call would make more than 64 activations at once\n",
        4 => "trap 4: the log is full\n",
        _ => "a trap of its own\n",
    }
}

// What a fault means (document 03 §4).
fn fault_meaning(number: u32) -> &'static str {
    match number {
        1 => "fault 1: the next instruction is not within the code, or not at a multiple of 4\n",
        2 => "fault 2: an unknown instruction\n",
        3 => "fault 3: a load or store is not aligned, or lies outside the data\n",
        4 => "fault 4: ebreak\n",
        _ => "fault 5: a call to the panel that there is not\n",
    }
}

fn stop_meaning(stop: processor::Status) -> &'static str {
    match stop {
        processor::Status::Going => "the run goes on\n",
        processor::Status::Exit => "the run ended by exit\n",
        processor::Status::Trap(number) => trap_meaning(number),
        processor::Status::Fault(number) => fault_meaning(number),
        processor::Status::Limit => "the run was stopped at its limit of steps\n",
    }
}

// What a refusal of a run means (document 03 §5).
fn refusal_meaning(refusal: Refusal) -> &'static str {
    match refusal {
        Refusal::Code => "the code is not whole words, or is longer than 524288 bytes\n",
        Refusal::Input => "the input block is not whole words, or is longer than 1048576 bytes\n",
        _ => "the memory or the log is shorter than stated\n",
    }
}

fn status_of(stop: processor::Status) -> Status {
    match stop {
        processor::Status::Exit => Status::Done,
        _ => Status::Stopped,
    }
}

// Where a run of an image ended, and what it left.
#[derive(Clone, Copy)]
pub struct Left<'a> {
    pub ended: Ended,
    pub memory: &'a [u8],
    pub registers: &'a [u32],
    pub log: &'a [u32],
}

// The memory after the run, where --memory asks for it, then the lines; `size` is that of the input block.
fn show(rt: &HostRuntime, given: Given, left: Left<'_>, size: usize) -> Result<Status, Told> {
    if let Some(i) = given.memory {
        files::write_file(rt, i, left.memory)?;
    }
    let stop = left.ended.status;
    let steps = left.ended.steps;
    let pc = left.ended.pc;
    let _ = println!(rt; "answer: 0");
    let _ = println!(rt; "stop: {}", Stop(stop));
    let _ = println!(rt; "steps: {steps}");
    let _ = println!(rt; "pc: 0x{pc:08x}");
    let _ = output::log_line(rt, "log", left.log, left.ended.logged);
    output::arrays_line(rt, "arrays", left.memory, size / 4);
    written(rt, output::registers_line(rt, left.registers))?;
    about(rt, given.first);
    tell(rt, stop_meaning(stop));
    Ok(status_of(stop))
}

// A refusal: its line, and a sentence about the input block, or the image.
pub fn refused(rt: &HostRuntime, given: Given, refusal: Refusal) -> Result<Status, Told> {
    let number = refusal.number();
    written(rt, println!(rt; "answer: {number}"))?;
    match refusal {
        Refusal::Input => about(rt, files::block_argument(given)),
        _ => about(rt, given.first),
    }
    tell(rt, refusal_meaning(refusal));
    Ok(Status::Refused)
}

fn go(
    rt: &HostRuntime,
    given: Given,
    code: &[u8],
    input: &[u8],
    values: Values,
) -> Result<Status, Told> {
    let mut memory = filled::<u8, { rooms::MEMORY }>(0);
    let mut registers = [0u32; rooms::REGISTERS];
    let mut log = filled::<u32, { rooms::LOG }>(0);
    let answered = toolchain::emulate(
        code,
        input,
        &mut memory,
        &mut registers,
        &mut log,
        values.room,
        values.most,
    );
    match answered {
        Err(refusal) => refused(rt, given, refusal),
        Ok(ended) => {
            let left = Left {
                ended,
                memory: &memory,
                registers: &registers,
                log: &log,
            };
            show(rt, given, left, input.len())
        }
    }
}

// Whether the memory would be written over a file that is read, by their names.
fn is_over(rt: &HostRuntime, memory: usize, read: Option<usize>) -> bool {
    read.is_some_and(|i| files::is_same(rt, i, memory))
}

// Refused where the memory would be written over a file that is read.
fn not_over_itself(rt: &HostRuntime, given: Given) -> Result<(), Told> {
    let Some(memory) = given.memory else {
        return Ok(());
    };
    if is_over(rt, memory, given.first) || is_over(rt, memory, files::block_argument(given)) {
        about(rt, given.memory);
        tell(rt, "the memory would replace a file that is read\n");
        return Err(Told);
    }
    Ok(())
}

pub fn exec(rt: &HostRuntime, given: Given) -> Result<Status, Told> {
    not_over_itself(rt, given)?;
    let values = Values::of_image(rt, given)?;
    let mut code = filled::<u8, { rooms::CODE }>(0);
    let mut block = filled::<u8, { rooms::BLOCK }>(0);
    let n = files::read_file(rt, files::wanted(given.first)?, &mut code)?;
    let k = files::read_block(rt, given, &mut block)?
        .unwrap_or(0)
        .min(block.len());
    go(rt, given, &code[..n], &block[..k], values)
}
