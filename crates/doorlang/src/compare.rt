// `doorlang compare`: the run of a text beside the run of its image.
ghost use Rattle.std.specs.Prelude.{◌≡◌, ◌/◌, take, drop};
ghost use Rattle.word.specs.Bytes.{words_of_bytes};
ghost use Rattle.processor.specs.Machine.{data_start};
ghost use Rattle.interpreter.specs.Post.{outcome_of};
ghost use Rattle.codegen.specs.Costs.{costs};
ghost use Rattle.agreement.specs.Agreement.{agrees_of, limit_of};

use crate::output::{Status, Told, about, tell, written};
use crate::run::Answered;
use crate::values::Values;
use crate::{build, exec, files, output, rooms, run, texts, values};
use console::arguments::Given;
use console::lent::filled;
use console::shown::Stop;
use interpreter::Outcome;

// K and K0 of claim 3: machine steps for a unit of fuel, and besides.
const STEPS_FOR_FUEL: u64 = 128;

const STEPS_BESIDES: u64 = 80;

// The limit under which the image ends where a run that used so much fuel has ended, as far as steps are counted.
fn limit_for(used: u64) -> u64
    ensures { result ≡ limit_of costs used }
{
    if used <= (values::MOST - STEPS_BESIDES) / STEPS_FOR_FUEL {
        STEPS_FOR_FUEL * used + STEPS_BESIDES
    } else {
        values::MOST
    }
}

// Whether the runs agree, by how they ended and what they left; `size` is that of the input block.
fn agrees(text: run::Left<'_>, image: exec::Left<'_>, size: usize) -> bool
    ensures { result ≡ agrees_of (outcome_of text.entry.ran.outcome) (take text.entry.ran.logged text.entry.log.now) (take (size / 4) text.entry.arrays.now) image.entry.ended.status (take image.entry.ended.logged image.entry.log.now) (words_of_bytes (take size (drop data_start image.entry.memory.now))) }
{
    let outcome = text.ran.outcome;
    let stop = image.ended.status;
    let l = text.ran.logged.min(text.log.len());
    let a = (size / 4).min(text.arrays.len());
    let k = image.ended.logged.min(image.log.len());
    let from = output::arrays_start().min(image.memory.len());
    let to = from + size.min(image.memory.len() - from);
    agreement::agree(
        outcome,
        &text.log[..l],
        &text.arrays[..a],
        stop,
        &image.log[..k],
        &image.memory[from..to],
    )
}

// What the image did, beside a run with this outcome: where the fuel ended first, they are compared as far as the run came.
fn agreement_meaning(outcome: Outcome, agree: bool) -> &'static str {
    match outcome {
        _ if !agree => "the image does something else\n",
        Outcome::OutOfFuel => "as far as the fuel went, the image logs the same\n",
        Outcome::Finished | Outcome::Trapped(_) => "the image does the same\n",
    }
}

// The lines of both runs; `size` is that of the input block.
fn show(
    rt: &HostRuntime,
    given: Given,
    fuel: u64,
    size: usize,
    text: run::Left<'_>,
    image: exec::Left<'_>,
) -> Result<Status, Told> {
    let stop = image.ended.status;
    let steps = image.ended.steps;
    let _ = run::lines(rt, text, fuel, size);
    let _ = println!(rt; "image-stop: {}", Stop(stop));
    let _ = println!(rt; "image-steps: {steps}");
    let _ = output::log_line(rt, "image-log", image.log, image.ended.logged);
    output::arrays_line(rt, "image-arrays", image.memory, size / 4);
    let agree = agrees(text, image, size);
    let answer = if agree { "yes" } else { "no" };
    written(rt, println!(rt; "agree: {answer}"))?;
    let outcome = text.ran.outcome;
    run::tell_outcome(rt, given, outcome);
    about(rt, given.first);
    tell(rt, agreement_meaning(outcome, agree));
    Ok(if agree {
        run::status_of(outcome)
    } else {
        Status::Stopped
    })
}

// The image's run, after that of its text.
fn emulate(
    rt: &HostRuntime,
    given: Given,
    image: &[u8],
    input: &[u8],
    values: Values,
    text: run::Left<'_>,
) -> Result<Status, Told> {
    let fuel = values.most;
    let mut memory = filled::<u8, { rooms::MEMORY }>(0);
    let mut registers = [0u32; rooms::REGISTERS];
    let mut image_log = filled::<u32, { rooms::LOG }>(0);
    let answered = toolchain::emulate(
        image,
        input,
        &mut memory,
        &mut registers,
        &mut image_log,
        values.room,
        limit_for(run::used(fuel, text.ran.fuel)),
    );
    match answered {
        Err(refusal) => exec::refused(rt, given, refusal),
        Ok(ended) => {
            let left = exec::Left {
                ended,
                memory: &memory,
                registers: &registers,
                log: &image_log,
            };
            show(rt, given, fuel, input.len(), text, left)
        }
    }
}

// The text's run, then its image's.
fn interpret(
    rt: &HostRuntime,
    given: Given,
    text: &[u8],
    image: &[u8],
    block: &[u8],
    size: Option<usize>,
    values: Values,
) -> Result<Status, Told> {
    let mut arrays = filled::<u32, { rooms::ARRAYS }>(0);
    let mut log = filled::<u32, { rooms::LOG }>(0);
    let Answered { said, size } = run::answer_of(text, block, size, values, &mut arrays, &mut log);
    match said {
        Err(refusal) => texts::refused(rt, given, text, refusal, size),
        Ok(ran) => {
            let left = run::Left {
                ran,
                arrays: &arrays,
                log: &log,
            };
            emulate(rt, given, image, &block[..size], values, left)
        }
    }
}

// The image, then both runs.
fn go(
    rt: &HostRuntime,
    given: Given,
    text: &[u8],
    block: &[u8],
    size: Option<usize>,
    values: Values,
) -> Result<Status, Told> {
    let mut image = filled::<u8, { rooms::IMAGE }>(0);
    match build::image_of(text, &mut image) {
        Err(refusal) => texts::refused(rt, given, text, refusal, 0),
        Ok(bytes) => {
            let n = bytes.min(image.len());
            interpret(rt, given, text, &image[..n], block, size, values)
        }
    }
}

pub fn compare(rt: &HostRuntime, given: Given) -> Result<Status, Told> {
    let values = Values::of_text(rt, given)?;
    let mut text = filled::<u8, { rooms::TEXT }>(0);
    let mut block = filled::<u8, { rooms::BLOCK }>(0);
    let n = files::read_file(rt, files::wanted(given.first)?, &mut text)?;
    let size = files::read_block(rt, given, &mut block)?;
    go(rt, given, &text[..n], &block, size, values)
}
