// Document 01 §5: the run of a text's program.
ghost use Rattle.std.specs.Prelude.{◌≡◌, ◌*◌, ◌≤◌, length};
ghost use Rattle.word.specs.Bytes.{words_of_bytes};
ghost use Rattle.interpreter.specs.Post.{working_room, Runs};
ghost use Rattle.toolchain.specs.Checking.{work as working};
ghost use Rattle.toolchain.specs.Interpretation.{lent, Interprets};
ghost use Rattle.toolchain.specs.Accepting.{RunsWords};

use crate::accept::{accept, elements as elements_of};
use crate::refusals::Refusal;
use crate::work::Work;
use interpreter::{Ran, run};
use word::bytes::word_of;

// The words of a block. Each is made of its bytes by index, as `words_of_bytes` is defined: a zip with chunks would need a second law of the same.
fn block_words(input: &[u8], arrays: &mut [u32])
    requires { length input.now ≡ 4 * length arrays.old }
    ensures { arrays.new ≡ words_of_bytes input.now }
{
    for (i, word) in arrays.iter_mut().enumerate() {
        let at = 4 * i;
        *word = word_of(input[at], input[at + 1], input[at + 2], input[at + 3]);
    }
}

// The run of a program's words on a block, whose words the arrays become.
fn run_block(
    core: &[u32],
    input: &[u8],
    arrays: &mut [u32],
    log: &mut [u32],
    room: usize,
    fuel: u64,
    work: &mut [u32],
) -> Ran
    requires { (length input.now ≡ 4 * length arrays.old) × (room ≤ length log.old) × (working_room ≤ length work.old) }
    ensures { Runs core.now room fuel (words_of_bytes input.now) log.old result.outcome result.fuel result.logged arrays.new log.new }
{
    block_words(input, arrays);
    run(core, arrays, log, room, fuel, work)
}

// The run of a program's words, if the block is one word for each element and the buffers are long enough.
fn run_words(
    core: &[u32],
    input: &[u8],
    arrays: &mut [u32],
    log: &mut [u32],
    room: usize,
    fuel: u64,
    work: &mut [u32],
) -> Result<Ran, Refusal>
    requires { working_room ≤ length work.old }
    ensures { RunsWords core.now input.now fuel room (lent arrays.old log.old) (lent arrays.new log.new) result }
{
    let elements = elements_of(core) as usize;
    if input.len() != 4 * elements {
        return Err(Refusal::Input);
    }
    if arrays.len() < elements {
        return Err(Refusal::Room);
    }
    if log.len() < room {
        return Err(Refusal::Room);
    }
    Ok(run_block(core, input, &mut arrays[..elements], log, room, fuel, work))
}

// The run of a text's program on an input block, with so much fuel and so much room for the log: `room` is what the caller states, which may be less than the log has. Lent are a word for each element of the arrays, and a log of at
// least `room` words; what lies beyond stays as it was.
pub fn interpret(
    text: &[u8],
    input: &[u8],
    arrays: &mut [u32],
    log: &mut [u32],
    room: usize,
    fuel: u64,
    tokens: &mut [u32],
    tree: &mut [u32],
    starts: &mut [u32],
    core: &mut [u32],
) -> Result<Ran, Refusal>
    ensures { Interprets text.now input.now fuel room (working tokens.old tree.old starts.old core.old) (lent arrays.old log.old) (lent arrays.new log.new) result }
{
    Work::of(tokens, tree, starts, core).suffices()?;
    accept(text, tokens, tree, starts, core)?;
    run_words(core, input, arrays, log, room, fuel, tokens)
}
