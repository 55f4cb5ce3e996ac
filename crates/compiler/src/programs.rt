// Whole programs: where functions begin, their code, and the image.
ghost use Rattle.std.specs.Prelude.{◌+◌, ◌*◌, ◌≤◌, ◌<◌, length, get_or};
ghost use Rattle.emission.specs.OnTape.{OnTape};
ghost use Rattle.compiler.specs.Programs.{Lengths, Layout, Bodies, Compiles, Bounded};

use crate::calls::{MOST_INSTRUCTIONS, entry_of};
use crate::functions::{function, is_near, measure};
use crate::{Code, TooLong};
use emission::image::{bytes, starting, traps};
use emission::tape::Tape;
use word::lists::word;

// The position of the first function.
pub const FUNCTIONS_START: usize = 15;

// The longest code, in instructions.
pub const MOST: usize = MOST_INSTRUCTIONS as usize;

// How long the code of a function is.
pub fn length_of(words: &[u32], entries: &[u32], base: usize, scratch: &mut [u32]) -> usize
    requires { base ≤ 1073741824 }
    ensures lengths { Lengths words.now base result }
    ensures within { result ≤ 262144 }
{
    let near = is_near(words, entries, base, scratch);
    let code = Code {
        words,
        entries,
        near,
    };
    measure(code, base, scratch)
}

// Writes where n functions begin, and behind them where the last one ends: that position.
pub fn layout(
    words: &[u32],
    n: usize,
    entries: &mut [u32],
    scratch: &mut [u32],
) -> Result<usize, TooLong>
    requires { (3 + 4 * n ≤ 1073741824) × (n < length entries.old) }
    ensures { Layout words.now entries.new n result }
{
    let mut p = FUNCTIONS_START;
    for f in 0..entries.len() {
        entries[f] = p as u32;
        if n <= f {
            continue;
        }
        p += length_of(words, entries, 3 + 4 * f, scratch);
        if MOST < p {
            return Err(TooLong);
        }
    }
    Ok(p)
}

// The code of n functions, the last one first. What is said holds of any first n of them, so that n stands beside the words.
pub fn bodies(words: &[u32], entries: &[u32], n: usize, scratch: &mut [u32], tape: &mut Tape)
    requires { (3 + 4 * n ≤ 1073741824) × (tape.old.at ≤ 262144) }
    ensures { OnTape (Bodies words.now entries.now n) tape.old tape.new }
{
    for f in (0..n).rev() {
        let near = is_near(words, entries, 3 + 4 * f, scratch);
        let code = Code {
            words,
            entries,
            near,
        };
        function(code, 3 + 4 * f, tape);
    }
}

// The image of the program that the words hold, and its length in bytes. `entries` has a word more than there are functions, `out` has room for the longest code.
pub fn compile(
    words: &[u32],
    entries: &mut [u32],
    scratch: &mut [u32],
    out: &mut [u32],
    image: &mut [u8],
) -> Result<usize, TooLong>
    requires { (length words.now ≤ 1073741824) × ((3 + 4 * get_or words.now 0 0 ≤ 1073741824) × ((get_or words.now 0 0 < length entries.old) × (131072 ≤ length out.old))) }
    ensures compiles { Compiles words.now image.old result image.new }
    ensures bounded { Bounded result }
{
    let n = word(words, 0) as usize;
    let end = layout(words, n, entries, scratch)?;
    if image.len() < 4 * end {
        return Err(TooLong);
    }
    let mut tape = Tape {
        words: out,
        at: end,
    };
    bodies(words, entries, n, scratch, &mut tape);
    traps(&mut tape);
    let main = entry_of(entries, word(words, 1));
    starting(&mut tape, main);
    bytes(tape.words, end, image);
    Ok(4 * end)
}
