// Functions: the code of one, and how long it is.
ghost use Rattle.std.specs.Prelude.{◌-◌, ◌≤◌};
ghost use Rattle.emission.specs.OnTape.{OnTape};
ghost use Rattle.compiler.specs.Code.{of_code};
ghost use Rattle.compiler.specs.Functions.{Functions, Measures, Nearness};

use crate::Code;
use crate::statements::{MOST_WORDS, block};
use emission::functions::{clears, leaving_zero, opening};
use emission::tape::Tape;
use word::lists::word;

// Parameters and lets of a function, at most.
pub const MOST_LOCALS: u32 = 64;

// Where a function is put to measure it: no code is longer.
pub const TOP: usize = 262144;

// Branches reach so many instructions.
pub const NEAR: usize = 1024;

// The function whose four words begin at `base`.
pub fn function(code: Code, base: usize, tape: &mut Tape)
    requires { (base ≤ 1073741824) × (tape.old.at ≤ 262144) }
    ensures { OnTape (of_code Functions code.entry base) tape.old tape.new }
{
    let place = word(code.words, base) as usize;
    let n = word(code.words, base + 1);
    let parameters = word(code.words, base + 2);
    let lets = word(code.words, base + 3);
    if MOST_WORDS < place || MOST_LOCALS < parameters || MOST_LOCALS < lets {
        return;
    }
    leaving_zero(tape);
    block(code, place, n, tape);
    clears(tape, parameters, lets);
    opening(tape);
}

// How long its code is; what is past TOP isn't counted.
pub fn measure(code: Code, base: usize, scratch: &mut [u32]) -> usize
    requires { base ≤ 1073741824 }
    ensures measures { Measures code.entry.words.now code.entry.near base result }
    ensures within { result ≤ 262144 }
{
    let mut tape = Tape {
        words: scratch,
        at: TOP,
    };
    function(code, base, &mut tape);
    TOP - tape.at
}

// Whether branches reach all of it.
pub fn is_near(words: &[u32], entries: &[u32], base: usize, scratch: &mut [u32]) -> bool
    requires { base ≤ 1073741824 }
    ensures { Nearness words.now base result }
{
    let code = Code {
        words,
        entries,
        near: true,
    };
    measure(code, base, scratch) < NEAR
}
