// Calls: where functions begin, and how arguments that have their values are passed.
ghost use Rattle.std.specs.Prelude.{◌≡◌, ◌+◌, ◌-◌, ◌<◌, ◌≤◌};
ghost use Rattle.emission.specs.OnTape.{OnTape};
ghost use Rattle.compiler.specs.Post.{position as position_of, entry_in, Passes, Callings, Ready};

use crate::Code;
use crate::items::start_of;
use crate::places::{place_of, temporaries};
use emission::calls;
use emission::tape::Tape;
use word::lists::word;

// The longest code, in instructions.
pub const MOST_INSTRUCTIONS: u32 = 131072;

// A position of code, or 0 if it is past the longest code, as `position_of` has it: no program has an entry there.
pub fn position(n: u32) -> usize
    ensures value { result ≡ position_of n }
    ensures within { result ≤ 131072 }
{
    if n <= MOST_INSTRUCTIONS {
        n as usize
    } else {
        0
    }
}

// Where function f begins: past the table where its last word says.
pub fn entry_of(entries: &[u32], f: u32) -> usize
    ensures value { result ≡ entry_in entries.now f }
    ensures within { result ≤ 131072 }
{
    let last = entries.len().saturating_sub(1);
    let i = last.min(f as usize);
    position(word(entries, i))
}

// The sum, where it is a word.
pub fn plus(d: u32, n: u32) -> u32
    ensures { d + n < 4294967296 → result ≡ d + n }
{
    d.checked_add(n).unwrap_or(d)
}

// Passes the n arguments that end at `end`, the last one first.
pub fn passes(words: &[u32], end: usize, n: u32, d: u32, tape: &mut Tape)
    requires { end ≤ 1073741824 }
    ensures { OnTape (Passes words.now end n d) tape.old tape.new }
{
    let mut e = end;
    for i in (0..n).rev() {
        let start = start_of(words, e);
        let before = temporaries(words, start, i);
        let below = plus(d, before);
        let p = place_of(words, e, below);
        calls::pass(tape, p, i);
        e = start;
    }
}

// The own code of the call that ends at `end`.
pub fn calling(code: Code, end: usize, d: u32, tape: &mut Tape)
    requires { Ready end tape.old.at × (4 ≤ end) }
    ensures { OnTape (Callings code.entry.words.now code.entry.entries.now end d) tape.old tape.new }
{
    let f = word(code.words, end - 2);
    let n = word(code.words, end - 1);
    let to = entry_of(code.entries, f);
    calls::calling(tape, to, d);
    passes(code.words, end - 4, n, d, tape);
}
