// Statements and blocks. A block goes from its last statement to its first by halves: the second half's code is put first. What all have in common:
//   code                 the program
//   p, n                 where the header of a statement stands, and how many statements a block has
//   tape                 where the code goes
ghost use Rattle.std.specs.Prelude.{◌≡◌, ◌≤◌, get_or};
ghost use Rattle.emission.specs.OnTape.{OnTape};
ghost use Rattle.compiler.specs.Code.{of_code};
ghost use Rattle.compiler.specs.Standing.{first_end};
ghost use Rattle.compiler.specs.Post.{Ready};
ghost use Rattle.compiler.specs.Blocks.{Answers, Statements, Blocks, Skips, PassesOver};

use crate::Code;
use crate::items::is_kind;
use crate::places::{above, place_of};
use crate::values::{called, condition, value};
use emission::Array;
use emission::calls::assign;
use emission::elements::writing;
use emission::functions::{ecall, leaving, leaving_zero};
use emission::jumps::{jump, jump_back};
use emission::places::bring;
use emission::tape::Tape;
use flat::item;
use flat::statement::Kind;
use word::lists::word;

// No program has more words.
pub const MOST_WORDS: usize = 1073741824;

// Where the first expression of the statement at p ends.
pub fn first_end(words: &[u32], p: usize) -> usize
    requires { p ≤ 1073741824 }
    ensures { result ≡ first_end words.now p }
{
    p + 8 + 4 * word(words, p + 3) as usize
}

// Where the m statements end that stand from p on.
pub fn skip(words: &[u32], p: usize, m: u32) -> usize
    requires { p ≤ 1073741824 }
    ensures skips { Skips words.now p m result }
    ensures within { p ≤ result }
{
    let mut q = p;
    for _ in 0..m {
        if MOST_WORDS < q {
            return q;
        }
        q = q + 8 + word(words, q + 7) as usize;
    }
    q
}

// A jump to position `to`, over the block of m statements that is written, if it isn't empty.
pub fn pass_over(m: u32, to: usize, tape: &mut Tape)
    requires { (tape.old.at ≤ to) × (to ≤ 262144) }
    ensures { OnTape (PassesOver m to) tape.old tape.new }
{
    if m != 0 {
        jump(tape, to);
    }
}

// A value comes to the register of results; a call's is there already.
pub fn answering(code: Code, end: usize, tape: &mut Tape)
    requires { Ready end tape.old.at }
    ensures { OnTape (of_code Answers code.entry end) tape.old tape.new }
{
    if end < 4 {
        return;
    }
    if is_kind(code.words, end, item::Kind::Call) {
        called(code, end, 0, tape);
        return;
    }
    let p = place_of(code.words, end, 0);
    bring(tape, p);
    value(code, end, 0, tape);
}

// A local's new value.
fn put(code: Code, p: usize, end: usize, tape: &mut Tape)
    requires { Ready end tape.old.at × ((get_or code.words.now p 0 ≡ 0) × (end ≡ first_end code.words.now p)) }
    ensures { OnTape (of_code Statements code.entry p) tape.old tape.new }
{
    let x = word(code.words, p + 1);
    let place = place_of(code.words, end, 0);
    assign(tape, place, x);
    value(code, end, 0, tape);
}

// An element's new value.
fn store(code: Code, p: usize, end: usize, tape: &mut Tape)
    requires { Ready end tape.old.at × ((get_or code.words.now p 0 ≡ 1) × (end ≡ first_end code.words.now p)) }
    ensures { OnTape (of_code Statements code.entry p) tape.old tape.new }
{
    let second = end + 4 * word(code.words, p + 4) as usize;
    if MOST_WORDS < second {
        return;
    }
    let offset = word(code.words, p + 1);
    let size = word(code.words, p + 2);
    let array = Array { offset, size };
    let index = place_of(code.words, end, 0);
    let next = above(index, 0);
    let v = place_of(code.words, second, next);
    writing(tape, array, index, v);
    value(code, second, next, tape);
    value(code, end, 0, tape);
}

// A return with a value.
fn give(code: Code, p: usize, end: usize, tape: &mut Tape)
    requires { Ready end tape.old.at × ((get_or code.words.now p 0 ≡ 5) × (end ≡ first_end code.words.now p)) }
    ensures { OnTape (of_code Statements code.entry p) tape.old tape.new }
{
    leaving(tape);
    answering(code, end, tape);
}

// A value that is logged.
fn emit(code: Code, p: usize, end: usize, tape: &mut Tape)
    requires { Ready end tape.old.at × ((get_or code.words.now p 0 ≡ 6) × (end ≡ first_end code.words.now p)) }
    ensures { OnTape (of_code Statements code.entry p) tape.old tape.new }
{
    ecall(tape);
    answering(code, end, tape);
}

// A choice: the second block, a jump over it, the first block, and the condition.
#[cycle(block_choose_statement_turns)]
fn choose(code: Code, p: usize, end: usize, tape: &mut Tape)
    requires { Ready end tape.old.at × ((get_or code.words.now p 0 ≡ 2) × (end ≡ first_end code.words.now p)) }
    ensures { OnTape (of_code Statements code.entry p) tape.old tape.new }
{
    let second = end + word(code.words, p + 1) as usize;
    if MOST_WORDS < second {
        return;
    }
    let n = word(code.words, p + 5);
    let m = word(code.words, p + 6);
    let behind = tape.at;
    block(code, second, m, tape);
    let low = tape.at;
    pass_over(m, behind, tape);
    block(code, end, n, tape);
    condition(code, false, end, 0, low, tape);
}

// A loop: its jump back has the last word, which is filled once the loop's start is known.
#[cycle(block_choose_statement_turns)]
fn turns(code: Code, p: usize, end: usize, tape: &mut Tape)
    requires { Ready end tape.old.at × ((get_or code.words.now p 0 ≡ 3) × (end ≡ first_end code.words.now p)) }
    ensures { OnTape (of_code Statements code.entry p) tape.old tape.new }
{
    let behind = tape.at;
    if behind == 0 {
        return;
    }
    let n = word(code.words, p + 5);
    tape.at -= 1;
    block(code, end, n, tape);
    condition(code, false, end, 0, behind, tape);
    jump_back(tape, behind);
}

// One statement.
#[cycle(block_choose_statement_turns)]
fn statement(code: Code, p: usize, tape: &mut Tape)
    requires { Ready p tape.old.at }
    ensures { OnTape (of_code Statements code.entry p) tape.old tape.new }
{
    let Ok(kind) = Kind::try_from(word(code.words, p)) else {
        return;
    };
    if let Kind::Leave = kind {
        leaving_zero(tape);
        return;
    }
    let end = first_end(code.words, p);
    if MOST_WORDS < end {
        return;
    }
    match kind {
        Kind::Leave => {} // its code is put above
        Kind::Put => put(code, p, end, tape),
        Kind::Store => store(code, p, end, tape),
        Kind::Choose => choose(code, p, end, tape),
        Kind::While => turns(code, p, end, tape),
        Kind::Give => give(code, p, end, tape),
        Kind::Emit => emit(code, p, end, tape),
        Kind::Run => called(code, end, 0, tape),
    }
}

// n statements from p on.
#[cycle(block_choose_statement_turns)]
pub fn block(code: Code, p: usize, n: u32, tape: &mut Tape)
    requires { Ready p tape.old.at }
    ensures { OnTape (of_code Blocks code.entry p n) tape.old tape.new }
{
    if n == 0 {
        return;
    }
    if n == 1 {
        statement(code, p, tape);
        return;
    }
    let m = n / 2;
    let q = skip(code.words, p, m);
    if MOST_WORDS < q {
        return;
    }
    block(code, q, n - m, tape);
    block(code, p, m, tape);
}
