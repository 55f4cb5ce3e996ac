// Numbers as people write them: of an option, and of an input text.
ghost use Rattle.std.specs.Prelude.{◌≡◌, ◌+◌, ◌*◌, ◌-◌, ◌<◌, ◌≤◌, ◌^◌, ◌⊎◌, true, leb, Some, None, IfSome};
ghost use Rattle.language.specs.Tokens.{is_blank, is_digit, all, decimal};
ghost use Rattle.console.specs.Numbers.{at_most, number_of, fresh, input, at as at_of, stored, blank_after, dash_after, more_of, digit_after, sign_after, is_fault, read_byte, read_bytes};

use emulator::memory::put_word;
use word::arithmetic::neg;

// Why a word is not the number that is wanted.
#[derive(Clone, Copy)]
pub enum NumberError {
    TooLarge,
    NoNumber,
}

// The largest number of an input text, and the magnitude of the least.
const LARGEST_NUMBER: u64 = 2147483647;

const LARGEST_MAGNITUDE: u64 = 2147483648;

// What can be at fault in an input text.
#[derive(Clone, Copy)]
pub enum Fault {
    NoNumber,
    OutOfRange,
    TooMany,
}

// Where the reading of an input text is: between numbers, after a dash, in the digits of a number without or with one; or at a fault, or in a phase of the
// caller's own, where it stays.
#[derive(Clone, Copy)]
pub enum Phase {
    Between,
    Dash,
    Positive,
    Negative,
    Faulty(Fault),
    Other(u32),
}

// The reading so far: the magnitude of the number that is being read, and how many are read.
// The value stands beside the phase and not in it: the clauses of `at`, `blank_after` and `read_bytes`, which the program calls, speak of every reading, with any value
// in any phase.
#[derive(Clone, Copy)]
pub struct Reading {
    pub phase: Phase,
    pub value: u32,
    pub count: usize,
}

// This and the next two are private in `tokens` too: each is one expression under the definition that both crates cite, and shared it would be no plainer.
fn is_blank(b: u8) -> bool
    ensures { result ≡ is_blank b }
{
    b" \t\n\r".contains(&b)
}

fn is_digit(b: u8) -> bool
    ensures { result ≡ is_digit b }
{
    b.is_ascii_digit()
}

// What a digit counts.
fn digit_value(b: u8) -> u64
    requires { is_digit b ≡ true }
    ensures { (result ≡ b - 48) × (result < 10) }
{
    (b - 48) as u64
}

// What a digit in hex stands for.
pub fn hex_digit(b: u8) -> Option<u8>
    ensures below { IfSome result (λ d. d < 16) }
    ensures figure { 48 ≤ b → b ≤ 57 → result ≡ Some (b - 48) }
    ensures letter { 97 ≤ b → b ≤ 102 → result ≡ Some (b - 87) }
    ensures other { (b < 48) ⊎ ((57 < b) × (b < 97)) ⊎ (102 < b) → result ≡ None }
{
    match b {
        b'0'..=b'9' => Some(b - b'0'),
        b'a'..=b'f' => Some(b - b'a' + 10),
        _ => None,
    }
}

// Whether every byte is a digit.
fn all_digits(word: &[u8]) -> bool
    ensures { result ≡ all is_digit word.now }
{
    for b in word {
        if !is_digit(*b) {
            return false;
        }
    }
    true
}

// Whether a number and one digit more is at most `most`.
fn has_room(n: u64, d: u64, most: u64) -> bool
    ensures { result ≡ leb (n * 10 + d) most }
{
    d <= most && n <= (most - d) / 10
}

// The number that digits mean, if it is at most `most`.
fn digits_value(word: &[u8], most: u64) -> Result<u64, NumberError>
    requires { all is_digit word.now ≡ true }
    ensures { result ≡ at_most most (decimal 0 word.now) }
{
    let mut n = 0;
    for b in word {
        let d = digit_value(*b);
        if !has_room(n, d, most) {
            return Err(NumberError::TooLarge);
        }
        n = n * 10 + d;
    }
    Ok(n)
}

// The number that a word is, if it is at most `most`.
pub fn number_of(word: &[u8], most: u64) -> Result<u64, NumberError>
    ensures { result ≡ number_of most word.now }
{
    if word.is_empty() {
        return Err(NumberError::NoNumber);
    }
    if !all_digits(word) {
        return Err(NumberError::NoNumber);
    }
    digits_value(word, most)
}

// The start of an input text.
pub fn start() -> Reading
    ensures { result ≡ fresh }
{
    Reading {
        phase: Phase::Between,
        value: 0,
        count: 0,
    }
}

// The same reading in another phase.
pub fn at(phase: Phase, value: u32, r: Reading) -> Reading
    ensures { result ≡ at_of phase value r }
{
    Reading {
        phase,
        value,
        count: r.count,
    }
}

// A word more, if there is room for it.
fn store(w: u32, r: Reading, block: &mut [u8]) -> Reading
    ensures { input result block.new ≡ stored w (input r block.old) }
{
    let n = r.count;
    if n < block.len() / 4 {
        put_word(block, n * 4, w);
        return Reading {
            phase: Phase::Between,
            value: 0,
            count: n + 1,
        };
    }
    at(Phase::Faulty(Fault::TooMany), 0, r)
}

// A blank, or the text's end.
pub fn blank_after(r: Reading, block: &mut [u8]) -> Reading
    ensures { input result block.new ≡ blank_after (input r block.old) }
{
    match r.phase {
        Phase::Between => r,
        Phase::Dash => at(Phase::Faulty(Fault::NoNumber), 0, r),
        Phase::Positive => store(r.value, r, block),
        Phase::Negative => store(neg(r.value), r, block),
        Phase::Faulty(_) | Phase::Other(_) => r,
    }
}

fn dash_after(r: Reading) -> Reading
    ensures { result ≡ dash_after r }
{
    match r.phase {
        Phase::Between => at(Phase::Dash, 0, r),
        _ => at(Phase::Faulty(Fault::NoNumber), 0, r),
    }
}

// One digit more of a number of this sign, which may be at most `most`.
fn more(phase: Phase, most: u64, d: u64, r: Reading) -> Reading
    requires { (d < 10) × (most < 2 ^ 32) }
    ensures { result ≡ more_of phase most d r }
{
    let n = r.value as u64 * 10 + d;
    if n <= most {
        return at(phase, n as u32, r);
    }
    at(Phase::Faulty(Fault::OutOfRange), 0, r)
}

fn digit_after(d: u64, r: Reading) -> Reading
    requires { d < 10 }
    ensures { result ≡ digit_after d r }
{
    match r.phase {
        Phase::Dash | Phase::Negative => more(Phase::Negative, LARGEST_MAGNITUDE, d, r),
        _ => more(Phase::Positive, LARGEST_NUMBER, d, r),
    }
}

// A byte more that is no blank.
fn sign_after(b: u8, r: Reading) -> Reading
    ensures { result ≡ sign_after b r }
{
    if b == b'-' {
        return dash_after(r);
    }
    if is_digit(b) {
        return digit_after(digit_value(b), r);
    }
    at(Phase::Faulty(Fault::NoNumber), 0, r)
}

// Whether the reading stays where it is: at a fault, or in a phase of the caller's own.
#[tactic(auto, unfolding(crate::specs::Numbers::is_fault))]
fn stays(phase: Phase) -> bool
    ensures { result ≡ is_fault phase }
{
    matches!(phase, Phase::Faulty(_) | Phase::Other(_))
}

// A byte more; at a fault, or in a phase of the caller's own, the reading stays.
fn read_byte(b: u8, r: Reading, block: &mut [u8]) -> Reading
    ensures { input result block.new ≡ read_byte b (input r block.old) }
{
    if stays(r.phase) {
        return r;
    }
    if is_blank(b) {
        return blank_after(r, block);
    }
    sign_after(b, r)
}

// A part of the text more.
pub fn read_bytes(text: &[u8], r: Reading, block: &mut [u8]) -> Reading
    ensures { input result block.new ≡ read_bytes text.now (input r block.old) }
{
    let mut s = r;
    for b in text {
        s = read_byte(*b, s, block);
    }
    s
}
