// Where values are: of the expression that ends at a position, of two sides, of arguments.
ghost use Rattle.std.specs.Prelude.{◌≡◌, ◌+◌, ◌-◌, ◌<◌, ◌≤◌};
ghost use Rattle.codegen.specs.Places.{above as above_of};
ghost use Rattle.emission.specs.Macros.{placed};
ghost use Rattle.compiler.specs.Post.{PlaceAt, SidesAt, Weighs};

use crate::items::{is_kind, start_of, unary_operator};
use emission::Place;
use emission::unary::result;
use flat::item::Kind;
use word::lists::word;

// Where the value is, when d temporaries are in use before. It calls itself, since an operator's place depends on its operand's. Three tests, since it is asked of
// each expression: a match of all kinds is a jump by a table, which costs more.
pub fn place_of(words: &[u32], end: usize, d: u32) -> Place
    ensures { PlaceAt words.now end d (placed result) }
{
    if end < 4 {
        return Place::Temporary(d);
    }
    if is_kind(words, end, Kind::Number) {
        return Place::Constant(word(words, end - 2));
    }
    if is_kind(words, end, Kind::Local) {
        return Place::Local(word(words, end - 2));
    }
    if is_kind(words, end, Kind::Unary) {
        let o = unary_operator(words, end);
        let p = place_of(words, end - 4, d);
        return result(o, p, d);
    }
    Place::Temporary(d)
}

// How many temporaries are in use once a value is at its place.
pub fn above(p: Place, d: u32) -> u32
    ensures value { d < 4294967295 → result ≡ above_of (placed p) d }
    ensures within { result ≤ d + 1 }
{
    match p {
        Place::Constant(_) | Place::Local(_) => d,
        Place::Temporary(_) => d.saturating_add(1),
    }
}

// Of two sides the right one: where it starts, and how many temporaries are in use before it.
#[derive(Clone, Copy)]
pub struct Right {
    pub middle: usize,
    pub next: u32,
}

// The sides of which the right one ends at `end`.
pub fn sides(words: &[u32], end: usize, d: u32) -> Right
    requires { end ≤ 1073741824 }
    ensures sides_at { SidesAt words.now end d result.middle result.next }
    ensures within { result.middle ≤ end - 4 }
{
    let middle = start_of(words, end);
    let p = place_of(words, middle, d);
    let next = above(p, d);
    Right { middle, next }
}

// How many temporaries the n arguments take that end at `end`. It calls itself, since the last one's place depends on how many those before it take.
pub fn temporaries(words: &[u32], end: usize, n: u32) -> u32
    requires { end ≤ 1073741824 }
    ensures weighs { Weighs words.now end n result }
    ensures within { result ≤ n }
{
    if n == 0 {
        return 0;
    }
    let start = start_of(words, end);
    let before = temporaries(words, start, n - 1);
    let p = place_of(words, end, before);
    above(p, before)
}
