// The own code of the item that ends at a position: what it does with the values of its operands, wherever they are.
ghost use Rattle.std.specs.Prelude.{◌≡◌, ◌-◌, ◌≤◌, get_or, eqb};
ghost use Rattle.word.specs.Choice.{pick, both};
ghost use Rattle.emission.specs.Macros.{placed, optional};
ghost use Rattle.emission.specs.OnTape.{OnTape};
ghost use Rattle.compiler.specs.Lies.{first as first_of};
ghost use Rattle.compiler.specs.Post.{PlaceAt, Reads, Applies, Operates, Compares, RelationAt, agree};

use crate::items::{is_kind, strict_operator, unary_operator};
use crate::places::{Right, place_of};
use emission::elements::reading;
use emission::jumps::comparing;
use emission::strict::{operating, relation};
use emission::tape::Tape;
use emission::unary::applying;
use emission::{Array, Jump, Sides};
use flat::item::Kind;
use flat::operator::Unary;
use processor::Cond;
use word::lists::word;

// An element of an array.
pub fn element(words: &[u32], end: usize, d: u32, tape: &mut Tape)
    requires { (4 ≤ end) × (tape.old.at ≤ 262144) }
    ensures { OnTape (Reads words.now end d) tape.old tape.new }
{
    let offset = word(words, end - 2);
    let size = word(words, end - 1);
    let p = place_of(words, end - 4, d);
    reading(tape, Array { offset, size }, p, d);
}

// A unary operator.
pub fn unary(words: &[u32], end: usize, d: u32, tape: &mut Tape)
    requires { 4 ≤ end }
    ensures { OnTape (Applies words.now end d) tape.old tape.new }
{
    let o = unary_operator(words, end);
    let p = place_of(words, end - 4, d);
    applying(tape, o, p, d);
}

// Where the values of both sides are.
fn places(words: &[u32], end: usize, right: Right, d: u32) -> Sides
    requires { 4 ≤ end }
    ensures left { PlaceAt words.now right.middle d (placed result.left) }
    ensures right { PlaceAt words.now (end - 4) right.next (placed result.right) }
{
    Sides {
        left: place_of(words, right.middle, d),
        right: place_of(words, end - 4, right.next),
    }
}

// A strict operator.
pub fn strict(words: &[u32], end: usize, right: Right, d: u32, tape: &mut Tape)
    requires { (4 ≤ end) × (tape.old.at ≤ 262144) }
    ensures { OnTape (Operates words.now end right.middle right.next d) tape.old tape.new }
{
    let o = strict_operator(words, end);
    let both = places(words, end, right, d);
    operating(tape, o, both, d);
}

// A comparison as a jump.
pub fn compare(
    words: &[u32],
    way: Jump,
    comparison: (Cond, bool),
    end: usize,
    right: Right,
    d: u32,
    tape: &mut Tape,
)
    requires { (4 ≤ end) × (tape.old.at ≤ way.to) }
    ensures { OnTape (λ at. Compares words.now way.near way.when comparison.0 comparison.1 end right.middle right.next d at way.to) tape.old tape.new }
{
    let both = places(words, end, right, d);
    comparing(tape, way, comparison, both);
}

// The one branch that an item is as a condition, if it is one: a comparison, and whether the sides are exchanged.
pub fn relation_of(words: &[u32], end: usize) -> Option<(Cond, bool)>
    requires { 4 ≤ end }
    ensures { RelationAt words.now end (optional result) }
{
    if is_kind(words, end, Kind::Strict) {
        let o = strict_operator(words, end);
        return relation(o);
    }
    None
}

// Whether an item is `!`.
pub fn is_not(words: &[u32], end: usize) -> bool
    requires { 4 ≤ end }
    ensures { result ≡ both (eqb (get_or words.now (end - 4) 0) 4) (eqb (first_of words.now end) 1) }
{
    if is_kind(words, end, Kind::Unary) {
        return word(words, end - 2) == Unary::Not as u32;
    }
    false
}

// Where the left side of `&&` or `||` jumps to, when its right side, put before `at`, jumps to `to` where its truth is t.
pub fn aim(t: bool, other: bool, to: usize, at: usize) -> usize
    ensures { result ≡ pick (agree t other) to at }
{
    if t == other { to } else { at }
}
