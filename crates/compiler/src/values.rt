// Expressions, as values and as conditions. Each function goes from the item that ends an expression to its left, and calls itself for what is on the right,
// so that a long chain of operators takes no stack. What all have in common:
//   code                 the program
//   end                  the position behind the expression's last item
//   d                    how many temporaries are in use
//   tape                 where the code goes
ghost use Rattle.std.specs.Prelude.{◌≡◌, false, ◌-◌, ◌≤◌, get_or, eqb};
ghost use Rattle.word.specs.Choice.{both};
ghost use Rattle.emission.specs.OnTape.{OnTape};
ghost use Rattle.compiler.specs.Code.{of_code};
ghost use Rattle.compiler.specs.Lies.{first};
ghost use Rattle.compiler.specs.Post.{Values, Arguments, Conditions, Calls, Ready, Aimed};

use crate::calls::{calling, plus};
use crate::items::{is_kind, kind_of, start_of};
use crate::places::{place_of, sides, temporaries};
use crate::{Code, own};
use emission::calls::answered;
use emission::places::{carry, settle};
use emission::tape::Tape;
use emission::{Jump, jumps};
use flat::item::Kind;
use word::lists::word;

// A value comes to its place. After an operator with two sides it goes on where the left one ends, so that no range has the positions.
#[cycle(arguments_called_condition_decided_joined_value)]
pub fn value(code: Code, end: usize, d: u32, tape: &mut Tape)
    requires { Ready end tape.old.at }
    ensures { OnTape (of_code Values code.entry end d) tape.old tape.new }
{
    let mut e = end;
    while 4 <= e {
        let Ok(kind) = kind_of(code.words, e) else {
            return;
        };
        match kind {
            Kind::Element => {
                own::element(code.words, e, d, tape);
                e -= 4;
                continue;
            }
            Kind::Unary => {
                own::unary(code.words, e, d, tape);
                e -= 4;
                continue;
            }
            Kind::Strict => {
                let right = sides(code.words, e - 4, d);
                own::strict(code.words, e, right, d, tape);
                value(code, e - 4, right.next, tape);
                e = right.middle;
                continue;
            }
            Kind::Call => {
                answered(tape, d);
                called(code, e, d, tape);
                return;
            }
            Kind::Join => {
                joined(code, e, d, tape);
                return;
            }
            _ => return,
        }
    }
}

// The value of `&&` or `||`: the right side's, or what the left side decides.
#[cycle(arguments_called_condition_decided_joined_value)]
fn joined(code: Code, end: usize, d: u32, tape: &mut Tape)
    requires { Ready end tape.old.at × ((4 ≤ end) × (get_or code.words.now (end - 4) 0 ≡ 8)) }
    ensures { OnTape (of_code Values code.entry end d) tape.old tape.new }
{
    let middle = start_of(code.words, end - 4);
    if middle < 4 {
        return;
    }
    let other = is_kind(code.words, middle, Kind::Or);
    let v = u32::from(other);
    let behind = tape.at;
    settle(tape, v, d);
    let decided = tape.at;
    jumps::jump(tape, behind);
    let p = place_of(code.words, end - 4, d);
    carry(tape, p, d);
    value(code, end - 4, d, tape);
    condition(code, other, middle - 4, d, decided, tape);
}

// A call, with the values of its arguments.
#[cycle(arguments_called_condition_decided_joined_value)]
pub fn called(code: Code, end: usize, d: u32, tape: &mut Tape)
    requires { Ready end tape.old.at × (4 ≤ end) }
    ensures { OnTape (of_code Calls code.entry end d) tape.old tape.new }
{
    calling(code, end, d, tape);
    let n = word(code.words, end - 1);
    arguments(code, end - 4, n, d, tape);
}

// The values of n arguments that end at `end`, the last one first.
#[cycle(arguments_called_condition_decided_joined_value)]
fn arguments(code: Code, end: usize, n: u32, d: u32, tape: &mut Tape)
    requires { Ready end tape.old.at }
    ensures { OnTape (of_code Arguments code.entry end n d) tape.old tape.new }
{
    let mut e = end;
    for i in (0..n).rev() {
        let start = start_of(code.words, e);
        let before = temporaries(code.words, start, i);
        let below = plus(d, before);
        value(code, e, below, tape);
        e = start;
    }
}

// A jump to `to` where the expression's truth is t; it goes on as `value` does.
#[cycle(arguments_called_condition_decided_joined_value)]
pub fn condition(code: Code, t: bool, end: usize, d: u32, to: usize, tape: &mut Tape)
    requires { Aimed end tape.old.at to }
    ensures { OnTape (λ at. of_code Conditions code.entry t end d at to) tape.old tape.new }
{
    let mut truth = t;
    let mut e = end;
    let mut goal = to;
    while 4 <= e {
        if own::is_not(code.words, e) {
            truth = !truth;
            e -= 4;
            continue;
        }
        if is_kind(code.words, e, Kind::Join) {
            let middle = start_of(code.words, e - 4);
            if middle < 4 {
                return;
            }
            let other = is_kind(code.words, middle, Kind::Or);
            let behind = tape.at;
            condition(code, truth, e - 4, d, goal, tape);
            goal = own::aim(truth, other, goal, behind);
            truth = other;
            e = middle - 4;
            continue;
        }
        decided(code, truth, e, d, goal, tape);
        return;
    }
}

// The same of an expression that is neither `!` nor `&&` nor `||`.
#[cycle(arguments_called_condition_decided_joined_value)]
fn decided(code: Code, t: bool, end: usize, d: u32, to: usize, tape: &mut Tape)
    requires { Aimed end tape.old.at to × ((4 ≤ end) × ((get_or code.words.now (end - 4) 0 ≡ 8 → ⊥) × (both (eqb (get_or code.words.now (end - 4) 0) 4) (eqb (first code.words.now end) 1) ≡ false))) }
    ensures { OnTape (λ at. of_code Conditions code.entry t end d at to) tape.old tape.new }
{
    let way = Jump {
        near: code.near,
        when: t,
        to,
    };
    if is_kind(code.words, end, Kind::Number) {
        let n = word(code.words, end - 2);
        jumps::always(tape, way, n);
        return;
    }
    if is_kind(code.words, end, Kind::Call) {
        jumps::testing_answer(tape, way);
        called(code, end, d, tape);
        return;
    }
    match own::relation_of(code.words, end) {
        Some(comparison) => {
            let right = sides(code.words, end - 4, d);
            own::compare(code.words, way, comparison, end, right, d, tape);
            value(code, end - 4, right.next, tape);
            value(code, right.middle, d, tape);
        }
        None => {
            let p = place_of(code.words, end, d);
            jumps::testing(tape, way, p);
            value(code, end, d, tape);
        }
    }
}
