// expr, conj, comp, sum and term, which are levels of one function; unary and primary.
// `out` and `at` stay parameters: a header's place is left free and filled once what follows is read, so a writer would hand its place out at each step too.
// `Room` ties the place in one buffer to that in the other, so that no one type holds it; `h` and `d` change from call to call, each by itself.
// `h` and `d` stay two, the steps inwards that are left and what is open: a struct of both would be built anew where `h - 1` or `d + 1` says which bound a step takes.
ghost use Rattle.std.specs.Prelude.{◌≡◌, [], ◌∷◌, ◌+◌, ◌≤◌, ◌<◌, length};
ghost use Rattle.std.proofs.lemmas.List.Edits.{sets};
ghost use Rattle.tokens.specs.Numbers.{number_of_kind};
ghost use Rattle.flat.specs.Numbers.{unary_number};
ghost use Rattle.grammar.specs.Numbers.{number_of_item};
ghost use Rattle.grammar.specs.Operator.{Operates};
ghost use Rattle.grammar.specs.Parse.{levelled, rest_of, exprs_of, arguments_of, enclosed_of, named_of, unary_of, primary_of, ended_of};
ghost use Rattle.grammar.specs.Told.{field_of, operand_of, unary_at, Told, Room, expr_form, right_form, tail_form, args_form};

use crate::input::{Fault, Read, Tokens};
use crate::operators::{EXPR_LEVEL, Operation, Operator, UNARY_LEVEL, most_of, operator_at};
use crate::tree::Item;
use crate::words::{ITEM_WORDS, MANY, put};
use flat::operator::Unary;
use tokens::kinds::Kind;

// At most so many things may be open.
pub const MOST_OPEN: u32 = 32;

// The most steps inwards of an expression.
pub const EXPR_STEPS: usize = 230;

// An expression of level l: the first operand, and then the operators of the level.
#[cycle(args_arguments_enclosed_level_named_operand_primary_rest_unary)]
pub fn level(
    ts: Tokens,
    h: usize,
    l: u32,
    d: u32,
    i: usize,
    out: &mut [u32],
    at: usize,
) -> Result<Read, Fault>
    requires { (Room ts.count out.old i at) × (0 < l) }
    ensures { Told expr_form (λ tok. levelled tok h l d i) ts.entry.words.now ts.entry.count out.old i at result out.new }
{
    if h == 0 {
        return Err(Fault(i));
    }
    if UNARY_LEVEL <= l {
        return primary(ts, h - 1, d, i, out, at);
    }
    let first = level(ts, h - 1, l + 1, d, i, out, at)?;
    rest(ts, h - 1, most_of(l), l, d, first.next, out, first.end)
}

// { operator operand }, at most so many.
#[cycle(args_arguments_enclosed_level_named_operand_primary_rest_unary)]
fn rest(
    ts: Tokens,
    h: usize,
    most: usize,
    l: u32,
    d: u32,
    from: usize,
    out: &mut [u32],
    start: usize,
) -> Result<Read, Fault>
    requires { (Room ts.count out.old from start) × (0 < l) × (l < 6) }
    ensures { Told tail_form (λ tok. rest_of tok (levelled tok h) most l d from) ts.entry.words.now ts.entry.count out.old from start result out.new }
{
    let mut i = from;
    let mut at = start;
    for _ in 0..most {
        let Some(operator) = operator_at(ts, i, l) else {
            return Ok(Read {
                next: i,
                end: at,
                told: 1,
            });
        };
        let right = operand(ts, h, operator, d, i, out, at)?;
        i = right.next;
        at = right.end;
    }
    Ok(Read {
        next: i,
        end: at,
        told: 1,
    })
}

// An operator and its right side. Of `&&` and `||` the item stands before the right side, and is written when that is done.
#[cycle(args_arguments_enclosed_level_named_operand_primary_rest_unary)]
fn operand(
    ts: Tokens,
    h: usize,
    operator: Operator,
    d: u32,
    i: usize,
    out: &mut [u32],
    at: usize,
) -> Result<Read, Fault>
    requires { (Room ts.count out.old i at) × (Operates (field_of ts.words.now ts.count i 0) operator) × (i < ts.count) × (0 < operator.level) × (operator.level < 6) }
    ensures { Told right_form (λ tok. operand_of tok (levelled tok h) operator.level d i) ts.entry.words.now ts.entry.count out.old i at result out.new }
{
    let l = operator.level;
    let p = ts.place(i);
    match operator.operation {
        Operation::Strict(strict) => {
            let side = level(ts, h, l + 1, d, i + 1, out, at)?;
            let end = put(out, side.end, &[Item::Strict as u32, p, strict as u32, 0]);
            Ok(Read {
                next: side.next,
                end,
                told: 1,
            })
        }
        lazy => {
            let side = level(ts, h, l + 1, d, i + 1, out, at + ITEM_WORDS)?;
            let items = ((side.end - at - ITEM_WORDS) / ITEM_WORDS) as u32;
            put(out, at, &[u32::from(lazy.item()), p, items, 0]);
            let end = put(out, side.end, &[Item::Join as u32, p, 0, 0]);
            Ok(Read {
                next: side.next,
                end,
                told: 1,
            })
        }
    }
}

// expr { "," expr }; `params`, `stmts` and `items` differ in separators and in what ends them: one function with three closures is no plainer.
#[cycle(args_arguments_enclosed_level_named_operand_primary_rest_unary)]
fn args(
    ts: Tokens,
    h: usize,
    d: u32,
    from: usize,
    out: &mut [u32],
    start: usize,
) -> Result<Read, Fault>
    requires { Room ts.count out.old from start }
    ensures { Told args_form (λ tok. exprs_of tok (levelled tok h) 65536 d from) ts.entry.words.now ts.entry.count out.old from start result out.new }
{
    let mut i = from;
    let mut at = start;
    for count in 0..MANY {
        let one = level(ts, h, EXPR_LEVEL, d, i, out, at)?;
        if !ts.is(one.next, Kind::Comma) {
            return Ok(Read {
                told: count + 1,
                ..one
            });
        }
        i = one.next + 1;
        at = one.end;
    }
    Err(Fault(i))
}

// "(" [ expr { "," expr } ] ")", from the parenthesis on.
#[cycle(args_arguments_enclosed_level_named_operand_primary_rest_unary)]
pub fn arguments(
    ts: Tokens,
    h: usize,
    d: u32,
    i: usize,
    out: &mut [u32],
    at: usize,
) -> Result<Read, Fault>
    requires { (Room ts.count out.old i at) × (i < ts.count) }
    ensures { Told args_form (λ tok. arguments_of tok (levelled tok h) d i) ts.entry.words.now ts.entry.count out.old i at result out.new }
{
    if MOST_OPEN <= d {
        return Err(Fault(i));
    }
    if ts.is(i + 1, Kind::RightParen) {
        return Ok(Read {
            next: i + 2,
            end: at,
            told: 0,
        });
    }
    let all = args(ts, h, d + 1, i + 1, out, at)?;
    ts.expect(all.next, Kind::RightParen)?;
    Ok(Read {
        next: all.next + 1,
        ..all
    })
}

// An expression in parentheses or brackets, from the one that opens on.
#[cycle(args_arguments_enclosed_level_named_operand_primary_rest_unary)]
pub fn enclosed(
    ts: Tokens,
    h: usize,
    closing: Kind,
    d: u32,
    i: usize,
    out: &mut [u32],
    at: usize,
) -> Result<Read, Fault>
    requires { (Room ts.count out.old i at) × (i < ts.count) }
    ensures { Told expr_form (λ tok. enclosed_of tok (levelled tok h) (number_of_kind closing) d i) ts.entry.words.now ts.entry.count out.old i at result out.new }
{
    if MOST_OPEN <= d {
        return Err(Fault(i));
    }
    let inside = level(ts, h, EXPR_LEVEL, d + 1, i + 1, out, at)?;
    ts.expect(inside.next, closing)?;
    Ok(Read {
        next: inside.next + 1,
        end: inside.end,
        told: 1,
    })
}

// A name, an element or a call.
#[cycle(args_arguments_enclosed_level_named_operand_primary_rest_unary)]
fn named(ts: Tokens, h: usize, d: u32, i: usize, out: &mut [u32], at: usize) -> Result<Read, Fault>
    requires { (Room ts.count out.old i at) × (i < ts.count) × (field_of ts.words.now ts.count i 0 ≡ 1) }
    ensures { Told expr_form (λ tok. named_of tok (levelled tok h) d i) ts.entry.words.now ts.entry.count out.old i at result out.new }
{
    let p = ts.place(i);
    let v = ts.value(i);
    if ts.is(i + 1, Kind::LeftBracket) {
        let index = enclosed(ts, h, Kind::RightBracket, d, i + 1, out, at)?;
        let end = put(out, index.end, &[Item::Element as u32, p, v, 0]);
        return Ok(Read {
            next: index.next,
            end,
            told: 1,
        });
    }
    if ts.is(i + 1, Kind::LeftParen) {
        let all = arguments(ts, h, d, i + 1, out, at)?;
        let end = put(out, all.end, &[Item::Call as u32, p, v, all.told as u32]);
        return Ok(Read {
            next: all.next,
            end,
            told: 1,
        });
    }
    let end = put(out, at, &[Item::Name as u32, p, v, 0]);
    Ok(Read {
        next: i + 1,
        end,
        told: 1,
    })
}

// A unary operator and its operand.
#[cycle(args_arguments_enclosed_level_named_operand_primary_rest_unary)]
fn unary(
    ts: Tokens,
    h: usize,
    operator: Unary,
    d: u32,
    i: usize,
    out: &mut [u32],
    at: usize,
) -> Result<Read, Fault>
    requires { (Room ts.count out.old i at) × (i < ts.count) }
    ensures { Told expr_form (λ tok. unary_of tok (levelled tok h) (unary_at (unary_number operator)) d i) ts.entry.words.now ts.entry.count out.old i at result out.new }
{
    if MOST_OPEN <= d {
        return Err(Fault(i));
    }
    let p = ts.place(i);
    let side = level(ts, h, UNARY_LEVEL, d + 1, i + 1, out, at)?;
    let end = put(out, side.end, &[Item::Unary as u32, p, operator as u32, 0]);
    Ok(Read {
        next: side.next,
        end,
        told: 1,
    })
}

// A number or a truth, which is one token and has no place of its own.
fn leaf(kind: Item, value: u32, i: usize, out: &mut [u32], at: usize) -> Read
    requires { (i < 65536) × (at + 4 ≤ length out.old) }
    ensures next { result.next ≡ i + 1 }
    ensures end { result.end ≡ at + 4 }
    ensures told { result.told ≡ 1 }
    ensures written { out.new ≡ sets out.old at (number_of_item kind ∷ 0 ∷ value ∷ 0 ∷ []) }
{
    let end = put(out, at, &[u32::from(kind), 0, value, 0]);
    Read {
        next: i + 1,
        end,
        told: 1,
    }
}

// unary and primary
#[cycle(args_arguments_enclosed_level_named_operand_primary_rest_unary)]
fn primary(
    ts: Tokens,
    h: usize,
    d: u32,
    i: usize,
    out: &mut [u32],
    at: usize,
) -> Result<Read, Fault>
    requires { Room ts.count out.old i at }
    ensures { Told expr_form (λ tok. primary_of tok (levelled tok h) d i) ts.entry.words.now ts.entry.count out.old i at result out.new }
{
    let Some(kind) = ts.kind(i) else {
        return Err(Fault(i));
    };
    match kind {
        Kind::Number => Ok(leaf(Item::Number, ts.value(i), i, out, at)),
        Kind::Name => named(ts, h, d, i, out, at),
        Kind::True => Ok(leaf(Item::Truth, 1, i, out, at)),
        Kind::False => Ok(leaf(Item::Truth, 0, i, out, at)),
        Kind::LeftParen => enclosed(ts, h, Kind::RightParen, d, i, out, at),
        Kind::Minus => unary(ts, h, Unary::Negate, d, i, out, at),
        Kind::Bang => unary(ts, h, Unary::Not, d, i, out, at),
        _ => Err(Fault(i)),
    }
}

// expr ";"
pub fn ended(ts: Tokens, d: u32, i: usize, out: &mut [u32], at: usize) -> Result<Read, Fault>
    requires { Room ts.count out.old i at }
    ensures { Told expr_form (λ tok. ended_of tok d i) ts.entry.words.now ts.entry.count out.old i at result out.new }
{
    let whole = level(ts, EXPR_STEPS, EXPR_LEVEL, d, i, out, at)?;
    ts.expect(whole.next, Kind::Semicolon)?;
    Ok(Read {
        next: whole.next + 1,
        end: whole.end,
        told: 1,
    })
}
