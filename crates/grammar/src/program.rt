// program, array, function and param.
ghost use Rattle.std.specs.Prelude.{◌≡◌, [], ◌≤◌, ◌<◌};
ghost use Rattle.grammar.specs.Parse.{param_of, param_list_of, params_of, size_of, array_of, function_of, item_of, items_of};
ghost use Rattle.grammar.specs.Told.{Told, Room, param_form, params_form, size_form, item_form, items_form};
ghost use Rattle.grammar.specs.Types.{number_of_result};

use crate::input::{Fault, Read, Tokens};
use crate::statements::{BLOCK_STEPS, block};
use crate::tree::{Declaration, ValueType};
use crate::types::{result, typed};
use crate::words::{HEADER_WORDS, MANY, put};
use tokens::kinds::Kind;

// param = name ":" type
fn param(ts: Tokens, i: usize, out: &mut [u32], at: usize) -> Result<Read, Fault>
    requires { Room ts.count out.old i at }
    ensures { Told param_form (λ tok. param_of tok i) ts.entry.words.now ts.entry.count out.old i at result out.new }
{
    let t = typed(ts, i)?;
    let p = ts.place(i);
    let x = ts.value(i);
    let end = put(out, at, &[p, x, u32::from(t.value_type)]);
    Ok(Read {
        next: t.next,
        end,
        told: 1,
    })
}

// param { "," param }; with a loop of its own, as `args` says.
fn params(ts: Tokens, from: usize, out: &mut [u32], start: usize) -> Result<Read, Fault>
    requires { Room ts.count out.old from start }
    ensures { Told params_form (λ tok. param_list_of tok 65536 from) ts.entry.words.now ts.entry.count out.old from start result out.new }
{
    let mut i = from;
    let mut at = start;
    for count in 0..MANY {
        let one = param(ts, i, out, at)?;
        if !ts.is(one.next, Kind::Comma) {
            return Ok(Read {
                told: count + 1,
                ..one
            });
        }
        i = one.next + 1;
        at = one.end;
    }
    Err(Fault(i))
}

// [ param { "," param } ]
fn parameters(ts: Tokens, i: usize, out: &mut [u32], at: usize) -> Result<Read, Fault>
    requires { Room ts.count out.old i at }
    ensures { Told params_form (λ tok. params_of tok i) ts.entry.words.now ts.entry.count out.old i at result out.new }
{
    if ts.is(i, Kind::RightParen) {
        return Ok(Read {
            next: i,
            end: at,
            told: 0,
        });
    }
    params(ts, i, out, at)
}

// "[" number "]" ";", told as the number.
fn size(ts: Tokens, i: usize) -> Result<Read, Fault>
    requires { i ≤ ts.count }
    ensures { Told size_form (λ tok. size_of tok i) ts.entry.words.now ts.entry.count [] i 0 result [] }
{
    ts.expect(i, Kind::LeftBracket)?;
    ts.expect(i + 1, Kind::Number)?;
    ts.expect(i + 2, Kind::RightBracket)?;
    ts.expect(i + 3, Kind::Semicolon)?;
    Ok(Read {
        next: i + 4,
        end: 0,
        told: ts.value(i + 1) as usize,
    })
}

// array = "var" name ":" "int" "[" number "]" ";"
fn array(ts: Tokens, i: usize, out: &mut [u32], at: usize) -> Result<Read, Fault>
    requires { (Room ts.count out.old i at) × (i < ts.count) }
    ensures { Told item_form (λ tok. array_of tok i) ts.entry.words.now ts.entry.count out.old i at result out.new }
{
    ts.expect(i + 1, Kind::Name)?;
    ts.expect(i + 2, Kind::Colon)?;
    ts.expect(i + 3, Kind::Int)?;
    let room = size(ts, i + 4)?;
    let p = ts.place(i + 1);
    let x = ts.value(i + 1);
    let end = put(
        out,
        at,
        &[
            Declaration::Array as u32,
            p,
            x,
            room.told as u32,
            0,
            0,
            0,
            0,
        ],
    );
    Ok(Read {
        next: room.next,
        end,
        told: 1,
    })
}

// The number of a result's type; 0 for none.
fn result_number(t: Option<ValueType>) -> u32
    ensures { result ≡ number_of_result t }
{
    t.map_or(0, u32::from)
}

// function = "fn" name "(" [ param { "," param } ] ")" [ ":" type ] block; the header is written in the gap before parameters and body.
fn function(ts: Tokens, i: usize, out: &mut [u32], at: usize) -> Result<Read, Fault>
    requires { (Room ts.count out.old i at) × (i < ts.count) }
    ensures { Told item_form (λ tok. function_of tok i) ts.entry.words.now ts.entry.count out.old i at result out.new }
{
    ts.expect(i + 1, Kind::Name)?;
    ts.expect(i + 2, Kind::LeftParen)?;
    let b = at + HEADER_WORDS;
    let all = parameters(ts, i + 3, out, b)?;
    ts.expect(all.next, Kind::RightParen)?;
    let given = result(ts, all.next + 1)?;
    let body = block(ts, BLOCK_STEPS, 0, given.next, out, all.end)?;
    let p = ts.place(i + 1);
    let x = ts.value(i + 1);
    let t = result_number(given.value_type);
    put(
        out,
        at,
        &[
            Declaration::Function as u32,
            p,
            x,
            all.told as u32,
            t,
            body.told as u32,
            (body.end - all.end) as u32,
            (body.end - b) as u32,
        ],
    );
    Ok(Read { told: 1, ..body })
}

// array | function, by its first word.
fn item_at(ts: Tokens, i: usize, out: &mut [u32], at: usize) -> Result<Read, Fault>
    requires { Room ts.count out.old i at }
    ensures { Told item_form (λ tok. item_of tok i) ts.entry.words.now ts.entry.count out.old i at result out.new }
{
    if ts.is(i, Kind::Var) {
        return array(ts, i, out, at);
    }
    ts.expect(i, Kind::Fn)?;
    function(ts, i, out, at)
}

// program = { array | function }, all the tokens of it; with a loop of its own, as `args` says.
pub fn items(ts: Tokens, out: &mut [u32]) -> Result<Read, Fault>
    requires { Room ts.count out.old 0 0 }
    ensures { Told items_form (λ tok. items_of tok ts.entry.count 65537 0) ts.entry.words.now ts.entry.count out.old 0 0 result out.new }
{
    let mut i: usize = 0;
    let mut at: usize = 0;
    for count in 0..MANY + 1 {
        if i == ts.count {
            return Ok(Read {
                next: i,
                end: at,
                told: count,
            });
        }
        let one = item_at(ts, i, out, at)?;
        i = one.next;
        at = one.end;
    }
    Err(Fault(i))
}
