// block and statement.
ghost use Rattle.std.specs.Prelude.{◌≡◌, ◌+◌, ◌<◌, eqb};
ghost use Rattle.word.specs.Choice.{pick};
ghost use Rattle.grammar.specs.Numbers.{number_of_statement, number_of_type};
ghost use Rattle.grammar.specs.Parse.{ended_of, declare_of, store_of, run_of, change_of, return_of, while_of, if_of, stmt_of, stmts_of, block_of};
ghost use Rattle.grammar.specs.Told.{field_of, Told, Room, single_form, stmt_form, block_form};

use crate::expressions::{EXPR_STEPS, MOST_OPEN, arguments, enclosed, ended, level};
use crate::input::{Fault, Read, Tokens};
use crate::operators::EXPR_LEVEL;
use crate::tree::{Item, Statement, ValueType};
use crate::types::typed;
use crate::words::{HEADER_WORDS, MANY, put};
use tokens::kinds::Kind;

// The most blocks in one another, and one more.
pub const BLOCK_STEPS: usize = 33;

// After token i an expression and ";", as a statement of one expression: its header is written when the expression is done.
fn single(
    ts: Tokens,
    d: u32,
    k: Statement,
    p: u32,
    x: u32,
    i: usize,
    out: &mut [u32],
    at: usize,
) -> Result<Read, Fault>
    requires { (Room ts.count out.old i at) × (i < ts.count) }
    ensures { Told (single_form (number_of_statement k) p x) (λ tok. ended_of tok d (i + 1)) ts.entry.words.now ts.entry.count out.old i at result out.new }
{
    let b = at + HEADER_WORDS;
    let whole = ended(ts, d, i + 1, out, b)?;
    let w = (whole.end - b) as u32;
    put(out, at, &[u32::from(k), p, x, w / 4, 0, 0, 0, w]);
    Ok(whole)
}

// The kind of a declaration, by its type.
fn declare_kind(t: ValueType) -> Statement
    ensures { number_of_statement result ≡ pick (eqb (number_of_type t) 1) 9 10 }
{
    match t {
        ValueType::Int => Statement::DeclareInt,
        ValueType::Bool => Statement::DeclareBool,
    }
}

// "let" name ":" type "=" expr ";"
fn declare(ts: Tokens, d: u32, i: usize, out: &mut [u32], at: usize) -> Result<Read, Fault>
    requires { (Room ts.count out.old i at) × (i < ts.count) }
    ensures { Told stmt_form (λ tok. declare_of tok d i) ts.entry.words.now ts.entry.count out.old i at result out.new }
{
    let t = typed(ts, i + 1)?;
    ts.expect(t.next, Kind::Equals)?;
    let p = ts.place(i + 1);
    let x = ts.value(i + 1);
    single(ts, d, declare_kind(t.value_type), p, x, t.next, out, at)
}

// name "[" expr "]" "=" expr ";"
fn store(ts: Tokens, d: u32, i: usize, out: &mut [u32], at: usize) -> Result<Read, Fault>
    requires { (Room ts.count out.old i at) × (i + 1 < ts.count) × (field_of ts.words.now ts.count i 0 ≡ 1) }
    ensures { Told stmt_form (λ tok. store_of tok d i) ts.entry.words.now ts.entry.count out.old i at result out.new }
{
    let b = at + HEADER_WORDS;
    let index = enclosed(ts, EXPR_STEPS, Kind::RightBracket, d, i + 1, out, b)?;
    ts.expect(index.next, Kind::Equals)?;
    let value = ended(ts, d, index.next + 1, out, index.end)?;
    let p = ts.place(i);
    let x = ts.value(i);
    let w1 = (index.end - b) as u32;
    let w2 = (value.end - index.end) as u32;
    put(
        out,
        at,
        &[Statement::Store as u32, p, x, w1 / 4, w2 / 4, 0, 0, w1 + w2],
    );
    Ok(Read {
        next: value.next,
        end: value.end,
        told: 1,
    })
}

// name "(" [ expr { "," expr } ] ")" ";"
fn run(ts: Tokens, d: u32, i: usize, out: &mut [u32], at: usize) -> Result<Read, Fault>
    requires { (Room ts.count out.old i at) × (i + 1 < ts.count) × (field_of ts.words.now ts.count i 0 ≡ 1) }
    ensures { Told stmt_form (λ tok. run_of tok d i) ts.entry.words.now ts.entry.count out.old i at result out.new }
{
    let b = at + HEADER_WORDS;
    let all = arguments(ts, EXPR_STEPS, d, i + 1, out, b)?;
    ts.expect(all.next, Kind::Semicolon)?;
    let p = ts.place(i);
    let x = ts.value(i);
    let end = put(out, all.end, &[Item::Call as u32, p, x, all.told as u32]);
    let w = (end - b) as u32;
    put(out, at, &[Statement::Run as u32, p, x, w / 4, 0, 0, 0, w]);
    Ok(Read {
        next: all.next + 1,
        end,
        told: 1,
    })
}

// What begins with a name: an assignment, a store or a call.
fn change(ts: Tokens, d: u32, i: usize, out: &mut [u32], at: usize) -> Result<Read, Fault>
    requires { (Room ts.count out.old i at) × (i < ts.count) × (field_of ts.words.now ts.count i 0 ≡ 1) }
    ensures { Told stmt_form (λ tok. change_of tok d i) ts.entry.words.now ts.entry.count out.old i at result out.new }
{
    if ts.is(i + 1, Kind::Equals) {
        let p = ts.place(i);
        let x = ts.value(i);
        return single(ts, d, Statement::Assign, p, x, i + 1, out, at);
    }
    if ts.is(i + 1, Kind::LeftBracket) {
        return store(ts, d, i, out, at);
    }
    if ts.is(i + 1, Kind::LeftParen) {
        return run(ts, d, i, out, at);
    }
    Err(Fault(i + 1))
}

// "return" [ expr ] ";"
fn give(ts: Tokens, d: u32, i: usize, out: &mut [u32], at: usize) -> Result<Read, Fault>
    requires { (Room ts.count out.old i at) × (i < ts.count) }
    ensures { Told stmt_form (λ tok. return_of tok d i) ts.entry.words.now ts.entry.count out.old i at result out.new }
{
    let p = ts.place(i);
    if ts.is(i + 1, Kind::Semicolon) {
        let end = put(out, at, &[Statement::Leave as u32, p, 0, 0, 0, 0, 0, 0]);
        return Ok(Read {
            next: i + 2,
            end,
            told: 1,
        });
    }
    single(ts, d, Statement::Give, p, 0, i, out, at)
}

// block = "{" { statement } "}"
#[cycle(block_choose_repeat_stmt_stmts)]
pub fn block(
    ts: Tokens,
    h: usize,
    d: u32,
    i: usize,
    out: &mut [u32],
    at: usize,
) -> Result<Read, Fault>
    requires { Room ts.count out.old i at }
    ensures { Told block_form (λ tok. block_of tok h d i) ts.entry.words.now ts.entry.count out.old i at result out.new }
{
    if h == 0 {
        return Err(Fault(i));
    }
    ts.expect(i, Kind::LeftBrace)?;
    if MOST_OPEN <= d {
        return Err(Fault(i));
    }
    let body = stmts(ts, h - 1, d + 1, i + 1, out, at)?;
    ts.expect(body.next, Kind::RightBrace)?;
    Ok(Read {
        next: body.next + 1,
        ..body
    })
}

// { statement }, up to "}"; with a loop of its own, as `args` says.
#[cycle(block_choose_repeat_stmt_stmts)]
fn stmts(
    ts: Tokens,
    h: usize,
    d: u32,
    from: usize,
    out: &mut [u32],
    start: usize,
) -> Result<Read, Fault>
    requires { Room ts.count out.old from start }
    ensures { Told block_form (λ tok. stmts_of tok (block_of tok h) 65536 d from) ts.entry.words.now ts.entry.count out.old from start result out.new }
{
    let mut i = from;
    let mut at = start;
    for count in 0..MANY {
        if ts.is(i, Kind::RightBrace) {
            return Ok(Read {
                next: i,
                end: at,
                told: count,
            });
        }
        let one = stmt(ts, h, d, i, out, at)?;
        i = one.next;
        at = one.end;
    }
    Err(Fault(i))
}

// A statement, by its first token.
#[cycle(block_choose_repeat_stmt_stmts)]
fn stmt(ts: Tokens, h: usize, d: u32, i: usize, out: &mut [u32], at: usize) -> Result<Read, Fault>
    requires { Room ts.count out.old i at }
    ensures { Told stmt_form (λ tok. stmt_of tok (block_of tok h) d i) ts.entry.words.now ts.entry.count out.old i at result out.new }
{
    let Some(kind) = ts.kind(i) else {
        return Err(Fault(i));
    };
    match kind {
        Kind::Name => change(ts, d, i, out, at),
        Kind::Let => declare(ts, d, i, out, at),
        Kind::If => choose(ts, h, d, i, out, at),
        Kind::While => repeat(ts, h, d, i, out, at),
        Kind::Return => give(ts, d, i, out, at),
        Kind::Emit => single(ts, d, Statement::Emit, ts.place(i), 0, i, out, at),
        _ => Err(Fault(i)),
    }
}

// "while" expr block
#[cycle(block_choose_repeat_stmt_stmts)]
fn repeat(ts: Tokens, h: usize, d: u32, i: usize, out: &mut [u32], at: usize) -> Result<Read, Fault>
    requires { (Room ts.count out.old i at) × (i < ts.count) }
    ensures { Told stmt_form (λ tok. while_of tok (block_of tok h) d i) ts.entry.words.now ts.entry.count out.old i at result out.new }
{
    let b = at + HEADER_WORDS;
    let test = level(ts, EXPR_STEPS, EXPR_LEVEL, d, i + 1, out, b)?;
    let body = block(ts, h, d, test.next, out, test.end)?;
    let p = ts.place(i);
    let w1 = (test.end - b) as u32;
    let w2 = (body.end - test.end) as u32;
    put(
        out,
        at,
        &[
            Statement::While as u32,
            p,
            w2,
            w1 / 4,
            0,
            body.told as u32,
            0,
            w1 + w2,
        ],
    );
    Ok(Read { told: 1, ..body })
}

// "if" expr block [ "else" block ]
#[cycle(block_choose_repeat_stmt_stmts)]
fn choose(ts: Tokens, h: usize, d: u32, i: usize, out: &mut [u32], at: usize) -> Result<Read, Fault>
    requires { (Room ts.count out.old i at) × (i < ts.count) }
    ensures { Told stmt_form (λ tok. if_of tok (block_of tok h) d i) ts.entry.words.now ts.entry.count out.old i at result out.new }
{
    let b = at + HEADER_WORDS;
    let test = level(ts, EXPR_STEPS, EXPR_LEVEL, d, i + 1, out, b)?;
    let first = block(ts, h, d, test.next, out, test.end)?;
    let p = ts.place(i);
    let w1 = (test.end - b) as u32;
    let w2 = (first.end - test.end) as u32;
    let s1 = first.told as u32;
    if !ts.is(first.next, Kind::Else) {
        put(
            out,
            at,
            &[Statement::When as u32, p, w2, w1 / 4, 0, s1, 0, w1 + w2],
        );
        return Ok(Read { told: 1, ..first });
    }
    let second = block(ts, h, d, first.next + 1, out, first.end)?;
    let s2 = second.told as u32;
    let w = w1 + (w2 + (second.end - first.end) as u32);
    put(
        out,
        at,
        &[Statement::Choose as u32, p, w2, w1 / 4, 0, s1, s2, w],
    );
    Ok(Read { told: 1, ..second })
}
