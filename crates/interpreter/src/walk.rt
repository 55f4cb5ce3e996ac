// Expressions, statements, blocks and calls, each by a scan forward over its words. The cycle of calls goes down by the activations that may still
// be made, then by how deep blocks may still nest. What all have in common:
//   this           what this activation runs, and what bounds it; in `call`, the one that calls
//   depth          how deep blocks may still nest
//   at, p          where the words of what is done begin: with how many items or statements there are, or alone
//   h              how many operands there are
//   work           the activation's room: locals, operands, and above them the room of those that it makes
//   arrays, log    the elements of all arrays; the log's buffer
//   meter          the fuel that is left, and how many words are logged
// The buffers stay parameters: a call is lent a part of `work`, so that a struct of them would be taken apart and made anew at each call.
ghost use Rattle.std.specs.Prelude.{◌≡◌, ◌<◌, ◌≤◌, take, drop, get_or};
ghost use Rattle.flat.specs.Items.{most_operands, call as call_of};
ghost use Rattle.flat.specs.Words.{kind_of};
ghost use Rattle.interpreter.specs.Post.{world, Roomy, Callable, Grows, Steps, Acts, Calls, Scans, Blocks, Execs, Stores};

use crate::items::{Move, and, element, one_side, or, two_sides, value};
use crate::operands::{local, push, top};
use crate::parts::Item;
use crate::state::{assign, clear, emit, pay};
use crate::words::put;
use crate::{Activation, Meter, Span, Stop};
use flat::item::Kind as ItemKind;
use flat::statement::Kind;
use flat::trap::Trap;
use flat::{program, statement};

// The items that are left after one, and the operands then.
#[derive(Clone, Copy)]
pub struct Step {
    pub at: Span,
    pub h: usize,
}

// A call of function f, whose n arguments begin its room.
#[cycle(walk)]
pub fn call(
    this: Activation<'_>,
    f: u32,
    n: u32,
    work: &mut [u32],
    arrays: &mut [u32],
    log: &mut [u32],
    meter: &mut Meter,
) -> Result<u32, Stop>
    requires { Callable n this.left this.room work.old log.old }
    ensures calls { Calls this.entry.code.words.now this.entry.room this.entry.left f (take n work.old) (world meter.old.fuel meter.old.logged log.old arrays.old) result (world meter.new.fuel meter.new.logged log.new arrays.new) }
    ensures grows { Grows this.entry.room meter.old.logged log.old meter.new.logged log.new }
{
    if this.left == 0 {
        return Err(Stop::Trapped(Trap::TooManyActivations));
    }
    let head = this.code.function(f);
    let locals = n as usize + head.lets as usize;
    if program::MOST_LOCALS < locals {
        return Err(Stop::Trapped(Trap::Malformed));
    }
    clear(work, n as usize, locals);
    let callee = Activation {
        code: this.code,
        left: this.left - 1,
        locals,
        room: this.room,
    };
    let depth = statement::MOST_NESTING;
    let returned = block(callee, depth, head.body, work, arrays, log, meter)?;
    Ok(returned.unwrap_or(0))
}

// An item that calls function f: its arguments are the n uppermost of h operands, where the callee's room begins.
#[cycle(walk)]
fn enter(
    this: Activation<'_>,
    f: u32,
    n: u32,
    h: usize,
    work: &mut [u32],
    arrays: &mut [u32],
    log: &mut [u32],
    meter: &mut Meter,
) -> Result<Move, Stop>
    requires { Roomy this.locals this.left this.room work.old log.old × (h ≤ most_operands) }
    ensures acts { Acts this.entry.code.words.now this.entry.room this.entry.left (call_of f n) this.entry.locals h work.old (world meter.old.fuel meter.old.logged log.old arrays.old) result work.new (world meter.new.fuel meter.new.logged log.new arrays.new) }
    ensures grows { Grows this.entry.room meter.old.logged log.old meter.new.logged log.new }
{
    if h < n as usize {
        return Err(Stop::Trapped(Trap::Malformed));
    }
    let m = h - n as usize;
    let s = this.locals + m;
    let v = call(this, f, n, &mut work[s..], arrays, log, meter)?;
    let h = push(work, this.locals, m, v)?;
    Ok(Move { skip: 0, h })
}

// An item that is paid for.
#[cycle(walk)]
fn act(
    this: Activation<'_>,
    i: Item,
    h: usize,
    work: &mut [u32],
    arrays: &mut [u32],
    log: &mut [u32],
    meter: &mut Meter,
) -> Result<Move, Stop>
    requires { Roomy this.locals this.left this.room work.old log.old × (h ≤ most_operands) }
    ensures acts { Acts this.entry.code.words.now this.entry.room this.entry.left (kind_of i.kind i.a i.b) this.entry.locals h work.old (world meter.old.fuel meter.old.logged log.old arrays.old) result work.new (world meter.new.fuel meter.new.logged log.new arrays.new) }
    ensures grows { Grows this.entry.room meter.old.logged log.old meter.new.logged log.new }
{
    let c = this.locals;
    match ItemKind::try_from(i.kind)? {
        ItemKind::Number => value(i.a, work, c, h),
        ItemKind::Local => value(local(work, c, i.a), work, c, h),
        ItemKind::Element => element(i.a, i.b, work, arrays, c, h),
        ItemKind::Call => enter(this, i.a, i.b, h, work, arrays, log, meter),
        ItemKind::Unary => one_side(i.a, work, c, h),
        ItemKind::Strict => two_sides(i.a, work, c, h),
        ItemKind::And => and(i.a, work, c, h),
        ItemKind::Or => or(i.a, work, c, h),
        ItemKind::Join => Ok(Move { skip: 0, h }),
    }
}

// The first of the items: its charge is paid, and then it is done.
#[cycle(walk)]
fn one(
    this: Activation<'_>,
    at: Span,
    h: usize,
    work: &mut [u32],
    arrays: &mut [u32],
    log: &mut [u32],
    meter: &mut Meter,
) -> Result<Step, Stop>
    requires { Roomy this.locals this.left this.room work.old log.old × ((h ≤ most_operands) × (0 < at.n)) }
    ensures steps { Steps this.entry.code.words.now this.entry.room this.entry.left at.n (drop at.p this.entry.code.words.now) this.entry.locals h work.old (world meter.old.fuel meter.old.logged log.old arrays.old) result work.new (world meter.new.fuel meter.new.logged log.new arrays.new) }
    ensures grows { Grows this.entry.room meter.old.logged log.old meter.new.logged log.new }
{
    let i = this.code.item_at(at.p);
    pay(i.charge, meter)?;
    let m = act(this, i, h, work, arrays, log, meter)?;
    let at = this.code.past(at, m.skip);
    Ok(Step { at, h: m.h })
}

// The value of an expression.
#[cycle(walk)]
fn scan(
    this: Activation<'_>,
    mut at: Span,
    work: &mut [u32],
    arrays: &mut [u32],
    log: &mut [u32],
    meter: &mut Meter,
) -> Result<u32, Stop>
    requires { Roomy this.locals this.left this.room work.old log.old }
    ensures scans { Scans this.entry.code.words.now this.entry.room this.entry.left at.n (drop at.p this.entry.code.words.now) (take this.entry.locals work.old) (world meter.old.fuel meter.old.logged log.old arrays.old) result (take this.entry.locals work.new) (world meter.new.fuel meter.new.logged log.new arrays.new) }
    ensures grows { Grows this.entry.room meter.old.logged log.old meter.new.logged log.new }
{
    let mut h = 0;
    // An item says how many are skipped after it, so no range counts them.
    while 0 < at.n {
        let step = one(this, at, h, work, arrays, log, meter)?;
        at = step.at;
        h = step.h;
    }
    Ok(top(work, this.locals, h))
}

// A block's statements, each charged when it begins: what they return, if they leave the function.
#[cycle(walk)]
fn block(
    this: Activation<'_>,
    depth: u32,
    at: Span,
    work: &mut [u32],
    arrays: &mut [u32],
    log: &mut [u32],
    meter: &mut Meter,
) -> Result<Option<u32>, Stop>
    requires { Roomy this.locals this.left this.room work.old log.old }
    ensures blocks { Blocks this.entry.code.words.now this.entry.room this.entry.left depth at.n (drop at.p this.entry.code.words.now) (take this.entry.locals work.old) (world meter.old.fuel meter.old.logged log.old arrays.old) result (take this.entry.locals work.new) (world meter.new.fuel meter.new.logged log.new arrays.new) }
    ensures grows { Grows this.entry.room meter.old.logged log.old meter.new.logged log.new }
{
    if depth == 0 {
        return Ok(None);
    }
    let mut p = at.p;
    for _ in 0..at.n {
        pay(1, meter)?;
        if let Some(v) = stmt(this, depth - 1, p, work, arrays, log, meter)? {
            return Ok(Some(v));
        }
        p = this.code.after(p);
    }
    Ok(None)
}

// The rounds of `while`, which cost their conditions and blocks: no more of them than there is fuel.
#[cycle(walk)]
fn turns(
    this: Activation<'_>,
    depth: u32,
    p: usize,
    work: &mut [u32],
    arrays: &mut [u32],
    log: &mut [u32],
    meter: &mut Meter,
) -> Result<Option<u32>, Stop>
    requires { Roomy this.locals this.left this.room work.old log.old × (get_or (drop p this.code.words.now) 0 0 ≡ 3) }
    ensures execs { Execs this.entry.code.words.now this.entry.room this.entry.left depth (drop p this.entry.code.words.now) (take this.entry.locals work.old) (world meter.old.fuel meter.old.logged log.old arrays.old) result (take this.entry.locals work.new) (world meter.new.fuel meter.new.logged log.new arrays.new) }
    ensures grows { Grows this.entry.room meter.old.logged log.old meter.new.logged log.new }
{
    let condition = this.code.first(p);
    let body = this.code.body(p);
    for _ in 0..meter.fuel {
        let v = scan(this, condition, work, arrays, log, meter)?;
        if v == 0 {
            return Ok(None);
        }
        if let Some(v) = block(this, depth, body, work, arrays, log, meter)? {
            return Ok(Some(v));
        }
    }
    Err(Stop::OutOfFuel)
}

// The value that is stored at index i, and then the index's test.
#[cycle(walk)]
fn store(
    this: Activation<'_>,
    p: usize,
    i: u32,
    work: &mut [u32],
    arrays: &mut [u32],
    log: &mut [u32],
    meter: &mut Meter,
) -> Result<Option<u32>, Stop>
    requires { Roomy this.locals this.left this.room work.old log.old }
    ensures stores { Stores this.entry.code.words.now this.entry.room this.entry.left (drop p this.entry.code.words.now) i (take this.entry.locals work.old) (world meter.old.fuel meter.old.logged log.old arrays.old) result (take this.entry.locals work.new) (world meter.new.fuel meter.new.logged log.new arrays.new) }
    ensures grows { Grows this.entry.room meter.old.logged log.old meter.new.logged log.new }
{
    let second = this.code.second(p);
    let v = scan(this, second, work, arrays, log, meter)?;
    let offset = this.code.field(p, statement::A);
    let size = this.code.field(p, statement::B);
    if i < size {
        put(arrays, offset as usize + i as usize, v);
        return Ok(None);
    }
    Err(Stop::Trapped(Trap::IndexOutside))
}

// The statement at p, which is paid for already.
#[cycle(walk)]
fn stmt(
    this: Activation<'_>,
    depth: u32,
    p: usize,
    work: &mut [u32],
    arrays: &mut [u32],
    log: &mut [u32],
    meter: &mut Meter,
) -> Result<Option<u32>, Stop>
    requires { Roomy this.locals this.left this.room work.old log.old }
    ensures execs { Execs this.entry.code.words.now this.entry.room this.entry.left depth (drop p this.entry.code.words.now) (take this.entry.locals work.old) (world meter.old.fuel meter.old.logged log.old arrays.old) result (take this.entry.locals work.new) (world meter.new.fuel meter.new.logged log.new arrays.new) }
    ensures grows { Grows this.entry.room meter.old.logged log.old meter.new.logged log.new }
{
    let first = this.code.first(p);
    match Kind::try_from(this.code.field(p, statement::KIND))? {
        Kind::Put => {
            let v = scan(this, first, work, arrays, log, meter)?;
            assign(work, this.locals, this.code.field(p, statement::A), v);
            Ok(None)
        }
        Kind::Store => {
            let i = scan(this, first, work, arrays, log, meter)?;
            store(this, p, i, work, arrays, log, meter)
        }
        Kind::Choose => {
            let v = scan(this, first, work, arrays, log, meter)?;
            let chosen = this.code.chosen(p, v);
            block(this, depth, chosen, work, arrays, log, meter)
        }
        Kind::While => turns(this, depth, p, work, arrays, log, meter),
        Kind::Leave => Ok(Some(0)),
        Kind::Give => Ok(Some(scan(this, first, work, arrays, log, meter)?)),
        Kind::Emit => {
            let v = scan(this, first, work, arrays, log, meter)?;
            emit(log, this.room, v, meter)?;
            Ok(None)
        }
        Kind::Run => {
            scan(this, first, work, arrays, log, meter)?;
            Ok(None)
        }
    }
}
