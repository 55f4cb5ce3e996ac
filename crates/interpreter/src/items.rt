// Items that call nothing: what each does with the operands, and how many items are then skipped.
// The room, with how many locals and operands it holds, stays three parameters: a push changes one of them, and a struct that lends the words on would owe
// in each contract that they are the same ones.
ghost use Rattle.std.specs.Prelude.{◌≡◌, ℕ, List, get_or};
ghost use Rattle.flat.specs.Items.{number, element as element_of, and as and_of, or as or_of, unknown};
ghost use Rattle.flat.specs.Words.{unaries, stricts};
ghost use Rattle.interpreter.specs.Post.{Frame, Moves};

use crate::Stop;
use crate::operands::{push, top};
use crate::operators::{strict, unary};
use flat::trap::Trap;
use word::lists::word;

// Where an item leads: how many items are skipped, and how many operands there are.
#[derive(Clone, Copy)]
pub struct Move {
    pub skip: u32,
    pub h: usize,
}

// A value that is pushed.
pub fn value(v: u32, work: &mut [u32], c: usize, h: usize) -> Result<Move, Stop>
    requires { Frame c h work.old }
    ensures { (arrays : List ℕ) → Moves work.old c h arrays (number v) result work.new }
{
    let h = push(work, c, h, v)?;
    Ok(Move { skip: 0, h })
}

// An element of an array.
pub fn element(
    offset: u32,
    size: u32,
    work: &mut [u32],
    arrays: &[u32],
    c: usize,
    h: usize,
) -> Result<Move, Stop>
    requires { Frame c h work.old }
    ensures { Moves work.old c h arrays.now (element_of (record { offset = offset; size = size })) result work.new }
{
    let i = top(work, c, h);
    if i < size {
        let v = word(arrays, offset as usize + i as usize);
        let h = push(work, c, h.saturating_sub(1), v)?;
        return Ok(Move { skip: 0, h });
    }
    Err(Stop::Trapped(Trap::IndexOutside))
}

// An operator with one side.
pub fn one_side(op: u32, work: &mut [u32], c: usize, h: usize) -> Result<Move, Stop>
    requires { Frame c h work.old }
    ensures { (arrays : List ℕ) → Moves work.old c h arrays (get_or unaries op unknown) result work.new }
{
    let v = unary(op, top(work, c, h))?;
    let h = push(work, c, h.saturating_sub(1), v)?;
    Ok(Move { skip: 0, h })
}

// An operator with two sides.
pub fn two_sides(op: u32, work: &mut [u32], c: usize, h: usize) -> Result<Move, Stop>
    requires { Frame c h work.old }
    ensures { (arrays : List ℕ) → Moves work.old c h arrays (get_or stricts op unknown) result work.new }
{
    let b = top(work, c, h);
    let a = top(work, c, h.saturating_sub(1));
    let v = strict(op, a, b)?;
    let h = push(work, c, h.saturating_sub(2), v)?;
    Ok(Move { skip: 0, h })
}

// Between the sides of `&&`: if the left one is false, so is the whole. It and `or` are not one function, whose contract would choose between the two.
pub fn and(skip: u32, work: &mut [u32], c: usize, h: usize) -> Result<Move, Stop>
    requires { Frame c h work.old }
    ensures { (arrays : List ℕ) → Moves work.old c h arrays (and_of skip) result work.new }
{
    let m = h.saturating_sub(1);
    if top(work, c, h) == 0 {
        let h = push(work, c, m, 0)?;
        return Ok(Move { skip, h });
    }
    Ok(Move { skip: 0, h: m })
}

// Between the sides of `||`: if the left one is true, so is the whole.
pub fn or(skip: u32, work: &mut [u32], c: usize, h: usize) -> Result<Move, Stop>
    requires { Frame c h work.old }
    ensures { (arrays : List ℕ) → Moves work.old c h arrays (or_of skip) result work.new }
{
    let m = h.saturating_sub(1);
    if top(work, c, h) == 0 {
        return Ok(Move { skip: 0, h: m });
    }
    let h = push(work, c, m, 1)?;
    Ok(Move { skip, h })
}
