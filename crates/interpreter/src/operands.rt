// An activation's room: c locals, and h operands above them.
ghost use Rattle.std.specs.Prelude.{◌≡◌, ◌-◌, ◌≤◌, ◌+◌, length, get_or, take};
ghost use Rattle.flat.specs.Items.{top as top_of};
ghost use Rattle.interpreter.specs.Post.{Frame, operands_at, Pushes};

use crate::Stop;
use flat::item;
use flat::trap::Trap;
use word::lists::word;

// Local x; one that isn't there is 0.
pub fn local(work: &[u32], c: usize, x: u32) -> u32
    ensures { result ≡ get_or (take c work.now) x 0 }
{
    if (x as usize) < c {
        word(work, x as usize)
    } else {
        0
    }
}

// The uppermost operand; without one it is 0.
pub fn top(work: &[u32], c: usize, h: usize) -> u32
    requires { c + h ≤ length work.now }
    ensures { result ≡ top_of (operands_at work.now c h) }
{
    if h == 0 { 0 } else { word(work, c + (h - 1)) }
}

// One more operand: how many there are then.
pub fn push(work: &mut [u32], c: usize, h: usize, v: u32) -> Result<usize, Stop>
    requires { Frame c h work.old }
    ensures { Pushes work.old c h v result work.new }
{
    if h < item::MOST_OPERANDS {
        work[c + h] = v;
        return Ok(h + 1);
    }
    Err(Stop::Trapped(Trap::Malformed))
}
