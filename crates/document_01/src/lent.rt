// What calls are lent: working room, and buffers for what they leave.
ghost use Rattle.std.specs.Prelude.{◌≤◌, length};

use toolchain::{Refusal, check, compile};

// Which of the four buffers of working room are lent a word short: a bit for each.
pub type Short = u64; // a line has them as one number

pub const NONE_SHORT: Short = 0;

// A buffer, a word short if its bit is set.
pub fn shortened(buffer: &mut [u32], short: Short, bit: Short) -> &mut [u32]
    ensures { length result.now ≤ length buffer.old }
{
    let end = buffer.len().saturating_sub(usize::from(short & bit != 0));
    &mut buffer[..end]
}

// Working room. A method that gives it shortened, as a `Work` out of `&mut self`, was tried: the borrow checker does not cover it. So each call shortens it.
#[derive(Drop)]
pub struct Work<'a> {
    pub tokens: &'a mut [u32],
    pub tree: &'a mut [u32],
    pub starts: &'a mut [u32],
    pub core: &'a mut [u32],
}

impl Work<'_> {
    pub fn check(&mut self, text: &[u8], short: Short) -> Result<usize, Refusal> {
        check::check(
            text,
            shortened(self.tokens, short, 1),
            shortened(self.tree, short, 2),
            shortened(self.starts, short, 4),
            shortened(self.core, short, 8),
        )
    }

    pub fn compile(
        &mut self,
        text: &[u8],
        image: &mut [u8],
        short: Short,
    ) -> Result<usize, Refusal> {
        compile::compile(
            text,
            image,
            shortened(self.tokens, short, 1),
            shortened(self.tree, short, 2),
            shortened(self.starts, short, 4),
            shortened(self.core, short, 8),
        )
    }
}

// What lines ask for is done in these, and what a call leaves is in them.
#[derive(Drop)]
pub struct Buffers<'a> {
    pub text: &'a mut [u8],
    pub image: &'a mut [u8],
    pub arrays: &'a mut [u32],
    pub log: &'a mut [u32],
}
