// Working room: four buffers that every entry which takes a text is lent. They stay parameters, as memory, registers and log do, since C lends them one by one.
ghost use Rattle.std.specs.Prelude.{◌≡◌};
ghost use Rattle.toolchain.specs.Checking.{work, Suffices};

use crate::refusals::Refusal;

// How many words each has at least: for tokens, for a tree, for where its operands start, for the core program. What a part asks for is what it has room for.
pub const TOKENS_ROOM: usize = tokens::TOKEN_ROOM;

pub const TREE_ROOM: usize = grammar::TREE_ROOM;

pub const STARTS_ROOM: usize = declarations::whole::OPERANDS_ROOM;

pub const CORE_ROOM: usize = declarations::whole::CORE_ROOM;

// How many words each has. What they hold before and afterwards is of no account.
#[derive(Clone, Copy, Debug, PartialEq, Eq)]
pub struct Work {
    pub tokens: usize,
    pub tree: usize,
    pub starts: usize,
    pub core: usize,
}

impl Work {
    pub fn of(tokens: &[u32], tree: &[u32], starts: &[u32], core: &[u32]) -> Work
        ensures { result ≡ work tokens.now tree.now starts.now core.now }
    {
        Work {
            tokens: tokens.len(),
            tree: tree.len(),
            starts: starts.len(),
            core: core.len(),
        }
    }

    // Refused where one of them is too short.
    pub fn suffices(self) -> Result<(), Refusal>
        ensures { Suffices self result }
    {
        if self.tokens < TOKENS_ROOM
            || self.tree < TREE_ROOM
            || self.starts < STARTS_ROOM
            || self.core < CORE_ROOM
        {
            return Err(Refusal::Room);
        }
        Ok(())
    }
}
