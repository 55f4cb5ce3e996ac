// Document 01 §1: the answer to a text.
ghost use Rattle.toolchain.specs.Checking.{work, Checks};

use crate::accept::{accept, elements};
use crate::refusals::Refusal;
use crate::work::Work;

// How many elements the arrays of a text have together, where document 01 accepts it; else whether it is unreadable or breaks a rule, or that working room
// is too short.
pub fn check(
    text: &[u8],
    tokens: &mut [u32],
    tree: &mut [u32],
    starts: &mut [u32],
    core: &mut [u32],
) -> Result<usize, Refusal>
    ensures { Checks text.now (work tokens.old tree.old starts.old core.old) result }
{
    Work::of(tokens, tree, starts, core).suffices()?;
    accept(text, tokens, tree, starts, core)?;
    Ok(elements(core) as usize)
}
