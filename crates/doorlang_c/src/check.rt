// `check` for C: the answer to a text.
ghost use Rattle.toolchain.specs.Checking.{Checks, work};
ghost use Rattle.doorlang_c.specs.Told.{Tells, told};
ghost use Rattle.doorlang_c.specs.Checking.{figures, checked};

use crate::refused::refused;
use toolchain::check::check;

// Returns the answer; where that is 0, `elements` is how many the text's arrays have, and else it stays as it was. `place` is the place in a text
// that is refused.
#[unsafe(no_mangle)]
#[tactic(auto, unfolding(crate::specs::Checking::checked))]
pub extern "C" fn doorlang_check(
    text: &[u8],
    tokens: &mut [u32],
    tree: &mut [u32],
    starts: &mut [u32],
    core: &mut [u32],
    place: &mut usize,
    elements: &mut usize,
) -> u32
    ensures { Tells (Checks text.now (work tokens.old tree.old starts.old core.old)) checked (figures place.old elements.old) (told result (figures place.new elements.new)) }
{
    match check(text, tokens, tree, starts, core) {
        Ok(n) => {
            *elements = n;
            0
        }
        Err(r) => refused(r, place),
    }
}
