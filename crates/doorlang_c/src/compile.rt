// `compile` for C: the image of a text.
ghost use Rattle.toolchain.specs.Checking.{work};
ghost use Rattle.toolchain.specs.Compilation.{Compiles};
ghost use Rattle.doorlang_c.specs.Told.{Tells, told};
ghost use Rattle.doorlang_c.specs.Compilation.{figures, compiled};

use crate::refused::refused;
use toolchain::compile::compile;

// Returns the answer; where that is 0, the image stands at the start of its buffer and `size` is its length in bytes, and else both stay as they
// were. The last is the place in a text that is refused.
#[unsafe(no_mangle)]
#[tactic(auto, unfolding(crate::specs::Compilation::compiled))]
pub extern "C" fn doorlang_compile(
    text: &[u8],
    image: &mut [u8],
    tokens: &mut [u32],
    tree: &mut [u32],
    starts: &mut [u32],
    core: &mut [u32],
    size: &mut usize,
    place: &mut usize,
) -> u32
    ensures { Tells (λ c. Compiles text.now (work tokens.old tree.old starts.old core.old) image.old c image.new) compiled (figures size.old place.old) (told result (figures size.new place.new)) }
{
    match compile(text, image, tokens, tree, starts, core) {
        Ok(bytes) => {
            *size = bytes;
            0
        }
        Err(r) => refused(r, place),
    }
}
