// The image of a text's program.
ghost use Rattle.toolchain.specs.Checking.{work};
ghost use Rattle.toolchain.specs.Compilation.{Compiles};

use crate::accept::accept;
use crate::refusals::Refusal;
use crate::work::Work;
use compiler::programs;

// The image of a text's program, at the start of its buffer, and its length in bytes; what lies beyond stays as it was. The compiler's rooms are those that
// reading is done with.
pub fn compile(
    text: &[u8],
    image: &mut [u8],
    tokens: &mut [u32],
    tree: &mut [u32],
    starts: &mut [u32],
    core: &mut [u32],
) -> Result<usize, Refusal>
    ensures { Compiles text.now (work tokens.old tree.old starts.old core.old) image.old result image.new }
{
    Work::of(tokens, tree, starts, core).suffices()?;
    let words = accept(text, tokens, tree, starts, core)?;
    let bytes = programs::compile(&core[..words], tree, starts, tokens, image)?;
    Ok(bytes)
}
