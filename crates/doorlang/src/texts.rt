// A rule program's text: how large its input block is, and what a refusal of it says.
ghost use Rattle.std.specs.Prelude.{◌≤◌};

use crate::output::{Status, Told, tell, tell_argument, written};
use crate::{files, output};
use console::arguments::Given;
use console::lent::filled;
use console::place;
use toolchain::Refusal;
use toolchain::check::check;
use toolchain::work::{CORE_ROOM, STARTS_ROOM, TOKENS_ROOM, TREE_ROOM};

// The most bytes that a text has.
const MOST_TEXT: usize = 65536;

// The line and the column of a byte.
fn tell_place(rt: &HostRuntime, text: &[u8], offset: usize) {
    if text.len() <= MOST_TEXT + 1 {
        let n = offset.min(text.len());
        let p = place::place_after(&text[..n]);
        let line = p.line;
        let column = p.column;
        tell(rt, format_args!(":{line}:{column}"));
    }
}

// What a refusal of a text means (document 01 §1, document 03 §5): why it cannot be read, or which rule it breaks, as far as the place tells, where only the
// lack of `main` is at its end; or what was too short.
fn meaning(refusal: Refusal, size: usize) -> &'static str {
    match refusal {
        Refusal::Unreadable(_) if MOST_TEXT < size => "the text is longer than 65536 bytes",
        Refusal::Unreadable(at) if at == size => "the text ends too soon",
        Refusal::Unreadable(_) => "this cannot be read",
        Refusal::Broken(at) if at == size => "there is no function main",
        Refusal::Broken(_) => "a rule of names, types, calls, returns or sizes is broken here",
        Refusal::TooLong => "the image does not fit into 524288 bytes",
        Refusal::Code | Refusal::Input | Refusal::Room => "the room that was lent is too short",
    }
}

// What is wrong with an input block of so many bytes: answer 5.
fn tell_block(rt: &HostRuntime, given: Given, size: usize) {
    output::about(rt, files::block_argument(given));
    if given.input.is_some() {
        let numbers = size / 4;
        tell(
            rt,
            format_args!(
                "it has {numbers} numbers, which is not one for each element of the arrays\n"
            ),
        );
    } else {
        tell(
            rt,
            format_args!(
                "it has {size} bytes, which is not one word for each element of the arrays\n"
            ),
        );
    }
}

// What a refusal means, with the place, where there is one.
fn tell_refusal(rt: &HostRuntime, given: Given, text: &[u8], refusal: Refusal) {
    tell(rt, "doorlang: ");
    if let Some(i) = given.first {
        tell_argument(rt, i);
    }
    if let Some(offset) = refusal.place() {
        tell_place(rt, text, offset);
    }
    tell(rt, ": ");
    tell(rt, meaning(refusal, text.len()));
    tell(rt, "\n");
}

// A refusal: its line, and a sentence. `block` is the size of the input block.
pub fn refused(
    rt: &HostRuntime,
    given: Given,
    text: &[u8],
    refusal: Refusal,
    block: usize,
) -> Result<Status, Told> {
    let number = refusal.number();
    written(rt, println!(rt; "answer: {number}"))?;
    match refusal {
        Refusal::Input => tell_block(rt, given, block),
        _ => tell_refusal(rt, given, text, refusal),
    }
    Ok(Status::Refused)
}

// What `check` answers; working room is free again afterwards.
pub fn elements(text: &[u8]) -> Result<usize, Refusal> {
    let mut tokens = filled::<u32, TOKENS_ROOM>(0);
    let mut tree = filled::<u32, TREE_ROOM>(0);
    let mut starts = filled::<u32, STARTS_ROOM>(0);
    let mut core = filled::<u32, CORE_ROOM>(0);
    check(text, &mut tokens, &mut tree, &mut starts, &mut core)
}

// The size of the input block, within `most`: as it is given, or of zeros for the text; 0 where the text is refused, which its run then says.
pub fn block_size(
    given: Option<usize>,
    text: &[u8],
    most: usize,
    tokens: &mut [u32],
    tree: &mut [u32],
    starts: &mut [u32],
    core: &mut [u32],
) -> usize
    ensures { result ≤ most }
{
    match given {
        Some(size) => size.min(most),
        None => check(text, tokens, tree, starts, core)
            .unwrap_or(0)
            .saturating_mul(4)
            .min(most),
    }
}
