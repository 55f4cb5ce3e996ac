// Document 01 §1 and §4: texts, checked.
use crate::lent::Work;
use crate::line::Line;
use crate::say::Answer;
use std::io;
use std::io::Write;

// Which buffers of working room are a word short, then a text.
pub fn check_text(
    out: &mut impl Write,
    line: &mut Line<'_>,
    text: &mut [u8],
    work: &mut Work<'_>,
) -> io::Result<()> {
    let short = line.next_number();
    let answer = match work.check(line.plain(text), short) {
        Ok(_) => Answer::ACCEPTED,
        Err(refusal) => Answer::of(refusal),
    };
    writeln!(out, "{answer}")
}
