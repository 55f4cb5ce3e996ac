// Document 03 §5: texts, compiled.
use crate::lent::{Short, Work};
use crate::line::Line;
use crate::say::{Answer, BYTE, is_kept, kept};
use console::lent::first;
use std::io;
use std::io::Write;

// A text, compiled into as much of the image's buffer as is lent, and the bytes that its image has; none once a refusal is said.
pub fn image_of(
    out: &mut impl Write,
    text: &[u8],
    image: &mut [u8],
    short: Short,
    work: &mut Work<'_>,
) -> io::Result<Option<usize>> {
    image.fill(BYTE);
    match work.compile(text, image, short) {
        Err(refusal) => {
            let all = is_kept(image, 0, BYTE);
            writeln!(out, "{} {}", Answer::of(refusal), kept(all))?;
            Ok(None)
        }
        Ok(size) => Ok(Some(size)),
    }
}

// Which buffers of working room are a word short, the bytes of the image's buffer, then a text: compiled, and its image's size said, and whether what lies
// beyond it is as it was.
pub fn compile_text(
    out: &mut impl Write,
    line: &mut Line<'_>,
    text: &mut [u8],
    image: &mut [u8],
    work: &mut Work<'_>,
) -> io::Result<()> {
    let short = line.next_number();
    let image = first(image, line.next_number());
    if let Some(size) = image_of(out, line.plain(text), image, short, work)? {
        writeln!(
            out,
            "image of {size} bytes {}",
            kept(is_kept(image, size, BYTE))
        )?;
    }
    Ok(())
}
