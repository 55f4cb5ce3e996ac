// Document 01 §2 and §3: texts, read.
use crate::lent::Work;
use crate::line::Line;
use crate::say::{Words, sum};
use console::lent::first;
use grammar::Parsed;
use std::io;
use std::io::Write;
use tokens::Unread;

// How much of a tree is said: how many words it has and their sum, or each word.
#[derive(Clone, Copy)]
pub enum Said {
    Sum,
    Words,
}

// What was answered, and the tree.
fn answer(
    out: &mut impl Write,
    parsed: Result<Parsed, Unread>,
    tree: &[u32],
    said: Said,
) -> io::Result<()> {
    match parsed {
        Ok(
            Parsed {
                items,
                words: count,
            },
        ) => match said {
            Said::Sum => {
                let sum = sum(tree, count);
                writeln!(out, "tree of {items} words {count} sum {sum:08x}")
            }
            Said::Words => {
                let words = Words { words: tree, count };
                writeln!(out, "tree of {items}{words}")
            }
        },
        Err(Unread::Unreadable(place)) => writeln!(out, "unreadable at {place}"),
        Err(Unread::NoRoom) => writeln!(out, "no room"),
    }
}

fn read_text(out: &mut impl Write, text: &[u8], work: &mut Work<'_>, said: Said) -> io::Result<()> {
    let parsed = grammar::parse(text, work.tokens, work.tree);
    answer(out, parsed, work.tree, said)
}

// A text, read.
pub fn read(
    out: &mut impl Write,
    line: &mut Line<'_>,
    text: &mut [u8],
    work: &mut Work<'_>,
    said: Said,
) -> io::Result<()> {
    read_text(out, line.plain(text), work, said)
}

// Every beginning of a text, from that of no byte to the whole.
pub fn read_beginnings(
    out: &mut impl Write,
    line: &mut Line<'_>,
    text: &mut [u8],
    work: &mut Work<'_>,
) -> io::Result<()> {
    let text = line.plain(text);
    for end in 0..=text.len() {
        read_text(out, &text[..end], work, Said::Sum)?;
    }
    Ok(())
}

// How many words of room are lent for tokens and for the tree, then a text.
pub fn read_with(
    out: &mut impl Write,
    line: &mut Line<'_>,
    text: &mut [u8],
    work: &mut Work<'_>,
) -> io::Result<()> {
    let tokens = first(work.tokens, line.next_number());
    let tree = first(work.tree, line.next_number());
    let parsed = grammar::parse(line.plain(text), tokens, tree);
    answer(out, parsed, tree, Said::Sum)
}

// How many times, then a text: read so often, and answered once.
pub fn read_times(
    out: &mut impl Write,
    line: &mut Line<'_>,
    text: &mut [u8],
    work: &mut Work<'_>,
) -> io::Result<()> {
    let times = line.next_number();
    let text = line.plain(text);
    for _ in 1..times {
        let _ = grammar::parse(text, work.tokens, work.tree);
    }
    read_text(out, text, work, Said::Sum)
}
