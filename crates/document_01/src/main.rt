// Document 01's vectors, and further texts: what the lines of standard input ask, it answers a line each. `tests/document_01` has the lines' form.
#![tactic(auto)]

use crate::lent::{Buffers, NONE_SHORT, Work};
use crate::line::Line;
use crate::reading::Said;
use crate::running::{Asked, Run};
use console::lent::{filled, first, read_full};
use std::io;
use std::io::{Read, Write};

mod line; // a line: numbers, and the text that it holds
mod lent; // buffers
mod say; // what is said
mod reading; // texts, read
mod checking; // texts, checked
mod running; // texts and images, run
mod compiling; // texts, compiled

// A run of a text on a block: `i` with the fuel that is asked, `u` with every fuel up to it, `e` and `f` as `i`, and then the text is compiled. The size of the
// image that is to be run.
fn run_line(
    out: &mut impl Write,
    kind: u8,
    line: &mut Line<'_>,
    buffers: &mut Buffers<'_>,
    work: &mut Work<'_>,
) -> io::Result<Option<usize>> {
    let asked = Asked::of(line);
    let bytes = line.plain(buffers.text);
    let (block, text) = bytes.split_at(asked.block.min(bytes.len() as u64) as usize);
    let mut run = Run {
        program: text,
        block,
        arrays: first(buffers.arrays, asked.arrays),
        log: first(buffers.log, asked.log),
        room: asked.room as usize,
    };
    if kind == b'u' {
        for fuel in 0..asked.fuel {
            run.interpret(out, fuel, asked.short, work)?;
        }
    }
    run.interpret(out, asked.fuel, asked.short, work)?;
    match kind {
        b'e' | b'f' => compiling::image_of(out, text, buffers.image, NONE_SHORT, work),
        _ => Ok(None),
    }
}

// A line: `"` and a title, `r` and a text, `w` and a text whose tree is said word by word, `b` and a text of which every beginning is read, `l` and what is lent
// and a text, `m` and how many times and a text, `c` and a text that is checked, `o` and one that is compiled, or a run. Any other is passed over. The size of
// the image that is to be run.
fn one_line(
    out: &mut impl Write,
    line: &[u8],
    buffers: &mut Buffers<'_>,
    work: &mut Work<'_>,
) -> io::Result<Option<usize>> {
    let mut asked = Line::of(line);
    match line {
        [b'"', title @ ..] => {
            out.write_all(title)?;
            writeln!(out)?;
        }
        [b'r', ..] => reading::read(out, &mut asked, buffers.text, work, Said::Sum)?,
        [b'w', ..] => reading::read(out, &mut asked, buffers.text, work, Said::Words)?,
        [b'b', ..] => reading::read_beginnings(out, &mut asked, buffers.text, work)?,
        [b'l', ..] => reading::read_with(out, &mut asked, buffers.text, work)?,
        [b'm', ..] => reading::read_times(out, &mut asked, buffers.text, work)?,
        [b'c', ..] => checking::check_text(out, &mut asked, buffers.text, work)?,
        [b'o', ..] => compiling::compile_text(out, &mut asked, buffers.text, buffers.image, work)?,
        [kind @ (b'i' | b'u' | b'e' | b'f'), ..] => {
            return run_line(out, *kind, &mut asked, buffers, work);
        }
        _ => (),
    }
    Ok(None)
}

// The same, with working room that is there no longer than this: beside the emulator's memory it would be more than a stack holds.
fn with_work(
    out: &mut impl Write,
    line: &[u8],
    buffers: &mut Buffers<'_>,
) -> io::Result<Option<usize>> {
    let mut work = Work {
        tokens: &mut filled::<u32, 196608>(0),
        tree: &mut filled::<u32, 524288>(0),
        starts: &mut filled::<u32, 131072>(0),
        core: &mut filled::<u32, 525315>(0),
    };
    one_line(out, line, buffers, &mut work)
}

// A line, and the image that it made, run as it asks.
fn whole_line(out: &mut impl Write, line: &[u8], buffers: &mut Buffers<'_>) -> io::Result<()> {
    if let Some(size) = with_work(out, line, buffers)? {
        let asked = Asked::of(&mut Line::of(line));
        let mut run = Run {
            program: first(buffers.image, size as u64),
            block: first(buffers.text, asked.block),
            arrays: first(buffers.arrays, asked.arrays),
            log: first(buffers.log, asked.log),
            room: asked.room as usize,
        };
        run.emulate(out, asked.fuel, line.first() == Some(&b'f'))?;
    }
    Ok(())
}

// All lines of a window, the first of which has begun before it; how many bytes of the last are there.
fn all_lines(
    out: &mut impl Write,
    window: &[u8],
    line: &mut [u8],
    start: usize,
    buffers: &mut Buffers<'_>,
) -> io::Result<usize> {
    let mut size = start;
    for byte in window {
        if *byte == b'\n' {
            whole_line(out, first(line, size as u64), buffers)?;
            size = 0;
        } else if let Some(place) = line.get_mut(size) {
            *place = *byte;
            size += 1;
        }
    }
    Ok(size)
}

// All of standard input, a window at a time, and not without end.
fn all_windows(
    input: &mut impl Read,
    out: &mut impl Write,
    window: &mut [u8],
    line: &mut [u8],
    buffers: &mut Buffers<'_>,
) -> io::Result<()> {
    let mut size = 0;
    for _ in 0..4096 {
        let n = read_full(input, window)?;
        if n == 0 {
            break;
        }
        size = all_lines(out, &window[..n], line, size, buffers)?;
    }
    Ok(())
}

fn main(rt: HostRuntime) -> io::Result<()> {
    let mut window = filled::<u8, 65536>(0);
    let mut line = filled::<u8, 262144>(0);
    let mut buffers = Buffers {
        text: &mut filled::<u8, 135168>(0),
        image: &mut filled::<u8, 524304>(0),
        arrays: &mut filled::<u32, 16400>(0),
        log: &mut filled::<u32, 1024>(0),
    };
    all_windows(
        &mut rt.stdin(),
        &mut rt.stdout(),
        &mut window,
        &mut line,
        &mut buffers,
    )
}
