// What is said, and whether lent buffers are as they were filled.
use std::fmt;
use toolchain::Refusal;

// What lies in lent buffers before a call.
pub const BYTE: u8 = 0xa5;

pub const WORD: u32 = 0xa5a5a5a5;

// So many words of arrays are said one by one.
const FEW: usize = 16;

// Whether a buffer is from there on as it was filled. The other test program has these lines too: public in `console` they would need a clause on the `==` of any type,
// of which no caller makes use.
pub fn is_kept<T: PartialEq + Copy>(buffer: &[T], from: usize, filling: T) -> bool {
    buffer.iter().skip(from).all(|item| *item == filling)
}

pub fn kept(all: bool) -> &'static str {
    if all { "kept" } else { "CHANGED" }
}

// A sum that tells in which order the words came.
pub fn sum(words: &[u32], count: usize) -> u32 {
    words
        .iter()
        .take(count)
        .fold(0, |sum, word| sum.wrapping_mul(31).wrapping_add(*word))
}

// So many words of a buffer, one by one.
#[derive(Clone, Copy)]
pub struct Words<'a> {
    pub words: &'a [u32],
    pub count: usize,
}

impl fmt::Display for Words<'_> {
    fn fmt<W: fmt::Write>(&self, f: &mut fmt::Formatter<W>) -> fmt::Result {
        for word in self.words.iter().take(self.count) {
            write!(f, " {word:x}")?;
        }
        Ok(())
    }
}

// So many words of arrays: one by one, or how many there are and their sum.
#[derive(Clone, Copy)]
struct Arrays<'a> {
    words: &'a [u32],
    count: usize,
}

impl fmt::Display for Arrays<'_> {
    fn fmt<W: fmt::Write>(&self, f: &mut fmt::Formatter<W>) -> fmt::Result {
        let Arrays { words, count } = *self;
        if count <= FEW {
            write!(f, "{}", Words { words, count })
        } else {
            write!(f, " {count} sum {:08x}", sum(words, count))
        }
    }
}

// An answer of document 01 §1 or document 03 §5, and its place; 0 for none.
#[derive(Clone, Copy)]
pub struct Answer {
    number: u32,
    place: usize,
}

impl Answer {
    pub const ACCEPTED: Answer = Answer {
        number: 0,
        place: 0,
    };

    pub fn of(refusal: Refusal) -> Answer {
        Answer {
            number: refusal.number(),
            place: refusal.place().unwrap_or(0),
        }
    }
}

impl fmt::Display for Answer {
    fn fmt<W: fmt::Write>(&self, f: &mut fmt::Formatter<W>) -> fmt::Result {
        let Answer { number, place } = *self;
        write!(f, "answer {number} at {place}")
    }
}

// What a run left: the log and the words of the arrays, and whether what lies beyond them is as it was.
#[derive(Clone, Copy)]
pub struct Left<'a> {
    pub log: &'a [u32],
    pub logged: usize,
    pub arrays: &'a [u32],
    pub elements: usize,
}

impl fmt::Display for Left<'_> {
    fn fmt<W: fmt::Write>(&self, f: &mut fmt::Formatter<W>) -> fmt::Result {
        let Left {
            log,
            logged,
            arrays,
            elements,
        } = *self;
        let words = Words {
            words: log,
            count: logged,
        };
        let elements_said = Arrays {
            words: arrays,
            count: elements,
        };
        let all = is_kept(log, logged, WORD) && is_kept(arrays, elements, WORD);
        write!(f, "log{words} arrays{elements_said} {}", kept(all))
    }
}
