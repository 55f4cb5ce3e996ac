// A line of standard input: numbers in hex, and a text on one line.
ghost use Rattle.std.specs.Prelude.{◌<◌, ◌≤◌, length, IfSome};

use console::lent::first;
use console::numbers::hex_digit;

// What of a line is still to be read.
#[derive(Clone, Copy)]
pub struct Line<'a> {
    rest: &'a [u8],
}

// A text that is being put together: its first bytes in a buffer, and the byte from which copies are made.
#[derive(Drop)]
struct Text<'a> {
    bytes: &'a mut [u8],
    size: usize,
    mark: usize,
}

// A byte of two digits.
fn two_digits(high: u8, low: u8) -> u8 {
    let high = hex_digit(high).unwrap_or(16);
    let low = hex_digit(low).unwrap_or(16);
    high.wrapping_mul(16).wrapping_add(low)
}

impl<'a> Line<'a> {
    // A line after the letter that says what it asks, and a blank.
    pub fn of(line: &'a [u8]) -> Self {
        match line {
            [_, _, rest @ ..] => Line { rest },
            _ => Line { rest: &[] },
        }
    }

    // The number that comes next: its low 64 bits, and 0 for none. The line goes on after the byte that ends it.
    pub fn next_number(&mut self) -> u64
        ensures { length self.new.rest.now ≤ length self.old.rest.now }
    {
        let mut value = 0;
        while let Some(byte) = self.next_byte() {
            match hex_digit(byte) {
                Some(digit) => value = value << 4 | u64::from(digit),
                None => break,
            }
        }
        value
    }

    fn next_byte(&mut self) -> Option<u8>
        ensures fewer { IfSome result (λ _. length self.new.rest.now < length self.old.rest.now) }
        ensures no_more { length self.new.rest.now ≤ length self.old.rest.now }
    {
        let (first, rest) = self.rest.split_first()?;
        self.rest = rest;
        Some(*first)
    }

    // The same; past the end a line's end.
    fn byte_or_end(&mut self) -> u8
        ensures { length self.new.rest.now ≤ length self.old.rest.now }
    {
        self.next_byte().unwrap_or(b'\n')
    }

    // The text that the rest of the line holds, put into a buffer.
    pub fn plain<'t>(&mut self, bytes: &'t mut [u8]) -> &'t [u8] {
        let mut text = Text {
            bytes,
            size: 0,
            mark: 0,
        };
        while let Some(byte) = self.next_byte() {
            match byte {
                b'\\' => self.escaped(&mut text),
                _ => text.put(byte),
            }
        }
        let Text {
            bytes,
            size,
            mark: _,
        } = text;
        first(bytes, size as u64)
    }

    // What follows a backslash: `n`, `t`, `r`, `x` and two digits, a mark `(`, `)` and a number of copies since the mark; else the byte itself.
    fn escaped(&mut self, text: &mut Text<'_>)
        ensures { length self.new.rest.now ≤ length self.old.rest.now }
    {
        match self.byte_or_end() {
            b'n' => text.put(b'\n'),
            b't' => text.put(b'\t'),
            b'r' => text.put(b'\r'),
            b'x' => text.put(two_digits(self.byte_or_end(), self.byte_or_end())),
            b'(' => text.mark = text.size,
            b')' => text.repeat(self.next_number()),
            byte => text.put(byte),
        }
    }
}

impl Text<'_> {
    // The byte, if there is room.
    fn put(&mut self, byte: u8) {
        if let Some(place) = self.bytes.get_mut(self.size) {
            *place = byte;
            self.size += 1;
        }
    }

    // So many in all of what stands since the mark.
    fn repeat(&mut self, count: u64) {
        let end = self.size;
        for _ in 1..count {
            for i in self.mark..end {
                if let Some(byte) = self.bytes.get(i).copied() {
                    self.put(byte);
                }
            }
        }
    }
}
