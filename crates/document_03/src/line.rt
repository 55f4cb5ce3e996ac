// A line's numbers in hex, one after another, and bytes made of them.

use console::numbers::hex_digit;

// What of a line is still to be read.
#[derive(Clone, Copy)]
pub struct Numbers<'a> {
    rest: &'a [u8],
}

impl<'a> Numbers<'a> {
    pub fn of(line: &'a [u8]) -> Self {
        Numbers { rest: line }
    }

    // The number that comes next, after blanks: its low 64 bits, and 0 for none.
    pub fn next_number(&mut self) -> u64 {
        let line = self.rest;
        let start = line
            .iter()
            .position(|byte| *byte != b' ')
            .unwrap_or(line.len());
        let number = &line[start..];
        let end = number
            .iter()
            .position(|byte| hex_digit(*byte).is_none())
            .unwrap_or(number.len());
        let (digits, rest) = number.split_at(end);
        self.rest = rest;
        digits.iter().fold(
            0,
            |value, byte| value << 4 | u64::from(hex_digit(*byte).unwrap_or(0)),
        )
    }

    // Its low 32 bits.
    pub fn next_word(&mut self) -> u32 {
        (self.next_number() & 0xffffffff) as u32
    }

    // How many pairs of a count and a word, then those pairs, put one after the other as far as there is room.
    pub fn put_pairs(&mut self, bytes: &mut [u8]) {
        let (words, _) = bytes.as_chunks_mut::<4>();
        let mut at = 0;
        for _ in 0..self.next_number() {
            let count = self.next_number();
            let word = self.next_word().to_le_bytes();
            let end = at + count.min((words.len() - at) as u64) as usize;
            words[at..end].fill(word);
            at = end;
        }
    }
}
