// Code as it is written: from its end towards its start, one instruction before the other, into lent words.
ghost use Rattle.std.specs.Prelude.{◌≡◌, ◌+◌, ◌-◌, ◌*◌, ◌≤◌};
ghost use Rattle.symbolic.specs.Fine.{far};
ghost use Rattle.symbolic.specs.Real.{distance};
ghost use Rattle.emission.specs.Tape.{Puts};
ghost use Rattle.emission.specs.OnTape.{OnTape};

use processor::{Instr, encode};

// The words, and the position before which the next instruction goes. That jumps reach it is asked by the functions that jump alone: the others hold of
// every tape.
#[derive(Drop)]
pub struct Tape<'a> {
    pub words: &'a mut [u32],
    pub at: usize,
}

impl Tape<'_> {
    // Puts an instruction before the others, if there is a word for it.
    pub fn put(&mut self, i: Instr)
        ensures { OnTape (Puts i) self.old self.new }
    {
        if self.at == 0 {
            return;
        }
        self.at -= 1;
        if self.at < self.words.len() {
            self.words[self.at] = encode(i);
        }
    }

    // What the next instruction adds to pc to come to position t.
    pub fn reach(&self, t: usize) -> u32
        requires { (self.now.at ≤ far) × (t ≤ 2 * far) }
        ensures { result ≡ distance (self.now.at - 1) t }
    {
        let k = self.at.saturating_sub(1);
        ((4096 + 4 * t + (4294967296 - (4096 + 4 * k))) % 4294967296) as u32
    }

    // What it adds to come n instructions further.
    pub fn onward(&self, n: usize) -> u32
        requires { (self.now.at ≤ far) × (n ≤ far) }
        ensures { result ≡ distance (self.now.at - 1) (self.now.at - 1 + n) }
    {
        let k = self.at.saturating_sub(1);
        self.reach(k + n)
    }
}
