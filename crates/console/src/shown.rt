// Numbers, and how runs end, as people read them.
ghost use Rattle.std.specs.Prelude.{◌≡◌, ◌≤◌, ◌<◌, ◌^◌, length};
ghost use Rattle.console.specs.Shown.{Shows};

use emulator::image::place;
use interpreter::Outcome;
use processor::Status;
use std::fmt;
use word::order::magnitude;

// The bytes that a number takes at most: a blank, a dash and the digits of a number of 64 bits.
pub const LONGEST: usize = 22;

const SIGN: u32 = 0x80000000;

// `u64::from` was tried: the proof of `show` did not close without these two facts of it.
fn wide(n: u32) -> u64
    ensures { (result ≡ n) × (result < 2 ^ 32) }
{
    n as u64
}

// Room for a number.
pub fn room() -> [u8; LONGEST]
    ensures { 22 ≡ length result }
{
    [0; LONGEST]
}

// Puts a word at the start of `out`, as a signed decimal with a blank before it, and answers how many bytes that takes.
pub fn show(w: u32, out: &mut [u8]) -> usize
    requires { 22 ≤ length out.old }
    ensures { Shows w result out.new }
{
    let mut digits = [0u8; 20];
    let k = io::decimal(wide(magnitude(w)), &mut digits);
    out[0] = b' ';
    if w < SIGN {
        place(out, 1, &digits[..k]);
        return k + 1;
    }
    out[1] = b'-';
    place(out, 2, &digits[..k]);
    k + 2
}

// How a run of a text ended.
#[derive(Clone, Copy)]
pub struct End(pub Outcome);

impl fmt::Display for End {
    fn fmt<W: fmt::Write>(&self, f: &mut fmt::Formatter<W>) -> fmt::Result {
        match self.0 {
            Outcome::Finished => write!(f, "finished"),
            Outcome::Trapped(number) => write!(f, "trap {number}"),
            Outcome::OutOfFuel => write!(f, "out of fuel"),
        }
    }
}

// How a run of an image stopped.
#[derive(Clone, Copy)]
pub struct Stop(pub Status);

impl fmt::Display for Stop {
    fn fmt<W: fmt::Write>(&self, f: &mut fmt::Formatter<W>) -> fmt::Result {
        match self.0 {
            Status::Going => write!(f, "going"),
            Status::Exit => write!(f, "exit"),
            Status::Trap(number) => write!(f, "trap {number}"),
            Status::Fault(number) => write!(f, "fault {number}"),
            Status::Limit => write!(f, "limit"),
        }
    }
}
