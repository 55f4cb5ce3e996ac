// The image: its first instructions, the traps, and its bytes.
ghost use Rattle.std.specs.Prelude.{◌≡◌, ◌∷◌, [], ◌++◌, length, take, drop, ◌+◌, ◌*◌, ◌≤◌};
ghost use Rattle.std.proofs.lemmas.List.Edits.{sets};
ghost use Rattle.word.specs.Bytes.{bytes_of as bytes_in, bytes_of_words};
ghost use Rattle.processor.specs.declared.Alu.TheVariants.{Add as AddOf};
ghost use Rattle.symbolic.specs.Symbolic.{x0, request, opi, ecall as ecall_of};
ghost use Rattle.symbolic.specs.Fine.{far};
ghost use Rattle.codegen.specs.Operators.{trapping as trapping_of};
ghost use Rattle.codegen.specs.Image.{starting as starting_of, traps as traps_of};
ghost use Rattle.emission.specs.Tape.{Emits};
ghost use Rattle.emission.specs.OnTape.{OnTape};
ghost use Rattle.emission.specs.Macros.{service_number};

use crate::functions::{LIMIT, ecall};
use crate::jumps::RA;
use crate::places::{ANSWER, REQUEST, SP};
use crate::tape::Tape;
use flat::number::Numbered;
use flat::trap::Trap;
use processor::{Alu, Instr};
use word::bytes::bytes_of;

pub const STACK_START: u32 = 0x110000;

// Behind the frames of 64 activations.
pub const STACK_END: u32 = 0x12f000;

// What ecall is asked for. The number that it is passed is `Service::Trap as u32`.
#[derive(Clone, Copy, Debug, PartialEq, Eq)]
pub enum Service {
    Exit,
    Log,
    Trap,
}

// The request for a service.
fn asking(tape: &mut Tape, service: Service)
    ensures { OnTape (Emits (opi AddOf request x0 (service_number service) ∷ ecall_of ∷ [])) tape.old tape.new }
{
    ecall(tape);
    let number = service as u32;
    tape.put(Instr::OpImm(Alu::Add, REQUEST, 0, number));
}

// The first instructions, with the exit once main, at position `main`, has returned.
pub fn starting(tape: &mut Tape, main: usize)
    requires { (tape.old.at ≤ far) × (main ≤ far) }
    ensures { OnTape (Emits (starting_of main)) tape.old tape.new }
{
    asking(tape, Service::Exit);
    let by = tape.reach(main);
    tape.put(Instr::Jal(RA, by));
    tape.put(Instr::OpImm(Alu::Add, REQUEST, 0, Service::Log as u32));
    tape.put(Instr::Lui(LIMIT, STACK_END));
    tape.put(Instr::Lui(SP, STACK_START));
}

// A trap's stub, of a trap or of any number.
pub fn trapping<T: Numbered>(tape: &mut Tape, trap: T)
    ensures { OnTape (Emits (trapping_of (T.number_of trap))) tape.old tape.new }
{
    asking(tape, Service::Trap);
    let number = trap.number();
    tape.put(Instr::OpImm(Alu::Add, ANSWER, 0, number));
}

// The three stubs.
pub fn traps(tape: &mut Tape)
    ensures { OnTape (Emits traps_of) tape.old tape.new }
{
    trapping(tape, Trap::TooManyActivations);
    trapping(tape, Trap::IndexOutside);
    trapping(tape, Trap::DivisionByZero);
}

// Puts word i as four bytes, lowest first.
pub fn put_bytes(image: &mut [u8], i: usize, w: u32)
    requires { 4 * i + 4 ≤ length image.old }
    ensures { image.new ≡ sets image.old (4 * i) (bytes_in w) }
{
    image[4 * i..4 * i + 4].copy_from_slice(&bytes_of(w));
}

// The first n words as bytes; what stands behind them stays. The words are lent whole, since code is put from their end on.
pub fn bytes(words: &[u32], n: usize, image: &mut [u8])
    requires { (n ≤ length words.now) × (4 * n ≤ length image.old) }
    ensures { image.new ≡ bytes_of_words (take n words.now) ++ drop (4 * n) image.old }
{
    for i in 0..n {
        put_bytes(image, i, words[i]);
    }
}
