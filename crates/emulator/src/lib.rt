// The emulator of document 03's processor. Its state lies in lent slices: 2 MiB of memory, 32 registers, a log. A word is carried out straight
// from its bits, with no Instr between; each function computes what the definitions of the crate `processor` give.
#![tactic(auto)]

pub mod registers; // x0 to x31
pub mod memory; // bytes, halves and words of memory
pub mod values; // what an operation gives, and whether a condition holds
pub mod stop; // how an instruction stops a run
pub mod rows; // the rows of the table, carried out
pub mod run; // a step, and a run of them up to a limit
pub mod image; // an image, from lent buffers to where its run ended
