// The flat core program, which `rules` writes and `interpreter` and `compiler` read: kinds and operators by name, which in the words are the numbers of specs/Words.antt.
// What they mean is said there; the laws of proofs/Run.antt hold them together.
#![tactic(auto)]

pub mod item; // items: their words and their kinds
pub mod operator; // operators: which one an item is
pub mod statement; // statements: their header's words and their kinds
pub mod program; // programs: their first words and a function's words
pub mod trap; // how runs trap
pub mod number; // what is written as a number, and the operator that a number names

// A number that no kind or no operator has.
#[derive(Clone, Copy, Debug, PartialEq, Eq)]
pub struct UnknownNumber(pub u32);
