// Words of 32 bits, the numbers of both documents: each function computes a definition of specs/Word.antt or specs/Bytes.antt, or reads a list.
#![tactic(auto)]

pub mod arithmetic; // sums, differences and products that wrap
pub mod order; // the signed and the unsigned order, a word's sign and magnitude
pub mod division; // quotients and remainders
pub mod bits; // and, or, exclusive or, shifts, sign extension
pub mod product; // the upper half of a product
pub mod bytes; // a word as four bytes
pub mod lists; // lists read past their end
