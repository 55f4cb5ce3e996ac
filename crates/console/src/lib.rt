// What people write and read on a command line, each computed as a definition has it: arguments, numbers, places of a text; and what the programs share besides.
#![tactic(auto)]

pub mod arguments; // the command, its options and its files
pub mod lent; // buffers of a program
pub mod numbers; // numbers of options and of an input text
pub mod place; // lines and columns
pub mod shown; // numbers as people read them
pub mod table; // the arguments again, by the numbers of their places
