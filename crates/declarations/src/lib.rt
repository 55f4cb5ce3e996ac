// Document 01 §4 of a whole program: its arrays and functions, `main`, and each function's parameters and body. From the flat tree of a text to its flat
// core program, in working room that the caller lends, or the place of a broken rule. The rooms stay parameters, as in `rules`.
#![tactic(auto)]

pub mod globals; // arrays and functions by name
pub mod entry; // `main`
pub mod parameters; // the parameters of a function
pub mod functions; // functions: bodies and entries
pub mod whole; // all of it

// How many arrays, elements in all and functions are declared.
#[derive(Clone, Copy)]
pub struct Tally {
    pub arrays: u32,
    pub elements: u32,
    pub functions: u32,
}

// How many words of the core there are up to here, and how many functions.
#[derive(Clone, Copy)]
pub struct Reached {
    pub core: usize,
    pub functions: usize,
}

// A function: where its item stands in the tree, and where its body and its entry go in the core.
#[derive(Clone, Copy)]
pub struct Site {
    pub item: usize,
    pub body: usize,
    pub entry: usize,
}
