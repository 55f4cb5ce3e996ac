// The compiler: from the words of a flat core program to the image. Each function makes what a definition of the crate `codegen` gives of every
// program that the words may hold.
#![tactic(auto)]

pub mod items; // items, by the position behind them, and where an expression starts
pub mod places; // where values are
pub mod own; // an item's own code
pub mod calls; // calls and their arguments
pub mod values; // expressions, as values and as conditions
pub mod statements; // statements and blocks
pub mod functions; // functions, and how long they are
pub mod programs; // where functions begin, and the image

// The words of a flat core program, and where its functions begin; whether branches reach all of the function whose code is made.
#[derive(Clone, Copy)]
pub struct Code<'a> {
    pub words: &'a [u32],
    pub entries: &'a [u32],
    pub near: bool,
}

// Why there is no image: its code is longer than an image's may be, or than there is room for.
#[derive(Clone, Copy, Debug, PartialEq, Eq)]
pub struct TooLong;
