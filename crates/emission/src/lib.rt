// The pieces of code that the compiler puts together. Each function puts what a definition of the crate `codegen` gives.
#![tactic(auto)]

ghost use Rattle.std.specs.Prelude.{◌≤◌};
ghost use Rattle.symbolic.specs.Fine.{far};

use processor::{Alu, Cond};

pub mod tape; // instructions, put one before the other
pub mod places; // where values are
pub mod jumps; // jumps and conditions
pub mod strict; // the strict operators
pub mod unary; // the unary operators
pub mod elements; // elements of arrays
pub mod calls; // calls and the words of frames
pub mod functions; // functions and statements, but for their expressions
pub mod image; // the image

// Where a value is: nowhere yet, in a local's word, in a temporary.
#[derive(Clone, Copy)]
pub enum Place {
    Constant(u32),
    Local(u32),
    Temporary(u32),
}

// What an operator is as a value (codegen's Work): one instruction, one behind a test of the divisor, 1 or 0 by a branch. The sides may be exchanged.
#[derive(Clone, Copy)]
pub enum Work {
    Plain(Alu, bool),
    Divided(Alu),
    Tested(Cond, bool),
}

// The places of an operator's sides.
#[derive(Clone, Copy)]
pub struct Sides {
    pub left: Place,
    pub right: Place,
}

// An array: its offset among all elements, and its size.
#[derive(Clone, Copy)]
pub struct Array {
    pub offset: u32,
    pub size: u32,
}

// A jump to a position of code where a truth is `when`: one branch if that is near, else a branch around a jump.
#[derive(Clone, Copy)]
pub struct Jump {
    pub near: bool,
    pub when: bool,
    pub to: usize,
    ghost in_reach: { to ≤ far },
}
