// Document 01 §4: from the flat tree of a text to its flat core program, in working room that the caller lends, or the place of a broken rule.
// The rooms (locals, types, starts, core) stay parameters: a clause speaks of what the core becomes, and a struct of them would owe in each that the others are
// the same ones. What is asked of rooms and places ties several together, so that no one type holds it.
#![tactic(auto)]

pub mod types; // types, alone and in rows
pub mod names; // names in the text, and the locals that they stand for
pub mod program; // what is read and never written, and the arrays and functions that names stand for
pub mod operands; // the stack of operands: a type and a start each
pub mod nodes; // what an item of the tree becomes
pub mod calls; // calls and their arguments
pub mod scan; // an expression, item by item
pub mod expression; // an expression, and its type
pub mod head; // headers of statements, in the tree and in the core
pub mod single; // statements with one expression and no block
pub mod store; // a store to an element
pub mod run; // a call as a statement
pub mod simple; // statements with no block
pub mod blocks; // blocks, and statements that have some
pub mod endings; // whether a block ends in return

// Document 01's scope: how many locals of the table are visible, and how many parameters and lets there were.
#[derive(Clone, Copy)]
pub struct Scope {
    pub visible: usize,
    pub count: u32,
}

// Where an expression, a statement or a block is read: the words of the tree and of the core from which it stands on, its scope, and the result type
// of its function, which may be a number (`types::ResultType`).
#[derive(Clone, Copy)]
pub struct Spot<R> {
    pub tree: usize,
    pub core: usize,
    pub scope: Scope,
    pub result: R,
}

// The place of a broken rule; 0 where the words are no tree's, of which the contracts say nothing else.
#[derive(Clone, Copy, Debug, PartialEq, Eq)]
pub struct Broken(pub usize);
