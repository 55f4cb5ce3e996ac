// Document 01 §3: from the tokens of a text to its tree, as words in working room that the caller lends.
#![tactic(auto)]

ghost use Rattle.grammar.specs.Answers.{Answers};

use crate::input::{Fault, Tokens};
use crate::program::items;
use tokens::Unread;

pub mod tree; // the kinds of what a tree is made of
mod input; // the tokens that are read, and what reading gives
mod words; // the words of trees
mod operators; // the operators' table
mod expressions; // expr, conj, comp, sum, term, unary, primary
mod types; // type, and what has one
mod statements; // block, statement
mod program; // program, array, function, param

// A text's tree: so many arrays and functions, in so many words.
#[derive(Clone, Copy, Debug, PartialEq, Eq, Hash)]
pub struct Parsed {
    pub items: usize,
    pub words: usize,
}

// Words of room for a tree: enough for any text.
pub const TREE_ROOM: usize = 524288;

// The tree of a text: its tokens go to `room`, its words to `tree`; both are working room.
pub fn parse(text: &[u8], room: &mut [u32], tree: &mut [u32]) -> Result<Parsed, Unread>
    ensures { Answers text.now room.old tree.old result tree.new }
{
    if tree.len() < TREE_ROOM {
        return Err(Unread::NoRoom);
    }
    let count = tokens::tokens(text, room)?;
    let ts = Tokens { words: room, count };
    match items(ts, tree) {
        Ok(read) => Ok(Parsed {
            items: read.told,
            words: read.end,
        }),
        Err(Fault(p)) => {
            if p < count {
                return Err(Unread::Unreadable(ts.place(p) as usize));
            }
            Err(Unread::Unreadable(text.len()))
        }
    }
}
