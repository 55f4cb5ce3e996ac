// "its block *ends in return*: its last statement is a return, or an `if` with `else` both of whose blocks end in return"
ghost use Rattle.std.specs.Prelude.{◌+◌, ◌≤◌, length, drop};
ghost use Rattle.rules.specs.Bounds.{most_places, most_words};
ghost use Rattle.rules.specs.Statements.{Headed, Returns, Ends};

use crate::head::Head;
use grammar::tree::Statement;
use word::lists::word;

// Whether the statement at p is a return.
#[cycle(ends_in_return_returns)]
fn returns(tree: &[u32], p: usize, head: Head<Statement>) -> bool
    requires { (length tree.now ≤ most_words) × (p + 8 + head.rest ≤ length tree.now) × Headed (drop p tree.now) head }
    ensures { Returns (drop p tree.now) result }
{
    match head.kind {
        Statement::Leave => true,
        Statement::Give => true,
        Statement::Choose => {
            let a = 8 + 4 * head.first as usize;
            let b = a + head.size as usize;
            if 8 + (head.rest as usize) < b {
                return false;
            }
            if !ends_in_return(tree, p + a, head.body) {
                return false;
            }
            ends_in_return(tree, p + b, head.other)
        }
        _ => false,
    }
}

// Whether the n statements from p on end in return.
#[cycle(ends_in_return_returns)]
pub fn ends_in_return(tree: &[u32], p: usize, n: u32) -> bool
    requires { (length tree.now ≤ most_words) × (p ≤ most_places) }
    ensures { Ends n (drop p tree.now) result }
{
    let mut at = p;
    let mut ends = false;
    for _ in 0..n {
        if tree.len() < at + 8 {
            return false;
        }
        let size = 8 + word(tree, at + 7) as usize;
        if tree.len() < at + size {
            return false;
        }
        ends = match Head::read(tree, at) {
            Some(head) => returns(tree, at, head),
            None => false,
        };
        at += size;
    }
    ends
}
