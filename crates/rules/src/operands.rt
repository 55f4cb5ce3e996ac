// The stack of operands while an expression is read: types and starts in two rows, h of them. Two rows of words, since the caller lends two buffers.
ghost use Rattle.std.specs.Prelude.{◌≡◌, [], ◌∷◌, ◌+◌, ◌-◌, ◌≤◌, ◌<◌, length};
ghost use Rattle.std.proofs.lemmas.List.Edits.{sets};
ghost use Rattle.rules.specs.Values.{held};
ghost use Rattle.rules.specs.Post.{Tops, Pushes, Charges};

use crate::types::{Typed, value_type};
use flat::number::Numbered;
use grammar::tree::ValueType;
use word::arithmetic::add;
use word::lists::word;

// An operand: its type, or what names it, and the word at which its items begin.
#[derive(Clone, Copy)]
pub struct Operand<T> {
    pub ty: T,
    pub start: u32,
}

// The operand below the j uppermost; an int that begins at 0 where there is none.
pub fn top(types: &[u32], starts: &[u32], h: usize, j: usize) -> Operand<ValueType>
    ensures { Tops types.now starts.now h j result }
{
    if h <= j {
        return Operand {
            ty: ValueType::Int,
            start: 0,
        };
    }
    let ty = value_type(word(types, h - j - 1));
    let start = word(starts, h - j - 1);
    Operand { ty, start }
}

// An operand in the place of the n uppermost; how many there are then.
pub fn push<T: Typed>(
    types: &mut [u32],
    starts: &mut [u32],
    h: usize,
    n: u32,
    operand: Operand<T>,
) -> usize
    requires { (h < length types.old) × (h < length starts.old) }
    ensures { Pushes types.old starts.old h n (held T.type_named operand) result types.new starts.new }
{
    let at = h.saturating_sub(n as usize);
    types[at] = operand.ty.number();
    starts[at] = operand.start;
    at + 1
}

// An item of the core; no node begins at it yet. Store by store, as a header (`head::CoreHead::write`).
pub fn item<K: Numbered>(core: &mut [u32], at: usize, kind: K, a: u32, b: u32)
    requires { at + 4 ≤ length core.old }
    ensures { core.new ≡ sets core.old at (K.number_of kind ∷ 0 ∷ a ∷ b ∷ []) }
{
    core[at] = kind.number();
    core[at + 1] = 0;
    core[at + 2] = a;
    core[at + 3] = b;
}

// n nodes more begin at the item at start, among the `size` words from q on.
pub fn charge(core: &mut [u32], q: usize, size: u32, start: u32, n: u32)
    requires { q + size ≤ length core.old }
    ensures { Charges core.old q size start n core.new }
{
    if start < size {
        if start + 1 < size {
            let i = q + start as usize + 1;
            let c = word(core, i);
            core[i] = add(c, n);
        }
    }
}
