// Words in slices. Reading is total: past the end there are zeros.
ghost use Rattle.std.specs.Prelude.{◌≡◌, get_or, drop, set};

use word::lists::word;

// Word i after the first p.
pub fn field(ws: &[u32], p: usize, i: u32) -> u32
    ensures { result ≡ get_or (drop p ws.now) i 0 }
{
    word(ws, p.saturating_add(i as usize))
}

// The place n words after p, or the end.
pub fn onward(ws: &[u32], p: usize, n: usize) -> usize
    ensures { drop result ws.now ≡ drop n (drop p ws.now) }
{
    p.saturating_add(n).min(ws.len())
}

// Sets word i, if there is one. With `get_mut` it has as many lines and two goals that the check doesn't find.
pub fn put(ws: &mut [u32], i: usize, v: u32)
    ensures { ws.new ≡ set ws.old i v }
{
    if i < ws.len() {
        ws[i] = v;
    }
}
