// Lists read past their end, where something else stands for what is missing: so that no reader asks how long a list is.
ghost use Rattle.std.specs.Prelude.{◌≡◌, get_or};

// Item i, or the other.
pub fn item_or<T: Copy>(items: &[T], i: usize, other: T) -> T
    ensures { result ≡ get_or items.now i other }
{
    items.get(i).copied().unwrap_or(other)
}

// Word i, or 0.
pub fn word(words: &[u32], i: usize) -> u32
    ensures { result ≡ get_or words.now i 0 }
{
    item_or(words, i, 0)
}
