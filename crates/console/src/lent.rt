// Buffers that a program lends, and what it reads into them.
ghost use Rattle.std.specs.Prelude.{◌≡◌, ◌≤◌, IfOk, length, min, take};

use std::io;
use std::io::Read;

// A buffer that holds one value throughout, made by a function, so that a proof has its length and not its elements.
pub fn filled<T: Copy, const N: usize>(value: T) -> [T; N]
    ensures { length result ≡ N }
{
    [value; N]
}

// So much of a buffer, or all that there is.
pub fn first<T>(buffer: &mut [T], size: u64) -> &mut [T]
    ensures length { length result.now ≡ min size (length buffer.old) }
    ensures start { result.now ≡ take (min size (length buffer.old)) buffer.old }
{
    let end = size.min(buffer.len() as u64) as usize;
    &mut buffer[..end]
}

// Reads until the window is full or the input ends; how many bytes of it are there. `read_to_end` would take a heap, and `read_exact` fails at an end without
// saying how many there are.
pub fn read_full(input: &mut impl Read, window: &mut [u8]) -> io::Result<usize>
    ensures { IfOk result (λ n. n ≤ length window.new) }
{
    let mut done: usize = 0;
    while done < window.len() {
        let n = input.read(&mut window[done..])?;
        if n == 0 {
            break;
        }
        done += n;
    }
    Ok(done)
}
