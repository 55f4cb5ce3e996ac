// Memory: 2 MiB of bytes that the caller lends, multi-byte items lowest byte first (document 03 §1), and what loads and stores do to it (§3, §4).
#![tactic(auto, unfolding(processor::specs::Machine::half_at, processor::specs::Machine::word_at, processor::specs::Machine::placed, processor::specs::Execute::reaches, processor::specs::Execute::read_at, processor::specs::Execute::write_at))]

ghost use Rattle.std.specs.Prelude.{◌≡◌, ◌+◌, ◌<◌, ◌≤◌, length, take};
ghost use Rattle.word.specs.Bytes.{bytes_of};
ghost use Rattle.processor.specs.Machine.{byte_at, half_at, word_at, placed};
ghost use Rattle.processor.specs.Execute.{size_of, reaches as reaches_of, read_at, write_at};

use processor::Width;
use word::bits::sign_extend;
use word::bytes::{bytes_of, word_of};

// The whole of it.
pub type Memory = [u8; 0x200000];

// A byte as a word. This and the next two are no one function with a size: document 03 §1 defines the three, and each is a line.
pub fn byte_at(memory: &[u8], i: usize) -> u32
    requires { i < length memory.now }
    ensures { (result ≡ byte_at memory.now i) × (result < 256) }
{
    u32::from(memory[i])
}

// Two bytes as a word.
pub fn half_at(memory: &[u8], i: usize) -> u32
    requires { i + 2 ≤ length memory.now }
    ensures { (result ≡ half_at memory.now i) × (result < 65536) }
{
    byte_at(memory, i) + byte_at(memory, i + 1) * 256
}

// Four bytes as a word.
pub fn word_at(memory: &[u8], i: usize) -> u32
    requires { i + 4 ≤ length memory.now }
    ensures { result ≡ word_at memory.now i }
{
    word_of(memory[i], memory[i + 1], memory[i + 2], memory[i + 3])
}

// Whether a load or a store of this width may touch what lies there: aligned, and in the upper half of memory.
pub fn reaches(s: Width, at: u32) -> bool
    ensures { result ≡ reaches_of s at }
{
    let aligned = match s {
        Width::Byte | Width::ByteU => true,
        Width::Half | Width::HalfU => at % 2 == 0,
        Width::Word => at % 4 == 0,
    };
    aligned && (0x100000..0x200000).contains(&at)
}

// What a load gives, with the sign extended where its width says so.
pub fn read_at(s: Width, memory: &[u8], i: usize) -> u32
    requires { i + size_of s ≤ length memory.now }
    ensures { result ≡ read_at s memory.now i }
{
    match s {
        Width::Byte => sign_extend(8, byte_at(memory, i)),
        Width::Half => sign_extend(16, half_at(memory, i)),
        Width::Word => word_at(memory, i),
        Width::ByteU => byte_at(memory, i),
        Width::HalfU => half_at(memory, i),
    }
}

// The lower bytes of v, as many as N, stored.
pub fn put<const N: usize>(memory: &mut [u8], i: usize, v: u32)
    requires { (N ≤ 4) × (i + N ≤ length memory.old) }
    ensures { memory.new ≡ placed memory.old i (take N (bytes_of v)) }
{
    memory[i..i + N].copy_from_slice(&bytes_of(v)[..N]);
}

// The four bytes of v, stored.
pub fn put_word(memory: &mut [u8], i: usize, v: u32)
    requires { i + 4 ≤ length memory.old }
    ensures { memory.new ≡ write_at Width.Word memory.old i v }
{
    put::<4>(memory, i, v);
}

// What a store does.
pub fn write_at(s: Width, memory: &mut [u8], i: usize, v: u32)
    requires { i + size_of s ≤ length memory.old }
    ensures { memory.new ≡ write_at s memory.old i v }
{
    match s {
        Width::Byte | Width::ByteU => put::<1>(memory, i, v),
        Width::Half | Width::HalfU => put::<2>(memory, i, v),
        Width::Word => put_word(memory, i, v),
    }
}
