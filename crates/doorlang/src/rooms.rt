// The sizes of the buffers. Of what is read from a file, one byte more than there may be shows that it is too long.
pub const TEXT: usize = 65537;

pub const CODE: usize = 524289;

pub const BLOCK: usize = 1048577;

// An argument, or as much of it as a file's name may have.
pub const WORD: usize = 4096;

// A part of an input text.
pub const PART: usize = 65536;

// What the entries leave, in bytes and in words.
pub const IMAGE: usize = 524288;

pub const MEMORY: usize = 2097152;

pub const ARRAYS: usize = 16384;

pub const LOG: usize = 65536;

pub const REGISTERS: usize = 32;
