// The columns of a word (document 03 §2).
ghost use Rattle.std.specs.Prelude.{◌≡◌, ◌<◌};
ghost use Rattle.processor.specs.Formats.{funct7, rs2, rs1, funct3, rd, opcode};
ghost use Rattle.processor.specs.Instructions.{key};

// Bits 31 to 25.
pub fn funct7(w: u32) -> u32
    ensures is { result ≡ funct7 w }
    ensures below { result < 128 }
{
    w / 33554432 % 128
}

// The second register, or a shift's amount: bits 24 to 20.
pub fn rs2(w: u32) -> u32
    ensures is { result ≡ rs2 w }
    ensures below { result < 32 }
{
    w / 1048576 % 32
}

// The first register: bits 19 to 15.
pub fn rs1(w: u32) -> u32
    ensures is { result ≡ rs1 w }
    ensures below { result < 32 }
{
    w / 32768 % 32
}

// Bits 14 to 12.
pub fn funct3(w: u32) -> u32
    ensures is { result ≡ funct3 w }
    ensures below { result < 8 }
{
    w / 4096 % 8
}

// The register that is written: bits 11 to 7.
pub fn rd(w: u32) -> u32
    ensures is { result ≡ rd w }
    ensures below { result < 32 }
{
    w / 128 % 32
}

// Bits 6 to 0.
pub fn opcode(w: u32) -> u32
    ensures { result ≡ opcode w }
{
    w % 128
}

// funct7 and funct3 in one number, by which an operation is found.
pub fn key(w: u32) -> u32
    ensures { result ≡ key (funct3 w) (funct7 w) }
{
    funct7(w) * 8 + funct3(w)
}
