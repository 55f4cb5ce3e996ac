// The panel processor of document 03: its instructions, how a run of it stands, and the way from words to instructions and back. Its
// state and its steps are definitions (specs/).
#![tactic(auto)]

ghost use Rattle.std.specs.Prelude.{◌≡◌, ◌<◌, ◌^◌};
ghost use Rattle.processor.specs.declared.Instr.{Instr};
ghost use Rattle.processor.specs.Instructions.{decode_of, encode_of, WellFormed};

use formats::word_of;
use rows::by_opcode;

pub mod columns; // the columns of a word
pub mod immediates; // the immediates of a word
pub mod rows; // the rows of the table of instructions
pub mod numbers; // the table's numbers
pub mod formats; // the words of the formats

// What two operands give (document 03 §3). Op takes two registers, OpImm a register and an immediate, Shift a register and an amount.
#[derive(Clone, Copy, Debug, PartialEq, Eq)]
pub enum Alu {
    Add = 0,
    Sub = 256,
    Sll = 1,
    Slt = 2,
    Sltu = 3,
    Xor = 4,
    Srl = 5,
    Sra = 261,
    Or = 6,
    And = 7,
    Mul = 8,
    Mulh = 9,
    Mulhsu = 10,
    Mulhu = 11,
    Div = 12,
    Divu = 13,
    Rem = 14,
    Remu = 15,
}

// When a branch is taken: equal, not equal, less, not less; the last two unsigned.
#[derive(Clone, Copy, Debug, PartialEq, Eq)]
pub enum Cond {
    Eq = 0,
    Ne = 1,
    Lt = 4,
    Ge = 5,
    Ltu = 6,
    Geu = 7,
}

// What a load or a store moves: a byte, a half, a word; the last two are loads that don't extend the sign.
#[derive(Clone, Copy, Debug, PartialEq, Eq)]
pub enum Width {
    Byte = 0,
    Half = 1,
    Word = 2,
    ByteU = 4,
    HalfU = 5,
}

// An instruction. Fields stand in the order rd, rs1, rs2, immediate, those that its format has; an immediate is sign-extended to 32 bits.
// A fence keeps the bits that it doesn't use, so that its word can be told from it.
#[derive(Clone, Copy, Debug, PartialEq, Eq)]
pub enum Instr {
    Lui(u32, u32),
    Auipc(u32, u32),
    Jal(u32, u32),
    Jalr(u32, u32, u32),
    Branch(Cond, u32, u32, u32),
    Load(Width, u32, u32, u32),
    Store(Width, u32, u32, u32),
    OpImm(Alu, u32, u32, u32),
    Shift(Alu, u32, u32, u32),
    Op(Alu, u32, u32, u32),
    Fence(u32, u32, u32),
    Ecall,
    Ebreak,
    Unknown,
}

// Whether a run goes on, or how it stopped (document 03 §4).
#[derive(Clone, Copy, Debug, PartialEq, Eq)]
pub enum Status {
    Going,
    Exit,
    Trap(u32),
    Fault(u32),
    Limit,
}

// The instruction that a word is: a known one is well formed and has this word, and no other well-formed instruction has it.
pub fn decode(w: u32) -> Instr
    ensures is { result ≡ decode_of w }
    ensures word { (result ≡ Instr.Unknown → ⊥) → encode_of result ≡ w }
    ensures fine { (result ≡ Instr.Unknown → ⊥) → WellFormed result }
    ensures only { (i : Instr) → WellFormed i → encode_of i ≡ w → result ≡ i }
{
    by_opcode(w)
}

// The word of an instruction: a well-formed one is read back from it.
pub fn encode(i: Instr) -> u32
    ensures is { result ≡ encode_of i }
    ensures back { WellFormed i → decode_of result ≡ i }
    ensures word { result < 2 ^ 32 }
{
    word_of(i)
}
