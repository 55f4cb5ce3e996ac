// An instruction by name: its fields in hex, in the order rd, rs1, rs2, immediate, and immediates as words.
use processor::{Alu, Cond, Instr, Width};
use std::fmt;

#[derive(Clone, Copy)]
pub struct Named(pub Instr);

fn alu_name(operation: Alu) -> &'static str {
    match operation {
        Alu::Add => "add",
        Alu::Sub => "sub",
        Alu::Sll => "sll",
        Alu::Slt => "slt",
        Alu::Sltu => "sltu",
        Alu::Xor => "xor",
        Alu::Srl => "srl",
        Alu::Sra => "sra",
        Alu::Or => "or",
        Alu::And => "and",
        Alu::Mul => "mul",
        Alu::Mulh => "mulh",
        Alu::Mulhsu => "mulhsu",
        Alu::Mulhu => "mulhu",
        Alu::Div => "div",
        Alu::Divu => "divu",
        Alu::Rem => "rem",
        Alu::Remu => "remu",
    }
}

fn branch_name(condition: Cond) -> &'static str {
    match condition {
        Cond::Eq => "beq",
        Cond::Ne => "bne",
        Cond::Lt => "blt",
        Cond::Ge => "bge",
        Cond::Ltu => "bltu",
        Cond::Geu => "bgeu",
    }
}

fn width_name(width: Width) -> &'static str {
    match width {
        Width::Byte => "b",
        Width::Half => "h",
        Width::Word => "w",
        Width::ByteU => "bu",
        Width::HalfU => "hu",
    }
}

impl fmt::Display for Named {
    fn fmt<W: fmt::Write>(&self, f: &mut fmt::Formatter<W>) -> fmt::Result {
        match self.0 {
            Instr::Lui(d, imm) => write!(f, "lui {d:x} {imm:x}"),
            Instr::Auipc(d, imm) => write!(f, "auipc {d:x} {imm:x}"),
            Instr::Jal(d, imm) => write!(f, "jal {d:x} {imm:x}"),
            Instr::Jalr(d, a, imm) => write!(f, "jalr {d:x} {a:x} {imm:x}"),
            Instr::Branch(c, a, b, imm) => write!(f, "{} {a:x} {b:x} {imm:x}", branch_name(c)),
            Instr::Load(w, d, a, imm) => write!(f, "l{} {d:x} {a:x} {imm:x}", width_name(w)),
            Instr::Store(w, a, b, imm) => write!(f, "s{} {a:x} {b:x} {imm:x}", width_name(w)),
            Instr::OpImm(o, d, a, imm) => write!(f, "{}i {d:x} {a:x} {imm:x}", alu_name(o)),
            Instr::Shift(o, d, a, b) => write!(f, "{}i {d:x} {a:x} {b:x}", alu_name(o)),
            Instr::Op(o, d, a, b) => write!(f, "{} {d:x} {a:x} {b:x}", alu_name(o)),
            Instr::Fence(d, a, imm) => write!(f, "fence {d:x} {a:x} {imm:x}"),
            Instr::Ecall => write!(f, "ecall 0 0"),
            Instr::Ebreak => write!(f, "ebreak 0 0"),
            Instr::Unknown => write!(f, "unknown 0 0"),
        }
    }
}
