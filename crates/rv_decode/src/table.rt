//! The table of instructions, as nested matches (RISC-V Unprivileged ISA, "RV32/64G Instruction Set
//! Listings").

ghost use Rattle.std.specs.Prelude.{◌≡◌};
ghost use Rattle.rv_decode.specs.Rows.{instruction_of};

use crate::fields::{
    csr, funct3, funct6, funct7, imm_b, imm_i, imm_j, imm_s, imm_u, opcode, rd, rs1, rs2, shamt5,
    shamt6, whole,
};
use crate::instruction::{CsrArg, Instr};
use crate::operations::{AluOp, Cond, CsrOp, Width};

// The rows of the table of instructions. `FIELD { VALUE => (..), .. }` asks for a field of the word, and a value
// that isn't listed is no instruction. Any other row is a format of the manual (U, J, I, B, S, R, or I with a shift
// amount of 5 or 6 bits) with the name of an instruction, or a name alone.
macro_rules! rows {
    ($w:ident, $field:ident { $($value:literal => ($($row:tt)+),)* }) => {
        match $field($w) {
            $( $value => rows!($w, $($row)+), )*
            _ => None,
        }
    };
    ($w:ident, U $name:ident) => {
        Some(Instr::$name { rd: rd($w), imm: imm_u($w) })
    };
    ($w:ident, J Jal) => {
        Some(Instr::Jal { rd: rd($w), off: imm_j($w) })
    };
    ($w:ident, I Jalr) => {
        Some(Instr::Jalr { rd: rd($w), rs1: rs1($w), off: imm_i($w) })
    };
    ($w:ident, B Branch $cond:ident) => {
        Some(Instr::Branch { cond: Cond::$cond, rs1: rs1($w), rs2: rs2($w), off: imm_b($w) })
    };
    ($w:ident, I Load $width:ident signed) => {
        Some(Instr::Load { width: Width::$width, signed: true, rd: rd($w), rs1: rs1($w), off: imm_i($w) })
    };
    ($w:ident, I Load $width:ident unsigned) => {
        Some(Instr::Load { width: Width::$width, signed: false, rd: rd($w), rs1: rs1($w), off: imm_i($w) })
    };
    ($w:ident, S Store $width:ident) => {
        Some(Instr::Store { width: Width::$width, rs1: rs1($w), rs2: rs2($w), off: imm_s($w) })
    };
    ($w:ident, I AluImm $op:ident) => {
        Some(Instr::AluImm { op: AluOp::$op, rd: rd($w), rs1: rs1($w), imm: imm_i($w) })
    };
    ($w:ident, $amount:ident AluImm $op:ident) => {
        Some(Instr::AluImm { op: AluOp::$op, rd: rd($w), rs1: rs1($w), imm: $amount($w) })
    };
    ($w:ident, R Alu $op:ident) => {
        Some(Instr::Alu { op: AluOp::$op, rd: rd($w), rs1: rs1($w), rs2: rs2($w) })
    };
    ($w:ident, I Csr $op:ident $operand:ident) => {
        Some(Instr::Csr { op: CsrOp::$op, rd: rd($w), arg: CsrArg::$operand(rs1($w)), csr: csr($w) })
    };
    ($w:ident, $name:ident) => {
        Some(Instr::$name)
    };
}

// What the table answers to a word.
#[tactic(auto, unfolding(crate::specs::Rows::instruction_of))]
pub(crate) fn row_of(word: u32) -> Option<Instr>
    ensures { result ≡ instruction_of word }
{
    let w = u64::from(word);
    rows!(w, opcode {
        0x37 => (U Lui),
        0x17 => (U Auipc),
        0x6F => (J Jal),
        0x67 => (funct3 {
            0 => (I Jalr),
        }),
        0x63 => (funct3 {
            0 => (B Branch Eq),
            1 => (B Branch Ne),
            4 => (B Branch Lt),
            5 => (B Branch Ge),
            6 => (B Branch Ltu),
            7 => (B Branch Geu),
        }),
        0x03 => (funct3 {
            0 => (I Load B signed),
            1 => (I Load H signed),
            2 => (I Load W signed),
            3 => (I Load D signed),
            4 => (I Load B unsigned),
            5 => (I Load H unsigned),
            6 => (I Load W unsigned),
        }),
        0x23 => (funct3 {
            0 => (S Store B),
            1 => (S Store H),
            2 => (S Store W),
            3 => (S Store D),
        }),
        0x13 => (funct3 {
            0 => (I AluImm Add),
            1 => (funct6 {
                0x00 => (shamt6 AluImm Sll),
            }),
            2 => (I AluImm Slt),
            3 => (I AluImm Sltu),
            4 => (I AluImm Xor),
            5 => (funct6 {
                0x00 => (shamt6 AluImm Srl),
                0x10 => (shamt6 AluImm Sra),
            }),
            6 => (I AluImm Or),
            7 => (I AluImm And),
        }),
        0x1B => (funct3 {
            0 => (I AluImm Addw),
            1 => (funct7 {
                0x00 => (shamt5 AluImm Sllw),
            }),
            5 => (funct7 {
                0x00 => (shamt5 AluImm Srlw),
                0x20 => (shamt5 AluImm Sraw),
            }),
        }),
        0x33 => (funct7 {
            0x00 => (funct3 {
                0 => (R Alu Add),
                1 => (R Alu Sll),
                2 => (R Alu Slt),
                3 => (R Alu Sltu),
                4 => (R Alu Xor),
                5 => (R Alu Srl),
                6 => (R Alu Or),
                7 => (R Alu And),
            }),
            0x01 => (funct3 {
                0 => (R Alu Mul),
                1 => (R Alu Mulh),
                2 => (R Alu Mulhsu),
                3 => (R Alu Mulhu),
                4 => (R Alu Div),
                5 => (R Alu Divu),
                6 => (R Alu Rem),
                7 => (R Alu Remu),
            }),
            0x20 => (funct3 {
                0 => (R Alu Sub),
                5 => (R Alu Sra),
            }),
        }),
        0x3B => (funct7 {
            0x00 => (funct3 {
                0 => (R Alu Addw),
                1 => (R Alu Sllw),
                5 => (R Alu Srlw),
            }),
            0x01 => (funct3 {
                0 => (R Alu Mulw),
                4 => (R Alu Divw),
                5 => (R Alu Divuw),
                6 => (R Alu Remw),
                7 => (R Alu Remuw),
            }),
            0x20 => (funct3 {
                0 => (R Alu Subw),
                5 => (R Alu Sraw),
            }),
        }),
        0x0F => (funct3 {
            0 => (Fence),
            1 => (FenceI),
        }),
        0x73 => (funct3 {
            0 => (whole {
                0x00000073 => (Ecall),
                0x00100073 => (Ebreak),
                0x10200073 => (Sret),
                0x30200073 => (Mret),
                0x10400073 => (CtrClr),
                0x10500073 => (Wfi),
            }),
            1 => (I Csr Write Reg),
            2 => (I Csr Set Reg),
            3 => (I Csr Clear Reg),
            5 => (I Csr Write Imm),
            6 => (I Csr Set Imm),
            7 => (I Csr Clear Imm),
        }),
    })
}
