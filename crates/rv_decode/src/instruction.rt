//! An instruction with its operands.

use crate::operations::{AluOp, Cond, CsrOp, Width};

/// The operand of a CSR instruction (Zicsr).
#[derive(Clone, Copy, Debug, PartialEq, Eq)]
pub enum CsrArg {
    /// The register of this number, below 32.
    Reg(u8),
    /// The five bits of the immediate, below 32.
    Imm(u8),
}

/// An instruction with its operands. Register numbers are below 32; immediates and offsets are
/// sign-extended to 64 bits, and kept modulo 2^64.
#[derive(Clone, Copy, Debug, PartialEq, Eq)]
pub enum Instr {
    /// `imm` has the upper 20 bits of 32 bits, already in place.
    Lui {
        rd: u8,
        imm: u64,
    },
    /// As `Lui`, to be added to the address of the instruction.
    Auipc {
        rd: u8,
        imm: u64,
    },
    /// `off` is in bytes, from the address of the instruction.
    Jal {
        rd: u8,
        off: u64,
    },
    /// `off` is in bytes, from the value of `rs1`.
    Jalr {
        rd: u8,
        rs1: u8,
        off: u64,
    },
    /// `off` is in bytes, from the address of the instruction.
    Branch {
        cond: Cond,
        rs1: u8,
        rs2: u8,
        off: u64,
    },
    /// `signed` says that the loaded bytes are sign-extended; eight bytes count as signed.
    Load {
        width: Width,
        signed: bool,
        rd: u8,
        rs1: u8,
        off: u64,
    },
    Store {
        width: Width,
        rs1: u8,
        rs2: u8,
        off: u64,
    },
    /// A shift has its amount, 0 to 63 or 0 to 31, as `imm`.
    AluImm {
        op: AluOp,
        rd: u8,
        rs1: u8,
        imm: u64,
    },
    Alu {
        op: AluOp,
        rd: u8,
        rs1: u8,
        rs2: u8,
    },
    /// `csr` is the number of the register, below 4,096.
    Csr {
        op: CsrOp,
        rd: u8,
        arg: CsrArg,
        csr: u16,
    },
    Fence,
    FenceI,
    Ecall,
    Ebreak,
    Mret,
    Sret,
    Wfi,
    /// SCTRCLR (RISC-V Control Transfer Records 1.0).
    CtrClr,
}
