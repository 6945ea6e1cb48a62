//! The transfer type of an instruction (RISC-V Control Transfer Records 1.0, "Transfer Types";
//! Unprivileged ISA, "Return-address prediction stack" hints of JAL and JALR).

ghost use Rattle.std.specs.Prelude.{◌≡◌, ◌↔◌};
ghost use Rattle.xfer_class.specs.Types.{link, jal_type, jalr_type, type_of};
ghost use Rattle.xfer_class.specs.TypeRows.{HasType, HasNoType};

use crate::types::XferType;
use rv_decode::Instr;

/// The type of the transfer that an instruction makes, or `None` where it is neither a jump, a branch, MRET nor SRET.
/// `taken` says whether a branch was taken, and matters for nothing else.
#[inline(always)]
pub fn class_of(instr: Instr, taken: bool) -> Option<XferType>
    ensures some { (t : XferType) → (result ≡ Some t) ↔ HasType instr taken t }
    ensures none { (result ≡ None) ↔ HasNoType instr }
    ensures value { result ≡ type_of instr taken }
{
    match instr {
        Instr::Jal { rd, .. } => Some(type_of_jal(rd)),
        Instr::Jalr { rd, rs1, .. } => Some(type_of_jalr(rd, rs1)),
        Instr::Branch { .. } if taken => Some(XferType::Taken),
        Instr::Branch { .. } => Some(XferType::NotTaken),
        Instr::Mret | Instr::Sret => Some(XferType::TrapReturn),
        _ => None,
    }
}

// Whether software keeps return addresses in the register: x1, or x5 as the alternate.
#[inline(always)]
fn is_link(register: u8) -> bool
    ensures { result ≡ link register }
{
    register == 1 || register == 5
}

#[inline(always)]
fn type_of_jal(rd: u8) -> XferType
    ensures { result ≡ jal_type rd }
{
    if rd == 0 {
        XferType::DirectJump
    } else if is_link(rd) {
        XferType::DirectCall
    } else {
        XferType::DirectLinkJump
    }
}

#[inline(always)]
fn type_of_jalr(rd: u8, rs1: u8) -> XferType
    ensures { result ≡ jalr_type rd rs1 }
{
    match (is_link(rd), is_link(rs1)) {
        (true, true) if rd != rs1 => XferType::Swap,
        (true, _) => XferType::IndirectCall,
        (false, true) => XferType::Return,
        (false, false) if rd == 0 => XferType::IndirectJump,
        (false, false) => XferType::IndirectLinkJump,
    }
}
