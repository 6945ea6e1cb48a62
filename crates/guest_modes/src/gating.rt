//! Which register an access reaches.

ghost use Rattle.std.specs.Prelude.{◌≡◌, ◌&&◌, not, IsTrue, IfOk};
ghost use Rattle.guest_modes.specs.Gate.{gate_answer, is_read_only};
ghost use Rattle.guest_modes.specs.Numbers.{is_in, is_there, transfer_numbers};

use crate::numbered::is_register;
use ctr_csrs::Mode;

/// Why an access to a register is refused.
#[derive(Clone, Copy, Debug, PartialEq, Eq)]
pub enum CsrFault {
    /// Illegal-instruction exception.
    Illegal,

    /// Virtual-instruction exception: the access would be allowed with V=0.
    Virtual,
}

/// The number of the register that an access reaches, for all registers including those of control transfer records
/// (RISC-V Privileged Architecture, "CSR Address Mapping Conventions" and "Hypervisor and Virtual Supervisor CSRs").
/// An access from VS to a supervisor register reaches the VS register in its place.
pub fn gate(mode: Mode, csr: u16, write: bool) -> Result<u16, CsrFault>
    ensures reached { result ≡ gate_answer mode csr write }
    ensures there { IfOk result (λ number. IsTrue (is_there number)) }
{
    if !is_possible(csr, write) {
        return Err(CsrFault::Illegal);
    }
    if mode == Mode::M {
        return Ok(csr);
    }
    let level = csr / 256 % 4;
    if level == 3 {
        return Err(CsrFault::Illegal);
    }
    if mode == Mode::S {
        return Ok(csr);
    }
    if mode == Mode::U {
        return Err(CsrFault::Illegal);
    }
    if mode == Mode::Vu {
        return Err(CsrFault::Virtual);
    }
    if level == 2 {
        return Err(CsrFault::Virtual);
    }
    if csr == 0x15F {
        return Err(CsrFault::Virtual);
    }
    if csr == 0x14F {
        return Ok(csr);
    }
    Ok(csr + 0x100)
}

// Whether a register has the number, and one that can be written where the access writes.
fn is_possible(csr: u16, write: bool) -> bool
    ensures is { result ≡ (is_there csr && not (write && is_read_only csr)) }
    ensures there { IsTrue result → IsTrue (is_there csr) }
{
    is_known(csr) && !(write && csr / 1024 % 4 == 3)
}

// Whether any register has the number.
fn is_known(csr: u16) -> bool
    ensures { result ≡ is_there csr }
{
    is_transfer_register(csr) || is_register(csr)
}

// Whether it is a number of the control transfer records.
fn is_transfer_register(csr: u16) -> bool
    ensures { result ≡ is_in csr transfer_numbers }
{
    matches!(
        csr,
        0x34E | 0x14E | 0x24E | 0x14F | 0x15F | 0x150..=0x153 | 0x155..=0x157 | 0x250..=0x253 | 0x255..=0x257
    )
}
