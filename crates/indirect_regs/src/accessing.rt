//! One access of an instruction to a register.

ghost use Rattle.std.specs.Prelude.{◌≡◌, ℕ, ◌↔◌, ◌⊎◌, OnErr};
ghost use Rattle.guest_modes.specs.Gate.{gate_answer};
ghost use Rattle.indirect_regs.specs.Access.{is_write, new_value, passed, access_of, ReachesNoEntry};

use crate::numbered::{read_register, write_register};
use crate::unit::CtrUnit;
use ctr_buffer::CtrStore;
use ctr_csrs::Mode;
use guest_modes::{CsrFault, Priv, gate};

/// What a CSR instruction does with the register (RISC-V Unprivileged ISA, "Zicsr"). Each but `Read` is a write, also
/// where the value stays as it was.
#[derive(Clone, Copy, Debug, PartialEq, Eq)]
pub enum CsrUse {
    /// Nothing is written.
    Read,

    /// The value is written.
    Write(u64),

    /// The old value is written with these bits set.
    Set(u64),

    /// The old value is written with these bits cleared.
    Clear(u64),
}

/// One access of an instruction to a register, by its number. Answers the old value.
pub fn access<B: CtrStore>(
    unit: &mut CtrUnit<B>,
    p: &mut Priv,
    mode: Mode,
    csr: u16,
    op: CsrUse,
) -> Result<u64, CsrFault>
    ensures answer { result ≡ (access_of unit.old p.old mode csr op).answer }
    ensures unit { unit.new ≡ (access_of unit.old p.old mode csr op).unit }
    ensures registers { p.new ≡ (access_of unit.old p.old mode csr op).registers }
    ensures refused { OnErr result ((unit.new ≡ unit.old) × (p.new ≡ p.old)) }
    ensures is_virtual { (result ≡ Err CsrFault.Virtual)
        ↔ (gate_answer mode csr (is_write op) ≡ Err CsrFault.Virtual) }

    // The gate refuses the access, or it reaches a register of an entry whose select names none.
    ensures is_illegal { (result ≡ Err CsrFault.Illegal)
        ↔ ((gate_answer mode csr (is_write op) ≡ Err CsrFault.Illegal)
        ⊎ ReachesNoEntry unit.old p.old (gate_answer mode csr (is_write op))) }
{
    match gate(mode, csr, writes(op)) {
        Ok(number) => use_register(unit, p, number, op),
        Err(fault) => Err(fault),
    }
}

// Uses the register that an access reaches.
fn use_register<B: CtrStore>(
    unit: &mut CtrUnit<B>,
    p: &mut Priv,
    number: u16,
    op: CsrUse,
) -> Result<u64, CsrFault>
    ensures answer { result ≡ (passed unit.old p.old op (Ok number)).answer }
    ensures unit { unit.new ≡ (passed unit.old p.old op (Ok number)).unit }
    ensures registers { p.new ≡ (passed unit.old p.old op (Ok number)).registers }
{
    let Some(old) = read_register(unit, p, number) else {
        return Err(CsrFault::Illegal);
    };
    if let Some(value) = value_written(op, old) {
        write_register(unit, p, number, value);
    }
    Ok(old)
}

fn writes(op: CsrUse) -> bool
    ensures { result ≡ is_write op }
{
    match op {
        CsrUse::Read => false,
        CsrUse::Write(_) | CsrUse::Set(_) | CsrUse::Clear(_) => true,
    }
}

// The value that is written over the old one, if any is.
fn value_written(op: CsrUse, old: u64) -> Option<u64>
    ensures { result ≡ new_value op old }
{
    match op {
        CsrUse::Read => None,
        CsrUse::Write(value) => Some(value),
        CsrUse::Set(bits) => Some(old | bits),
        CsrUse::Clear(bits) => Some(old & !bits),
    }
}
