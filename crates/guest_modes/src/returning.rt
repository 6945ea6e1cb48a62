//! Returns from traps.

ghost use Rattle.std.specs.Prelude.{◌≡◌, ◌%◌};
ghost use Rattle.guest_modes.specs.Returns.{mode_of, mode_after, pc_after, after_return};

use crate::registers::Priv;
use ctr_bits::Field;
use ctr_csrs::Mode;

/// A return from a trap (RISC-V Privileged Architecture, "Trap-Return Instructions").
#[derive(Clone, Copy, Debug, PartialEq, Eq)]
pub enum Ret {
    /// MRET, in M.
    Mret,

    /// SRET with V=0, in S or M.
    SretHs,

    /// SRET with V=1, in VS.
    SretVs,
}

/// Returns from a trap. Answers the mode and the address that the return goes to.
pub fn leave_trap(p: &mut Priv, ret: Ret) -> (Mode, u64)
    ensures registers { p.new ≡ after_return p.old ret }
    ensures mode { result.0 ≡ mode_after p.old ret }
    ensures pc { result.1 ≡ pc_after p.old ret }
    ensures aligned { result.1 % 4 ≡ 0 }
{
    match ret {
        Ret::Mret => {
            let status = p.mstatus.get();
            let mode = mode_named(Field::<11, 2>::get(status), Field::<39, 1>::get(status));
            p.mstatus = p
                .mstatus
                .put::<3, 1>(Field::<7, 1>::get(status))
                .put::<7, 1>(1)
                .put_mpp(0)
                .put::<39, 1>(0);
            (mode, p.mepc.get())
        }
        Ret::SretHs => {
            let status = p.mstatus.get();
            let mode = mode_named(
                Field::<8, 1>::get(status),
                Field::<7, 1>::get(p.hstatus.get()),
            );
            p.mstatus = p
                .mstatus
                .put::<1, 1>(Field::<5, 1>::get(status))
                .put::<5, 1>(1)
                .put::<8, 1>(0);
            p.hstatus = p.hstatus.put::<7, 1>(0);
            (mode, p.sepc.get())
        }
        Ret::SretVs => {
            let status = p.vsstatus.get();
            let mode = mode_named(Field::<8, 1>::get(status), 1);
            p.vsstatus = p
                .vsstatus
                .put::<1, 1>(Field::<5, 1>::get(status))
                .put::<5, 1>(1)
                .put::<8, 1>(0);
            (mode, p.vsepc.get())
        }
    }
}

// The mode of a privilege and a virtualisation mode V.
fn mode_named(privilege: u64, v: u64) -> Mode
    ensures { result ≡ mode_of privilege v }
{
    if privilege == 3 {
        return Mode::M;
    }
    if privilege == 1 {
        if v == 1 { Mode::Vs } else { Mode::S }
    } else if v == 1 {
        Mode::Vu
    } else {
        Mode::U
    }
}
