//! What registers keep to, and that writes, traps and returns keep it.

ghost use Rattle.std.specs.Prelude.{◌^◌, ◌<◌};
ghost use Rattle.guest_modes.specs.declared.causes.TheConstants.{INTERRUPTS};
ghost use Rattle.guest_modes.specs.Facts.{IsPriv, WrittenKeeps, ReadFits, RaisedKeeps, ClearedKeeps, EnteredKeeps, HandlerPlace, LeftKeeps, ReturnPlace};
ghost use Rattle.guest_modes.specs.Words.{IsWithin, IsStatus};

use crate::registers::Priv;

/// Whatever software does, mstatus stays legal and each other register within its mask: a proof and
/// no work.
pub fn fact_laws()
    ensures written_keeps { WrittenKeeps }
    ensures read_fits { ReadFits }
    ensures raised_keeps { RaisedKeeps }
    ensures cleared_keeps { ClearedKeeps }
    ensures entered_keeps { EnteredKeeps }
    ensures handler_place { HandlerPlace }
    ensures left_keeps { LeftKeeps }
    ensures return_place { ReturnPlace }
{}

// Each word is read, since the check knows what a field keeps once it is read.
fn masked_facts(p: &Priv)
    ensures mstatus_is { IsStatus p.now.mstatus }
    ensures medeleg_is { IsWithin 0x4007FF p.now.medeleg }
    ensures mideleg_is { IsWithin 0x2222 p.now.mideleg }
    ensures mie_is { IsWithin INTERRUPTS p.now.mie }
    ensures mip_is { IsWithin INTERRUPTS p.now.mip }
    ensures mtvec_is { IsWithin 0xFFFFFFFFFFFFFFFD p.now.mtvec }
    ensures mepc_is { IsWithin 0xFFFFFFFFFFFFFFFC p.now.mepc }
    ensures stvec_is { IsWithin 0xFFFFFFFFFFFFFFFD p.now.stvec }
    ensures sepc_is { IsWithin 0xFFFFFFFFFFFFFFFC p.now.sepc }
    ensures hstatus_is { IsWithin 0x180 p.now.hstatus }
    ensures hedeleg_is { IsWithin 0x1FF p.now.hedeleg }
    ensures hideleg_is { IsWithin 0x2444 p.now.hideleg }
    ensures vsstatus_is { IsWithin 0x122 p.now.vsstatus }
    ensures vstvec_is { IsWithin 0xFFFFFFFFFFFFFFFD p.now.vstvec }
    ensures vsepc_is { IsWithin 0xFFFFFFFFFFFFFFFC p.now.vsepc }
    ensures vsiselect_is { IsWithin 0xFFF p.now.vsiselect }
{
    let _w = p.mstatus.get();
    let _w = p.medeleg.get();
    let _w = p.mideleg.get();
    let _w = p.mie.get();
    let _w = p.mip.get();
    let _w = p.mtvec.get();
    let _w = p.mepc.get();
    let _w = p.stvec.get();
    let _w = p.sepc.get();
    let _w = p.hstatus.get();
    let _w = p.hedeleg.get();
    let _w = p.hideleg.get();
    let _w = p.vsstatus.get();
    let _w = p.vstvec.get();
    let _w = p.vsepc.get();
    let _w = p.vsiselect.get();
}

fn size_facts(p: &Priv)
    ensures mscratch_is { p.now.mscratch < 2 ^ 64 }
    ensures mcause_is { p.now.mcause < 2 ^ 64 }
    ensures mtval_is { p.now.mtval < 2 ^ 64 }
    ensures mtinst_is { p.now.mtinst < 2 ^ 64 }
    ensures mtval2_is { p.now.mtval2 < 2 ^ 64 }
    ensures sscratch_is { p.now.sscratch < 2 ^ 64 }
    ensures scause_is { p.now.scause < 2 ^ 64 }
    ensures stval_is { p.now.stval < 2 ^ 64 }
{
    let _w = p.mscratch;
    let _w = p.mcause;
    let _w = p.mtval;
    let _w = p.mtinst;
    let _w = p.mtval2;
    let _w = p.sscratch;
    let _w = p.scause;
    let _w = p.stval;
}

fn guest_size_facts(p: &Priv)
    ensures htval_is { p.now.htval < 2 ^ 64 }
    ensures htinst_is { p.now.htinst < 2 ^ 64 }
    ensures vsscratch_is { p.now.vsscratch < 2 ^ 64 }
    ensures vscause_is { p.now.vscause < 2 ^ 64 }
    ensures vstval_is { p.now.vstval < 2 ^ 64 }
{
    let _w = p.htval;
    let _w = p.htinst;
    let _w = p.vsscratch;
    let _w = p.vscause;
    let _w = p.vstval;
}

/// The facts of the registers: a proof and no work.
pub fn priv_facts(p: &Priv)
    ensures { IsPriv p.now }
{
    masked_facts(p);
    size_facts(p);
    guest_size_facts(p);
}
