// Whether a hart has done nothing.
ghost use Rattle.std.specs.Prelude.{◌≡◌, ◌↔◌, ◌<◌, IsTrue, Some, length, replicate, slice_get};
ghost use Rattle.std.specs.Bool.{OnTrue, OnFalse};
ghost use Rattle.ctr_buffer.specs.Entry.{zero_entry};
ghost use Rattle.ctr_buffer.specs.Stack.{empty};
ghost use Rattle.ctr_csrs.specs.Depths.{entries_of};
ghost use Rattle.ctr_csrs.specs.declared.depth.Depth.TheVariants.{D16};
ghost use Rattle.ctr_csrs.specs.declared.mode.Mode.TheVariants.{M};
ghost use Rattle.guest_modes.specs.Fresh.{fresh_registers};
ghost use Rattle.indirect_regs.specs.Unit.{fresh_unit};
ghost use Rattle.rv_hart.specs.Processor.{fresh_core};

use crate::memory::BASE;
use crate::processor::Core;
use ctr_buffer::{CtrStore, Slot};
use ctr_csrs::{Depth, Mode};
use guest_modes::Priv;
use indirect_regs::CtrUnit;

fn item(x: &[u64], i: usize) -> u64
    requires { i < length x.now }
    ensures { slice_get x.now i ≡ Some result }
{
    x[i]
}

fn is_null(value: u64) -> bool
    ensures yes { OnTrue result (value ≡ 0) }
    ensures no { OnFalse result (value ≡ 0 → ⊥) }
{
    value == 0
}

// Whether 32 registers are 0.
fn are_clear(x: &[u64]) -> bool
    requires { length x.now ≡ 32 }
    ensures yes { OnTrue result (x.now ≡ replicate 32 0) }
    ensures no { OnFalse result (x.now ≡ replicate 32 0 → ⊥) }
{
    for i in 0..32 {
        if !is_null(item(x, i)) {
            return false;
        }
    }
    true
}

fn is_m(mode: Mode) -> bool
    ensures yes { OnTrue result (mode ≡ M) }
    ensures no { OnFalse result (mode ≡ M → ⊥) }
{
    match mode {
        Mode::M => true,
        Mode::S | Mode::U | Mode::Vs | Mode::Vu => false,
    }
}

fn is_same(p: &Priv, q: &Priv) -> bool
    ensures { IsTrue result ↔ (p.now ≡ q.now) }
{
    p == q
}

pub(crate) fn is_fresh_core(core: &Core) -> bool
    ensures yes { OnTrue result (core.now ≡ fresh_core) }
    ensures no { OnFalse result (core.now ≡ fresh_core → ⊥) }
{
    if !are_clear(&core.x) {
        return false;
    }
    if core.pc != BASE {
        return false;
    }
    if !is_m(core.mode) {
        return false;
    }
    is_same(&core.csrs, &Priv::fresh())
}

fn is_zero(slot: Slot) -> bool
    ensures yes { OnTrue result (slot ≡ zero_entry) }
    ensures no { OnFalse result (slot ≡ zero_entry → ⊥) }
{
    slot == Slot::default()
}

// Whether the sixteen slots of a store of that depth are zero.
fn are_zero<B: CtrStore>(store: &B) -> bool
    requires { (B.means store.now).depth ≡ D16 }
    ensures yes { OnTrue result ((B.means store.now).slots ≡ replicate 16 zero_entry) }
    ensures no { OnFalse result ((B.means store.now).slots ≡ replicate 16 zero_entry → ⊥) }
{
    // For its clause: there are as many entries as the depth says.
    let _shape = store.depth();
    for i in 0..16u16 {
        if !is_zero(store.slot(i)) {
            return false;
        }
    }
    true
}

fn is_sixteen(depth: Depth) -> bool
    ensures yes { OnTrue result (depth ≡ D16) }
    ensures no { OnFalse result (depth ≡ D16 → ⊥) }
{
    match depth {
        Depth::D16 => true,
        Depth::D32 | Depth::D64 | Depth::D128 | Depth::D256 => false,
    }
}

// Whether a store is as it was made, with depth 16.
fn is_fresh_store<B: CtrStore>(store: &B) -> bool
    ensures yes { OnTrue result (B.means store.now ≡ empty D16) }
    ensures no { OnFalse result (B.means store.now ≡ empty D16 → ⊥) }
{
    if !is_sixteen(store.depth()) {
        return false;
    }
    if store.wrptr() != 0 {
        return false;
    }
    are_zero(store)
}

pub(crate) fn is_fresh_unit<B: CtrStore>(unit: &CtrUnit<B>) -> bool
    ensures yes { OnTrue result (unit.now ≡ fresh_unit D16) }
    ensures no { OnFalse result (unit.now ≡ fresh_unit D16 → ⊥) }
{
    if unit.m.word() != 0 {
        return false;
    }
    if unit.vs.word() != 0 {
        return false;
    }
    if unit.frozen {
        return false;
    }
    if unit.select != 0 {
        return false;
    }
    is_fresh_store(&unit.store)
}
