// What a transfer does to the control transfer unit.
ghost use Rattle.std.specs.Prelude.{◌≡◌, ◌%◌, true};
ghost use Rattle.ctr_rules.specs.Admitted.{is_branch};
ghost use Rattle.rv_hart.specs.Transfers.{entry_of, transferred};

use ctr_buffer::{CtrStore, Slot};
use ctr_rules::{Act, Record, Transfer, act};
use indirect_regs::CtrUnit;

// A record as an entry.
#[inline(always)]
fn entry(kept: Record) -> Slot
    requires source { kept.source % 2 ≡ 0 }
    requires target { kept.target % 2 ≡ 0 }
    ensures { result ≡ entry_of kept }
{
    Slot::of(kept.source, kept.target, kept.misp, kept.kind.code())
}

/// Does to the unit what a transfer does under the controls and FROZEN that the unit holds.
#[inline(always)]
pub(crate) fn carry<B: CtrStore>(unit: &mut CtrUnit<B>, transfer: Transfer)
    requires source { transfer.source % 2 ≡ 0 }
    requires target { transfer.target % 2 ≡ 0 }
    requires misp { transfer.misp ≡ true → is_branch transfer.kind ≡ true }
    ensures { unit.new ≡ transferred transfer unit.old }
{
    match act(transfer, unit.m, unit.vs, unit.frozen) {
        Act::Nothing => {}
        Act::Push(kept) => unit.store.push(entry(kept)),
        Act::Pop => unit.store.pop(),
        Act::Swap(kept) => unit.store.swap(entry(kept)),
        Act::Freeze => unit.frozen = true,
    }
}
