//! Where the unit of a task is kept while it is on no hart.

ghost use Rattle.std.specs.Prelude.{◌≡◌, ◌≤◌, replicate, bit_and};
ghost use Rattle.ctr_csrs.specs.ControlFigure.{m_mask, s_mask};
ghost use Rattle.ctr_buffer.specs.Entry.{zero_entry};
ghost use Rattle.indirect_regs.specs.Unit.{fresh_unit};
ghost use Rattle.task_switch.specs.SaveArea.{unit_in, IsWhole};
ghost use Rattle.ctr_csrs.specs.Depths.{entries_of};

use crate::slots::Slots;
use ctr_buffer::Slot;
use ctr_csrs::{Depth, entries, legal_m, legal_vs};

/// What a monitor keeps of the control transfer unit of a task that is on no hart.
#[derive(Drop)]
pub struct SaveArea {
    /// What `mctrctl` holds.
    pub m: u64,

    /// What `vsctrctl` holds.
    pub vs: u64,

    /// How many entries there are.
    pub depth: Depth,

    /// What `sctrstatus` reads as: WRPTR in bits 7:0 and FROZEN in bit 31.
    pub status: u64,

    /// What `siselect` holds, below 4,096.
    pub select: u64,

    /// The entries, youngest first, as many as the depth says.
    pub slots: Slots,
}

impl SaveArea {
    /// The area of a task that hasn't run: zero entries, WRPTR 0, FROZEN 0, select 0, and of the words `m` and `vs` the
    /// bits that `mctrctl` and `vsctrctl` keep.
    pub fn fresh(depth: Depth, m: u64, vs: u64) -> SaveArea
        ensures area { result ≡ record {
          m = bit_and m m_mask;
          vs = bit_and vs s_mask;
          depth = depth;
          status = 0;
          select = 0;
          slots = replicate (entries_of depth) zero_entry;
        } }
        ensures holds { unit_in result
            ≡ record (fresh_unit depth) { m = bit_and m m_mask; vs = bit_and vs s_mask } }
        ensures whole { IsWhole result }
    {
        SaveArea {
            m: legal_m(m).word(),
            vs: legal_vs(vs).word(),
            depth,
            status: 0,
            select: 0,
            slots: zeros(entries(depth)),
        }
    }
}

// Zero slots.
fn zeros(number: u16) -> Slots
    requires { number ≤ 256 }
    ensures { result ≡ replicate number zero_entry }
{
    let mut slots = Slots::new();
    for i in 0..number {
        slots.push(Slot {
            source: 0,
            target: 0,
            kind: 0,
        });
    }
    slots
}
