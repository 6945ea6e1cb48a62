//! The word of sctrstatus.

ghost use Rattle.std.specs.Prelude.{◌≡◌, ◌<◌};
ghost use Rattle.ctr_csrs.specs.Depths.{entries_of};
ghost use Rattle.ctr_csrs.specs.StatusFigure.{word_of, pointer_in, frozen_in};

use crate::depth::{Depth, entries};
use ctr_bits::Field;

/// What `sctrstatus` shows (RISC-V Control Transfer Records 1.0, "Supervisor Control Transfer Records Status
/// Register").
#[derive(Clone, Copy, Debug, PartialEq, Eq)]
pub struct Status {
    /// WRPTR, the physical entry that the next transfer is written to.
    pub wrptr: u8,

    /// FROZEN: nothing is recorded while it is set.
    pub frozen: bool,
}

/// The word that `sctrstatus` reads as: WRPTR in bits 7:0, FROZEN in bit 31, the others 0.
pub fn status_word(status: Status) -> u64
    ensures { result ≡ word_of status }
{
    let frozen = if status.frozen { 1 << 31 } else { 0 };
    u64::from(status.wrptr) + frozen
}

/// What a write of `value` to `sctrstatus` sets: WRPTR is bits 7:0 modulo the number of entries, so the bits that the
/// depth has no use for stay 0, and FROZEN is bit 31.
pub fn status_of(value: u64, depth: Depth) -> Status
    ensures wrptr { result.wrptr ≡ pointer_in value depth }
    ensures frozen { result.frozen ≡ frozen_in value }
    ensures within { result.wrptr < entries_of depth }
{
    let wrptr = Field::<0, 8>::get(value) % u64::from(entries(depth));
    Status {
        wrptr: wrptr as u8,
        frozen: Field::<31, 1>::get(value) == 1,
    }
}
