//! What changes a record buffer.

use crate::slot::{Part, Slot};
use ctr_csrs::Depth;

/// What changes a record buffer. FROZEN and the controls are no part of the buffer, so a freeze is no event.
#[derive(Clone, Copy, Debug, PartialEq, Eq)]
pub enum Event {
    /// A transfer is recorded: a slot with V.
    Push(Slot),

    /// A co-routine swap under return-stack emulation replaces the youngest slot by one with V.
    Swap(Slot),

    /// A return under return-stack emulation takes the youngest slot away.
    Pop,

    /// SCTRCLR.
    Clear,

    /// A write of `sctrdepth` that names another depth than the present one. Every history begins with this event.
    SetDepth(Depth),

    /// A write of `sctrstatus` that moves WRPTR to here: another place than the present one, below the depth.
    Turn(u8),

    /// A write of a part of slot `i`, where 0 is the youngest and `i` is below the depth.
    Poke(u16, Part, u64),
}
