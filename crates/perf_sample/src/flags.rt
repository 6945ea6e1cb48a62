//! The numbers of `perf_event.h` that a sample is made of, and a recorded transfer as a branch.

ghost use Rattle.std.specs.Prelude.{◌≡◌, ◌<◌, ◌^◌};
ghost use Rattle.perf_sample.specs.Flags.{is_predicted, prediction, transfer_flags};
ghost use Rattle.perf_sample.specs.Flags.{transfer_branch};

use crate::perf_types::perf_type;
use crate::sample::Branch;

/// The type of the record of a sample (enum perf_event_type).
pub const PERF_RECORD_SAMPLE: u32 = 9;

/// How many bytes a branch has (struct perf_branch_entry).
pub const BRANCH_SIZE: u16 = 24;

/// The flag mispred of a branch: its direction or target was predicted wrongly.
pub const MISPRED: u64 = 1;

/// The flag predicted of a branch: its direction or target was predicted rightly.
pub const PREDICTED: u64 = 2;

/// The lowest bit of the type of a branch, which is the bits 20 to 23 of its flags.
pub const TYPE: u64 = 1 << 20;

/// The first reserved bit of the flags of a branch. The bits from it up to 63 are reserved.
pub const FIRST_RESERVED: u64 = 1 << 33;

/// The bit PERF_SAMPLE_BRANCH_STACK of sample_type, which every layout has (enum
/// perf_event_sample_format).
pub const BRANCH_STACK: u64 = 0x800;

/// The bit PERF_SAMPLE_BRANCH_HW_INDEX of the branch word (enum perf_branch_sample_type).
pub const HW_INDEX: u64 = 0x20000;

/// The mode of a sample in misc: the kernel.
pub const MISC_KERNEL: u16 = 1;

/// A user.
pub const MISC_USER: u16 = 2;

/// The hypervisor.
pub const MISC_HYPERVISOR: u16 = 3;

/// The kernel of a guest.
pub const MISC_GUEST_KERNEL: u16 = 4;

/// A user of a guest.
pub const MISC_GUEST_USER: u16 = 5;

// Whether a processor predicts the direction or the target of transfers of a type.
fn is_predicted(kind: u8) -> bool
    ensures { result ≡ is_predicted kind }
{
    match kind {
        4 | 5 | 8 | 10 | 12 | 13 | 14 => true,
        _ => false,
    }
}

// The flag of a transfer that is predicted at all.
fn prediction(mispredicted: bool) -> u64
    ensures value { result ≡ prediction mispredicted }
    ensures few { result < 4 }
{
    if mispredicted { MISPRED } else { PREDICTED }
}

impl Branch {
    /// The branch of a transfer between two addresses, by the field TYPE of its record (RISC-V
    /// Control Transfer Records 1.0, transfer types), which is below 16, and by whether it was
    /// mispredicted. Branches, calls, jumps and returns whose direction or target a processor
    /// predicts have the flag mispred or predicted; other transfers have neither.
    pub fn of_transfer(from: u64, to: u64, kind: u8, mispredicted: bool) -> Branch
        requires { kind < 16 }
        ensures branch { result ≡ transfer_branch from to kind mispredicted }
        ensures fit { result.flags < FIRST_RESERVED }
    {
        let kind_flags = TYPE * perf_type(kind);
        let flags = if is_predicted(kind) {
            kind_flags + prediction(mispredicted)
        } else {
            kind_flags
        };
        Branch { from, to, flags }
    }
}
