//! The map from control transfer types to perf branch types, this project's choice.

ghost use Rattle.std.specs.Prelude.{◌≡◌, ◌<◌};
ghost use Rattle.perf_sample.specs.PerfTypes.{perf_type_of};

// The types of a branch (`perf_event.h`, enum perf_branch_type).
const UNKNOWN: u64 = 0;

const COND: u64 = 1;

const UNCOND: u64 = 2;

const IND: u64 = 3;

const CALL: u64 = 4;

const IND_CALL: u64 = 5;

const RET: u64 = 6;

const SYSCALL: u64 = 7;

const ERET: u64 = 11;

const IRQ: u64 = 12;

/// The perf type of a branch, for bits 20 to 23 of its flags, by the field TYPE of its record
/// (RISC-V Control Transfer Records 1.0, transfer types), which is below 16.
pub fn perf_type(kind: u8) -> u64
    requires { kind < 16 }
    ensures value { result ≡ perf_type_of kind }
    ensures below { result < 16 }
{
    match kind {
        1 => SYSCALL,
        2 => IRQ,
        3 => ERET,
        4 | 5 => COND,
        8 | 12 => IND_CALL,
        9 => CALL,
        10 | 14 => IND,
        11 | 15 => UNCOND,
        13 => RET,
        _ => UNKNOWN,
    }
}
