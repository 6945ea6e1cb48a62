//! The depths of a record buffer and their codes.

ghost use Rattle.std.specs.Prelude.{◌≡◌, ◌≤◌, ◌<◌, ◌↔◌, IsSome, IfSome};
ghost use Rattle.ctr_csrs.specs.Depths.{code_of, entries_of, depth_at};

/// How many transfers a record buffer keeps: the field DEPTH of `sctrdepth` (RISC-V Control Transfer Records 1.0,
/// "Supervisor Control Transfer Records Depth Register").
#[derive(Clone, Copy, Debug, PartialEq, Eq)]
pub enum Depth {
    D16,
    D32,
    D64,
    D128,
    D256,
}

/// The number of entries of a buffer of this depth, from 16 to 256.
pub fn entries(depth: Depth) -> u16
    ensures is { result ≡ entries_of depth }
    ensures least { 16 ≤ result }
    ensures most { result ≤ 256 }
{
    16 << (depth as u16)
}

/// What `sctrdepth` holds for this depth, from 0 to 4.
pub fn depth_code(depth: Depth) -> u64
    ensures is { result ≡ code_of depth }
    ensures built { result < 5 }
{
    depth as u64
}

/// The depth that a code names, or `None` where it names none: the codes 5 to 7 are reserved, and higher ones
/// don't fit the field.
pub fn depth_of(code: u64) -> Option<Depth>
    ensures is { result ≡ depth_at code }
    ensures built { IsSome result ↔ (code < 5) }
    ensures named { IfSome result (λ depth. code_of depth ≡ code) }
{
    match code {
        0 => Some(Depth::D16),
        1 => Some(Depth::D32),
        2 => Some(Depth::D64),
        3 => Some(Depth::D128),
        4 => Some(Depth::D256),
        _ => None,
    }
}
