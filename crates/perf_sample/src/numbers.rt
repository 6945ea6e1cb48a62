//! The numbers that the eight bytes of a field spell, the lowest byte first.

ghost use Rattle.std.specs.Prelude.{◌≡◌, ◌++◌};
ghost use Rattle.perf_sample.specs.Spelling.{le};

use byteorder::{ByteOrder, LittleEndian};

/// One number.
pub(crate) fn number(bytes: &[u8; 8]) -> u64
    ensures { le 8 result ≡ bytes.now }
{
    LittleEndian::read_u64(bytes)
}

/// Two numbers of four bytes.
pub(crate) fn halves(bytes: &[u8; 8]) -> (u32, u32)
    ensures { le 4 result.0 ++ le 4 result.1 ≡ bytes.now }
{
    let (low, high) = bytes.split_at(4);
    (LittleEndian::read_u32(low), LittleEndian::read_u32(high))
}

/// The fields type, misc and size of a header.
pub(crate) fn header(bytes: &[u8; 8]) -> (u32, u16, u16)
    ensures { le 4 result.0 ++ le 2 result.1 ++ le 2 result.2 ≡ bytes.now }
{
    let (kind, rest) = bytes.split_at(4);
    let (misc, size) = rest.split_at(2);
    (
        LittleEndian::read_u32(kind),
        LittleEndian::read_u16(misc),
        LittleEndian::read_u16(size),
    )
}
