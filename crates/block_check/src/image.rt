//! The words of an image.

ghost use Rattle.std.specs.Prelude.{◌≡◌};
ghost use Rattle.block_check.specs.Image.{word_at};

use byteorder::{ByteOrder, LittleEndian};

/// The address of the first byte of an image.
pub const IMAGE_BASE: u64 = 0x8000_0000;

/// The word at an address that is a multiple of 4, where the image has all its bytes.
pub(crate) fn word_at(image: &[u8], address: u64) -> Option<u32>
    ensures { result ≡ word_at image.now address }
{
    if address < IMAGE_BASE || address % 4 != 0 {
        return None;
    }
    let place = address - IMAGE_BASE;
    if place >= image.len() as u64 {
        return None;
    }
    let (_, rest) = image.split_at(place as usize);
    if rest.len() < 4 {
        return None;
    }
    Some(LittleEndian::read_u32(rest))
}
