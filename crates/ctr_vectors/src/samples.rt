//! The bytes of samples.

ghost use Rattle.std.specs.Prelude.{◌≡◌, ◌+◌, ◌*◌, length, IfOk, OnOk};

use std::alloc::{AllocError, Global};

/// A branch: from, to, flags.
pub type Branch = (u64, u64, u64);

/// A sample in words: misc; what stands between the header and the number of branches; what stands
/// behind that number, if something does; and the branches, the youngest first.
#[derive(Clone, Copy)]
pub struct SampleWords {
    pub misc: u64,
    pub fields: &'static [u64],
    pub index: &'static [u64],
    pub branches: &'static [Branch],
}

/// The sample after one call from 80000000 to 80000008, in the layout 803: byte by byte.
pub const CALL_BYTES: [u8; 56] = [
    0x09, 0, 0, 0, 3, 0, 0x38, 0, // a sample of mode M, 56 bytes
    0x08, 0, 0, 0x80, 0, 0, 0, 0, // ip
    1, 0, 0, 0, 1, 0, 0, 0, // pid, tid
    1, 0, 0, 0, 0, 0, 0, 0, // one branch
    0, 0, 0, 0x80, 0, 0, 0, 0, // from
    0x08, 0, 0, 0x80, 0, 0, 0, 0, // to
    0, 0, 0x40, 0, 0, 0, 0, 0, // flags: a call
];

// Appends words, each as eight bytes, the lowest first.
fn append_words(out: &mut Vec<u8>, words: &[u64]) -> Result<(), AllocError>
    ensures { OnOk result (length out.new.items ≡ length out.old.items + 8 * length words.now) }
{
    for word in words {
        out.extend_from_slice(&word.to_le_bytes())?;
    }
    Ok(())
}

/// Appends a sample as bytes. Its header has the type 9, misc and the size.
pub fn append_sample(
    out: &mut Vec<u8>,
    misc: u64,
    fields: &[u64],
    index: &[u64],
    branches: &[Branch],
) -> Result<(), AllocError>
    ensures { OnOk result (length out.new.items ≡ length out.old.items
        + (16 + 8 * (length fields.now + length index.now) + 24 * length branches.now)) }
{
    let count = branches.len() as u64;
    let words = (fields.len() as u64).wrapping_add(index.len() as u64);
    let size = count
        .wrapping_mul(24)
        .wrapping_add(words.wrapping_mul(8))
        .wrapping_add(16);
    append_words(out, &[9 | misc << 32 | size << 48])?;
    append_words(out, fields)?;
    append_words(out, &[count])?;
    append_words(out, index)?;
    for (from, to, flags) in branches {
        append_words(out, &[*from, *to, *flags])?;
    }
    Ok(())
}

/// The bytes of samples, one behind another.
pub fn bytes_of_samples(alloc: Global, samples: &[SampleWords]) -> Result<Vec<u8>, AllocError> {
    let mut out = Vec::new(alloc);
    for sample in samples {
        append_sample(
            &mut out,
            sample.misc,
            sample.fields,
            sample.index,
            sample.branches,
        )?;
    }
    Ok(out)
}

/// The bytes of words, the lowest of each first.
pub fn bytes_of_words(alloc: Global, words: &[u64]) -> Result<Vec<u8>, AllocError>
    ensures { IfOk result (λ out. length out.items ≡ 8 * length words.now) }
{
    let mut out = Vec::new(alloc);
    append_words(&mut out, words)?;
    Ok(out)
}
