//! One field of eight bytes, read as far as it goes.

ghost use Rattle.std.specs.Prelude.{◌≡◌, ◌≤◌};
ghost use Rattle.ctr_port.specs.Counts.{HasCause};
ghost use Rattle.perf_sample.specs.Reading.{is_failed, TakesField, TakesWord};

use crate::numbers::number;
use ctr_port::{Got, Source};

/// Why there is no whole field.
#[derive(Clone, Copy, Debug, PartialEq, Eq)]
pub enum Stop {
    /// The input ended after so many bytes of it.
    Ended(usize),
    /// A read failed.
    Failed,
}

/// Reads the eight bytes of a field, and none beyond them.
pub(crate) fn read_field<S: Source>(source: &mut S) -> Result<[u8; 8], Stop>
    ensures takes { TakesField (S.left source.old) (S.left source.new) result }
    ensures cause { HasCause is_failed (S.faults source.old) (S.faults source.new) result }
{
    let mut bytes = [0u8; 8];
    let mut at = 0;
    while at < 8 {
        match source.read(&mut bytes[at..]) {
            Got::Bytes(count) => at += count,
            Got::End => return Err(Stop::Ended(at)),
            Got::Failed => return Err(Stop::Failed),
        }
    }
    Ok(bytes)
}

/// Reads a number of eight bytes, the lowest first, and none beyond them.
pub fn read_number<S: Source>(source: &mut S) -> Result<u64, Stop>
    ensures takes { TakesWord (S.left source.old) (S.left source.new) result }
    ensures cause { HasCause is_failed (S.faults source.old) (S.faults source.new) result }
{
    let bytes = read_field(source)?;
    Ok(number(&bytes))
}
