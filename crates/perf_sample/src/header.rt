//! The header of a sample.

ghost use Rattle.std.specs.Prelude.{◌≡◌, ◌≤◌};
ghost use Rattle.ctr_port.specs.Counts.{HasCause};
ghost use Rattle.perf_sample.specs.Header.{TakesHeader};
ghost use Rattle.perf_sample.specs.Reading.{is_read};

use crate::faults::SampleFault;
use crate::field::{Stop, read_field};
use crate::flags::PERF_RECORD_SAMPLE;
use crate::numbers::header;
use ctr_port::Source;

/// What the header of a sample says beside its type.
#[derive(Clone, Copy, Debug, PartialEq, Eq)]
pub struct Header {
    /// The field misc, whose low three bits tell the mode of the processor.
    pub misc: u16,
    /// The length of the sample in bytes, with its header.
    pub size: u16,
}

/// Reads the header of a sample, of any size; none where the input ends in place of it.
pub fn read_header<S: Source>(source: &mut S) -> Result<Option<Header>, SampleFault>
    ensures takes { TakesHeader (S.left source.old) (S.left source.new) result }
    ensures cause { HasCause is_read (S.faults source.old) (S.faults source.new) result }
{
    let bytes = match read_field(source) {
        Ok(bytes) => bytes,
        Err(stop) => match stop {
            Stop::Ended(count) => {
                if count == 0 {
                    return Ok(None);
                }
                return Err(SampleFault::Header);
            }
            Stop::Failed => return Err(SampleFault::ReadFault),
        },
    };
    let (kind, misc, size) = header(&bytes);
    if kind != PERF_RECORD_SAMPLE {
        return Err(SampleFault::Kind);
    }
    Ok(Some(Header { misc, size }))
}
