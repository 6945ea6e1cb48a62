//! A whole sample, read from left to right.

ghost use Rattle.std.specs.Prelude.{◌≡◌, ◌≤◌, IfOk, IfSome};
ghost use Rattle.ctr_port.specs.Counts.{HasCause};
ghost use Rattle.perf_sample.specs.Format.{answer_of, TakesRecord};
ghost use Rattle.perf_sample.specs.Sample.{IsSample};
ghost use Rattle.perf_sample.specs.Reading.{is_read, sample_format};

use crate::back::read_back;
use crate::faults::SampleFault;
use crate::front::read_front;
use crate::header::read_header;
use crate::layout::Layout;
use crate::sample::Sample;
use ctr_port::Source;

/// Reads a sample into a room that may hold another; false where the input ends in place of it.
/// Only after `Ok(true)` does the room hold a sample.
pub(crate) fn read_sample<S: Source>(
    source: &mut S,
    layout: Layout,
    sample: &mut Sample,
) -> Result<bool, SampleFault>
    ensures takes { TakesRecord (sample_format layout) (S.left source.old) (S.left source.new)
        (answer_of result sample.new) }
    ensures range { IfOk (answer_of result sample.new) (λ next. IfSome next IsSample) }
    ensures cause { HasCause is_read (S.faults source.old) (S.faults source.new) result }
{
    let header = match read_header(source)? {
        Some(header) => header,
        None => return Ok(false),
    };
    if !layout.is_size(header.size) {
        return Err(SampleFault::Size);
    }
    sample.clear();
    sample.misc = header.misc;
    read_front(source, layout, sample)?;
    read_back(source, layout, header.size, sample)?;
    Ok(true)
}
