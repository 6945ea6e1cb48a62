//! The part of a sample behind its fields: the number of branches, the hardware index and the
//! branches.

ghost use Rattle.std.specs.Prelude.{◌≡◌, ◌≤◌, [], OnOk};
ghost use Rattle.ctr_port.specs.Counts.{HasCause};
ghost use Rattle.perf_sample.specs.Layout.{Fits};
ghost use Rattle.perf_sample.specs.Back.{TakesBack};
ghost use Rattle.perf_sample.specs.Sample.{IsSample};
ghost use Rattle.perf_sample.specs.Reading.{is_read};

use crate::branch::{read_branches, read_nr};
use crate::faults::SampleFault;
use crate::front::read_hw_index;
use crate::layout::Layout;
use crate::sample::Sample;
use ctr_port::Source;

/// Reads the number of branches, the hardware index where the layout has it, and the branches of a
/// sample of this size, which has none yet.
pub fn read_back<S: Source>(
    source: &mut S,
    layout: Layout,
    size: u16,
    sample: &mut Sample,
) -> Result<(), SampleFault>
    requires fits { Fits layout sample.old }
    requires none { sample.old.branches ≡ [] }
    ensures takes { TakesBack layout size (S.left source.old) (S.left source.new) sample.old
        sample.new result }
    ensures range { IsSample sample.old → OnOk result (IsSample sample.new) }
    ensures cause { HasCause is_read (S.faults source.old) (S.faults source.new) result }
{
    let nr = read_nr(source, layout, size)?;
    read_hw_index(source, layout, sample)?;
    read_branches(source, nr, &mut sample.branches)?;
    Ok(())
}
