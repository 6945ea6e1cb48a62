//! The fields between the header and the branches, each read where the layout has it.

ghost use Rattle.std.specs.Prelude.{◌≡◌, ◌≤◌, [], true, OnOk};
ghost use Rattle.perf_sample.specs.Reading.{is_read};
ghost use Rattle.ctr_port.specs.Counts.{HasCause};
ghost use Rattle.perf_sample.specs.Layout.{has, Fits};
ghost use Rattle.perf_sample.specs.Sample.{IsSample};
ghost use Rattle.perf_sample.specs.Front.{PutsIn, TakesRow, TakesFront, TakesHwIndex};

use crate::branch::read_place;
use crate::faults::{Place, SampleFault};
use crate::fields::{BEFORE_NR, fields};
use crate::layout::Layout;
use crate::numbers::{halves, number};
use crate::sample::Sample;
use ctr_port::Source;

macro_rules! put {
    (whole $sample:ident $bytes:ident $name:ident) => {
        $sample.$name = number($bytes)
    };
    (halves $sample:ident $bytes:ident $low:ident $high:ident) => {{
        let (low, high) = halves($bytes);
        $sample.$low = low;
        $sample.$high = high;
    }};
    (lower $sample:ident $bytes:ident $name:ident) => {{
        let (low, reserved) = halves($bytes);
        if reserved != 0 {
            return Err(SampleFault::CpuReserved);
        }
        $sample.$name = low;
    }};
}

macro_rules! put_field {
    (
        ($sample:ident $place:ident $bytes:ident)
        $($field:ident $bit:literal $form:ident $($name:ident)+;)*
    ) => {
        match $place {
            $(Place::$field => put!($form $sample $bytes $($name)+),)*
            Place::HwIndex => put!(whole $sample $bytes hw_index),
            Place::Nr | Place::From(_) | Place::To(_) | Place::Flags(_) => {}
        }
    };
}

// Puts the bytes of a field into the sample. The number of branches and the fields of a branch have
// no place of their own in it.
fn put_in(sample: &mut Sample, place: Place, bytes: &[u8; 8]) -> Result<(), SampleFault>
    ensures puts { PutsIn place bytes.now sample.old sample.new result }
    ensures range { IsSample sample.old → IsSample sample.new }
{
    fields!(put_field, sample place bytes);
    Ok(())
}

// Reads a field into the sample.
#[inline(always)]
fn read_row<S: Source>(source: &mut S, place: Place, sample: &mut Sample) -> Result<(), SampleFault>
    ensures takes { TakesRow place (S.left source.old) (S.left source.new) sample.old sample.new
        result }
    ensures range { IsSample sample.old → IsSample sample.new }
    ensures cause { HasCause is_read (S.faults source.old) (S.faults source.new) result }
{
    let bytes = read_place(source, place)?;
    put_in(sample, place, &bytes)
}

/// Reads the fields before the number of branches into a sample that has none of them yet, each
/// where the layout has it.
pub fn read_front<S: Source>(
    source: &mut S,
    layout: Layout,
    sample: &mut Sample,
) -> Result<(), SampleFault>
    requires { Fits layout sample.old }
    ensures takes { TakesFront layout (S.left source.old) (S.left source.new) sample.old sample.new
        result }
    ensures range { IsSample sample.old → IsSample sample.new }
    ensures cause { HasCause is_read (S.faults source.old) (S.faults source.new) result }
{
    for place in BEFORE_NR {
        if layout.has(place) {
            read_row(source, place, sample)?;
        }
    }
    Ok(())
}

/// Reads the hardware index, where the layout has it.
pub(crate) fn read_hw_index<S: Source>(
    source: &mut S,
    layout: Layout,
    sample: &mut Sample,
) -> Result<(), SampleFault>
    requires { Fits layout sample.old }
    ensures takes { TakesHwIndex layout (S.left source.old) (S.left source.new) sample.old
        sample.new result }
    ensures range { IsSample sample.old → IsSample sample.new }
    ensures cause { HasCause is_read (S.faults source.old) (S.faults source.new) result }
{
    if layout.has(Place::HwIndex) {
        read_row(source, Place::HwIndex, sample)?;
    }
    Ok(())
}
