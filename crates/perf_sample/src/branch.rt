//! A branch, read field by field.

ghost use Rattle.std.specs.Prelude.{◌≡◌, ◌≤◌, [], All, IfOk};
ghost use Rattle.ctr_port.specs.Counts.{HasCause};
ghost use Rattle.perf_sample.specs.BranchRange.{IsBranch};
ghost use Rattle.perf_sample.specs.Reading.{is_read, TakesPlace, TakesNumber, TakesBranch};
ghost use Rattle.perf_sample.specs.Reading.{TakesBranches, TakesNr};

use crate::branches::Branches;
use crate::faults::{Place, SampleFault};
use crate::field::{Stop, read_field};
use crate::flags::{BRANCH_SIZE, FIRST_RESERVED};
use crate::layout::Layout;
use crate::limits::MAX_BRANCHES;
use crate::numbers::number;
use crate::sample::Branch;
use ctr_port::Source;

/// Reads the field of a place.
pub(crate) fn read_place<S: Source>(source: &mut S, place: Place) -> Result<[u8; 8], SampleFault>
    ensures takes { TakesPlace place (S.left source.old) (S.left source.new) result }
    ensures cause { HasCause is_read (S.faults source.old) (S.faults source.new) result }
{
    match read_field(source) {
        Ok(bytes) => Ok(bytes),
        Err(stop) => match stop {
            Stop::Ended(_) => Err(SampleFault::Short(place)),
            Stop::Failed => Err(SampleFault::ReadFault),
        },
    }
}

/// Reads a number in a field of its own.
pub(crate) fn read_place_number<S: Source>(source: &mut S, place: Place) -> Result<u64, SampleFault>
    ensures takes { TakesNumber place (S.left source.old) (S.left source.new) result }
    ensures cause { HasCause is_read (S.faults source.old) (S.faults source.new) result }
{
    let bytes = read_place(source, place)?;
    Ok(number(&bytes))
}

/// Reads the branch of this number.
#[inline(always)]
pub(crate) fn read_branch<S: Source>(source: &mut S, number: u16) -> Result<Branch, SampleFault>
    ensures takes { TakesBranch number (S.left source.old) (S.left source.new) result }
    ensures range { IfOk result IsBranch }
    ensures cause { HasCause is_read (S.faults source.old) (S.faults source.new) result }
{
    let from = read_place_number(source, Place::From(number))?;
    let to = read_place_number(source, Place::To(number))?;
    let flags = read_place_number(source, Place::Flags(number))?;
    if flags >= FIRST_RESERVED {
        return Err(SampleFault::FlagReserved(number));
    }
    Ok(Branch { from, to, flags })
}

/// Reads so many branches, youngest first, into a list that has none yet.
#[inline(always)]
pub(crate) fn read_branches<S: Source>(
    source: &mut S,
    nr: u16,
    branches: &mut Branches,
) -> Result<(), SampleFault>
    requires few { nr ≤ MAX_BRANCHES }
    requires none { branches.old ≡ [] }
    ensures takes { TakesBranches nr (S.left source.old) (S.left source.new) branches.new result }
    ensures range { All IsBranch branches.new }
    ensures cause { HasCause is_read (S.faults source.old) (S.faults source.new) result }
{
    for number in 0..nr {
        let branch = read_branch(source, number)?;
        branches.push(branch);
    }
    Ok(())
}

/// Reads how many branches a sample of this size has.
pub(crate) fn read_nr<S: Source>(
    source: &mut S,
    layout: Layout,
    size: u16,
) -> Result<u16, SampleFault>
    ensures takes { TakesNr layout size (S.left source.old) (S.left source.new) result }
    ensures cause { HasCause is_read (S.faults source.old) (S.faults source.new) result }
{
    let nr = read_place_number(source, Place::Nr)?;
    if nr > MAX_BRANCHES as u64 {
        return Err(SampleFault::Count);
    }
    let nr = nr as u16;
    if size != layout.fixed_len() + BRANCH_SIZE * nr {
        return Err(SampleFault::Size);
    }
    Ok(nr)
}
