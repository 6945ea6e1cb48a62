//! What a reader answers call by call: offsets, faults told again, and the number of samples.

use super::sources::{CountingSource, SmallestSamples};
use super::{EVERY_FIELD, EVERY_FIELD_AND_THE_INDEX, ONE_CALL};
use crate::{HW_INDEX, Layout, SampleFault, SampleReader};
use ctr_port::{Got, MemSource, Source};
use std::alloc::Global;
use std::process::Abort;
use std::test::*;

// The next answer, as how many branches the sample has, and the offset after it.
pub(crate) fn step<S: Source>(
    reader: &mut SampleReader,
    source: &mut S,
) -> (Result<Option<usize>, SampleFault>, u64) {
    let answer = match reader.next(source) {
        Ok(next) => Ok(next.map(|sample| sample.branches.items().len())),
        Err(fault) => Err(fault),
    };
    (answer, reader.offset())
}

#[test]
fn the_offset_is_where_the_sample_last_begun_stands(rt: HostRuntime) -> Result<(), Fail> {
    let layout = Layout::of(0x803).ok_or("a layout")?;
    let mut bytes = Vec::from_slice(rt.alloc(), &ONE_CALL)?;
    bytes.extend_from_slice(&ONE_CALL)?;
    let mut source = MemSource::new(rt.alloc(), &bytes, &[], &[])?;
    let mut reader = SampleReader::new(layout);
    assert_eq!(rt; reader.offset(), 0, "before the first call");
    assert_eq!(rt; step(&mut reader, &mut source), (Ok(Some(1)), 0));
    assert_eq!(rt; step(&mut reader, &mut source), (Ok(Some(1)), 56));
    // No sample is begun where the input ends.
    assert_eq!(rt; step(&mut reader, &mut source), (Ok(None), 56));
    assert_eq!(rt; step(&mut reader, &mut source), (Ok(None), 56));
    Ok(())
}

#[test]
fn a_fault_is_told_again_without_a_read(rt: HostRuntime) -> Result<(), Fail> {
    let layout = Layout::of(0x803).ok_or("a layout")?;
    let mut bytes = Vec::from_slice(rt.alloc(), &ONE_CALL)?;
    bytes.extend_from_slice(&ONE_CALL)?;
    bytes[62] = 0x40; // size 64
    // A sample is seven reads, and the header of the next one the eighth, number 7. Number 8 is to
    // fail.
    let mut source = MemSource::new(rt.alloc(), &bytes, &[], &[8])?;
    let mut reader = SampleReader::new(layout);
    assert_eq!(rt; step(&mut reader, &mut source), (Ok(Some(1)), 0));
    assert_eq!(rt;
        step(&mut reader, &mut source),
        (Err(SampleFault::Size), 56)
    );
    assert_eq!(rt;
        step(&mut reader, &mut source),
        (Err(SampleFault::Size), 56)
    );
    let mut field = [0; 8];
    assert_eq!(rt; source.read(&mut field), Got::Failed, "read number 8");
    assert_eq!(rt; source.read(&mut field), Got::Bytes(8));
    assert_eq!(rt; field, [0x08, 0, 0, 0x80, 0, 0, 0, 0], "ip of the second");
    Ok(())
}

// Reads a sample of one branch, each byte by a read of its own, and one more read that looks past
// the end. Each of these reads fails in turn: the fault is answered, and again without a read.
fn fails_at_each_read(
    rt: &impl Abort,
    alloc: Global,
    layout: Layout,
    bytes: &[u8],
) -> Result<(), Fail> {
    let len = bytes.len() as u64;
    for call in 0..len.saturating_add(1) {
        let mut source = CountingSource {
            source: MemSource::new(alloc, bytes, &[1], &[call])?,
            reads: 0,
        };
        let mut reader = SampleReader::new(layout);
        let mut wanted = (Err(SampleFault::ReadFault), 0);
        if call == len {
            assert_eq!(rt; step(&mut reader, &mut source), (Ok(Some(1)), 0));
            wanted.1 = len;
        }
        assert_eq!(rt; step(&mut reader, &mut source), wanted, "at {call}");
        assert_eq!(rt; step(&mut reader, &mut source), wanted, "at {call}");
        assert_eq!(rt; source.reads, call.saturating_add(1));
    }
    Ok(())
}

#[test]
fn a_failing_read_is_told_and_told_again(rt: HostRuntime) -> Result<(), Fail> {
    let layout = Layout::of(0x803).ok_or("a layout")?;
    fails_at_each_read(&rt, rt.alloc(), layout, &ONE_CALL)?;
    let every = Layout::of(0x10BCF).ok_or("a layout")?;
    fails_at_each_read(&rt, rt.alloc(), every, &EVERY_FIELD)?;
    let indexed = every.with_branch(HW_INDEX).ok_or("a layout")?;
    fails_at_each_read(&rt, rt.alloc(), indexed, &EVERY_FIELD_AND_THE_INDEX)
}

// A reader that was given 2^24 samples, each of 16 bytes in two reads.
fn full(rt: &impl Abort, source: &mut SmallestSamples) -> Result<SampleReader, Fail> {
    let layout = Layout::of(0x800).ok_or("a layout")?;
    let mut reader = SampleReader::new(layout);
    for number in 0..0x100_0000u64 {
        let wanted = (Ok(Some(0)), 16 * number);
        assert_eq!(rt; step(&mut reader, source), wanted);
    }
    Ok(reader)
}

#[test]
fn the_input_may_end_after_two_to_the_24_samples(rt: HostRuntime) -> Result<(), Fail> {
    let mut source = SmallestSamples {
        fields: 0x200_0000,
        byte_follows: false,
        reads: 0,
    };
    let mut reader = full(&rt, &mut source)?;
    assert_eq!(rt; step(&mut reader, &mut source), (Ok(None), 0xFFF_FFF0));
    assert_eq!(rt; step(&mut reader, &mut source), (Ok(None), 0xFFF_FFF0));
    assert_eq!(rt; source.reads, 0x200_0002);
    Ok(())
}

#[test]
fn a_byte_behind_two_to_the_24_samples_is_too_many(rt: HostRuntime) -> Result<(), Fail> {
    let mut source = SmallestSamples {
        fields: 0x200_0000,
        byte_follows: true,
        reads: 0,
    };
    let mut reader = full(&rt, &mut source)?;
    let many = (Err(SampleFault::TooMany), 0x1000_0000);
    assert_eq!(rt; step(&mut reader, &mut source), many);
    assert_eq!(rt; step(&mut reader, &mut source), many);
    assert_eq!(rt; source.reads, 0x200_0001);
    Ok(())
}
