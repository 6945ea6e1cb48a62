//! What was written is read.

ghost use Rattle.std.specs.Prelude.{◌<◌};

use super::samples::{are_same, filled};
use super::{EVERY_FIELD, ONE_CALL, written};
use crate::{Branch, Branches, HW_INDEX, Layout, Sample, SampleFault, SampleReader};
use ctr_port::MemSource;
use std::alloc::Global;
use std::process::Abort;
use std::test::*;

// Samples with so many branches each are written one after another and read back, in pieces of this
// length.
fn come_back(
    rt: &impl Abort,
    alloc: Global,
    layout: Layout,
    counts: &[u16],
    piece: usize,
) -> Result<(), Fail>
    requires { 0 < piece }
{
    let mut bytes = Vec::new(alloc);
    for count in counts {
        let out = written(layout, &filled(rt, layout, *count))?;
        bytes.extend_from_slice(out.as_slice())?;
    }
    let mut source = MemSource::new(alloc, &bytes, &[piece], &[])?;
    let mut reader = SampleReader::new(layout);
    for count in counts {
        let next = reader.next(&mut source).ok().ok_or("no fault")?;
        let sample = next.ok_or("a sample")?;
        are_same(rt, &filled(rt, layout, *count), &sample, layout.bits());
    }
    let end = reader.next(&mut source).ok().ok_or("no fault")?;
    assert!(rt; end.is_none(), "at {}", layout.bits());
    Ok(())
}

// Samples with so many branches each, written one after another, are read into one room, in which
// nothing of the sample before is left.
fn come_into_one_room(
    rt: &impl Abort,
    alloc: Global,
    layout: Layout,
    counts: &[u16],
) -> Result<(), Fail> {
    let mut bytes = Vec::new(alloc);
    for count in counts {
        let out = written(layout, &filled(rt, layout, *count))?;
        bytes.extend_from_slice(out.as_slice())?;
    }
    let mut source = MemSource::new(alloc, &bytes, &[], &[])?;
    let mut reader = SampleReader::new(layout);
    let full = Layout::of(0x10BCF).ok_or("a layout")?;
    let mut room = filled(rt, full.with_branch(HW_INDEX).ok_or("a layout")?, 256);
    for count in counts {
        assert_eq!(rt; reader.read_into(&mut source, &mut room), Ok(true));
        are_same(rt, &filled(rt, layout, *count), &room, layout.bits());
    }
    assert_eq!(rt; reader.read_into(&mut source, &mut room), Ok(false));
    Ok(())
}

#[test]
fn samples_come_one_after_another_into_one_room(rt: HostRuntime) -> Result<(), Fail> {
    for bits in [0x800, 0x803, 0x883, 0x904, 0x10BCF] {
        let layout = Layout::of(bits).ok_or("a layout")?;
        come_into_one_room(&rt, rt.alloc(), layout, &[256, 0, 16, 1])?;
    }
    Ok(())
}

#[test]
fn a_failed_read_into_a_room_is_told_again(rt: HostRuntime) -> Result<(), Fail> {
    let layout = Layout::of(0x803).ok_or("a layout")?;
    let mut source = MemSource::new(rt.alloc(), &ONE_CALL, &[], &[8])?;
    let mut reader = SampleReader::new(layout);
    let mut room = Sample::blank();
    assert_eq!(rt; reader.read_into(&mut source, &mut room), Ok(true));
    assert_eq!(rt; room.branches.items().len(), 1);
    // The header of a second sample is looked for by read number 7, which finds the end; read
    // number 8 fails.
    assert_eq!(rt; reader.read_into(&mut source, &mut room), Ok(false));
    let failed = Err(SampleFault::ReadFault);
    assert_eq!(rt; reader.read_into(&mut source, &mut room), failed);
    assert_eq!(rt; reader.read_into(&mut source, &mut room), failed);
    Ok(())
}

#[test]
fn samples_of_each_layout_come_back(rt: HostRuntime) -> Result<(), Fail> {
    for bits in 0..0x2_0000u64 {
        if let Some(layout) = Layout::of(bits) {
            let indexed = layout.with_branch(HW_INDEX).ok_or("a layout")?;
            for piece in [1, 2, 7, 4095, 4096, 4097] {
                come_back(&rt, rt.alloc(), layout, &[2, 0, 1], piece)?;
                come_back(&rt, rt.alloc(), indexed, &[2, 0, 1], piece)?;
            }
        }
    }
    Ok(())
}

#[test]
fn up_to_two_hundred_and_fifty_six_branches_come_back(rt: HostRuntime) -> Result<(), Fail> {
    for bits in [0x800, 0x803, 0x883, 0x904, 0x10BCF] {
        let layout = Layout::of(bits).ok_or("a layout")?;
        let indexed = layout.with_branch(HW_INDEX).ok_or("a layout")?;
        for piece in [1, 2, 7, 4095, 4096, 4097] {
            come_back(&rt, rt.alloc(), layout, &[256, 16, 256, 255], piece)?;
            come_back(&rt, rt.alloc(), indexed, &[256, 16, 256, 255], piece)?;
        }
    }
    Ok(())
}

#[test]
fn every_field_is_read_from_its_place(rt: HostRuntime) -> Result<(), Fail> {
    let layout = Layout::of(0x10BCF).ok_or("a layout")?;
    let mut source = MemSource::new(rt.alloc(), &EVERY_FIELD, &[], &[])?;
    let next = SampleReader::new(layout).next(&mut source);
    let sample = next.ok().ok_or("no fault")?.ok_or("a sample")?;
    let mut branches = Branches::new();
    branches.push(Branch {
        from: 0xAB00_0000_0000_001B,
        to: 0xAC00_0000_0000_001C,
        flags: 0x1_0000_0001,
    });
    let wanted = Sample {
        misc: 0x0102,
        identifier: 0xA100_0000_0000_0011,
        ip: 0xA200_0000_0000_0012,
        pid: 0xA300_0013,
        tid: 0xA400_0014,
        time: 0xA500_0000_0000_0015,
        addr: 0xA600_0000_0000_0016,
        id: 0xA700_0000_0000_0017,
        stream_id: 0xA800_0000_0000_0018,
        cpu: 0xA900_0019,
        period: 0xAA00_0000_0000_001A,
        hw_index: 0,
        branches,
    };
    are_same(&rt, &wanted, &sample, 0x10BCF);
    Ok(())
}
