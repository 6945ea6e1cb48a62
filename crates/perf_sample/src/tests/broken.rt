//! Each break of a sample has its fault.

use super::samples::filled;
use super::sources::CountingSource;
use super::{EVERY_FIELD, EVERY_FIELD_AND_THE_INDEX, ONE_CALL, written};
use crate::{HW_INDEX, Layout, Place, SampleFault, SampleReader};
use ctr_port::{MemSource, Source};
use std::alloc::Global;
use std::process::Abort;
use std::test::*;

// The places of the fields are those of `perf_event.h`: the record PERF_RECORD_SAMPLE, and struct
// perf_branch_entry.

// A sample of which the byte at a place is replaced, and so many bytes are there: the fault that a
// reader answers.
type Wrong = (usize, u8, usize, SampleFault);

// A sample of which so many bytes are there.
type Cut = (usize, SampleFault);

const WRONG_IN_ONE_CALL: [Wrong; 15] = [
    (0, 1, 56, SampleFault::Kind), // PERF_RECORD_MMAP
    (3, 1, 56, SampleFault::Kind),
    (6, 0x40, 56, SampleFault::Size), // 64: no sample of the layout has this size
    (6, 0x50, 56, SampleFault::Size), // 80: the size of two branches, and there is one
    (6, 0x20, 56, SampleFault::Size), // 32: the size of none
    (6, 0x08, 56, SampleFault::Size), // 8: less than the fields have
    (7, 0x18, 56, SampleFault::Size), // 6200: 32 + 24·257
    (25, 1, 56, SampleFault::Count), // nr 257, whose size would be wrong too
    (31, 0x80, 56, SampleFault::Count), // nr 2^63 + 1
    (24, 2, 56, SampleFault::Size), // nr 2
    (24, 0, 56, SampleFault::Size), // nr 0
    (52, 2, 56, SampleFault::FlagReserved(0)), // bit 33
    (55, 0x80, 56, SampleFault::FlagReserved(0)), // bit 63
    (6, 0x40, 7, SampleFault::Header), // the input ends before the size is looked at
    (52, 2, 55, SampleFault::Short(Place::Flags(0))), // nor the flags
];

const CUTS_IN_ONE_CALL: [Cut; 6] = [
    (1, SampleFault::Header),
    (7, SampleFault::Header),
    (32, SampleFault::Short(Place::From(0))),
    (47, SampleFault::Short(Place::To(0))),
    (48, SampleFault::Short(Place::Flags(0))),
    (55, SampleFault::Short(Place::Flags(0))),
];

const WRONG_IN_EVERY_FIELD: [Wrong; 6] = [
    (68, 1, 71, SampleFault::Short(Place::Cpu)),
    (68, 1, 72, SampleFault::CpuReserved),
    (71, 0x80, 112, SampleFault::CpuReserved),
    (81, 1, 112, SampleFault::Count),
    (80, 2, 112, SampleFault::Size),
    (108, 3, 112, SampleFault::FlagReserved(0)), // bits 32 and 33
];

const CUTS_IN_EVERY_FIELD: [Cut; 26] = [
    (8, SampleFault::Short(Place::Identifier)),
    (15, SampleFault::Short(Place::Identifier)),
    (16, SampleFault::Short(Place::Ip)),
    (23, SampleFault::Short(Place::Ip)),
    (24, SampleFault::Short(Place::Tid)),
    (28, SampleFault::Short(Place::Tid)), // behind pid
    (31, SampleFault::Short(Place::Tid)),
    (32, SampleFault::Short(Place::Time)),
    (39, SampleFault::Short(Place::Time)),
    (40, SampleFault::Short(Place::Addr)),
    (47, SampleFault::Short(Place::Addr)),
    (48, SampleFault::Short(Place::Id)),
    (55, SampleFault::Short(Place::Id)),
    (56, SampleFault::Short(Place::StreamId)),
    (63, SampleFault::Short(Place::StreamId)),
    (64, SampleFault::Short(Place::Cpu)),
    (71, SampleFault::Short(Place::Cpu)),
    (72, SampleFault::Short(Place::Period)),
    (79, SampleFault::Short(Place::Period)),
    (80, SampleFault::Short(Place::Nr)),
    (87, SampleFault::Short(Place::Nr)),
    (88, SampleFault::Short(Place::From(0))),
    (95, SampleFault::Short(Place::From(0))),
    (96, SampleFault::Short(Place::To(0))),
    (104, SampleFault::Short(Place::Flags(0))),
    (111, SampleFault::Short(Place::Flags(0))),
];

// Branch 1 of two begins at 32 + 24 = 56.
const WRONG_IN_TWO_BRANCHES: [Wrong; 7] = [
    (76, 2, 80, SampleFault::FlagReserved(1)), // bit 33
    (79, 0x80, 80, SampleFault::FlagReserved(1)), // bit 63
    (76, 2, 79, SampleFault::Short(Place::Flags(1))), // the flags aren't whole
    (52, 2, 80, SampleFault::FlagReserved(0)), // of the first
    (52, 2, 79, SampleFault::FlagReserved(0)), // and the second is cut short
    (24, 1, 80, SampleFault::Size), // nr 1
    (24, 3, 80, SampleFault::Size), // nr 3
];

const CUTS_IN_TWO_BRANCHES: [Cut; 6] = [
    (56, SampleFault::Short(Place::From(1))),
    (63, SampleFault::Short(Place::From(1))),
    (64, SampleFault::Short(Place::To(1))),
    (71, SampleFault::Short(Place::To(1))),
    (72, SampleFault::Short(Place::Flags(1))),
    (79, SampleFault::Short(Place::Flags(1))),
];

// The last of 255 begins at 32 + 24·254 = 6128.
const WRONG_IN_255_BRANCHES: [Wrong; 7] = [
    (76, 2, 6152, SampleFault::FlagReserved(1)),
    (6148, 2, 6152, SampleFault::FlagReserved(254)), // bit 33
    (6151, 0x80, 6152, SampleFault::FlagReserved(254)), // bit 63
    (6148, 2, 6151, SampleFault::Short(Place::Flags(254))),
    (6, 0x20, 6152, SampleFault::Size), // 6176: the size of 256
    (24, 0xFE, 6152, SampleFault::Size), // nr 254
    (25, 1, 6152, SampleFault::Count), // nr 511
];

const CUTS_IN_255_BRANCHES: [Cut; 6] = [
    (6128, SampleFault::Short(Place::From(254))),
    (6135, SampleFault::Short(Place::From(254))),
    (6136, SampleFault::Short(Place::To(254))),
    (6143, SampleFault::Short(Place::To(254))),
    (6144, SampleFault::Short(Place::Flags(254))),
    (6151, SampleFault::Short(Place::Flags(254))),
];

// The last of 256 begins at 32 + 24·255 = 6152.
const WRONG_IN_256_BRANCHES: [Wrong; 9] = [
    (76, 2, 6176, SampleFault::FlagReserved(1)),
    (76, 2, 6175, SampleFault::FlagReserved(1)), // and the last is cut short
    (6172, 2, 6176, SampleFault::FlagReserved(255)), // bit 33
    (6175, 0x80, 6176, SampleFault::FlagReserved(255)), // bit 63
    (6172, 2, 6175, SampleFault::Short(Place::Flags(255))),
    (6, 0x08, 6176, SampleFault::Size), // 6152: the size of 255
    (6, 0x38, 6176, SampleFault::Size), // 6200: 32 + 24·257
    (24, 1, 6176, SampleFault::Count), // nr 257
    (25, 0, 6176, SampleFault::Size), // nr 0
];

const CUTS_IN_256_BRANCHES: [Cut; 6] = [
    (6152, SampleFault::Short(Place::From(255))),
    (6159, SampleFault::Short(Place::From(255))),
    (6160, SampleFault::Short(Place::To(255))),
    (6167, SampleFault::Short(Place::To(255))),
    (6168, SampleFault::Short(Place::Flags(255))),
    (6175, SampleFault::Short(Place::Flags(255))),
];

// Reads all samples that are left: how many there are, the fault after them if there is one, and
// the offset then.
fn read_all<S: Source>(
    reader: &mut SampleReader,
    source: &mut S,
) -> (u32, Option<SampleFault>, u64) {
    let mut samples = 0u32;
    for _ in 0..100 {
        match reader.next(source) {
            Ok(next) => {
                if next.is_none() {
                    break;
                }
                samples = samples.saturating_add(1);
            }
            Err(fault) => return (samples, Some(fault), reader.offset()),
        }
    }
    (samples, None, reader.offset())
}

// After so many samples, which have so many bytes together, there is a fault, and it is told again
// without a read.
fn refused(
    rt: &impl Abort,
    alloc: Global,
    layout: Layout,
    bytes: &[u8],
    samples: u32,
    offset: u64,
    fault: SampleFault,
) -> Result<(), Fail> {
    for piece in [1, 7, 4096] {
        let mut source = CountingSource {
            source: MemSource::new(alloc, bytes, &[piece], &[])?,
            reads: 0,
        };
        let mut reader = SampleReader::new(layout);
        let answer = read_all(&mut reader, &mut source);
        assert_eq!(rt; answer, (samples, Some(fault), offset), "{bytes:?}");
        let reads = source.reads;
        let again = read_all(&mut reader, &mut source);
        assert_eq!(rt; again, (0, Some(fault), offset), "{bytes:?}");
        assert_eq!(rt; source.reads, reads, "{bytes:?}");
    }
    Ok(())
}

// The bytes are refused as the first sample, and behind a whole one.
fn refused_anywhere(
    rt: &impl Abort,
    alloc: Global,
    layout: Layout,
    whole: &[u8],
    bytes: &[u8],
    fault: SampleFault,
) -> Result<(), Fail> {
    refused(rt, alloc, layout, bytes, 0, 0, fault)?;
    let mut text = Vec::from_slice(alloc, whole)?;
    text.extend_from_slice(bytes)?;
    refused(rt, alloc, layout, &text, 1, whole.len() as u64, fault)
}

fn each_is_refused(
    rt: &impl Abort,
    alloc: Global,
    layout: Layout,
    whole: &[u8],
    wrongs: &[Wrong],
    cuts: &[Cut],
) -> Result<(), Fail> {
    for (len, fault) in cuts {
        let front = whole.get(..*len).ok_or("a front")?;
        refused_anywhere(rt, alloc, layout, whole, front, *fault)?;
    }
    for (at, byte, len, fault) in wrongs {
        let mut bytes = Vec::from_slice(alloc, whole)?;
        bytes.truncate(*len);
        *bytes.get_mut(*at).ok_or("a byte")? = *byte;
        refused_anywhere(rt, alloc, layout, whole, &bytes, *fault)?;
    }
    Ok(())
}

#[test]
fn each_break_of_one_call_has_its_fault(rt: HostRuntime) -> Result<(), Fail> {
    each_is_refused(
        &rt,
        rt.alloc(),
        Layout::of(0x803).ok_or("a layout")?,
        &ONE_CALL,
        &WRONG_IN_ONE_CALL,
        &CUTS_IN_ONE_CALL,
    )
}

#[test]
fn each_field_is_refused_where_it_breaks(rt: HostRuntime) -> Result<(), Fail> {
    each_is_refused(
        &rt,
        rt.alloc(),
        Layout::of(0x10BCF).ok_or("a layout")?,
        &EVERY_FIELD,
        &WRONG_IN_EVERY_FIELD,
        &CUTS_IN_EVERY_FIELD,
    )
}

#[test]
fn a_record_with_a_wrong_type_and_a_wrong_size_is_no_sample(rt: HostRuntime) -> Result<(), Fail> {
    let layout = Layout::of(0x803).ok_or("a layout")?;
    for (kind, size) in [(1, 57), (0, 0), (10, 31), (1, 55)] {
        let mut bytes = ONE_CALL;
        bytes[0] = kind;
        bytes[6] = size;
        refused_anywhere(
            &rt,
            rt.alloc(),
            layout,
            &ONE_CALL,
            &bytes,
            SampleFault::Kind,
        )?;
    }
    Ok(())
}

// The hardware index stands at 88, behind the number of branches.
const WRONG_WITH_AN_INDEX: [Wrong; 6] = [
    (6, 0x70, 120, SampleFault::Size), // the size without it
    (6, 0x80, 120, SampleFault::Size), // 128
    (80, 0, 120, SampleFault::Size), // nr 0
    (81, 1, 120, SampleFault::Count), // nr 257
    (81, 1, 88, SampleFault::Count), // and the index is cut short
    (116, 2, 120, SampleFault::FlagReserved(0)), // bit 33
];

const CUTS_WITH_AN_INDEX: [Cut; 16] = [
    (72, SampleFault::Short(Place::Period)),
    (79, SampleFault::Short(Place::Period)),
    (80, SampleFault::Short(Place::Nr)),
    (87, SampleFault::Short(Place::Nr)),
    (88, SampleFault::Short(Place::HwIndex)),
    (89, SampleFault::Short(Place::HwIndex)),
    (90, SampleFault::Short(Place::HwIndex)),
    (91, SampleFault::Short(Place::HwIndex)),
    (92, SampleFault::Short(Place::HwIndex)),
    (93, SampleFault::Short(Place::HwIndex)),
    (94, SampleFault::Short(Place::HwIndex)),
    (95, SampleFault::Short(Place::HwIndex)),
    (96, SampleFault::Short(Place::From(0))),
    (103, SampleFault::Short(Place::From(0))),
    (104, SampleFault::Short(Place::To(0))),
    (119, SampleFault::Short(Place::Flags(0))),
];

#[test]
fn each_break_of_a_sample_with_an_index_has_its_fault(rt: HostRuntime) -> Result<(), Fail> {
    let layout = Layout::of(0x10BCF).ok_or("a layout")?;
    each_is_refused(
        &rt,
        rt.alloc(),
        layout.with_branch(HW_INDEX).ok_or("a layout")?,
        &EVERY_FIELD_AND_THE_INDEX,
        &WRONG_WITH_AN_INDEX,
        &CUTS_WITH_AN_INDEX,
    )
}

#[test]
fn an_index_is_cut_at_each_of_its_bytes_in_every_layout(rt: HostRuntime) -> Result<(), Fail> {
    for bits in 0..0x2_0000u64 {
        if let Some(layout) = Layout::of(bits) {
            let layout = layout.with_branch(HW_INDEX).ok_or("a layout")?;
            let out = written(layout, &filled(&rt, layout, 0))?;
            let len = out.len();
            // Without branches the index is the last field.
            for missing in 1..9 {
                let front = out
                    .as_slice()
                    .get(..len.saturating_sub(missing))
                    .ok_or("a front")?;
                let mut source = MemSource::new(rt.alloc(), front, &[], &[])?;
                let next = SampleReader::new(layout).next(&mut source);
                let fault = next.err().ok_or("a fault")?;
                assert_eq!(rt; fault, SampleFault::Short(Place::HwIndex), "at {bits}");
            }
        }
    }
    Ok(())
}

// The same of a sample with ip, pid, tid and so many branches.
fn each_is_refused_among(
    rt: &impl Abort,
    alloc: Global,
    branches: u16,
    wrongs: &[Wrong],
    cuts: &[Cut],
) -> Result<(), Fail> {
    let layout = Layout::of(0x803).ok_or("a layout")?;
    let out = written(layout, &filled(rt, layout, branches))?;
    each_is_refused(rt, alloc, layout, out.as_slice(), wrongs, cuts)
}

#[test]
fn a_break_in_the_second_branch_names_it(rt: HostRuntime) -> Result<(), Fail> {
    each_is_refused_among(
        &rt,
        rt.alloc(),
        2,
        &WRONG_IN_TWO_BRANCHES,
        &CUTS_IN_TWO_BRANCHES,
    )
}

#[test]
fn a_break_in_the_last_of_255_branches_names_it(rt: HostRuntime) -> Result<(), Fail> {
    each_is_refused_among(
        &rt,
        rt.alloc(),
        255,
        &WRONG_IN_255_BRANCHES,
        &CUTS_IN_255_BRANCHES,
    )
}

#[test]
fn a_break_in_the_last_of_256_branches_names_it(rt: HostRuntime) -> Result<(), Fail> {
    each_is_refused_among(
        &rt,
        rt.alloc(),
        256,
        &WRONG_IN_256_BRANCHES,
        &CUTS_IN_256_BRANCHES,
    )
}
