ghost use Rattle.std.specs.Prelude.{◌≡◌, []};

mod broken;
mod call_by_call;
mod parts;
mod samples;
mod sources;
mod written_and_read;

use super::*;
use arrayvec::ArrayVec;
use std::test::*;

// The bytes of each sample are those of `perf_event.h`: the record PERF_RECORD_SAMPLE, and struct
// perf_branch_entry.

// A call at 80000000 to 80000008, recorded by thread 1 of process 1 with ip, pid, tid and the
// branch stack.
pub(crate) const ONE_CALL: [u8; 56] = [
    0x09, 0x00, 0x00, 0x00, // type: PERF_RECORD_SAMPLE
    0x03, 0x00, // misc: PERF_RECORD_MISC_HYPERVISOR
    0x38, 0x00, // size: 56
    0x08, 0x00, 0x00, 0x80, 0x00, 0x00, 0x00, 0x00, // ip
    0x01, 0x00, 0x00, 0x00, 0x01, 0x00, 0x00, 0x00, // pid, tid
    0x01, 0x00, 0x00, 0x00, 0x00, 0x00, 0x00, 0x00, // one branch
    0x00, 0x00, 0x00, 0x80, 0x00, 0x00, 0x00, 0x00, // from
    0x08, 0x00, 0x00, 0x80, 0x00, 0x00, 0x00, 0x00, // to
    0x00, 0x00, 0x40, 0x00, 0x00, 0x00, 0x00, 0x00, // flags: type call
];

// Every field in its place, with a value of its own; a branch with the highest flag that isn't
// reserved.
pub(crate) const EVERY_FIELD: [u8; 112] = [
    0x09, 0x00, 0x00, 0x00, 0x02, 0x01, 0x70, 0x00, // misc 0x102, size 112
    0x11, 0x00, 0x00, 0x00, 0x00, 0x00, 0x00, 0xA1, // identifier
    0x12, 0x00, 0x00, 0x00, 0x00, 0x00, 0x00, 0xA2, // ip
    0x13, 0x00, 0x00, 0xA3, 0x14, 0x00, 0x00, 0xA4, // pid, tid
    0x15, 0x00, 0x00, 0x00, 0x00, 0x00, 0x00, 0xA5, // time
    0x16, 0x00, 0x00, 0x00, 0x00, 0x00, 0x00, 0xA6, // addr
    0x17, 0x00, 0x00, 0x00, 0x00, 0x00, 0x00, 0xA7, // id
    0x18, 0x00, 0x00, 0x00, 0x00, 0x00, 0x00, 0xA8, // stream_id
    0x19, 0x00, 0x00, 0xA9, 0x00, 0x00, 0x00, 0x00, // cpu, and its reserved half
    0x1A, 0x00, 0x00, 0x00, 0x00, 0x00, 0x00, 0xAA, // period
    0x01, 0x00, 0x00, 0x00, 0x00, 0x00, 0x00, 0x00, // one branch
    0x1B, 0x00, 0x00, 0x00, 0x00, 0x00, 0x00, 0xAB, // from
    0x1C, 0x00, 0x00, 0x00, 0x00, 0x00, 0x00, 0xAC, // to
    0x01, 0x00, 0x00, 0x00, 0x01, 0x00, 0x00, 0x00, // flags: bits 0 and 32
];

// The same with the hardware index behind the number of branches.
pub(crate) const EVERY_FIELD_AND_THE_INDEX: [u8; 120] = [
    0x09, 0x00, 0x00, 0x00, 0x02, 0x01, 0x78, 0x00, // misc 0x102, size 120
    0x11, 0x00, 0x00, 0x00, 0x00, 0x00, 0x00, 0xA1, // identifier
    0x12, 0x00, 0x00, 0x00, 0x00, 0x00, 0x00, 0xA2, // ip
    0x13, 0x00, 0x00, 0xA3, 0x14, 0x00, 0x00, 0xA4, // pid, tid
    0x15, 0x00, 0x00, 0x00, 0x00, 0x00, 0x00, 0xA5, // time
    0x16, 0x00, 0x00, 0x00, 0x00, 0x00, 0x00, 0xA6, // addr
    0x17, 0x00, 0x00, 0x00, 0x00, 0x00, 0x00, 0xA7, // id
    0x18, 0x00, 0x00, 0x00, 0x00, 0x00, 0x00, 0xA8, // stream_id
    0x19, 0x00, 0x00, 0xA9, 0x00, 0x00, 0x00, 0x00, // cpu, and its reserved half
    0x1A, 0x00, 0x00, 0x00, 0x00, 0x00, 0x00, 0xAA, // period
    0x01, 0x00, 0x00, 0x00, 0x00, 0x00, 0x00, 0x00, // one branch
    0x1D, 0x00, 0x00, 0x00, 0x00, 0x00, 0x00, 0xAD, // the hardware index
    0x1B, 0x00, 0x00, 0x00, 0x00, 0x00, 0x00, 0xAB, // from
    0x1C, 0x00, 0x00, 0x00, 0x00, 0x00, 0x00, 0xAC, // to
    0x01, 0x00, 0x00, 0x00, 0x01, 0x00, 0x00, 0x00, // flags: bits 0 and 32
];

// A sample of thread 1 of process 1 in machine mode, without branches.
fn plain() -> Sample
    ensures { result.branches ≡ [] }
{
    let mut sample = Sample::blank();
    sample.misc = MISC_HYPERVISOR;
    sample.ip = 0x8000_0008;
    sample.pid = 1;
    sample.tid = 1;
    sample
}

pub(crate) fn written(layout: Layout, sample: &Sample) -> Result<Buffer, Fail> {
    if !layout.fits(sample) {
        return Err("the layout does not fit".into());
    }
    let mut out = ArrayVec::new();
    encode(layout, sample, &mut out);
    Ok(out)
}

#[test]
fn one_call_is_written_as_fifty_six_bytes(rt: HostRuntime) -> Result<(), Fail> {
    let layout = Layout::of(0x803).ok_or("a layout")?;
    let mut sample = plain();
    sample.branches.push(Branch {
        from: 0x8000_0000,
        to: 0x8000_0008,
        flags: 4 << 20,
    });
    let out = written(layout, &sample)?;
    assert_eq!(rt; out.as_slice(), ONE_CALL.as_slice());
    Ok(())
}

#[test]
fn every_field_has_its_place(rt: HostRuntime) -> Result<(), Fail> {
    let layout = Layout::of(0x10BCF).ok_or("a layout")?;
    let mut branches = Branches::new();
    branches.push(Branch {
        from: 0xAB00_0000_0000_001B,
        to: 0xAC00_0000_0000_001C,
        flags: 0x1_0000_0001,
    });
    let sample = Sample {
        misc: 0x0102,
        identifier: 0xA100_0000_0000_0011,
        ip: 0xA200_0000_0000_0012,
        pid: 0xA300_0013,
        tid: 0xA400_0014,
        time: 0xA500_0000_0000_0015,
        addr: 0xA600_0000_0000_0016,
        id: 0xA700_0000_0000_0017,
        stream_id: 0xA800_0000_0000_0018,
        cpu: 0xA900_0019,
        period: 0xAA00_0000_0000_001A,
        hw_index: 0,
        branches,
    };
    let out = written(layout, &sample)?;
    assert_eq!(rt; out.as_slice(), EVERY_FIELD.as_slice());
    let mut indexed = sample;
    indexed.hw_index = 0xAD00_0000_0000_001D;
    let layout = layout.with_branch(HW_INDEX).ok_or("a layout")?;
    let out = written(layout, &indexed)?;
    assert_eq!(rt; out.as_slice(), EVERY_FIELD_AND_THE_INDEX.as_slice());
    Ok(())
}

#[test]
fn the_index_follows_the_number_of_branches(rt: HostRuntime) -> Result<(), Fail> {
    let layout = Layout::of(0x803).ok_or("a layout")?;
    let layout = layout.with_branch(HW_INDEX).ok_or("a layout")?;
    let mut sample = plain();
    sample.branches.push(Branch {
        from: 0x8000_0000,
        to: 0x8000_0008,
        flags: 4 << 20,
    });
    let one = [
        0x09, 0, 0, 0, 0x03, 0, 0x40, 0, // size 64
        0x08, 0, 0, 0x80, 0, 0, 0, 0, // ip
        0x01, 0, 0, 0, 0x01, 0, 0, 0, // pid, tid
        0x01, 0, 0, 0, 0, 0, 0, 0, // one branch
        0, 0, 0, 0, 0, 0, 0, 0, // the hardware index is 0
        0, 0, 0, 0x80, 0, 0, 0, 0, // from
        0x08, 0, 0, 0x80, 0, 0, 0, 0, // to
        0, 0, 0x40, 0, 0, 0, 0, 0, // flags: type call
    ];
    assert_eq!(rt; written(layout, &sample)?.as_slice(), one.as_slice());
    let mut sample = plain();
    sample.ip = 0x8000_0000;
    sample.hw_index = u64::MAX;
    let none = [
        0x09, 0, 0, 0, 0x03, 0, 0x28, 0, // size 40
        0, 0, 0, 0x80, 0, 0, 0, 0, // ip
        0x01, 0, 0, 0, 0x01, 0, 0, 0, // pid, tid
        0, 0, 0, 0, 0, 0, 0, 0, // no branch
        0xFF, 0xFF, 0xFF, 0xFF, 0xFF, 0xFF, 0xFF, 0xFF, // the hardware index
    ];
    assert_eq!(rt; written(layout, &sample)?.as_slice(), none.as_slice());
    Ok(())
}

#[test]
fn the_longest_sample_has_6240_bytes(rt: HostRuntime) -> Result<(), Fail> {
    let layout = Layout::of(0x10BCF).ok_or("a layout")?;
    let layout = layout.with_branch(HW_INDEX).ok_or("a layout")?;
    let mut sample = plain();
    for _ in 0..256u16 {
        assert!(rt; sample.branches.items().len() < 256);
        sample.branches.push(Branch::default());
    }
    assert_eq!(rt; written(layout, &sample)?.len(), 6240);
    Ok(())
}

#[test]
fn a_branch_word_is_0_or_the_hardware_index(rt: HostRuntime) -> Result<(), Fail> {
    let layout = Layout::of(0x803).ok_or("a layout")?;
    assert_eq!(rt; layout.branch_bits(), 0);
    for (bits, is_word) in [
        (0, true),
        (0x20000, true),
        (1, false), // PERF_SAMPLE_BRANCH_USER
        (8, false), // PERF_SAMPLE_BRANCH_ANY
        (0x20001, false),
        (0x40000, false), // PERF_SAMPLE_BRANCH_PRIV_SAVE
        (0x8000_0000_0002_0000, false),
    ] {
        let other = layout.with_branch(bits);
        assert_eq!(rt; other.is_some(), is_word, "at {bits}");
        if let Some(other) = other {
            assert_eq!(rt; other.bits(), 0x803, "at {bits}");
            assert_eq!(rt; other.branch_bits(), bits, "at {bits}");
            let back = other.with_branch(0).ok_or("a layout")?;
            assert_eq!(rt; back, layout, "at {bits}");
        }
    }
    Ok(())
}

#[test]
fn an_index_fits_where_the_branch_word_has_it(rt: HostRuntime) -> Result<(), Fail> {
    let layout = Layout::of(0x803).ok_or("a layout")?;
    let mut sample = plain();
    sample.hw_index = 1;
    assert!(rt; !layout.fits(&sample));
    assert!(rt;
        layout
            .with_branch(HW_INDEX)
            .ok_or("a layout")?
            .fits(&sample)
    );
    assert!(rt; !layout.with_branch(0).ok_or("a layout")?.fits(&sample));
    Ok(())
}

#[test]
fn sixteen_jumps_are_written_youngest_first(rt: HostRuntime) -> Result<(), Fail> {
    let layout = Layout::of(0x803).ok_or("a layout")?;
    let mut sample = plain();
    for age in 0..16u64 {
        assert!(rt; sample.branches.items().len() < 256);
        sample.branches.push(Branch {
            from: 0x8000_0040 - 4 * age,
            to: 0x8000_0044 - 4 * age,
            flags: 2 << 20,
        });
    }
    let out = written(layout, &sample)?;
    let bytes = out.as_slice();
    assert_eq!(rt; bytes.len(), 416);
    assert_eq!(rt; &bytes[6..8], [0xA0, 0x01].as_slice()); // size 416
    assert_eq!(rt; &bytes[24..32], [16, 0, 0, 0, 0, 0, 0, 0].as_slice()); // the number of branches
    assert_eq!(rt; &bytes[32..36], [0x40, 0, 0, 0x80].as_slice()); // from of the youngest
    assert_eq!(rt; &bytes[392..396], [0x04, 0, 0, 0x80].as_slice()); // from of the oldest
    assert_eq!(rt; &bytes[400..404], [0x08, 0, 0, 0x80].as_slice()); // to of the oldest
    assert_eq!(rt; &bytes[408..416], [0, 0, 0x20, 0, 0, 0, 0, 0].as_slice()); // flags of the oldest
    Ok(())
}

#[test]
fn each_layout_has_its_length(rt: HostRuntime) -> Result<(), Fail> {
    let mut layouts = 0u32;
    for bits in 0..0x2_0000u64 {
        if let Some(layout) = Layout::of(bits) {
            layouts = layouts.saturating_add(1);
            let mut sample = plain();
            sample.ip = 0;
            sample.pid = 0;
            sample.tid = 0;
            let out = written(layout, &sample)?;
            // The header, eight bytes a field, and the number of branches among them.
            assert_eq!(rt; out.len(), 8 + 8 * bits.count_ones() as usize, "at {bits}");
            let layout = layout.with_branch(HW_INDEX).ok_or("a layout")?;
            let out = written(layout, &sample)?;
            assert_eq!(rt; out.len(), 16 + 8 * bits.count_ones() as usize, "at {bits}");
        }
    }
    // Nine fields may be left out.
    assert_eq!(rt; layouts, 512);
    Ok(())
}

#[test]
fn a_layout_has_known_bits_and_the_branch_stack(rt: HostRuntime) {
    for (bits, is_layout) in [
        (0x803, true), // ip, pid with tid, branch stack
        (0x800, true), // the branch stack alone
        (0x10BCF, true), // all
        (0x003, false), // without the branch stack
        (0x813, false), // PERF_SAMPLE_READ
        (0x823, false), // PERF_SAMPLE_CALLCHAIN
        (0x20803, false), // PERF_SAMPLE_TRANSACTION
        (0x8000_0000_0000_0803, false), // a bit that has no name
    ] {
        assert_eq!(rt; Layout::of(bits).is_some(), is_layout, "at {bits}");
    }
}

#[test]
fn a_layout_fits_where_nothing_is_left_out(rt: HostRuntime) -> Result<(), Fail> {
    let layout = Layout::of(0x803).ok_or("a layout")?;
    let other = Layout::of(0x801).ok_or("a layout")?;
    let mut sample = plain();
    assert!(rt; layout.fits(&sample));
    assert!(rt; !other.fits(&sample)); // pid and tid are 1
    sample.branches.push(Branch {
        from: 0,
        to: 0,
        flags: 0x1_FFFF_FFFF,
    });
    assert!(rt; layout.fits(&sample));
    sample.branches.push(Branch {
        from: 0,
        to: 0,
        flags: 0x2_0000_0000,
    });
    assert!(rt; !layout.fits(&sample)); // bit 33
    Ok(())
}

#[test]
fn each_transfer_type_has_its_perf_type(rt: HostRuntime) {
    let wants = [
        0, // no type
        7, // exception
        12, // interrupt
        11, // trap return
        1, // branch not taken
        1, // branch taken
        0, // no type
        0, // no type
        5, // indirect call
        4, // direct call
        3, // indirect jump
        2, // direct jump
        5, // co-routine swap
        6, // return
        3, // other indirect jump with linkage
        2, // other direct jump with linkage
    ];
    for kind in 0..16u8 {
        assert_eq!(rt; perf_type(kind), wants[kind as usize], "at {kind}");
    }
}

#[test]
fn predicted_transfers_have_mispred_or_predicted(rt: HostRuntime) {
    // The flags of a transfer that was predicted rightly, and of one that was mispredicted.
    let table = [
        (0x0, 0x0), // no type
        (0x70_0000, 0x70_0000), // exception
        (0xC0_0000, 0xC0_0000), // interrupt
        (0xB0_0000, 0xB0_0000), // trap return
        (0x10_0002, 0x10_0001), // branch not taken
        (0x10_0002, 0x10_0001), // branch taken
        (0x0, 0x0), // no type
        (0x0, 0x0), // no type
        (0x50_0002, 0x50_0001), // indirect call
        (0x40_0000, 0x40_0000), // direct call
        (0x30_0002, 0x30_0001), // indirect jump
        (0x20_0000, 0x20_0000), // direct jump
        (0x50_0002, 0x50_0001), // co-routine swap
        (0x60_0002, 0x60_0001), // return
        (0x30_0002, 0x30_0001), // other indirect jump with linkage
        (0x20_0000, 0x20_0000), // other direct jump with linkage
    ];
    for kind in 0..16u8 {
        let (rightly, wrongly) = table[kind as usize];
        let mut branch = Branch {
            from: 0x8000_0000,
            to: 0x8000_0008,
            flags: rightly,
        };
        assert_eq!(rt;
            Branch::of_transfer(0x8000_0000, 0x8000_0008, kind, false),
            branch,
            "at {kind}"
        );
        branch.flags = wrongly;
        assert_eq!(rt;
            Branch::of_transfer(0x8000_0000, 0x8000_0008, kind, true),
            branch,
            "at {kind}"
        );
    }
}
