//! Samples with a value of their own in each field.

use crate::{Branch, Branches, Layout, Sample};
use std::process::Abort;
use std::test::*;

// A sample with a value of its own in each field that the layout has, and so many branches.
pub(crate) fn filled(rt: &impl Abort, layout: Layout, branches: u16) -> Sample {
    let mut sample = Sample {
        misc: 0xA0A1,
        identifier: there(layout, 0x10000, 0xB000_0000_0000_0001),
        ip: there(layout, 0x1, 0xB100_0000_0000_0002),
        pid: half_there(layout, 0x2, 0xC000_0003),
        tid: half_there(layout, 0x2, 0xC100_0004),
        time: there(layout, 0x4, 0xB200_0000_0000_0005),
        addr: there(layout, 0x8, 0xB300_0000_0000_0006),
        id: there(layout, 0x40, 0xB400_0000_0000_0007),
        stream_id: there(layout, 0x200, 0xB500_0000_0000_0008),
        cpu: half_there(layout, 0x80, 0xC200_0009),
        period: there(layout, 0x100, 0xB600_0000_0000_000A),
        hw_index: if layout.branch_bits() == 0 {
            0
        } else {
            0xB700_0000_0000_000B
        },
        branches: Branches::new(),
    };
    for number in 0..branches {
        assert!(rt; sample.branches.items().len() < 256);
        sample.branches.push(Branch {
            from: 0xD000_0000_0000_0000 + number as u64,
            to: 0xD100_0000_0000_0000 + number as u64,
            flags: 0x1_FFFF_FFFF - number as u64,
        });
    }
    sample
}

fn there(layout: Layout, bit: u64, value: u64) -> u64 {
    if layout.bits() & bit == 0 { 0 } else { value }
}

fn half_there(layout: Layout, bit: u64, value: u32) -> u32 {
    if layout.bits() & bit == 0 { 0 } else { value }
}

pub(crate) fn are_same(rt: &impl Abort, sample: &Sample, other: &Sample, layout: u64) {
    assert_eq!(rt; sample.misc, other.misc, "at {layout}");
    assert_eq!(rt;
        [sample.pid, sample.tid, sample.cpu],
        [other.pid, other.tid, other.cpu],
        "at {layout}"
    );
    assert_eq!(rt;
        [sample.identifier, sample.ip, sample.time, sample.addr],
        [other.identifier, other.ip, other.time, other.addr],
        "at {layout}"
    );
    assert_eq!(rt;
        [sample.id, sample.stream_id, sample.period, sample.hw_index],
        [other.id, other.stream_id, other.period, other.hw_index],
        "at {layout}"
    );
    assert_eq!(rt;
        sample.branches.items(),
        other.branches.items(),
        "at {layout}"
    );
}
