//! The parts of a sample, written and read one by one.

ghost use Rattle.std.specs.Prelude.{◌≡◌, []};

use super::EVERY_FIELD_AND_THE_INDEX;
use super::samples::are_same;
use crate::{
    Buffer, HW_INDEX, Header, Layout, Sample, SampleFault, SampleReader, Stop, put_back, put_front,
    put_header, put_number, read_back, read_front, read_header, read_number,
};
use ctr_port::MemSource;
use std::test::*;

#[test]
fn the_parts_of_a_sample_are_the_sample(rt: HostRuntime) -> Result<(), Fail> {
    let layout = Layout::of(0x10BCF).ok_or("a layout")?;
    let layout = layout.with_branch(HW_INDEX).ok_or("a layout")?;
    let mut source = MemSource::new(rt.alloc(), &EVERY_FIELD_AND_THE_INDEX, &[], &[])?;
    let next = SampleReader::new(layout).next(&mut source);
    let whole = next.ok().ok_or("no fault")?.ok_or("a sample")?;
    let mut source = MemSource::new(rt.alloc(), &EVERY_FIELD_AND_THE_INDEX, &[5], &[])?;
    let header = read_header(&mut source).ok().ok_or("no fault")?;
    let header = header.ok_or("a header")?;
    let wanted = Header {
        misc: 0x102,
        size: 120,
    };
    assert_eq!(rt; header, wanted);
    let mut sample = Sample::blank();
    sample.misc = header.misc;
    assert_eq!(rt; read_front(&mut source, layout, &mut sample), Ok(()));
    let back = read_back(&mut source, layout, header.size, &mut sample);
    assert_eq!(rt; back, Ok(()));
    are_same(&rt, &whole, &sample, 0x10BCF);
    assert_eq!(rt; read_header(&mut source), Ok(None));
    let mut out = Buffer::new();
    put_header(&mut out, sample.misc, 120);
    put_front(&mut out, layout, &sample);
    put_back(&mut out, layout, &sample);
    assert_eq!(rt; out.as_slice(), EVERY_FIELD_AND_THE_INDEX.as_slice());
    Ok(())
}

#[test]
fn a_header_of_any_size_is_read(rt: HostRuntime) -> Result<(), Fail> {
    let bytes = [9, 0, 0, 0, 2, 0, 0xFF, 0xFF, 8, 0, 0, 0, 2, 0, 16, 0, 9];
    let mut source = MemSource::new(rt.alloc(), &bytes, &[], &[])?;
    let wanted = Header {
        misc: 2,
        size: 0xFFFF,
    };
    assert_eq!(rt; read_header(&mut source), Ok(Some(wanted)));
    assert_eq!(rt; read_header(&mut source), Err(SampleFault::Kind));
    assert_eq!(rt; read_header(&mut source), Err(SampleFault::Header));
    Ok(())
}

#[test]
fn a_number_has_eight_bytes(rt: HostRuntime) -> Result<(), Fail> {
    let mut out = Buffer::new();
    put_number(&mut out, 0x0102_0304_0506_0708);
    put_number(&mut out, 9);
    let wanted = [8, 7, 6, 5, 4, 3, 2, 1, 9, 0, 0, 0, 0, 0, 0, 0];
    assert_eq!(rt; out.as_slice(), wanted.as_slice());
    let mut source = MemSource::new(rt.alloc(), &wanted[..13], &[3], &[])?;
    assert_eq!(rt; read_number(&mut source), Ok(0x0102_0304_0506_0708));
    assert_eq!(rt; read_number(&mut source), Err(Stop::Ended(5)));
    let mut source = MemSource::new(rt.alloc(), &wanted, &[], &[0])?;
    assert_eq!(rt; read_number(&mut source), Err(Stop::Failed));
    Ok(())
}
