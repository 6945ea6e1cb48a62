// Four tasks of 64 KiB with a sample after each 10,000 steps, which go around four harts, 250,000
// steps at a time.
use crate::call::{CANNOT_WRITE, CANNOT_WRITE_SAID, DONE, call, leaves};
use ctr_port::{MemSink, MemSource, NoMemory};
use ctr_vectors::append_sample;
use ctr_vectors::images::RETURNS;
use std::alloc::{AllocError, Global};
use std::process::Abort;

const HEAD: &[u8] = b"ctr-schedule 1\nharts 4\nlayout 10bcf\n\
task 65536 65536 2 4 0 10000\n\
task 65536 65536 2 4 0 10000\n\
task 65536 65536 2 4 0 10000\n\
task 65536 65536 2 4 0 10000\n\
images\n";

const ROUNDS: [&[u8]; 4] = [
    b"run 0 0 250000\nrun 1 1 250000\nrun 2 2 250000\nrun 3 3 250000\n",
    b"run 1 0 250000\nrun 2 1 250000\nrun 3 2 250000\nrun 0 3 250000\n",
    b"run 2 0 250000\nrun 3 1 250000\nrun 0 2 250000\nrun 1 3 250000\n",
    b"run 3 0 250000\nrun 0 1 250000\nrun 1 2 250000\nrun 2 3 250000\n",
];

// An image: three words, and zeros up to 65,536 bytes.
fn image(alloc: Global) -> Result<Vec<u8>, AllocError> {
    let mut image = Vec::new(alloc);
    for word in RETURNS {
        image.extend_from_slice(&word.to_le_bytes())?;
    }
    image.resize(65_536, 0)?;
    Ok(image)
}

// The schedule with so many rounds.
fn text_of(alloc: Global, rounds: usize) -> Result<Vec<u8>, AllocError> {
    let mut text = Vec::from_slice(alloc, HEAD)?;
    let image = image(alloc)?;
    for _ in 0..4 {
        text.extend_from_slice(&image)?;
    }
    for i in 0..rounds {
        text.extend_from_slice(ROUNDS[i % 4])?;
    }
    text.extend_from_slice(b"end\n")?;
    Ok(text)
}

// Of each command, of each of its 25 samples: identifier, ip, pid and tid, time, addr, id,
// stream_id, cpu, period; and 64 returns.
fn samples(alloc: Global, rounds: u64) -> Result<Vec<u8>, AllocError> {
    let branches = [(0x8000_0008, 0x8000_0004, 0x60_0002); 64];
    let mut out = Vec::new(alloc);
    for round in 0..rounds {
        for task in 0..4u64 {
            let hart = (task + round % 4) % 4;
            for k in 1..26u64 {
                let time = round.wrapping_mul(250_000).wrapping_add(k * 10_000);
                let process = (task + 1) * 0x1_0000_0001;
                let fields = [task, 0x8000_0004, process, time, 0, task, 0, hart, 10_000];
                append_sample(&mut out, 3, &fields, &[], &branches)?;
            }
        }
    }
    Ok(out)
}

#[test]
fn a_thousand_samples_of_four_tasks(rt: HostRuntime) -> Result<(), NoMemory> {
    let alloc = rt.alloc();
    let text = text_of(alloc, 10)?;
    let want = samples(alloc, 10)?;
    assert_eq!(rt; want.len(), 1_624_000);
    let mut source = MemSource::new(alloc, &text, &[], &[])?;
    let sink = MemSink::new(alloc, 1 << 21, &[], &[])?;
    let notes = MemSink::new(alloc, 128, &[], &[])?;
    let ended = call(alloc, &["run"], &mut source, sink, notes)?;
    assert_eq!(rt; ended.outcome, DONE);
    assert!(rt;
        ended.sink.bytes() == want.as_slice(),
        "the samples of a long run"
    );
    assert!(rt; ended.notes.bytes().is_empty(), "nothing is said");
    // 262 + 9 * (261 + 262) + 250 * 259
    leaves(
        &rt,
        "a long run",
        &ended,
        &[
            (2_500_000, 69_719, Some(3)),
            (2_500_000, 69_719, Some(0)),
            (2_500_000, 69_719, Some(1)),
            (2_500_000, 69_719, Some(2)),
        ],
    );
    Ok(())
}

// The first round, and a sink that fails at this call: each sample is one write, so as many were
// written before.
fn stops(
    rt: &impl Abort,
    alloc: Global,
    text: &[u8],
    want: &[u8],
    call_of_sink: usize,
) -> Result<(), NoMemory> {
    let mut source = MemSource::new(alloc, text, &[], &[])?;
    let sink = MemSink::new(alloc, 200_000, &[], &[call_of_sink as u64])?;
    let notes = MemSink::new(alloc, 128, &[], &[])?;
    let ended = call(alloc, &["run"], &mut source, sink, notes)?;
    let written = want
        .get(..call_of_sink.saturating_mul(1_624))
        .unwrap_or(b"");
    assert_eq!(rt; ended.outcome, CANNOT_WRITE, "write {call_of_sink}");
    assert_eq!(rt;
        ended.notes.bytes(),
        CANNOT_WRITE_SAID,
        "write {call_of_sink}"
    );
    assert!(rt; ended.sink.bytes() == written, "write {call_of_sink}");
    for h in 0..16 {
        let samples = call_of_sink
            .saturating_add(1)
            .saturating_sub(25 * h)
            .min(25);
        let steps = samples.saturating_mul(10_000) as u64;
        assert_eq!(rt;
            ended.harts.hart(h).steps(),
            steps,
            "write {call_of_sink}: hart {h}"
        );
    }
    Ok(())
}

#[test]
fn each_of_the_first_hundred_samples_may_be_the_last(rt: HostRuntime) -> Result<(), NoMemory> {
    let text = text_of(rt.alloc(), 1)?;
    let want = samples(rt.alloc(), 1)?;
    assert_eq!(rt; want.len(), 162_400);
    for call_of_sink in 0..100 {
        stops(&rt, rt.alloc(), &text, &want, call_of_sink)?;
    }
    Ok(())
}
