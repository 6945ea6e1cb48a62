// Input that is cut, and ends that fail in mid-stream.
use crate::call::{
    CANNOT_READ, CANNOT_READ_SAID, CANNOT_WRITE, CANNOT_WRITE_SAID, DONE, Held, USAGE, USAGE_SAID,
    call, ends, held, leaves, reading, refused, run,
};
use crate::case::{ALONE, text_of};
use crate::moves::{SWAPPED, SWAPPING};
use ctr_port::{Got, MemSink, MemSource, NoMemory, Source};
use ctr_vectors::images::CALL;
use ctr_vectors::{CALL_BYTES, bytes_of_samples, schedule_text};
use ctrsim_cli::{Fault, Outcome};
use perf_sample::SampleFault;
use sched_text::Reason;
use std::alloc::Global;
use std::process::Abort;

// The length of the schedule of one call up to the end of each line, and what is said of an input
// that ends before that.
const LINE_ENDS: [(usize, u32, &[u8]); 8] = [
    (15, 1, b"ctrsim: line 1: input ended\n"),
    (23, 2, b"ctrsim: line 2: input ended\n"),
    (34, 3, b"ctrsim: line 3: input ended\n"),
    (51, 4, b"ctrsim: line 4: input ended\n"),
    (62, 5, b"ctrsim: line 5: input ended\n"),
    (72, 6, b"ctrsim: line 6: input ended\n"),
    (81, 7, b"ctrsim: line 7: input ended\n"),
    (85, 8, b"ctrsim: line 8: input ended\n"),
];

// What was written of the sample when so many bytes of the schedule were read, and what hart 0
// holds then.
fn done_by(taken: usize) -> (&'static [u8], Held) {
    if taken >= 81 {
        (&CALL_BYTES, (1, 137, Some(0)))
    } else if taken >= 72 {
        (b"", (1, 70, Some(0)))
    } else {
        (b"", (0, 0, None))
    }
}

#[test]
fn an_input_that_is_cut_is_refused_at_the_line_that_is_wanting(
    rt: HostRuntime,
) -> Result<(), NoMemory> {
    let text = text_of(rt.alloc(), &ALONE)?;
    let mut begins = 0;
    for (end, line, said) in LINE_ENDS {
        for len in begins..end {
            let part = text.get(..len).unwrap_or(b"");
            assert_eq!(rt; part.len(), len);
            let ended = run(rt.alloc(), &["run"], part, &[])?;
            let (written, hart) = done_by(len);
            ends(
                &rt,
                "cut",
                &ended,
                refused(line, Reason::Cut),
                said,
                written,
            );
            leaves(&rt, "cut", &ended, &[hart]);
        }
        begins = end;
    }
    Ok(())
}

#[test]
fn a_read_that_fails_leaves_the_commands_that_were_whole(rt: HostRuntime) -> Result<(), NoMemory> {
    // 85 bytes, and a read that looks for the end
    let text = text_of(rt.alloc(), &ALONE)?;
    assert_eq!(rt; text.len(), 85);
    for k in 0..86usize {
        let ended = reading(rt.alloc(), &["run"], &text, &[1], &[k as u64])?;
        let (written, hart) = done_by(k);
        ends(
            &rt,
            "a read",
            &ended,
            CANNOT_READ,
            CANNOT_READ_SAID,
            written,
        );
        leaves(&rt, "a read", &ended, &[hart]);
    }
    let ended = reading(rt.alloc(), &["run"], &text, &[1], &[86, 87, 88])?;
    ends(&rt, "no further read", &ended, DONE, b"", &CALL_BYTES);
    leaves(&rt, "no further read", &ended, &[(1, 137, Some(0))]);
    Ok(())
}

// How many line feeds there are.
fn line_feeds(bytes: &[u8]) -> usize {
    bytes.iter().filter(|byte| **byte == b'\n').count()
}

// The same of two tasks that swap their harts: 79 bytes of lines, 72 of images, then 48 steps and two
// samples of 160 bytes.
#[test]
fn a_read_that_fails_between_moves_leaves_the_commands_that_were_whole(
    rt: HostRuntime,
) -> Result<(), NoMemory> {
    let text = SWAPPING.text(rt.alloc())?;
    let want = bytes_of_samples(rt.alloc(), SWAPPED)?;
    assert_eq!(rt; text.len(), 653);
    // 12 pieces of 7, the last of which begins the first image; four and one of 3 end it; five and one
    // of 1 are the second image, behind which no byte is asked for; then 72 pieces, and a read that
    // looks for the end.
    for k in 0..96usize {
        let ended = reading(rt.alloc(), &["run"], &text, &[7], &[k as u64])?;
        let commands = k.saturating_sub(23).saturating_mul(7).min(502);
        let taken = text.get(151..commands.saturating_add(151)).unwrap_or(b"");
        let performed = line_feeds(taken);
        let samples = performed.saturating_sub(48).min(2);
        let written = want.get(..samples.saturating_mul(160)).unwrap_or(b"");
        ends(
            &rt,
            "a read",
            &ended,
            CANNOT_READ,
            CANNOT_READ_SAID,
            written,
        );
        let (first, _, _) = held(&ended.harts, 0);
        let (second, _, _) = held(&ended.harts, 1);
        let steps = first.wrapping_add(second);
        assert_eq!(rt; steps, performed.min(48) as u64, "read {k}");
    }
    let ended = reading(rt.alloc(), &["run"], &text, &[7], &[96])?;
    ends(&rt, "no further read", &ended, DONE, b"", &want);
    Ok(())
}

#[test]
fn what_follows_a_write_that_failed_is_not_read(rt: HostRuntime) -> Result<(), NoMemory> {
    let text = schedule_text(
        rt.alloc(),
        &[("ctr-schedule 1\nharts 1\nlayout 803\ntask 4 8 0 4 0 0\n", 1)],
        &[CALL],
        &[("run 0 0 1\nsample 0\n", 1), ("sample 0\n", 2000)],
    )?;
    let mut source = MemSource::new(rt.alloc(), &text, &[], &[])?;
    let sink = MemSink::new(rt.alloc(), 4096, &[], &[0])?;
    let notes = MemSink::new(rt.alloc(), 128, &[], &[])?;
    let ended = call(rt.alloc(), &["run"], &mut source, sink, notes)?;
    ends(&rt, "a write", &ended, CANNOT_WRITE, CANNOT_WRITE_SAID, b"");
    let mut rest = vec![in rt.alloc(); 0; 20_000]?;
    let left = match source.read(&mut rest) {
        Got::Bytes(count) => count,
        _ => 0,
    };
    // of 18,085, those from fewer than 4,096 behind the line of the sample on
    assert!(rt; left > 13_000, "the bytes that are left");
    Ok(())
}

// A call with words and input, a source or a sink that fails at its first call, how it ends, what
// is said, and what was written.
#[derive(Clone, Copy)]
struct Exit {
    words: &'static [&'static str],
    input: &'static [u8],
    reads: &'static [u64],
    writes: &'static [u64],
    ends: Outcome,
    said: &'static [u8],
    written: &'static [u8],
}

const ONE_CALL: &[u8] =
    b"ctr-schedule 1\nharts 1\nlayout 803\ntask 4 8 0 4 0 0\nimages\n\xEF\x00\x80\x00run 0 0 1\nsample 0\nend\n";

const RUN: Exit = Exit {
    words: &["run"],
    input: ONE_CALL,
    reads: &[],
    writes: &[],
    ends: DONE,
    said: b"",
    written: &CALL_BYTES,
};

const SHOW: Exit = Exit {
    words: &["show", "803"],
    input: &CALL_BYTES,
    ..RUN
};

const EXITS: [Exit; 11] = [
    RUN,
    Exit {
        reads: &[0],
        ends: CANNOT_READ,
        said: CANNOT_READ_SAID,
        written: b"",
        ..RUN
    },
    Exit {
        writes: &[0],
        ends: CANNOT_WRITE,
        said: CANNOT_WRITE_SAID,
        written: b"",
        ..RUN
    },
    Exit {
        input: b"ctr-schedule 3\n",
        ends: Outcome {
            status: 5,
            fault: Some(Fault::Line(sched_text::LineFault {
                line: 1,
                reason: Reason::Range,
            })),
        },
        said: b"ctrsim: line 1: out of range\n",
        written: b"",
        ..RUN
    },
    Exit {
        reads: &[0],
        ends: CANNOT_READ,
        said: CANNOT_READ_SAID,
        written: b"",
        ..SHOW
    },
    Exit {
        writes: &[0],
        ends: CANNOT_WRITE,
        said: CANNOT_WRITE_SAID,
        written: b"",
        ..SHOW
    },
    Exit {
        input: b"\x09",
        ends: Outcome {
            status: 6,
            fault: Some(Fault::Sample(0, SampleFault::Header)),
        },
        said: b"ctrsim: sample at 0: header cut\n",
        written: b"",
        ..SHOW
    },
    Exit {
        words: &["demo", "1"],
        reads: &[0],
        written: b"samples 1 bytes 56 branches 1\n",
        ..RUN
    },
    Exit {
        words: &["demo", "1"],
        writes: &[0],
        ends: CANNOT_WRITE,
        said: CANNOT_WRITE_SAID,
        written: b"",
        ..RUN
    },
    // nothing is read or written
    Exit {
        words: &[],
        reads: &[0],
        writes: &[0],
        ends: USAGE,
        said: USAGE_SAID,
        written: b"",
        ..RUN
    },
    Exit {
        words: &["show", "3"],
        reads: &[0],
        writes: &[0],
        ends: USAGE,
        said: USAGE_SAID,
        written: b"",
        ..RUN
    },
];

// The call ends so with notes that take pieces of 5 bytes and fail at this call.
fn exits(
    rt: &impl Abort,
    alloc: Global,
    exit: &Exit,
    call_of_notes: usize,
) -> Result<(), NoMemory> {
    let mut source = MemSource::new(alloc, exit.input, &[], exit.reads)?;
    let sink = MemSink::new(alloc, 4096, &[], exit.writes)?;
    let notes = MemSink::new(alloc, 128, &[5], &[call_of_notes as u64])?;
    let ended = call(alloc, exit.words, &mut source, sink, notes)?;
    let taken = exit.said.len().min(call_of_notes.saturating_mul(5));
    let said = exit.said.get(..taken).unwrap_or(b"");
    ends(rt, "notes that fail", &ended, exit.ends, said, exit.written);
    Ok(())
}

#[test]
fn notes_that_fail_change_neither_status_nor_output(rt: HostRuntime) -> Result<(), NoMemory> {
    for exit in &EXITS {
        for call in 0..13 {
            exits(&rt, rt.alloc(), exit, call)?;
        }
    }
    Ok(())
}
