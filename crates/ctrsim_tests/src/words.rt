// Words that the program doesn't know.
use crate::call::{USAGE, USAGE_SAID, call, ends, run};
use crate::case::{ALONE, text_of};
use ctr_port::{MemSink, MemSource, NoMemory};

const OTHER_WORDS: [&[&str]; 10] = [
    &[],
    &[""],
    &["run", "x"],
    &["run", ""],
    &["Run"],
    &["run "],
    &["show"],
    &["show", "3"],
    &["demo", "0"],
    &["--help"],
];

#[test]
fn other_words_are_usage_and_touch_nothing(rt: HostRuntime) -> Result<(), NoMemory> {
    let text = text_of(rt.alloc(), &ALONE)?;
    for words in OTHER_WORDS {
        let ended = run(rt.alloc(), words, &text, &[])?;
        ends(&rt, "other words", &ended, USAGE, USAGE_SAID, b"");
        assert!(rt; ended.harts.is_fresh(), "the harts were touched");
    }
    Ok(())
}

#[test]
fn notes_that_fail_leave_the_status_of_other_words(rt: HostRuntime) -> Result<(), NoMemory> {
    for words in OTHER_WORDS {
        let mut source = MemSource::new(rt.alloc(), b"", &[], &[])?;
        let sink = MemSink::new(rt.alloc(), 128, &[], &[])?;
        let notes = MemSink::new(rt.alloc(), 128, &[], &[0])?;
        let ended = call(rt.alloc(), words, &mut source, sink, notes)?;
        ends(&rt, "notes that fail", &ended, USAGE, b"", b"");
    }
    Ok(())
}
