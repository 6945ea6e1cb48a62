//! The program: `ctrsim run` reads a schedule from standard input and writes samples to standard
//! output; `ctrsim show` reads samples and writes their text; `ctrsim demo` performs a schedule of
//! its own and writes what its samples come to.
#![tactic(auto)]

mod array_reader;

use array_reader::ArrayReader;
use ctr_port::{StdSink, StdSource, write_whole};
use ctrsim_cli::ctrsim;
use rv_hart::Harts;
use std::alloc::AllocError;
use std::env;
use std::io::ErrorKind;
use std::process::ExitCode;

// The arguments after the program's name.
enum Words {
    Are(Vec<String>),
    NoMemory,
    Unreadable,
}

fn words_of(rt: &HostRuntime) -> Words {
    let mut args = match env::args(rt) {
        Ok(args) => args,
        Err(error) => return words_refused(error.kind()),
    };
    let _program = args.next();
    match args.collect(rt.alloc()) {
        Ok(words) => Words::Are(words),
        Err(AllocError) => Words::NoMemory,
    }
}

// Why the arguments can't be had.
fn words_refused(kind: ErrorKind) -> Words {
    match kind {
        ErrorKind::OutOfMemory => Words::NoMemory,
        _ => Words::Unreadable,
    }
}

// Says why the program can't begin, and ends with the status.
fn stop(rt: &HostRuntime, text: &[u8], status: u8) -> ExitCode {
    let mut notes = StdSink::new(rt.stderr());
    let _ = write_whole(&mut notes, text);
    ExitCode::from(status)
}

fn main(rt: HostRuntime) -> ExitCode {
    let words = match words_of(&rt) {
        Words::Are(words) => words,
        Words::NoMemory => return stop(&rt, b"ctrsim: no memory\n", 7),
        Words::Unreadable => return stop(&rt, b"ctrsim: cannot read arguments\n", 14),
    };
    let Ok(mut harts) = Harts::new(rt.alloc()) else {
        return stop(&rt, b"ctrsim: no memory\n", 7);
    };
    let mut source = StdSource::new(ArrayReader::new(rt.stdin()));
    let mut sink = StdSink::new(rt.stdout());
    let mut notes = StdSink::new(rt.stderr());
    let outcome = ctrsim(
        rt.alloc(),
        &words,
        &mut source,
        &mut sink,
        &mut notes,
        &mut harts,
    );
    ExitCode::from(outcome.status)
}
