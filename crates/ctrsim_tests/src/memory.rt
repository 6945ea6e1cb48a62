// Calls of which a request for memory is refused, where the tests run so: `rt try --test
// --fail-alloc N` refuses the N-th request of each test.
use crate::call::{DONE, Ended, Held, ends, leaves, run};
use crate::moves::{SWAPPED, SWAPPING};
use ctr_port::NoMemory;
use ctr_vectors::bytes_of_samples;
use ctrsim_cli::{Fault, Outcome};
use std::alloc::Global;
use std::process::Abort;

const NO_MEMORY: Outcome = Outcome {
    status: 7,
    fault: Some(Fault::Memory),
};

// The call was done, or it found no memory, wrote nothing and left the harts alone.
fn is_all_or_nothing(rt: &impl Abort, ended: &Ended, written: &[u8], harts: &[Held]) {
    if ended.outcome == NO_MEMORY {
        ends(
            rt,
            "no memory",
            ended,
            NO_MEMORY,
            b"ctrsim: no memory\n",
            b"",
        );
        assert!(rt; ended.harts.is_fresh(), "the harts were touched");
    } else {
        ends(rt, "memory", ended, DONE, b"", written);
        leaves(rt, "memory", ended, harts);
    }
}

fn swaps(rt: &impl Abort, alloc: Global) -> Result<(), NoMemory> {
    let text = SWAPPING.text(alloc)?;
    let want = bytes_of_samples(alloc, SWAPPED)?;
    let ended = run(alloc, &["run"], &text, &[])?;
    let harts = [(24, 26_374, Some(1)), (24, 26_374, Some(0))];
    is_all_or_nothing(rt, &ended, &want, &harts);
    Ok(())
}

fn turns(rt: &impl Abort, alloc: Global) -> Result<(), NoMemory> {
    let ended = run(alloc, &["demo", "8"], b"", &[])?;
    is_all_or_nothing(rt, &ended, crate::demo::EIGHT, crate::demo::AFTER_EIGHT);
    Ok(())
}

// Where a request of the test's own is refused, the call isn't made.
#[test]
fn a_run_is_done_or_finds_no_memory_and_does_nothing(rt: HostRuntime) {
    let _ = swaps(&rt, rt.alloc());
}

#[test]
fn demo_is_done_or_finds_no_memory_and_does_nothing(rt: HostRuntime) {
    let _ = turns(&rt, rt.alloc());
}
