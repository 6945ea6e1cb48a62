// Which calls are unreturned after a history (RISC-V Control Transfer Records 1.0, "RAS Emulation
// Mode"). What is left was counted by hand: a call is left where, of the events after it, the calls
// less the returns never fall below 0 and never reach the depth, and no swap comes where they are
// 0. A call that is left lies as deep as the calls less the returns after it.
use crate::{CtrStore, ListStore, Part, RingStore};
use ctr_csrs::{Depth, entries};
use std::process::Abort;

// One event, or several. A slot is told by its number, which isn't 0.
#[derive(Clone, Copy)]
enum Move {
    /// the calls from the first of these numbers to the last
    Calls(u64, u64),
    /// so many returns
    Returns(u64),
    Swap(u64),
    Clear,
    /// a write of the depth
    To(Depth),
    /// a write of the pointer
    Turn(u8),
    /// a write of the source word of a slot
    Write(u16, u64),
}

// A history, and the slots with V that it leaves, the youngest first. 0 is a slot without V, and so
// are all behind those named.
#[derive(Clone, Copy)]
struct Case {
    name: &'static str,
    depth: Depth,
    moves: &'static [Move],
    left: &'static [u64],
}

const COUNTED: [Case; 47] = [
    Case {
        name: "nothing happens",
        depth: Depth::D16,
        moves: &[],
        left: &[],
    },
    Case {
        name: "a call",
        depth: Depth::D16,
        moves: &[Move::Calls(1, 1)],
        left: &[1],
    },
    Case {
        name: "two calls, the later one first",
        depth: Depth::D16,
        moves: &[Move::Calls(1, 2)],
        left: &[2, 1],
    },
    Case {
        name: "a call and its return",
        depth: Depth::D16,
        moves: &[Move::Calls(1, 1), Move::Returns(1)],
        left: &[],
    },
    Case {
        name: "three calls and a return",
        depth: Depth::D16,
        moves: &[Move::Calls(1, 3), Move::Returns(1)],
        left: &[2, 1],
    },
    Case {
        name: "three calls and three returns",
        depth: Depth::D16,
        moves: &[Move::Calls(1, 3), Move::Returns(3)],
        left: &[],
    },
    Case {
        name: "a return too many takes nothing away",
        depth: Depth::D16,
        moves: &[Move::Calls(1, 2), Move::Returns(3)],
        left: &[],
    },
    Case {
        name: "a call after a return too many",
        depth: Depth::D16,
        moves: &[Move::Calls(1, 2), Move::Returns(3), Move::Calls(3, 3)],
        left: &[3],
    },
    Case {
        name: "calls after a return of nothing",
        depth: Depth::D16,
        moves: &[Move::Returns(1), Move::Calls(1, 2)],
        left: &[2, 1],
    },
    Case {
        name: "calls in the place of calls that returned",
        depth: Depth::D16,
        moves: &[Move::Calls(1, 2), Move::Returns(1), Move::Calls(3, 4)],
        left: &[4, 3, 1],
    },
    Case {
        name: "as many calls as there are entries",
        depth: Depth::D16,
        moves: &[Move::Calls(1, 16)],
        left: &[16, 15, 14, 13, 12, 11, 10, 9, 8, 7, 6, 5, 4, 3, 2, 1],
    },
    Case {
        name: "a return from a full buffer shows no older call",
        depth: Depth::D16,
        moves: &[Move::Calls(1, 16), Move::Returns(1)],
        left: &[15, 14, 13, 12, 11, 10, 9, 8, 7, 6, 5, 4, 3, 2, 1],
    },
    Case {
        name: "fifteen calls that return leave the one below them",
        depth: Depth::D16,
        moves: &[Move::Calls(1, 16), Move::Returns(15)],
        left: &[1],
    },
    Case {
        name: "one call more than there are entries",
        depth: Depth::D16,
        moves: &[Move::Calls(1, 17)],
        left: &[17, 16, 15, 14, 13, 12, 11, 10, 9, 8, 7, 6, 5, 4, 3, 2],
    },
    Case {
        name: "the call that was lost doesn't come back by a return",
        depth: Depth::D16,
        moves: &[Move::Calls(1, 17), Move::Returns(1)],
        left: &[16, 15, 14, 13, 12, 11, 10, 9, 8, 7, 6, 5, 4, 3, 2],
    },
    Case {
        name: "nor by fifteen",
        depth: Depth::D16,
        moves: &[Move::Calls(1, 17), Move::Returns(15)],
        left: &[2],
    },
    Case {
        name: "nor by sixteen",
        depth: Depth::D16,
        moves: &[Move::Calls(1, 17), Move::Returns(16)],
        left: &[],
    },
    Case {
        name: "nor does it show below a later call",
        depth: Depth::D16,
        moves: &[Move::Calls(1, 17), Move::Returns(16), Move::Calls(18, 18)],
        left: &[18],
    },
    Case {
        name: "a call stays where others come and go above it",
        depth: Depth::D16,
        moves: &[Move::Calls(1, 15), Move::Returns(14), Move::Calls(20, 33)],
        left: &[33, 32, 31, 30, 29, 28, 27, 26, 25, 24, 23, 22, 21, 20, 1],
    },
    Case {
        name: "a swap takes the place of a call",
        depth: Depth::D16,
        moves: &[Move::Calls(1, 2), Move::Swap(3)],
        left: &[3, 1],
    },
    Case {
        name: "a swap hides the call below it",
        depth: Depth::D16,
        moves: &[Move::Calls(1, 1), Move::Swap(2)],
        left: &[2],
    },
    Case {
        name: "a swap alone",
        depth: Depth::D16,
        moves: &[Move::Swap(1)],
        left: &[1],
    },
    Case {
        name: "a swap above a call leaves it",
        depth: Depth::D16,
        moves: &[Move::Calls(1, 2), Move::Swap(3), Move::Returns(1)],
        left: &[1],
    },
    Case {
        name: "a swap of a swap",
        depth: Depth::D16,
        moves: &[Move::Calls(1, 1), Move::Swap(2), Move::Swap(3)],
        left: &[3],
    },
    Case {
        name: "a swap after the call above returned hides a call",
        depth: Depth::D16,
        moves: &[Move::Calls(1, 2), Move::Returns(1), Move::Swap(3)],
        left: &[3],
    },
    Case {
        name: "two swaps with a return between them",
        depth: Depth::D16,
        moves: &[
            Move::Calls(1, 2),
            Move::Swap(3),
            Move::Returns(1),
            Move::Swap(4),
        ],
        left: &[4],
    },
    Case {
        name: "what was swapped in returns",
        depth: Depth::D16,
        moves: &[Move::Calls(1, 2), Move::Swap(3), Move::Returns(2)],
        left: &[],
    },
    Case {
        name: "a swap in a full buffer",
        depth: Depth::D16,
        moves: &[Move::Calls(1, 16), Move::Swap(17)],
        left: &[17, 15, 14, 13, 12, 11, 10, 9, 8, 7, 6, 5, 4, 3, 2, 1],
    },
    Case {
        name: "a swap where all calls returned, and a call above it",
        depth: Depth::D16,
        moves: &[
            Move::Calls(1, 1),
            Move::Returns(1),
            Move::Swap(2),
            Move::Calls(3, 3),
        ],
        left: &[3, 2],
    },
    Case {
        name: "a clear at the end",
        depth: Depth::D16,
        moves: &[Move::Calls(1, 2), Move::Clear],
        left: &[],
    },
    Case {
        name: "a clear between two calls",
        depth: Depth::D16,
        moves: &[Move::Calls(1, 1), Move::Clear, Move::Calls(2, 2)],
        left: &[2],
    },
    Case {
        name: "a return after a clear",
        depth: Depth::D16,
        moves: &[Move::Calls(1, 2), Move::Clear, Move::Returns(1)],
        left: &[],
    },
    Case {
        name: "a swap after a clear",
        depth: Depth::D16,
        moves: &[Move::Calls(1, 2), Move::Clear, Move::Swap(3)],
        left: &[3],
    },
    Case {
        name: "another depth",
        depth: Depth::D16,
        moves: &[Move::Calls(1, 2), Move::To(Depth::D32), Move::Calls(3, 4)],
        left: &[4, 3],
    },
    Case {
        name: "another depth and back",
        depth: Depth::D16,
        moves: &[
            Move::Calls(1, 2),
            Move::To(Depth::D32),
            Move::Calls(3, 3),
            Move::To(Depth::D16),
        ],
        left: &[],
    },
    Case {
        name: "a call after that",
        depth: Depth::D16,
        moves: &[
            Move::Calls(1, 2),
            Move::To(Depth::D32),
            Move::To(Depth::D16),
            Move::Calls(4, 4),
        ],
        left: &[4],
    },
    Case {
        name: "the same depth written again",
        depth: Depth::D16,
        moves: &[Move::Calls(1, 2), Move::To(Depth::D16)],
        left: &[2, 1],
    },
    Case {
        name: "the depth that counts is the last one",
        depth: Depth::D16,
        moves: &[
            Move::Calls(1, 2),
            Move::To(Depth::D32),
            Move::Calls(3, 34),
            Move::Returns(31),
        ],
        left: &[3],
    },
    Case {
        name: "one call past the depth of 32",
        depth: Depth::D32,
        moves: &[Move::Calls(1, 33), Move::Returns(32)],
        left: &[],
    },
    Case {
        name: "as many calls as the depth of 64",
        depth: Depth::D64,
        moves: &[Move::Calls(1, 64), Move::Returns(63)],
        left: &[1],
    },
    Case {
        name: "one call past the depth of 64",
        depth: Depth::D64,
        moves: &[Move::Calls(1, 65), Move::Returns(64)],
        left: &[],
    },
    Case {
        name: "as many calls as the depth of 128",
        depth: Depth::D128,
        moves: &[Move::Calls(1, 128), Move::Returns(127)],
        left: &[1],
    },
    Case {
        name: "one call past the depth of 128",
        depth: Depth::D128,
        moves: &[Move::Calls(1, 129), Move::Returns(128)],
        left: &[],
    },
    Case {
        name: "as many calls as the depth of 256",
        depth: Depth::D256,
        moves: &[Move::Calls(1, 256), Move::Returns(255)],
        left: &[1],
    },
    Case {
        name: "one call past the depth of 256",
        depth: Depth::D256,
        moves: &[Move::Calls(1, 257), Move::Returns(256)],
        left: &[],
    },
    Case {
        name: "a clear after a written pointer",
        depth: Depth::D16,
        moves: &[
            Move::Calls(1, 2),
            Move::Turn(1),
            Move::Clear,
            Move::Calls(3, 4),
        ],
        left: &[4, 3],
    },
    Case {
        name: "a clear after a written entry",
        depth: Depth::D16,
        moves: &[
            Move::Calls(1, 1),
            Move::Write(0, 0),
            Move::Clear,
            Move::Calls(2, 3),
        ],
        left: &[3, 2],
    },
];

// Software wrote the pointer or an entry, so that no count tells what is left: it is what each
// event makes of the list of slots, worked out by hand.
const WRITTEN: [Case; 5] = [
    Case {
        name: "a written pointer makes an older call the youngest",
        depth: Depth::D16,
        moves: &[Move::Calls(1, 2), Move::Turn(1)],
        left: &[1, 0, 0, 0, 0, 0, 0, 0, 0, 0, 0, 0, 0, 0, 0, 2],
    },
    Case {
        name: "a pointer written on shows an entry that was never recorded",
        depth: Depth::D16,
        moves: &[Move::Calls(1, 1), Move::Turn(2)],
        left: &[0, 1],
    },
    Case {
        name: "a pointer written there and back",
        depth: Depth::D16,
        moves: &[Move::Calls(1, 2), Move::Turn(1), Move::Turn(2)],
        left: &[2, 1],
    },
    Case {
        name: "an entry that lost V by a write",
        depth: Depth::D16,
        moves: &[Move::Calls(1, 2), Move::Write(0, 0)],
        left: &[0, 1],
    },
    Case {
        name: "a return after a written pointer",
        depth: Depth::D16,
        moves: &[Move::Calls(1, 3), Move::Turn(2), Move::Returns(1)],
        left: &[1, 0, 0, 0, 0, 0, 0, 0, 0, 0, 0, 0, 0, 0, 3],
    },
];

fn make<B: CtrStore>(rt: &impl Abort, store: &mut B, step: Move) {
    match step {
        Move::Calls(first, last) => {
            for n in first..=last {
                store.push(super::slot(n % 1000));
            }
        }
        Move::Returns(count) => {
            for _ in 0..count {
                store.pop();
            }
        }
        Move::Swap(n) => store.swap(super::slot(n % 1000)),
        Move::Clear => store.clear(),
        Move::To(depth) => store.set_depth(depth),
        Move::Turn(w) => {
            assert!(rt; u16::from(w) < entries(store.depth()));
            store.set_wrptr(w);
        }
        Move::Write(i, word) => {
            assert!(rt; i < entries(store.depth()));
            let written = store.slot(i).with_part(Part::Source, word);
            store.set_slot(i, written);
        }
    }
}

fn leaves<B: CtrStore + Drop>(rt: &impl Abort, case: &Case) {
    let name = case.name;
    let mut store: B = CtrStore::fresh(case.depth);
    for step in case.moves {
        make(rt, &mut store, *step);
    }
    for i in 0..entries(store.depth()) {
        assert!(rt; i < entries(store.depth()));
        let there = store.slot(i);
        let want = match case.left.get(usize::from(i)) {
            Some(n) => *n,
            None => 0,
        };
        if want == 0 {
            assert!(rt; !there.is_valid(), "V of slot {i} after {name}");
        } else {
            assert_eq!(rt; there, super::slot(want % 1000), "slot {i} after {name}");
        }
    }
}

#[test]
fn the_calls_that_a_count_leaves_are_the_slots_with_v(rt: HostRuntime) {
    for case in COUNTED {
        leaves::<ListStore>(&rt, &case);
        leaves::<RingStore>(&rt, &case);
    }
}

#[test]
fn written_slots_and_pointers_leave_what_the_events_say(rt: HostRuntime) {
    for case in WRITTEN {
        leaves::<ListStore>(&rt, &case);
        leaves::<RingStore>(&rt, &case);
    }
}
