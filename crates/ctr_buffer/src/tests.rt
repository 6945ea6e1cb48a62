//! Both stores, event by event.

ghost use Rattle.std.specs.Prelude.{◌≡◌, ◌<◌, true};
ghost use Rattle.ctr_buffer.specs.Entry.{is_valid};

use super::*;
use ctr_csrs::{Depth, depth_of, entries};
use std::process::Abort;

mod unreturned;

// The slot of a call from the address 2n to 2n, by which it is told from the others.
fn slot(n: u64) -> Slot
    requires { n < 1000 }
    ensures { is_valid result ≡ true }
{
    entry_laws();
    Slot::of(2 * n, 2 * n, false, 8)
}

// The same, mispredicted.
fn missed(n: u64) -> Slot
    requires { n < 1000 }
    ensures { is_valid result ≡ true }
{
    entry_laws();
    Slot::of(2 * n, 2 * n, true, 8)
}

// RISC-V Control Transfer Records 1.0, "Entry Registers".
fn pushes<B: CtrStore + Drop>(rt: &impl Abort) {
    for depth in [Depth::D16, Depth::D32, Depth::D64, Depth::D128, Depth::D256] {
        let mut store: B = CtrStore::fresh(depth);
        let size = entries(depth);
        assert_eq!(rt; store.depth(), depth);
        for n in 0..=u64::from(size) {
            store.push(slot(n));
        }
        assert!(rt; size == entries(store.depth()));
        assert_eq!(rt;
            store.slot(0),
            slot(u64::from(size)),
            "the youngest at {depth:?}"
        );
        assert_eq!(rt; store.slot(size - 1), slot(1), "the oldest at {depth:?}");
        assert_eq!(rt; store.wrptr(), 1, "one more than the depth, at {depth:?}");
    }
}

#[test]
fn a_push_comes_first_and_the_oldest_is_lost_at_the_depth(rt: HostRuntime) {
    pushes::<ListStore>(&rt);
    pushes::<RingStore>(&rt);
}

// RISC-V Control Transfer Records 1.0, register sctrstatus: WRPTR, and register sctrdepth.
fn turns_two<B: CtrStore + Drop>(rt: &impl Abort) {
    let mut store: B = CtrStore::fresh(Depth::D16);
    store.push(slot(1));
    store.push(slot(2));
    store.set_wrptr(1);
    assert_eq!(rt; store.slot(0), slot(1), "the first that was pushed");
    assert_eq!(rt; store.slot(15), slot(2), "the second");
    assert_eq!(rt; store.wrptr(), 1);
    store.set_depth(Depth::D16);
    assert_eq!(rt; store.slot(0), slot(1), "the same depth changes nothing");
    store.set_depth(Depth::D32);
    assert_eq!(rt; store.wrptr(), 0);
    for i in 0..32 {
        assert!(rt; i < entries(store.depth()));
        assert_eq!(rt; store.slot(i), Slot::default(), "slot {i} of another depth");
    }
}

#[test]
fn a_write_of_the_pointer_makes_another_slot_the_youngest(rt: HostRuntime) {
    turns_two::<ListStore>(&rt);
    turns_two::<RingStore>(&rt);
}

// For each pointer before (a line) and after (a place in it) at depth 16, the slot that becomes the youngest. Worked out
// by a script of its own: (before - after) modulo 16.
const YOUNGEST: [[u8; 16]; 16] = [
    [0, 15, 14, 13, 12, 11, 10, 9, 8, 7, 6, 5, 4, 3, 2, 1],
    [1, 0, 15, 14, 13, 12, 11, 10, 9, 8, 7, 6, 5, 4, 3, 2],
    [2, 1, 0, 15, 14, 13, 12, 11, 10, 9, 8, 7, 6, 5, 4, 3],
    [3, 2, 1, 0, 15, 14, 13, 12, 11, 10, 9, 8, 7, 6, 5, 4],
    [4, 3, 2, 1, 0, 15, 14, 13, 12, 11, 10, 9, 8, 7, 6, 5],
    [5, 4, 3, 2, 1, 0, 15, 14, 13, 12, 11, 10, 9, 8, 7, 6],
    [6, 5, 4, 3, 2, 1, 0, 15, 14, 13, 12, 11, 10, 9, 8, 7],
    [7, 6, 5, 4, 3, 2, 1, 0, 15, 14, 13, 12, 11, 10, 9, 8],
    [8, 7, 6, 5, 4, 3, 2, 1, 0, 15, 14, 13, 12, 11, 10, 9],
    [9, 8, 7, 6, 5, 4, 3, 2, 1, 0, 15, 14, 13, 12, 11, 10],
    [10, 9, 8, 7, 6, 5, 4, 3, 2, 1, 0, 15, 14, 13, 12, 11],
    [11, 10, 9, 8, 7, 6, 5, 4, 3, 2, 1, 0, 15, 14, 13, 12],
    [12, 11, 10, 9, 8, 7, 6, 5, 4, 3, 2, 1, 0, 15, 14, 13],
    [13, 12, 11, 10, 9, 8, 7, 6, 5, 4, 3, 2, 1, 0, 15, 14],
    [14, 13, 12, 11, 10, 9, 8, 7, 6, 5, 4, 3, 2, 1, 0, 15],
    [15, 14, 13, 12, 11, 10, 9, 8, 7, 6, 5, 4, 3, 2, 1, 0],
];

// The slots that follow each other, twice round.
const ROUND: [u8; 32] = [
    0, 1, 2, 3, 4, 5, 6, 7, 8, 9, 10, 11, 12, 13, 14, 15, 0, 1, 2, 3, 4, 5, 6, 7, 8, 9, 10, 11, 12,
    13, 14, 15,
];

fn turns_sixteen<B: CtrStore + Drop>(rt: &impl Abort) {
    for before in 0..16 {
        for after in 0..16 {
            let mut store: B = CtrStore::fresh(Depth::D16);
            assert!(rt; u16::from(before) < entries(store.depth()));
            store.set_wrptr(before);
            for n in 0..16 {
                assert!(rt; n < entries(store.depth()));
                store.set_slot(n, slot(u64::from(n)));
            }
            assert!(rt; u16::from(after) < entries(store.depth()));
            store.set_wrptr(after);
            assert_eq!(rt; store.wrptr(), after);
            for i in 0..16 {
                let at = usize::from(YOUNGEST[usize::from(before)][usize::from(after)])
                    + usize::from(i);
                assert!(rt; i < entries(store.depth()) && at < 32);
                let want = slot(u64::from(ROUND[at]));
                assert_eq!(rt; store.slot(i), want, "slot {i} from {before} to {after}");
            }
        }
    }
}

#[test]
fn every_pair_of_pointers_turns_sixteen_slots_by_the_table(rt: HostRuntime) {
    turns_sixteen::<ListStore>(&rt);
    turns_sixteen::<RingStore>(&rt);
}

fn turns_at_the_ends<B: CtrStore + Drop>(rt: &impl Abort) {
    for (before, after, youngest, oldest) in [
        (0, 0, 0, 255),
        (255, 255, 0, 255),
        (0, 255, 1, 0), // back over the end
        (255, 0, 255, 254), // on over the end
        (1, 0, 1, 0),
        (0, 1, 255, 254),
        (255, 1, 254, 253),
        (1, 255, 2, 1),
        (128, 0, 128, 127),
    ] {
        let mut store: B = CtrStore::fresh(Depth::D256);
        assert!(rt; u16::from(before) < entries(store.depth()));
        store.set_wrptr(before);
        for n in 0..256 {
            assert!(rt; n < entries(store.depth()));
            store.set_slot(n, slot(u64::from(n)));
        }
        assert!(rt; u16::from(after) < entries(store.depth()));
        store.set_wrptr(after);
        assert!(rt; entries(store.depth()) == 256);
        assert_eq!(rt;
            store.slot(0),
            slot(youngest),
            "the youngest from {before} to {after}"
        );
        assert_eq!(rt;
            store.slot(255),
            slot(oldest),
            "the oldest from {before} to {after}"
        );
    }
}

#[test]
fn the_greatest_depth_turns_at_its_ends(rt: HostRuntime) {
    turns_at_the_ends::<ListStore>(&rt);
    turns_at_the_ends::<RingStore>(&rt);
}

// RISC-V Control Transfer Records 1.0, "RAS Emulation Mode" and "Entry Registers".
fn follows_a_history<B: CtrStore + Drop>(rt: &impl Abort) {
    let history = [
        Event::Push(slot(1)),
        Event::Push(slot(2)),
        Event::Push(slot(3)),
        Event::Pop, // slot 3 goes to the end without V
        Event::Swap(slot(4)), // in the place of slot 2
        Event::Poke(1, Part::Source, 0x10), // slot 1 loses V and gets another address
        Event::Poke(1, Part::Target, 0x20),
        Event::Poke(1, Part::Kind, 15),
    ];
    let store: B = replay(Depth::D16, &history);
    assert!(rt; entries(store.depth()) == 16);
    let poked = Slot {
        source: 0x10,
        target: 0x20,
        kind: 15,
    };
    let popped = Slot {
        source: 6,
        target: 6,
        kind: 8,
    };
    for (i, want, what) in [
        (0, slot(4), "the swap"),
        (1, poked, "each part that was poked"),
        (2, Slot::default(), "nothing else was recorded"),
        (14, Slot::default(), "nor here"),
        (15, popped, "what was popped, with V cleared"),
    ] {
        assert_eq!(rt; store.slot(i), want, "{what}");
    }
    assert_eq!(rt; store.wrptr(), 2, "three pushes less one pop");
}

#[test]
fn a_history_leaves_what_its_events_say(rt: HostRuntime) {
    follows_a_history::<ListStore>(&rt);
    follows_a_history::<RingStore>(&rt);
}

// RISC-V Control Transfer Records 1.0, "Supervisor CTR Clear Instruction" and register sctrdepth.
fn clears<B: CtrStore + Drop>(rt: &impl Abort) {
    let history = [Event::Push(slot(1)), Event::Push(slot(2)), Event::Clear];
    let mut store: B = replay(Depth::D16, &history);
    assert_eq!(rt; store.wrptr(), 2);
    assert!(rt; entries(store.depth()) == 16);
    assert_eq!(rt; store.slot(0), Slot::default());
    perform_all(&mut store, &[Event::Turn(9), Event::Pop]);
    assert_eq!(rt; store.wrptr(), 8, "one less than where the turn set it");
    perform(&mut store, Event::SetDepth(Depth::D256));
    perform(&mut store, Event::Pop);
    assert_eq!(rt; store.wrptr(), 255, "one less than 0, modulo 256");
    history_laws();
}

// RISC-V Control Transfer Records 1.0, "RAS Emulation Mode" and registers ctrsource and ctrtarget.
fn keeps_the_flag<B: CtrStore + Drop>(rt: &impl Abort) {
    let history = [
        Event::Push(missed(1)),
        Event::Push(missed(2)),
        Event::Pop, // slot 2 keeps MISP and loses V
        Event::Swap(missed(3)), // in the place of slot 1
        Event::Poke(1, Part::Target, 0xFFFF_FFFF_FFFF_FFFF),
        Event::Poke(2, Part::Source, 0xFFFF_FFFF_FFFF_FFFE),
    ];
    let store: B = replay(Depth::D16, &history);
    assert!(rt; entries(store.depth()) == 16);
    for (i, source, target, what) in [
        (0, 7, 7, "the swap"),
        (
            1,
            0,
            0xFFFF_FFFF_FFFF_FFFF,
            "the target word keeps all 64 bits",
        ),
        (2, 0xFFFF_FFFF_FFFF_FFFE, 0, "and so does the source word"),
        (15, 4, 5, "what was popped: V is clear, MISP stays"),
    ] {
        let slot = store.slot(i);
        assert_eq!(rt; slot.source, source, "source word of slot {i}: {what}");
        assert_eq!(rt; slot.target, target, "target word of slot {i}: {what}");
    }
}

#[test]
fn a_swap_a_pop_and_a_write_leave_the_misprediction_flag_to_the_entry(rt: HostRuntime) {
    keeps_the_flag::<ListStore>(&rt);
    keeps_the_flag::<RingStore>(&rt);
}

// RISC-V Control Transfer Records 1.0, registers ctrsource and ctrtarget.
#[test]
fn the_words_of_a_slot_are_read_as_v_misp_and_addresses(rt: HostRuntime) {
    for (source, target, valid, mispredicted, from, to) in [
        (0, 0, false, false, 0, 0),
        (1, 0, true, false, 0, 0), // a source that was left out is recorded as 0
        (2, 1, false, true, 2, 0), // an even source holds no transfer, whatever it is
        (
            0x8000_0001,
            0x8000_0005,
            true,
            true,
            0x8000_0000,
            0x8000_0004,
        ),
        (
            0xFFFF_FFFF_FFFF_FFFE,
            3,
            false,
            true,
            0xFFFF_FFFF_FFFF_FFFE,
            2,
        ),
        (
            0xFFFF_FFFF_FFFF_FFFF,
            0xFFFF_FFFF_FFFF_FFFF,
            true,
            true,
            0xFFFF_FFFF_FFFF_FFFE,
            0xFFFF_FFFF_FFFF_FFFE,
        ),
    ] {
        let slot = Slot {
            source,
            target,
            kind: 0,
        };
        assert_eq!(rt; slot.is_valid(), valid, "V of {source:#x}");
        assert_eq!(rt; slot.is_mispredicted(), mispredicted, "MISP of {target:#x}");
        assert_eq!(rt; slot.source_address(), from, "the address in {source:#x}");
        assert_eq!(rt; slot.target_address(), to, "the address in {target:#x}");
    }
}

#[test]
fn clearing_keeps_the_pointer_and_another_depth_does_not(rt: HostRuntime) {
    clears::<ListStore>(&rt);
    clears::<RingStore>(&rt);
}

// A call that the number picks: mostly pushes, and now and then a clear or another depth.
fn call<B: CtrStore>(store: &mut B, number: u64) {
    let size = entries(store.depth());
    let next = number / 1024;
    let new = slot(next % 1000);
    match number % 1024 {
        0 => store.clear(),
        1..=4 => {
            if let Some(depth) = depth_of(next % 5) {
                store.set_depth(depth);
            }
        }
        5..=200 => store.pop(),
        201..=250 => store.swap(new),
        251..=300 => store.set_wrptr((next % u64::from(size)) as u8),
        301..=400 => store.set_slot((next % u64::from(size)) as u16, new),
        _ => store.push(new),
    }
}

// The two stores hold the same at every slot.
fn agree(rt: &impl Abort, list: &ListStore, ring: &RingStore, step: u64) {
    assert_eq!(rt; ring.wrptr(), list.wrptr(), "WRPTR after call {step}");
    assert_eq!(rt; ring.depth(), list.depth(), "the depth after call {step}");
    for i in 0..entries(list.depth()) {
        assert!(rt; i < entries(ring.depth()));
        assert_eq!(rt; ring.slot(i), list.slot(i), "slot {i} after call {step}");
    }
}

#[test]
fn a_ring_and_a_list_hold_the_same_after_each_of_5000_calls(rt: HostRuntime) {
    let mut list: ListStore = CtrStore::fresh(Depth::D16);
    let mut ring: RingStore = CtrStore::fresh(Depth::D16);
    let mut state = 1u64;
    for step in 0..5000 {
        state = state
            .wrapping_mul(6_364_136_223_846_793_005)
            .wrapping_add(1_442_695_040_888_963_407);
        call(&mut list, state / 65536);
        call(&mut ring, state / 65536);
        agree(&rt, &list, &ring, step);
    }
}
