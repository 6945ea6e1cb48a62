//! The bits of each register, and each depth with its code.

use super::*;

// Each bit with the word that has it alone, by the register figure of mctrctl (RISC-V Control
// Transfer Records 1.0).
const FIGURE: [(ControlBit, u64); 21] = [
    (ControlBit::U, 0x1),
    (ControlBit::S, 0x2),
    (ControlBit::M, 0x4),
    (ControlBit::Rasemu, 0x80),
    (ControlBit::Ste, 0x100),
    (ControlBit::Mte, 0x200),
    (ControlBit::Bpfrz, 0x800),
    (ControlBit::Lcofifrz, 0x1000),
    (ControlBit::Excinh, 0x2_0000_0000),
    (ControlBit::Intrinh, 0x4_0000_0000),
    (ControlBit::Tretinh, 0x8_0000_0000),
    (ControlBit::Ntbren, 0x10_0000_0000),
    (ControlBit::Tkbrinh, 0x20_0000_0000),
    (ControlBit::Indcallinh, 0x100_0000_0000),
    (ControlBit::Dircallinh, 0x200_0000_0000),
    (ControlBit::Indjmpinh, 0x400_0000_0000),
    (ControlBit::Dirjmpinh, 0x800_0000_0000),
    (ControlBit::Corswapinh, 0x1000_0000_0000),
    (ControlBit::Retinh, 0x2000_0000_0000),
    (ControlBit::Indljmpinh, 0x4000_0000_0000),
    (ControlBit::Dirljmpinh, 0x8000_0000_0000),
];

#[test]
fn each_bit_stands_where_the_figure_has_it(rt: HostRuntime) {
    for (bit, word) in FIGURE {
        assert!(rt; legal_m(word).on(bit), "{bit:?} of its own word");
        assert!(rt; !legal_m(!word).on(bit), "{bit:?} of every other bit");
        assert_eq!(rt; legal_m(word).word(), word, "{bit:?} is built");
    }
}

// The register figures of mctrctl, sctrctl and vsctrctl.
#[test]
fn each_register_keeps_its_own_bits(rt: HostRuntime) {
    let all = legal_m(u64::MAX);
    let none = legal_m(0);
    for (word, want, what) in [
        (all.word(), 0xFF3E00001B87, "mctrctl has every bit"),
        (
            legal_vs(u64::MAX).word(),
            0xFF3E00001983,
            "vsctrctl has no M and no MTE",
        ),
        (view_s(all), 0xFF3E00001983, "sctrctl shows no M and no MTE"),
        (
            legal_s(none, u64::MAX).word(),
            0xFF3E00001983,
            "a write of sctrctl doesn't set M and MTE",
        ),
        (legal_s(all, 0).word(), 0x204, "nor does it clear them"),
        (
            legal_s(legal_m(0x200), 0x4).word(),
            0x200,
            "each of the two stays by itself",
        ),
    ] {
        assert_eq!(rt; word, want, "{what}");
    }
}

// The register sctrdepth and its table of depths.
#[test]
fn five_codes_name_the_five_depths(rt: HostRuntime) {
    for (code, depth, size) in [
        (0, Depth::D16, 16),
        (1, Depth::D32, 32),
        (2, Depth::D64, 64),
        (3, Depth::D128, 128),
        (4, Depth::D256, 256),
    ] {
        assert_eq!(rt; depth_of(code), Some(depth), "code {code}");
        assert_eq!(rt; depth_code(depth), code, "{depth:?}");
        assert_eq!(rt; entries(depth), size, "{depth:?}");
    }
    for code in [5, 6, 7, 8, u64::MAX] {
        assert_eq!(rt; depth_of(code), None, "code {code} is reserved, or none");
    }
}

// The register figure of sctrstatus.
#[test]
fn a_status_word_has_the_pointer_low_and_frozen_in_bit_31(rt: HostRuntime) {
    for (wrptr, frozen, word) in [(0, false, 0), (255, false, 255), (1, true, 0x80000001)] {
        assert_eq!(rt;
            status_word(Status { wrptr, frozen }),
            word,
            "{wrptr} {frozen}"
        );
    }
    for (value, depth, wrptr, frozen) in [
        (0x80000001, Depth::D16, 1, true),
        (0x7FFFFF1F, Depth::D16, 15, false), // bits 7:0 are 31, which is 15 modulo 16
        (0x1F, Depth::D32, 31, false),
        (0x10, Depth::D16, 0, false), // the depth itself is 0
        (0x1_0000_0100, Depth::D256, 0, false), // bit 8 and bit 32 count for nothing
        (u64::MAX, Depth::D256, 255, true),
        (u64::MAX, Depth::D128, 127, true),
    ] {
        assert_eq!(rt;
            status_of(value, depth),
            Status { wrptr, frozen },
            "{value:x} at {depth:?}"
        );
    }
    register_laws();
    trap_laws();
}
