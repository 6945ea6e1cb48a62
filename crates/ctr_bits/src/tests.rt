//! Fields and signs at their bounds.

use crate::{Field, field_laws, mask_laws, sext, sext_laws};

// The word 0xFE5FF06F is `jal x0, -28`, taken apart by hand from the format J of the Unprivileged ISA.
#[test]
fn a_field_is_read_where_the_manual_draws_it(rt: HostRuntime) {
    let word = 0xFE5F_F06F;
    assert_eq!(rt; Field::<0, 7>::get(word), 0x6F, "opcode");
    assert_eq!(rt; Field::<7, 5>::get(word), 0, "rd");
    assert_eq!(rt; Field::<12, 8>::get(word), 0xFF, "imm[19:12]");
    assert_eq!(rt; Field::<20, 1>::get(word), 1, "imm[11]");
    assert_eq!(rt; Field::<21, 10>::get(word), 0x3F2, "imm[10:1]");
    assert_eq!(rt; Field::<31, 1>::get(word), 1, "imm[20]");
    assert_eq!(rt; Field::<0, 64>::get(u64::MAX), u64::MAX, "the whole word");
    assert_eq!(rt; Field::<63, 1>::get(1 << 63), 1, "the highest bit");
}

#[test]
fn a_put_changes_its_field_alone(rt: HostRuntime) {
    assert_eq!(rt;
        Field::<11, 2>::put(0xFFFF, 1),
        0xEFFF,
        "MPP of a word of ones"
    );
    assert_eq!(rt; Field::<11, 2>::put(0, 3), 0x1800, "MPP of a word of zeros");
    assert_eq!(rt;
        Field::<0, 64>::put(5, u64::MAX),
        u64::MAX,
        "the whole word"
    );
    assert_eq!(rt;
        Field::<63, 1>::put(u64::MAX, 0),
        u64::MAX >> 1,
        "the highest bit"
    );
}

#[test]
fn the_sign_bit_fills_the_bits_above_it(rt: HostRuntime) {
    for (value, bits, want) in [
        (0x7FF, 12, 0x7FF), // the greatest of 12 bits
        (0x800, 12, 0xFFFF_FFFF_FFFF_F800), // the least, -2048
        (0xFFF, 12, 0xFFFF_FFFF_FFFF_FFFF), // -1
        (0x1F_FFE4, 21, 0xFFFF_FFFF_FFFF_FFE4), // -28, the offset of a jump
        (1, 1, 0xFFFF_FFFF_FFFF_FFFF), // one bit is a sign
        (0, 1, 0),
        (0x8000_0000, 32, 0xFFFF_FFFF_8000_0000),
        (0x8000_0000_0000_0000, 64, 0x8000_0000_0000_0000),
    ] {
        assert!(rt; bits >= 1 && bits <= 64 && value >> (bits - 1) <= 1);
        assert_eq!(rt; sext(value, bits), want, "{value:x} of {bits} bits");
    }
}

#[test]
fn the_laws_do_no_work(rt: HostRuntime) {
    field_laws();
    mask_laws();
    sext_laws();
}
