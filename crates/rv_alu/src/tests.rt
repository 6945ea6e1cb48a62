// The operations of the Unprivileged ISA, RV64I and the extension M. The values are those that
// bench/alu_edges.py prints: it computes them on whole numbers.
use crate::{apply, division_laws, product_laws, size_laws, taken};
use rv_decode::{AluOp, Cond};

const ONES: u64 = 0xFFFF_FFFF_FFFF_FFFF;

const LEAST: u64 = 0x8000_0000_0000_0000;

const GREATEST: u64 = 0x7FFF_FFFF_FFFF_FFFF;

const ONES_32: u64 = 0xFFFF_FFFF;

const BIT_31: u64 = 0x8000_0000;

const LEAST_32: u64 = 0xFFFF_FFFF_8000_0000;

const GREATEST_32: u64 = 0x7FFF_FFFF;

#[test]
fn sums_and_differences_wrap(rt: HostRuntime) {
    for (op, a, b, want) in [
        (AluOp::Add, 0, 0, 0),
        (AluOp::Add, ONES, 1, 0),
        (AluOp::Add, GREATEST, 1, LEAST),
        (AluOp::Add, LEAST, ONES, GREATEST),
        (AluOp::Add, LEAST, LEAST, 0),
        (AluOp::Add, GREATEST_32, 1, BIT_31),
        (AluOp::Add, ONES_32, 1, 0x0000_0001_0000_0000),
        (AluOp::Add, 0, LEAST_32, LEAST_32),
        (AluOp::Sub, 0, 0, 0),
        (AluOp::Sub, ONES, 1, 0xFFFF_FFFF_FFFF_FFFE),
        (AluOp::Sub, GREATEST, 1, 0x7FFF_FFFF_FFFF_FFFE),
        (AluOp::Sub, LEAST, ONES, 0x8000_0000_0000_0001),
        (AluOp::Sub, LEAST, LEAST, 0),
        (AluOp::Sub, GREATEST_32, 1, 0x0000_0000_7FFF_FFFE),
        (AluOp::Sub, ONES_32, 1, 0x0000_0000_FFFF_FFFE),
        (AluOp::Sub, 0, LEAST_32, BIT_31),
        (AluOp::Addw, 0, 0, 0),
        (AluOp::Addw, ONES, 1, 0),
        (AluOp::Addw, GREATEST, 1, 0),
        (AluOp::Addw, LEAST, ONES, ONES),
        (AluOp::Addw, LEAST, LEAST, 0),
        (AluOp::Addw, GREATEST_32, 1, LEAST_32),
        (AluOp::Addw, ONES_32, 1, 0),
        (AluOp::Addw, 0, LEAST_32, LEAST_32),
        (AluOp::Subw, 0, 0, 0),
        (AluOp::Subw, ONES, 1, 0xFFFF_FFFF_FFFF_FFFE),
        (AluOp::Subw, GREATEST, 1, 0xFFFF_FFFF_FFFF_FFFE),
        (AluOp::Subw, LEAST, ONES, 1),
        (AluOp::Subw, LEAST, LEAST, 0),
        (AluOp::Subw, GREATEST_32, 1, 0x0000_0000_7FFF_FFFE),
        (AluOp::Subw, ONES_32, 1, 0xFFFF_FFFF_FFFF_FFFE),
        (AluOp::Subw, 0, LEAST_32, LEAST_32),
    ] {
        assert_eq!(rt; apply(op, a, b), want, "{op:?} {a:x} {b:x}");
    }
}

#[test]
fn bits_are_joined_one_by_one(rt: HostRuntime) {
    for (op, a, b, want) in [
        (AluOp::Xor, ONES, LEAST, GREATEST),
        (AluOp::Xor, GREATEST, ONES_32, 0x7FFF_FFFF_0000_0000),
        (AluOp::Xor, LEAST_32, GREATEST_32, ONES),
        (AluOp::Xor, 0, ONES, ONES),
        (AluOp::Or, ONES, LEAST, ONES),
        (AluOp::Or, GREATEST, ONES_32, GREATEST),
        (AluOp::Or, LEAST_32, GREATEST_32, ONES),
        (AluOp::Or, 0, ONES, ONES),
        (AluOp::And, ONES, LEAST, LEAST),
        (AluOp::And, GREATEST, ONES_32, ONES_32),
        (AluOp::And, LEAST_32, GREATEST_32, 0),
        (AluOp::And, 0, ONES, 0),
    ] {
        assert_eq!(rt; apply(op, a, b), want, "{op:?} {a:x} {b:x}");
    }
}

#[test]
fn signed_and_unsigned_orders_differ_at_the_edges(rt: HostRuntime) {
    for (op, a, b, want) in [
        (AluOp::Slt, 0, 0, 0),
        (AluOp::Slt, ONES, 0, 1), // -1 is below 0
        (AluOp::Slt, 0, ONES, 0),
        (AluOp::Slt, LEAST, GREATEST, 1),
        (AluOp::Slt, GREATEST, LEAST, 0),
        (AluOp::Slt, LEAST_32, GREATEST_32, 1),
        (AluOp::Slt, ONES, ONES, 0),
        (AluOp::Sltu, 0, 0, 0),
        (AluOp::Sltu, ONES, 0, 0), // the greatest unsigned isn't
        (AluOp::Sltu, 0, ONES, 1),
        (AluOp::Sltu, LEAST, GREATEST, 0),
        (AluOp::Sltu, GREATEST, LEAST, 1),
        (AluOp::Sltu, LEAST_32, GREATEST_32, 0),
        (AluOp::Sltu, ONES, ONES, 0),
    ] {
        assert_eq!(rt; apply(op, a, b), want, "{op:?} {a:x} {b:x}");
    }
}

#[test]
fn shifts_take_the_low_6_bits_of_the_amount(rt: HostRuntime) {
    for (op, a, b, want) in [
        (AluOp::Sll, 1, 0, 1),
        (AluOp::Sll, 1, 31, BIT_31),
        (AluOp::Sll, 1, 32, 0x0000_0001_0000_0000),
        (AluOp::Sll, 1, 63, LEAST),
        (AluOp::Sll, 1, 64, 1), // 64 counts as 0
        (AluOp::Sll, LEAST, 0, LEAST),
        (AluOp::Sll, LEAST, 31, 0),
        (AluOp::Sll, LEAST, 32, 0),
        (AluOp::Sll, LEAST, 63, 0),
        (AluOp::Sll, LEAST, 64, LEAST),
        (AluOp::Sll, LEAST_32, 0, LEAST_32),
        (AluOp::Sll, LEAST_32, 31, 0xC000_0000_0000_0000),
        (AluOp::Sll, LEAST_32, 32, LEAST),
        (AluOp::Sll, LEAST_32, 63, 0),
        (AluOp::Sll, LEAST_32, 64, LEAST_32),
        (AluOp::Srl, 1, 0, 1),
        (AluOp::Srl, 1, 31, 0),
        (AluOp::Srl, 1, 32, 0),
        (AluOp::Srl, 1, 63, 0),
        (AluOp::Srl, 1, 64, 1),
        (AluOp::Srl, LEAST, 0, LEAST),
        (AluOp::Srl, LEAST, 31, 0x0000_0001_0000_0000),
        (AluOp::Srl, LEAST, 32, BIT_31),
        (AluOp::Srl, LEAST, 63, 1),
        (AluOp::Srl, LEAST, 64, LEAST),
        (AluOp::Srl, LEAST_32, 0, LEAST_32),
        (AluOp::Srl, LEAST_32, 31, 0x0000_0001_FFFF_FFFF),
        (AluOp::Srl, LEAST_32, 32, ONES_32),
        (AluOp::Srl, LEAST_32, 63, 1),
        (AluOp::Srl, LEAST_32, 64, LEAST_32),
        (AluOp::Sra, 1, 0, 1),
        (AluOp::Sra, 1, 31, 0),
        (AluOp::Sra, 1, 32, 0),
        (AluOp::Sra, 1, 63, 0),
        (AluOp::Sra, 1, 64, 1),
        (AluOp::Sra, LEAST, 0, LEAST),
        (AluOp::Sra, LEAST, 31, 0xFFFF_FFFF_0000_0000),
        (AluOp::Sra, LEAST, 32, LEAST_32),
        (AluOp::Sra, LEAST, 63, ONES),
        (AluOp::Sra, LEAST, 64, LEAST),
        (AluOp::Sra, LEAST_32, 0, LEAST_32),
        (AluOp::Sra, LEAST_32, 31, ONES),
        (AluOp::Sra, LEAST_32, 32, ONES),
        (AluOp::Sra, LEAST_32, 63, ONES),
        (AluOp::Sra, LEAST_32, 64, LEAST_32),
    ] {
        assert_eq!(rt; apply(op, a, b), want, "{op:?} {a:x} {b:x}");
    }
}

#[test]
fn shifts_of_32_bits_take_the_low_5_bits_of_the_amount(rt: HostRuntime) {
    for (op, a, b, want) in [
        (AluOp::Sllw, 1, 0, 1),
        (AluOp::Sllw, 1, 31, LEAST_32),
        (AluOp::Sllw, 1, 32, 1), // 32 counts as 0
        (AluOp::Sllw, 1, 63, LEAST_32),
        (AluOp::Sllw, 1, 64, 1),
        (AluOp::Sllw, BIT_31, 0, LEAST_32),
        (AluOp::Sllw, BIT_31, 31, 0),
        (AluOp::Sllw, BIT_31, 32, LEAST_32),
        (AluOp::Sllw, BIT_31, 63, 0),
        (AluOp::Sllw, BIT_31, 64, LEAST_32),
        (AluOp::Sllw, ONES_32, 0, ONES),
        (AluOp::Sllw, ONES_32, 31, LEAST_32),
        (AluOp::Sllw, ONES_32, 32, ONES),
        (AluOp::Sllw, ONES_32, 63, LEAST_32),
        (AluOp::Sllw, ONES_32, 64, ONES),
        (AluOp::Srlw, 1, 0, 1),
        (AluOp::Srlw, 1, 31, 0),
        (AluOp::Srlw, 1, 32, 1),
        (AluOp::Srlw, 1, 63, 0),
        (AluOp::Srlw, 1, 64, 1),
        (AluOp::Srlw, BIT_31, 0, LEAST_32), // a result with bit 31 is sign-extended
        (AluOp::Srlw, BIT_31, 31, 1),
        (AluOp::Srlw, BIT_31, 32, LEAST_32),
        (AluOp::Srlw, BIT_31, 63, 1),
        (AluOp::Srlw, BIT_31, 64, LEAST_32),
        (AluOp::Srlw, ONES_32, 0, ONES),
        (AluOp::Srlw, ONES_32, 31, 1),
        (AluOp::Srlw, ONES_32, 32, ONES),
        (AluOp::Srlw, ONES_32, 63, 1),
        (AluOp::Srlw, ONES_32, 64, ONES),
        (AluOp::Sraw, 1, 0, 1),
        (AluOp::Sraw, 1, 31, 0),
        (AluOp::Sraw, 1, 32, 1),
        (AluOp::Sraw, 1, 63, 0),
        (AluOp::Sraw, 1, 64, 1),
        (AluOp::Sraw, BIT_31, 0, LEAST_32),
        (AluOp::Sraw, BIT_31, 31, ONES), // bit 31 is the sign
        (AluOp::Sraw, BIT_31, 32, LEAST_32),
        (AluOp::Sraw, BIT_31, 63, ONES),
        (AluOp::Sraw, BIT_31, 64, LEAST_32),
        (AluOp::Sraw, ONES_32, 0, ONES),
        (AluOp::Sraw, ONES_32, 31, ONES),
        (AluOp::Sraw, ONES_32, 32, ONES),
        (AluOp::Sraw, ONES_32, 63, ONES),
        (AluOp::Sraw, ONES_32, 64, ONES),
    ] {
        assert_eq!(rt; apply(op, a, b), want, "{op:?} {a:x} {b:x}");
    }
}

#[test]
fn products_have_128_bits(rt: HostRuntime) {
    for (op, a, b, want) in [
        (AluOp::Mul, 0, ONES, 0),
        (AluOp::Mul, ONES, ONES, 1),
        (AluOp::Mul, LEAST, LEAST, 0),
        (AluOp::Mul, LEAST, ONES, LEAST),
        (AluOp::Mul, GREATEST, GREATEST, 1),
        (AluOp::Mul, ONES, 2, 0xFFFF_FFFF_FFFF_FFFE),
        (AluOp::Mul, ONES_32, ONES_32, 0xFFFF_FFFE_0000_0001),
        (AluOp::Mul, BIT_31, 2, 0x0000_0001_0000_0000),
        (AluOp::Mulh, 0, ONES, 0),
        (AluOp::Mulh, ONES, ONES, 0), // -1 times -1
        (AluOp::Mulh, LEAST, LEAST, 0x4000_0000_0000_0000),
        (AluOp::Mulh, LEAST, ONES, 0),
        (AluOp::Mulh, GREATEST, GREATEST, 0x3FFF_FFFF_FFFF_FFFF),
        (AluOp::Mulh, ONES, 2, ONES),
        (AluOp::Mulh, ONES_32, ONES_32, 0),
        (AluOp::Mulh, BIT_31, 2, 0),
        (AluOp::Mulhsu, 0, ONES, 0),
        (AluOp::Mulhsu, ONES, ONES, ONES), // -1 times the greatest unsigned
        (AluOp::Mulhsu, LEAST, LEAST, 0xC000_0000_0000_0000),
        (AluOp::Mulhsu, LEAST, ONES, LEAST),
        (AluOp::Mulhsu, GREATEST, GREATEST, 0x3FFF_FFFF_FFFF_FFFF),
        (AluOp::Mulhsu, ONES, 2, ONES),
        (AluOp::Mulhsu, ONES_32, ONES_32, 0),
        (AluOp::Mulhsu, BIT_31, 2, 0),
        (AluOp::Mulhu, 0, ONES, 0),
        (AluOp::Mulhu, ONES, ONES, 0xFFFF_FFFF_FFFF_FFFE), // both unsigned
        (AluOp::Mulhu, LEAST, LEAST, 0x4000_0000_0000_0000),
        (AluOp::Mulhu, LEAST, ONES, GREATEST),
        (AluOp::Mulhu, GREATEST, GREATEST, 0x3FFF_FFFF_FFFF_FFFF),
        (AluOp::Mulhu, ONES, 2, 1),
        (AluOp::Mulhu, ONES_32, ONES_32, 0),
        (AluOp::Mulhu, BIT_31, 2, 0),
        (AluOp::Mulw, 0, ONES, 0),
        (AluOp::Mulw, ONES, ONES, 1),
        (AluOp::Mulw, LEAST, LEAST, 0),
        (AluOp::Mulw, LEAST, ONES, 0),
        (AluOp::Mulw, GREATEST, GREATEST, 1),
        (AluOp::Mulw, ONES, 2, 0xFFFF_FFFF_FFFF_FFFE),
        (AluOp::Mulw, ONES_32, ONES_32, 1),
        (AluOp::Mulw, BIT_31, 2, 0),
    ] {
        assert_eq!(rt; apply(op, a, b), want, "{op:?} {a:x} {b:x}");
    }
}

#[test]
fn divisions_round_toward_zero_and_refuse_nothing(rt: HostRuntime) {
    for (op, a, b, want) in [
        (AluOp::Div, LEAST, ONES, LEAST), // the one quotient that doesn't fit
        (AluOp::Div, LEAST, 0, ONES), // by zero: all ones
        (AluOp::Div, 0, 0, ONES),
        (AluOp::Div, ONES, 2, 0), // -1 / 2 rounds toward zero
        (AluOp::Div, GREATEST, ONES, 0x8000_0000_0000_0001),
        (AluOp::Div, LEAST, GREATEST, ONES),
        (AluOp::Div, LEAST_32, ONES, BIT_31),
        (AluOp::Div, BIT_31, ONES_32, 0),
        (AluOp::Div, 1, ONES, ONES),
        (AluOp::Divu, LEAST, ONES, 0),
        (AluOp::Divu, LEAST, 0, ONES),
        (AluOp::Divu, 0, 0, ONES),
        (AluOp::Divu, ONES, 2, GREATEST),
        (AluOp::Divu, GREATEST, ONES, 0),
        (AluOp::Divu, LEAST, GREATEST, 1),
        (AluOp::Divu, LEAST_32, ONES, 0),
        (AluOp::Divu, BIT_31, ONES_32, 0),
        (AluOp::Divu, 1, ONES, 0),
        (AluOp::Rem, LEAST, ONES, 0), // and its remainder
        (AluOp::Rem, LEAST, 0, LEAST), // by zero: the dividend
        (AluOp::Rem, 0, 0, 0),
        (AluOp::Rem, ONES, 2, ONES), // the sign is the dividend's
        (AluOp::Rem, GREATEST, ONES, 0),
        (AluOp::Rem, LEAST, GREATEST, ONES),
        (AluOp::Rem, LEAST_32, ONES, 0),
        (AluOp::Rem, BIT_31, ONES_32, BIT_31),
        (AluOp::Rem, 1, ONES, 0),
        (AluOp::Remu, LEAST, ONES, LEAST),
        (AluOp::Remu, LEAST, 0, LEAST),
        (AluOp::Remu, 0, 0, 0),
        (AluOp::Remu, ONES, 2, 1),
        (AluOp::Remu, GREATEST, ONES, GREATEST),
        (AluOp::Remu, LEAST, GREATEST, 1),
        (AluOp::Remu, LEAST_32, ONES, LEAST_32),
        (AluOp::Remu, BIT_31, ONES_32, BIT_31),
        (AluOp::Remu, 1, ONES, 1),
    ] {
        assert_eq!(rt; apply(op, a, b), want, "{op:?} {a:x} {b:x}");
    }
}

// Unprivileged ISA, extension M: the answers by zero and of the quotient that doesn't fit, and
// upper halves.
#[test]
fn the_answers_that_the_manual_lists_apart(rt: HostRuntime) {
    for (op, a, b, want) in [
        (AluOp::Div, 7, 0, ONES),
        (AluOp::Rem, 7, 0, 7),
        (AluOp::Div, LEAST, ONES, LEAST),
        (AluOp::Rem, LEAST, ONES, 0),
        (AluOp::Divw, BIT_31, ONES, LEAST_32),
        (AluOp::Remw, BIT_31, ONES, 0),
        (AluOp::Divuw, BIT_31, 0, ONES), // all ones of 32 bits, sign-extended
        (AluOp::Mulhu, ONES, ONES, 0xFFFF_FFFF_FFFF_FFFE),
        (AluOp::Mulh, ONES, ONES, 0), // -1 times -1
        (AluOp::Mulhsu, ONES, ONES, ONES), // -1 times 2^64 - 1
    ] {
        assert_eq!(rt; apply(op, a, b), want, "{op:?} {a:x} {b:x}");
    }
}

#[test]
fn divisions_of_32_bits_sign_extend_their_result(rt: HostRuntime) {
    for (op, a, b, want) in [
        (AluOp::Divw, BIT_31, ONES_32, LEAST_32), // the same of 32 bits
        (AluOp::Divw, LEAST_32, ONES, LEAST_32),
        (AluOp::Divw, BIT_31, 0, ONES),
        (AluOp::Divw, 1, 0x100000000, ONES), // by zero in the low 32 bits
        (AluOp::Divw, ONES, 2, 0),
        (AluOp::Divw, GREATEST_32, ONES, 0xFFFF_FFFF_8000_0001),
        (AluOp::Divw, ONES_32, GREATEST_32, 0),
        (AluOp::Divw, LEAST, 1, 0),
        (AluOp::Divuw, BIT_31, ONES_32, 0),
        (AluOp::Divuw, LEAST_32, ONES, 0),
        (AluOp::Divuw, BIT_31, 0, ONES),
        (AluOp::Divuw, 1, 0x100000000, ONES), // by zero in the low 32 bits
        (AluOp::Divuw, ONES, 2, GREATEST_32),
        (AluOp::Divuw, GREATEST_32, ONES, 0),
        (AluOp::Divuw, ONES_32, GREATEST_32, 2),
        (AluOp::Divuw, LEAST, 1, 0),
        (AluOp::Remw, BIT_31, ONES_32, 0), // and its remainder
        (AluOp::Remw, LEAST_32, ONES, 0),
        (AluOp::Remw, BIT_31, 0, LEAST_32),
        (AluOp::Remw, 1, 0x100000000, 1),
        (AluOp::Remw, ONES, 2, ONES),
        (AluOp::Remw, GREATEST_32, ONES, 0),
        (AluOp::Remw, ONES_32, GREATEST_32, ONES),
        (AluOp::Remw, LEAST, 1, 0),
        (AluOp::Remuw, BIT_31, ONES_32, LEAST_32),
        (AluOp::Remuw, LEAST_32, ONES, LEAST_32),
        (AluOp::Remuw, BIT_31, 0, LEAST_32), // by zero: the low 32 bits, sign-extended
        (AluOp::Remuw, 1, 0x100000000, 1),
        (AluOp::Remuw, ONES, 2, 1),
        (AluOp::Remuw, GREATEST_32, ONES, GREATEST_32),
        (AluOp::Remuw, ONES_32, GREATEST_32, 1),
        (AluOp::Remuw, LEAST, 1, 0),
    ] {
        assert_eq!(rt; apply(op, a, b), want, "{op:?} {a:x} {b:x}");
    }
}

#[test]
fn branches_compare_signed_and_unsigned(rt: HostRuntime) {
    for (cond, a, b, want) in [
        (Cond::Eq, 0, 0, true),
        (Cond::Eq, ONES, 0, false),
        (Cond::Eq, 0, ONES, false),
        (Cond::Eq, LEAST, GREATEST, false),
        (Cond::Eq, GREATEST, LEAST, false),
        (Cond::Ne, 0, 0, false),
        (Cond::Ne, ONES, 0, true),
        (Cond::Ne, 0, ONES, true),
        (Cond::Ne, LEAST, GREATEST, true),
        (Cond::Ne, GREATEST, LEAST, true),
        (Cond::Lt, 0, 0, false),
        (Cond::Lt, ONES, 0, true), // signed
        (Cond::Lt, 0, ONES, false),
        (Cond::Lt, LEAST, GREATEST, true),
        (Cond::Lt, GREATEST, LEAST, false),
        (Cond::Ge, 0, 0, true),
        (Cond::Ge, ONES, 0, false),
        (Cond::Ge, 0, ONES, true),
        (Cond::Ge, LEAST, GREATEST, false),
        (Cond::Ge, GREATEST, LEAST, true),
        (Cond::Ltu, 0, 0, false),
        (Cond::Ltu, ONES, 0, false), // unsigned
        (Cond::Ltu, 0, ONES, true),
        (Cond::Ltu, LEAST, GREATEST, false),
        (Cond::Ltu, GREATEST, LEAST, true),
        (Cond::Geu, 0, 0, true),
        (Cond::Geu, ONES, 0, true),
        (Cond::Geu, 0, ONES, false),
        (Cond::Geu, LEAST, GREATEST, true),
        (Cond::Geu, GREATEST, LEAST, false),
    ] {
        assert_eq!(rt; taken(cond, a, b), want, "{cond:?} {a:x} {b:x}");
    }
}

#[test]
fn the_laws_do_no_work(rt: HostRuntime) {
    product_laws();
    division_laws();
    size_laws();
}
