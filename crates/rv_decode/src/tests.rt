// The words and their meanings are those that bench/decode_rows.py prints: LLVM's assembler made
// the words (RISC-V Unprivileged ISA, "RV32/64G Instruction Set Listings"; Privileged Architecture
// and Control Transfer Records 1.0 for MRET, SRET, WFI and SCTRCLR).
use crate::{AluOp, Cond, CsrArg, CsrOp, Instr, Width, decode, table_laws, word_laws};

#[test]
fn upper_immediates_are_read_by_the_format_u(rt: HostRuntime) {
    assert_eq!(rt;
        decode(0x80000FB7),
        Some(Instr::Lui {
            rd: 31,
            imm: 0xFFFF_FFFF_8000_0000
        })
    ); // lui x31, 0x80000
    assert_eq!(rt;
        decode(0x7FFFF517),
        Some(Instr::Auipc {
            rd: 10,
            imm: 0x7FFF_F000
        })
    ); // auipc x10, 0x7ffff
}

#[test]
fn jumps_are_read_by_the_formats_j_and_i(rt: HostRuntime) {
    for (word, rd, off) in [
        (0xFFFFF0EF, 1, 0xFFFF_FFFF_FFFF_FFFE), // jal x1, -2
        (0x7FFFF06F, 0, 0xF_FFFE), // jal x0, 1048574
        (0x00100F6F, 30, 0x800), // jal x30, 2048
    ] {
        assert_eq!(rt; decode(word), Some(Instr::Jal { rd, off }), "{word:08x}");
    }
    assert_eq!(rt;
        decode(0x800280E7),
        Some(Instr::Jalr {
            rd: 1,
            rs1: 5,
            off: 0xFFFF_FFFF_FFFF_F800
        })
    ); // jalr x1, -2048(x5)
}

#[test]
fn branches_are_read_by_the_format_b(rt: HostRuntime) {
    for (word, cond, rs1, rs2, off) in [
        (0x81C18063, Cond::Eq, 3, 28, 0xFFFF_FFFF_FFFF_F000), // beq x3, x28, -4096
        (0x7FF01FE3, Cond::Ne, 0, 31, 0xFFE), // bne x0, x31, 4094
        (0x0068C0E3, Cond::Lt, 17, 6, 0x800), // blt x17, x6, 2048
        (0xFE945FE3, Cond::Ge, 8, 9, 0xFFFF_FFFF_FFFF_FFFE), // bge x8, x9, -2
        (0x021FE063, Cond::Ltu, 31, 1, 0x20), // bltu x31, x1, 32
        (0x01087F63, Cond::Geu, 16, 16, 0x1E), // bgeu x16, x16, 30
    ] {
        assert_eq!(rt;
            decode(word),
            Some(Instr::Branch {
                cond,
                rs1,
                rs2,
                off
            }),
            "{word:08x}"
        );
    }
}

#[test]
fn loads_are_read_by_the_format_i(rt: HostRuntime) {
    for (word, width, signed, rd, rs1, off) in [
        (0x7FF08F83, Width::B, true, 31, 1, 0x7FF), // lb x31, 2047(x1)
        (0x80081103, Width::H, true, 2, 16, 0xFFFF_FFFF_FFFF_F800), // lh x2, -2048(x16)
        (0xFFF42203, Width::W, true, 4, 8, 0xFFFF_FFFF_FFFF_FFFF), // lw x4, -1(x8)
        (0x40023403, Width::D, true, 8, 4, 0x400), // ld x8, 1024(x4)
        (0x00114803, Width::B, false, 16, 2, 0x1), // lbu x16, 1(x2)
        (0x055FD083, Width::H, false, 1, 31, 0x55), // lhu x1, 85(x31)
        (0xFAA56A83, Width::W, false, 21, 10, 0xFFFF_FFFF_FFFF_FFAA), // lwu x21, -86(x10)
    ] {
        assert_eq!(rt;
            decode(word),
            Some(Instr::Load {
                width,
                signed,
                rd,
                rs1,
                off
            }),
            "{word:08x}"
        );
    }
}

#[test]
fn stores_are_read_by_the_format_s(rt: HostRuntime) {
    for (word, width, rs1, rs2, off) in [
        (0x801F8023, Width::B, 31, 1, 0xFFFF_FFFF_FFFF_F800), // sb x1, -2048(x31)
        (0x7F011FA3, Width::H, 2, 16, 0x7FF), // sh x16, 2047(x2)
        (0x00822FA3, Width::W, 4, 8, 0x1F), // sw x8, 31(x4)
        (0x03553023, Width::D, 10, 21, 0x20), // sd x21, 32(x10)
    ] {
        assert_eq!(rt;
            decode(word),
            Some(Instr::Store {
                width,
                rs1,
                rs2,
                off
            }),
            "{word:08x}"
        );
    }
}

#[test]
fn operations_with_an_immediate_are_read_by_the_format_i(rt: HostRuntime) {
    for (word, op, rd, rs1, imm) in [
        (0x80008F93, AluOp::Add, 31, 1, 0xFFFF_FFFF_FFFF_F800), // addi x31, x1, -2048
        (0x7FF82113, AluOp::Slt, 2, 16, 0x7FF), // slti x2, x16, 2047
        (0xFFF43213, AluOp::Sltu, 4, 8, 0xFFFF_FFFF_FFFF_FFFF), // sltiu x4, x8, -1
        (0x05524413, AluOp::Xor, 8, 4, 0x55), // xori x8, x4, 85
        (0xFAA16813, AluOp::Or, 16, 2, 0xFFFF_FFFF_FFFF_FFAA), // ori x16, x2, -86
        (0x400FF093, AluOp::And, 1, 31, 0x400), // andi x1, x31, 1024
        (0x03F51A93, AluOp::Sll, 21, 10, 0x3F), // slli x21, x10, 63
        (0x020AD513, AluOp::Srl, 10, 21, 0x20), // srli x10, x21, 32
        (0x41FFDF93, AluOp::Sra, 31, 31, 0x1F), // srai x31, x31, 31
        (0xFFFC039B, AluOp::Addw, 7, 24, 0xFFFF_FFFF_FFFF_FFFF), // addiw x7, x24, -1
        (0x01F39C1B, AluOp::Sllw, 24, 7, 0x1F), // slliw x24, x7, 31
        (0x0019D61B, AluOp::Srlw, 12, 19, 0x1), // srliw x12, x19, 1
        (0x4106599B, AluOp::Sraw, 19, 12, 0x10), // sraiw x19, x12, 16
    ] {
        assert_eq!(rt;
            decode(word),
            Some(Instr::AluImm { op, rd, rs1, imm }),
            "{word:08x}"
        );
    }
}

#[test]
fn operations_of_registers_are_read_by_the_format_r(rt: HostRuntime) {
    for (word, op, rd, rs1, rs2) in [
        (0x00208FB3, AluOp::Add, 31, 1, 2), // add x31, x1, x2
        (0x402F80B3, AluOp::Sub, 1, 31, 2), // sub x1, x31, x2
        (0x01F110B3, AluOp::Sll, 1, 2, 31), // sll x1, x2, x31
        (0x00442833, AluOp::Slt, 16, 8, 4), // slt x16, x8, x4
        (0x00483433, AluOp::Sltu, 8, 16, 4), // sltu x8, x16, x4
        (0x01024433, AluOp::Xor, 8, 4, 16), // xor x8, x4, x16
        (0x00555AB3, AluOp::Srl, 21, 10, 5), // srl x21, x10, x5
        (0x405AD533, AluOp::Sra, 10, 21, 5), // sra x10, x21, x5
        (0x015562B3, AluOp::Or, 5, 10, 21), // or x5, x10, x21
        (0x01EFF033, AluOp::And, 0, 31, 30), // and x0, x31, x30
        (0x02F381B3, AluOp::Mul, 3, 7, 15), // mul x3, x7, x15
        (0x02F193B3, AluOp::Mulh, 7, 3, 15), // mulh x7, x3, x15
        (0x0237A3B3, AluOp::Mulhsu, 7, 15, 3), // mulhsu x7, x15, x3
        (0x02663C33, AluOp::Mulhu, 24, 12, 6), // mulhu x24, x12, x6
        (0x026C4633, AluOp::Div, 12, 24, 6), // div x12, x24, x6
        (0x03835633, AluOp::Divu, 12, 6, 24), // divu x12, x6, x24
        (0x03D4E8B3, AluOp::Rem, 17, 9, 29), // rem x17, x9, x29
        (0x03D8F4B3, AluOp::Remu, 9, 17, 29), // remu x9, x17, x29
        (0x011E84BB, AluOp::Addw, 9, 29, 17), // addw x9, x29, x17
        (0x40D58B3B, AluOp::Subw, 22, 11, 13), // subw x22, x11, x13
        (0x00DB15BB, AluOp::Sllw, 11, 22, 13), // sllw x11, x22, x13
        (0x0166D5BB, AluOp::Srlw, 11, 13, 22), // srlw x11, x13, x22
        (0x419E573B, AluOp::Sraw, 14, 28, 25), // sraw x14, x28, x25
        (0x03970E3B, AluOp::Mulw, 28, 14, 25), // mulw x28, x14, x25
        (0x02ECCE3B, AluOp::Divw, 28, 25, 14), // divw x28, x25, x14
        (0x037A593B, AluOp::Divuw, 18, 20, 23), // divuw x18, x20, x23
        (0x03796A3B, AluOp::Remw, 20, 18, 23), // remw x20, x18, x23
        (0x032BFA3B, AluOp::Remuw, 20, 23, 18), // remuw x20, x23, x18
    ] {
        assert_eq!(rt;
            decode(word),
            Some(Instr::Alu { op, rd, rs1, rs2 }),
            "{word:08x}"
        );
    }
}

#[test]
fn csr_instructions_take_a_register_or_five_bits(rt: HostRuntime) {
    for (word, op, rd, arg, csr) in [
        (0xFFFF90F3, CsrOp::Write, 1, CsrArg::Reg(31), 0xFFF), // csrrw x1, 0xfff, x31
        (0x34E02FF3, CsrOp::Set, 31, CsrArg::Reg(0), 0x34E), // csrrs x31, 0x34e, x0
        (0x80083073, CsrOp::Clear, 0, CsrArg::Reg(16), 0x800), // csrrc x0, 0x800, x16
        (0x15FFD173, CsrOp::Write, 2, CsrArg::Imm(31), 0x15F), // csrrwi x2, 0x15f, 31
        (0x00106873, CsrOp::Set, 16, CsrArg::Imm(0), 0x001), // csrrsi x16, 0x001, 0
        (0x250AF473, CsrOp::Clear, 8, CsrArg::Imm(21), 0x250), // csrrci x8, 0x250, 21
    ] {
        assert_eq!(rt;
            decode(word),
            Some(Instr::Csr { op, rd, arg, csr }),
            "{word:08x}"
        );
    }
}

#[test]
fn fences_and_the_single_words_have_no_operand(rt: HostRuntime) {
    for (word, want) in [
        (0x0310000F, Instr::Fence), // fence rw, w
        (0x0000100F, Instr::FenceI), // fence.i
        (0x00000073, Instr::Ecall), // ecall
        (0x00100073, Instr::Ebreak), // ebreak
        (0x30200073, Instr::Mret), // mret
        (0x10200073, Instr::Sret), // sret
        (0x10500073, Instr::Wfi), // wfi
        (0x10400073, Instr::CtrClr), // sctrclr
    ] {
        assert_eq!(rt; decode(word), Some(want), "{word:08x}");
    }
}

#[test]
fn a_word_beside_each_row_is_no_instruction(rt: HostRuntime) {
    for word in [
        0x80000FBF, // beside lui x31, 0x80000
        0x7FFFF51F, // beside auipc x10, 0x7ffff
        0xFFFFF0E7, // beside jal x1, -2
        0x7FFFF067, // beside jal x0, 1048574
        0x00100F6B, // beside jal x30, 2048
        0x8002A0E7, // beside jalr x1, -2048(x5)
        0x81C1A063, // beside beq x3, x28, -4096
        0x7FF03FE3, // beside bne x0, x31, 4094
        0x0068C0E7, // beside blt x17, x6, 2048
        0xFE945FE7, // beside bge x8, x9, -2
        0x021FA063, // beside bltu x31, x1, 32
        0x01083F63, // beside bgeu x16, x16, 30
        0x7FF08F87, // beside lb x31, 2047(x1)
        0x80081107, // beside lh x2, -2048(x16)
        0xFFF42207, // beside lw x4, -1(x8)
        0x40027403, // beside ld x8, 1024(x4)
        0x00114807, // beside lbu x16, 1(x2)
        0x055FF083, // beside lhu x1, 85(x31)
        0xFAA57A83, // beside lwu x21, -86(x10)
        0x801FC023, // beside sb x1, -2048(x31)
        0x7F015FA3, // beside sh x16, 2047(x2)
        0x00826FA3, // beside sw x8, 31(x4)
        0x03557023, // beside sd x21, 32(x10)
        0x80008F92, // beside addi x31, x1, -2048
        0x7FF8211B, // beside slti x2, x16, 2047
        0xFFF4321B, // beside sltiu x4, x8, -1
        0x0552441B, // beside xori x8, x4, 85
        0xFAA1681B, // beside ori x16, x2, -86
        0x400FF09B, // beside andi x1, x31, 1024
        0x0BF51A93, // beside slli x21, x10, 63
        0x0A0AD513, // beside srli x10, x21, 32
        0x49FFDF93, // beside srai x31, x31, 31
        0xFFFC239B, // beside addiw x7, x24, -1
        0x09F39C1B, // beside slliw x24, x7, 31
        0x0819D61B, // beside srliw x12, x19, 1
        0x4906599B, // beside sraiw x19, x12, 16
        0x08208FB3, // beside add x31, x1, x2
        0x482F80B3, // beside sub x1, x31, x2
        0x09F110B3, // beside sll x1, x2, x31
        0x08442833, // beside slt x16, x8, x4
        0x08483433, // beside sltu x8, x16, x4
        0x09024433, // beside xor x8, x4, x16
        0x08555AB3, // beside srl x21, x10, x5
        0x485AD533, // beside sra x10, x21, x5
        0x095562B3, // beside or x5, x10, x21
        0x09EFF033, // beside and x0, x31, x30
        0x0AF381B3, // beside mul x3, x7, x15
        0x0AF193B3, // beside mulh x7, x3, x15
        0x0A37A3B3, // beside mulhsu x7, x15, x3
        0x0A663C33, // beside mulhu x24, x12, x6
        0x0A6C4633, // beside div x12, x24, x6
        0x0B835633, // beside divu x12, x6, x24
        0x0BD4E8B3, // beside rem x17, x9, x29
        0x0BD8F4B3, // beside remu x9, x17, x29
        0x091E84BB, // beside addw x9, x29, x17
        0x48D58B3B, // beside subw x22, x11, x13
        0x08DB15BB, // beside sllw x11, x22, x13
        0x0966D5BB, // beside srlw x11, x13, x22
        0x499E573B, // beside sraw x14, x28, x25
        0x0B970E3B, // beside mulw x28, x14, x25
        0x0AECCE3B, // beside divw x28, x25, x14
        0x0B7A593B, // beside divuw x18, x20, x23
        0x0B796A3B, // beside remw x20, x18, x23
        0x0B2BFA3B, // beside remuw x20, x23, x18
        0x0310200F, // beside fence rw, w
        0x0000300F, // beside fence.i
        0xFFFF80F3, // beside csrrw x1, 0xfff, x31
        0x34E00FF3, // beside csrrs x31, 0x34e, x0
        0x80083077, // beside csrrc x0, 0x800, x16
        0x15FFC173, // beside csrrwi x2, 0x15f, 31
        0x00104873, // beside csrrsi x16, 0x001, 0
        0x250AF477, // beside csrrci x8, 0x250, 21
        0x00400073, // beside ecall
        0x00300073, // beside ebreak
        0x30300073, // beside mret
        0x10300073, // beside sret
        0x10700073, // beside wfi
        0x10600073, // beside sctrclr
        0x00000000, // all zeros, which the manual reserves as illegal
        0xFFFFFFFF, // all ones, as well
        0x12000073, // sfence.vma x0, x0, which isn't built
    ] {
        assert_eq!(rt; decode(word), None, "{word:08x}");
    }
}

// RISC-V Unprivileged ISA, "Environment Call and Breakpoints"; Privileged Architecture,
// "Trap-Return Instructions" and "Wait for Interrupt"; Control Transfer Records 1.0, SCTRCLR: the
// figures have 0 in rd and rs1.
#[test]
fn the_single_words_have_neither_rd_nor_rs1(rt: HostRuntime) {
    for word in [
        0x000000F3, // ecall with rd x1
        0x00008073, // ecall with rs1 x1
        0x30200F73, // mret with rd x30
        0x104000F3, // sctrclr with rd x1
        0x10408073, // sctrclr with rs1 x1
    ] {
        assert_eq!(rt; decode(word), None, "{word:08x}");
    }
    // Each bit of rd, 11:7, and of rs1, 19:15.
    for bit in [
        0x80, 0x100, 0x200, 0x400, 0x800, 0x8000, 0x1_0000, 0x2_0000, 0x4_0000, 0x8_0000,
    ] {
        for single in [
            0x00000073, // ecall
            0x00100073, // ebreak
            0x30200073, // mret
            0x10200073, // sret
            0x10500073, // wfi
            0x10400073, // sctrclr
        ] {
            assert_eq!(rt; decode(single | bit), None, "{single:08x} with {bit:x}");
        }
    }
}

// A word of an opcode, by its 1,024 pairs of funct7 and funct3, with other fields than the single
// words have.
fn word_of(opcode: u32, pair: u32) -> u32 {
    opcode | (pair % 8) << 12 | (pair / 8) << 25 | 0x0031_0080 // x3, x2 and x1
}

// Counted by hand from the manual's listing. Opcode 73 has its 768 by funct3 1, 2, 3, 5, 6 and 7;
// the single words have other registers.
#[test]
fn each_opcode_takes_so_many_pairs_of_funct7_and_funct3(rt: HostRuntime) {
    for opcode in 0..128 {
        let want = match opcode {
            0x37 | 0x17 | 0x6F => 1024,
            0x67 => 128,
            0x63 => 768,
            0x03 => 896,
            0x23 => 512,
            0x13 => 774,
            0x1B => 131,
            0x33 => 18,
            0x3B => 10,
            0x0F => 256,
            0x73 => 768,
            _ => 0,
        };
        let taken = (0..1024)
            .filter(|pair| decode(word_of(opcode, *pair)).is_some())
            .count();
        assert_eq!(rt; taken, want, "opcode {opcode:x}");
    }
}

#[test]
fn the_laws_do_no_work(rt: HostRuntime) {
    table_laws();
    word_laws();
}
