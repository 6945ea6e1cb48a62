//! Images of tasks, as the words of their instructions. The first word stands at 80000000.

/// Calls the next word but one, and links it.
pub const CALL: &[u32] = &[0x0080_00EF];

/// Jumps seventeen times, each to the next word.
pub const JUMPS: &[u32] = &[0x0040_006F; 17];

/// Calls the next word seventeen times, returns seventeen times, each from the next word, and calls
/// once more.
pub const CALLS_AND_RETURNS: &[u32] = &[
    0x0040_00EF,
    0x0040_00EF,
    0x0040_00EF,
    0x0040_00EF,
    0x0040_00EF,
    0x0040_00EF,
    0x0040_00EF,
    0x0040_00EF,
    0x0040_00EF,
    0x0040_00EF,
    0x0040_00EF,
    0x0040_00EF,
    0x0040_00EF,
    0x0040_00EF,
    0x0040_00EF,
    0x0040_00EF,
    0x0040_00EF,
    0x0040_8067,
    0x0080_8067,
    0x00C0_8067,
    0x0100_8067,
    0x0140_8067,
    0x0180_8067,
    0x01C0_8067,
    0x0200_8067,
    0x0240_8067,
    0x0280_8067,
    0x02C0_8067,
    0x0300_8067,
    0x0340_8067,
    0x0380_8067,
    0x03C0_8067,
    0x0400_8067,
    0x0440_8067,
    0x0040_00EF,
];

/// Swaps co-routines: jalr x1, 0(x5), where x5 is 0.
pub const SWAP: &[u32] = &[0x0002_80E7];

/// A branch forward that isn't taken: bne x0, x0, 8.
pub const NOT_TAKEN: &[u32] = &[0x0000_1463];

/// A branch forward that is taken: beq x0, x0, 8.
pub const TAKEN: &[u32] = &[0x0000_0463];

/// A branch to itself that is taken: beq x0, x0, 0.
pub const TAKEN_TO_ITSELF: &[u32] = &[0x0000_0063];

/// A branch to itself that isn't taken: bne x0, x0, 0.
pub const NOT_TAKEN_TO_ITSELF: &[u32] = &[0x0000_1063];

/// A branch backward that isn't taken: nop; bne x0, x0, -4.
pub const NOT_TAKEN_BACKWARD: &[u32] = &[0x0000_0013, 0xFE00_1EE3];

/// Loads its own first word and branches 8 ahead, since x5 isn't that word.
pub const BRANCH_ON_A_LOAD: &[u32] = &[0x0000_0297, 0x0002_A303, 0x0062_9463];

/// Counts down from 2 in a loop, jumps to the next word with the link x6, and swaps co-routines by
/// jalr x1, 0(x6) to itself.
pub const COUNTS_DOWN: &[u32] = &[
    0x0020_0293,
    0xFFF2_8293,
    0xFE02_9EE3,
    0x0040_036F,
    0x0003_00E7,
];

/// Returns from M to U at 80000010, where it makes an ECALL; mtvec is 0.
pub const ECALL_IN_U: &[u32] = &[
    0x0000_0297,
    0x0102_8293,
    0x3412_9073,
    0x3020_0073,
    0x0000_0073,
];

/// Makes an ECALL in M.
pub const ECALL_IN_M: &[u32] = &[0x0000_0073];

/// Sets mtvec to 80000014, jumps once, executes EBREAK, and loops at the handler.
pub const BREAKPOINT: &[u32] = &[
    0x0000_0297,
    0x0142_8293,
    0x3052_9073,
    0x0040_006F,
    0x0010_0073,
    0x0000_006F,
];

/// Delegates interrupt 13 to VS, enables it, returns to VU at 8000002C and loops there.
pub const LOOP_IN_VU: &[u32] = &[
    0x0000_22B7,
    0x3032_9073,
    0x6032_9073,
    0x3042_9073,
    0x0010_0313,
    0x0273_1313,
    0x3003_1073,
    0x0000_0397,
    0x0103_8393,
    0x3413_9073,
    0x3020_0073,
    0x0000_006F,
];

/// Delegates exception 8 to S, returns to VU and makes an ECALL at 80000024.
pub const ECALL_IN_VU: &[u32] = &[
    0x1000_0293,
    0x3022_9073,
    0x0010_0313,
    0x0273_1313,
    0x3003_1073,
    0x0000_0397,
    0x0103_8393,
    0x3413_9073,
    0x3020_0073,
    0x0000_0073,
];

/// Returns from M to S at 80000020, where SRET goes to U; sepc is 80000020.
pub const SRET_TO_U: &[u32] = &[
    0x0010_0293,
    0x00B2_9293,
    0x3002_9073,
    0x0000_0397,
    0x0143_8393,
    0x3413_9073,
    0x1413_9073,
    0x3020_0073,
    0x1020_0073,
];

/// Adds sctrstatus and siselect, stores the sum at 80000030, and loops by one of two jumps, as the
/// sum is even or odd.
pub const SUMS: &[u32] = &[
    0x14F0_22F3,
    0x1500_2373,
    0x0062_82B3,
    0x0000_0397,
    0x0253_B223,
    0x0012_F293,
    0x0002_9463,
    0xFE5F_F06F,
    0xFE1F_F0EF,
];

/// Calls once and returns once, which pops under return-stack emulation; then reads entry 15 and
/// calls the address 24 above its source.
pub const READS_POPPED: &[u32] = &[
    0x0040_00EF,
    0x0040_8067,
    0x20F0_0293,
    0x1502_9073,
    0x1510_2373,
    0x0183_00E7,
];

/// Jumps to itself.
pub const LOOP: &[u32] = &[0x0000_006F];

/// Enables interrupt 3 in M and loops at 8000000C.
pub const WAITS: &[u32] = &[0x0080_0293, 0x3042_9073, 0x3002_9073, 0x0000_006F];

/// Calls 80000008, and from then on loops between 80000004 and a return at 80000008.
pub const RETURNS: &[u32] = &[0x0080_00EF, 0x0000_0013, 0x0000_8067];

/// Calls the next word, clears the records, and loops at 80000008.
pub const CLEARS: &[u32] = &[0x0040_00EF, 0x1040_0073, 0x0000_006F];

/// Writes 101 to sireg of entry 0.
pub const WRITES_SOURCE: &[u32] = &[0x2000_0293, 0x1502_9073, 0x1010_0313, 0x1513_1073];

/// Writes 101 to sireg, 203 to sireg2 and 5 to sireg3 of entry 0: a branch that is taken.
pub const WRITES_BRANCH: &[u32] = &[
    0x2000_0293,
    0x1502_9073,
    0x1010_0313,
    0x1513_1073,
    0x2030_0313,
    0x1523_1073,
    0x1532_D073,
];

/// The same with 13 in sireg3: a return.
pub const WRITES_RETURN: &[u32] = &[
    0x2000_0293,
    0x1502_9073,
    0x1010_0313,
    0x1513_1073,
    0x2030_0313,
    0x1523_1073,
    0x1536_D073,
];

/// The same with 6 in sireg3, which no transfer has.
pub const WRITES_TYPE_6: &[u32] = &[
    0x2000_0293,
    0x1502_9073,
    0x1010_0313,
    0x1513_1073,
    0x2030_0313,
    0x1523_1073,
    0x1533_5073,
];

/// The same with 7 in sireg3, which no transfer has.
pub const WRITES_TYPE_7: &[u32] = &[
    0x2000_0293,
    0x1502_9073,
    0x1010_0313,
    0x1513_1073,
    0x2030_0313,
    0x1523_1073,
    0x1533_D073,
];

/// Jumps to the next word, writes 0 to sctrstatus, and jumps again.
pub const TURNS_BACK: &[u32] = &[0x0040_006F, 0x14F0_5073, 0x0040_006F];

/// Jumps to the next word, writes FROZEN and a pointer of 0 to sctrstatus, and jumps again.
pub const FREEZES: &[u32] = &[0x0040_006F, 0x8000_02B7, 0x14F2_9073, 0x0040_006F];

/// Jumps to the next word, writes 1 to sctrdepth, jumps again, and writes 7, which is reserved.
pub const CHANGES_DEPTH: &[u32] = &[0x0040_006F, 0x15F0_D073, 0x0040_006F, 0x15F3_D073];
