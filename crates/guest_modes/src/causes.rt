//! Numbers of exceptions and interrupts (RISC-V Privileged Architecture, "Machine Cause Register",
//! and the hypervisor extension's table of causes).

/// A jump or a taken branch to an address that isn't a multiple of 4.
pub const INSTRUCTION_ADDRESS_MISALIGNED: u8 = 0;

/// An instruction outside of memory.
pub const INSTRUCTION_ACCESS_FAULT: u8 = 1;

/// A word that is no instruction, or one that the mode may not execute.
pub const ILLEGAL_INSTRUCTION: u8 = 2;

/// EBREAK.
pub const BREAKPOINT: u8 = 3;

/// A load from an address that isn't a multiple of its width.
pub const LOAD_ADDRESS_MISALIGNED: u8 = 4;

/// A load from outside of memory.
pub const LOAD_ACCESS_FAULT: u8 = 5;

/// A store to an address that isn't a multiple of its width.
pub const STORE_ADDRESS_MISALIGNED: u8 = 6;

/// A store outside of memory.
pub const STORE_ACCESS_FAULT: u8 = 7;

/// ECALL in U or VU.
pub const ENVIRONMENT_CALL_FROM_U: u8 = 8;

/// ECALL in HS.
pub const ENVIRONMENT_CALL_FROM_S: u8 = 9;

/// ECALL in VS.
pub const ENVIRONMENT_CALL_FROM_VS: u8 = 10;

/// ECALL in M.
pub const ENVIRONMENT_CALL_FROM_M: u8 = 11;

/// An instruction that a guest may not execute, where the mode with V=0 might.
pub const VIRTUAL_INSTRUCTION: u8 = 22;

/// The interrupt of a counter that overflows.
pub const LOCAL_COUNTER_OVERFLOW: u8 = 13;

/// A bit for each interrupt, at its number: what `mip` and `mie` keep.
pub const INTERRUPTS: u64 = 0x2EEE;
