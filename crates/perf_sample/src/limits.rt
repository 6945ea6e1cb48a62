//! The sizes and limits of samples, each once.

use crate::fields::BEFORE_NR;
use crate::flags::BRANCH_SIZE;

/// How many bytes a field has, and a header.
pub const FIELD_SIZE: u16 = 8;

/// How many branches a sample has at most.
pub const MAX_BRANCHES: usize = 256;

/// How many bytes the fields before the number of branches have at most.
pub const MAX_FRONT_SIZE: u16 = FIELD_SIZE * BEFORE_NR.len() as u16;

/// How many bytes a sample without branches has at most: its header, those fields, the number of
/// branches and the hardware index.
pub const MAX_FIXED_LEN: u16 = 3 * FIELD_SIZE + MAX_FRONT_SIZE;

/// How many bytes the branches of a sample have at most.
pub const MAX_STACK_SIZE: u16 = BRANCH_SIZE * MAX_BRANCHES as u16;

/// How many bytes a sample has at most.
pub const MAX_SAMPLE_SIZE: u16 = MAX_FIXED_LEN + MAX_STACK_SIZE;

/// How many samples a reader gives at most.
pub const MAX_SAMPLES: u32 = 1 << 24;

/// How many bytes a [`Buffer`](crate::Buffer) has room for.
pub const BUFFER_SIZE: usize = 9216;
