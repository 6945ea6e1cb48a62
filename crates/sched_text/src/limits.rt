//! The limits of a schedule and of its reader, each once.

/// How many bytes a reader has in hand at most, and how many a read asks for at most.
pub const WINDOW: usize = 4096;

/// The byte that ends a line.
pub const LINE_FEED: u8 = b'\n';

/// How many bytes may come without a line feed: a line has fewer.
pub const LINE_LIMIT: usize = 256;

/// How many task lines a schedule has at most.
pub const MAX_TASKS: usize = 64;

/// How many irq lines a task has at most.
pub const MAX_IRQS: u16 = 1024;

/// How many irq lines a schedule has at most.
pub const MAX_ALL_IRQS: u32 = MAX_TASKS as u32 * MAX_IRQS as u32;

/// No header has more lines: five, the task lines and irq lines, and `images`.
pub const MAX_HEADER_LINES: u32 = 6 + MAX_TASKS as u32 + MAX_ALL_IRQS;

/// How many command lines a schedule has at most; `end` isn't counted.
pub const MAX_COMMANDS: u32 = 1_048_576;

/// How many bytes the memory of a task has at most.
pub const MAX_MEMORY: u32 = 1_048_576;

/// How many steps a command has at most, and how large a period is at most.
pub const MAX_STEPS: u32 = 1_000_000_000;

/// At which step count an interrupt is raised at latest.
pub const MAX_IRQ_STEP: u64 = 1_000_000_000_000_000;
