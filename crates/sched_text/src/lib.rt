//! The schedule text: which tasks run on which hart, for how many steps.
#![tactic(auto)]

mod commands;
mod faults;
mod header;
mod images;
mod irqs;
mod laws;
mod limits;
mod lines;
mod outcomes;
mod progress;
mod reader;
mod rows;
mod schedule;
mod window;
mod words;

pub use faults::{CommandFault, LineFault, Reason, ScheduleFault};
pub use laws::text_laws;
pub use limits::{
    LINE_FEED, LINE_LIMIT, MAX_ALL_IRQS, MAX_COMMANDS, MAX_HEADER_LINES, MAX_IRQ_STEP, MAX_IRQS,
    MAX_MEMORY, MAX_STEPS, MAX_TASKS, WINDOW,
};
pub use outcomes::{check_schedule, image_of, line_of_command};
pub use reader::ScheduleReader;
pub use schedule::{Command, Header, Image, IrqLine, IrqLines, TaskLine, TaskLines};

#[cfg(test)]
mod tests;
