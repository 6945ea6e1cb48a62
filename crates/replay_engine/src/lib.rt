//! Commands on tasks and harts.
#![tactic(auto)]

mod engine;
mod fault;
mod hart_set;
mod irqs;
mod laws;
mod moving;
mod performing;
mod plan;
mod running;
mod sampling;
mod starting;
mod task;
mod tasks;

pub use engine::Engine;
pub use fault::PerformFault;
pub use hart_set::HartSet;
pub use laws::engine_laws;
pub use starting::TaskMems;
