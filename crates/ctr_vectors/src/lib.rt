//! Cases that tests of several crates read: the images of tasks, the texts of schedules, and the
//! bytes of samples. It stands on std alone.
#![tactic(auto)]

pub use broken::{BROKEN, BrokenSample};
pub use samples::{
    Branch, CALL_BYTES, SampleWords, append_sample, bytes_of_samples, bytes_of_words,
};
pub use schedules::{Schedule, schedule_text};

mod broken;
pub mod images;
mod samples;
mod schedules;
