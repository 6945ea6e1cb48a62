//! The record buffer: what an entry holds, what a store of entries means and how each call changes it, and the history
//! of a buffer with the entries and the pointer that follow from it.
//!
//! It stands on `ctr_csrs`.
#![tactic(auto)]

pub use event::Event;
pub use history::{history_laws, perform, perform_all, replay, visible_laws};
pub use list_store::ListStore;
pub use ring_store::RingStore;
pub use slot::{Part, Slot, entry_laws};
pub use store::CtrStore;

mod event;
mod history;
mod list_store;
mod ring_store;
mod slot;
mod store;
#[cfg(test)]
mod tests;
