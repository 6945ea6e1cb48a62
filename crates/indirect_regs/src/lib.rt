//! The control transfer records as registers: the unit of a hart with its record buffer, every access of an instruction
//! to a register, and the port by which a monitor in Debug Mode reads and writes the unit.
//!
//! It stands on `ctr_buffer` and `guest_modes`.
#![tactic(auto)]

pub use accessing::{CsrUse, access};
pub use laws::{fact_laws, register_laws};
pub use port::{CtrPort, PortReg};
pub use unit::CtrUnit;

mod accessing;
mod laws;
mod numbered;
mod port;
#[cfg(test)]
mod tests;
mod unit;
