//! The port of the redistributors' LPI registers, where the guest programs the LPI tables (IHI
//! 0069, section 12.11).
//!
//! A call has up to eight arguments: how it waits, the machine, the caller's pass, a gate at which
//! a test may hold it, and what is asked.
#![tactic(auto)]

mod access;
mod free;
mod hand;
mod reads;
mod tries;
mod writes;

pub use reads::{read_gicr, try_read_gicr};
pub use tries::try_write_gicr;
pub use writes::write_gicr;
