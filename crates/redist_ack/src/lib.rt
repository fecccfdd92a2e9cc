//! The port of a virtual processor: acknowledgements of LPIs (IHI 0069, section 5.1.2).
//!
//! A call has up to six arguments: how it waits, the machine, the caller's pass, a gate at which a
//! test may hold it, and what is asked.
#![tactic(auto)]

mod acks;
mod asked;
mod asks;
mod both;

pub use acks::{try_best, try_claim, try_show, try_take};
pub use asks::{best, claim, show, take};
