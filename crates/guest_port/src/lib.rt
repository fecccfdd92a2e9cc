//! The port of the guest: its memory, as the guest and its devices write and read it, and a copy of
//! it.
//!
//! A call has up to eight arguments: how it waits, the machine, the caller's pass, a gate at which
//! a test may hold it, and what is asked.
#![tactic(auto)]

mod answers;
mod asks;
mod copies;
mod pages;
mod tries;
mod writer;

pub use asks::{copy, peek, poke, write};
pub use pages::{AllPages, PageRule, Unheld};
pub use tries::{try_copy, try_peek, try_poke, try_poke_within, try_write, try_write_within};
pub use writer::Writer;
