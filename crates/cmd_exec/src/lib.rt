//! Commands and register accesses of a translator on parts in hand.
//!
//! What is executed on are the parts in hand, each an argument of its own, since a caller that
//! shares the machine holds some of them.
#![tactic(auto)]

mod batch;
mod carry_out;
mod collections;
mod effect;
mod execute;
mod lpis;
mod met;
mod needed;
mod planning;
mod registers;
mod rereading;
mod room;

pub use effect::Planned;
pub use execute::{apply, plan};
pub use met::{Met, meet};
pub use needed::{Needed, needs};
pub use registers::{read_register, write_register};
pub use room::make_room;
