//! The state that guest memory and register values stand for, or their first fault (KVM document
//! arm-vgic-its, "ITS Restore Sequence").
//!
//! Restores have up to eleven clauses: what is given has to be in hand and in range, and what comes
//! out is told of state, parts and faults.
#![tactic(auto)]

mod collections;
mod devices;
mod error;
mod events;
mod parts;
mod place;
mod redists;
mod track;
mod translators;

pub use error::RestoreError;
pub use parts::{restore, restore_in, restore_two};
pub use track::fresh_track;
