//! Where the entries of the device table stand in guest memory.
#![tactic(auto)]

mod entry;
mod places;

pub use entry::Level1;
pub use places::{collection_places, device_place, level1, level1_entries};
