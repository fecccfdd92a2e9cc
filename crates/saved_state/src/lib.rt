//! What a save wrote is read back by a restore.
#![tactic(auto)]

mod memory;
mod state;
mod tables;

pub use memory::{other_bytes_stay, read_areas_stay, words_read_back};
pub use state::{
    moved_is_equal, no_offence_is_first, only_that_state_stands, read_values_mask,
    saved_reads_stand, saved_stands,
};
pub use tables::{
    collections_stand, devices_stand, events_stand, named_collections_stand, redistributors_stand,
};
