//! The plain machine as a program: slow, and close to the definitions of each call. Tests and the
//! player of events stand on it.
#![tactic(auto)]

mod answer;
mod areas;
mod collection_entries;
mod commands;
mod copies;
mod devices_fit;
mod footprints;
mod gicr;
mod make;
mod mapped_entries;
mod mapped_pairs;
mod maps;
mod moving;
mod pages;
mod parts;
mod redist;
mod redist_parts;
mod redists;
mod refusal;
mod rising_lists;
mod save;
mod saved_lists;
mod saved_tables;
mod saved_words;
mod second_memory;
mod state;
mod tables;
mod tracked_memory;
mod translator;

pub use redist::RedistLists;
pub use redist_parts::{ConfLists, PendLists};
pub use state::State;
pub use tracked_memory::TrackedMemory;
pub use translator::TranslatorLists;
