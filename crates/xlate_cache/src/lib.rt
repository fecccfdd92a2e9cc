//! A shard of a cache of translations: 64 sets of four ways.
#![tactic(auto)]

mod entry;
mod laws;
mod observed;
mod pairs;
mod shard;

pub use entry::Entry;
pub use laws::{drops_are_lawful, fills_are_lawful};
pub use pairs::shard_of;
pub use shard::Shard;
