//! The maps of a translator (IHI 0069, section 5.2): devices with their events, and collections.
#![tactic(auto)]

mod counts;
mod device_record;
mod event_table;
mod look_up;
mod maps;
mod next_named;
mod page;
mod paged_map;
mod paged_walk;
mod reserve;
mod sorted_map;
mod tally;
mod walks;

pub use look_up::LookUp;
pub use maps::Maps;
pub use walks::{CollectionWalk, DeviceWalk, EventWalk};
