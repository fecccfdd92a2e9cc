//! What the next step of a machine reads and may change, where an event leads, and how many devices
//! and events are mapped: looks at the parts of a machine, which change nothing.
#![tactic(auto)]

mod concern;
mod config_reads;
mod counts;
mod destination;
mod firsts;
mod laws;
mod reading;
mod seen;
mod sorted_tables;
mod stretch;
mod walk;

pub use concern::{concerned, concerned_on};
pub use counts::{
    adds_device, adds_device_on, adds_event, adds_event_on, device_count, event_count,
};
pub use destination::Destination;
pub use laws::{
    destination_tells, lent_steps_agree, reads_by_command, saves_stay_inside, step_reads,
    steps_add_one,
};
pub use reading::{needs, needs_by};
pub use seen::event;
pub use stretch::Stretch;
pub use walk::Needs;
