//! What a device's write by address is by the description of a machine: a message to a translator,
//! a write of guest memory, or nothing.
#![tactic(auto)]

mod laws;
mod routes;

pub use laws::requesters_are_devices;
pub use routes::route;
