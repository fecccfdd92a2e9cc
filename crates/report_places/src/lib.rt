//! The machine at a place of a report, and the list of what it has there.
#![tactic(auto)]

mod lines;
mod list;
mod listing;
mod place;
mod say;

pub use list::list_at;
pub use place::machine_at;
pub use say::say_place;
