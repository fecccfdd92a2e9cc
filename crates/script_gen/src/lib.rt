//! The script that a measurement runs: signals from many threads while events move and the machine
//! migrates; and the summary of its run.
#![tactic(auto)]

mod commands;
mod counts;
mod description;
mod generator;
mod laws;
mod queue;
mod summary;

pub use counts::Counts;
pub use generator::generate;
pub use laws::{
    can_migrate, has_room, is_never_refused, lists_tell_counts, lists_tell_length, makes_machine,
    stays_within_limits,
};
pub use summary::summary_text;
