//! Phases of a script: its threads beside each other, on one machine that they share.
//!
//! `run_leg` and `run_phase` have six arguments and up to eleven clauses: beside how each ends,
//! they say of replies, history, root and state after them what the headline needs.
#![tactic(auto)]

mod ask;
mod job;
mod laws;
mod leg;
mod phase;
mod stop;

pub use ask::call_once;
pub use laws::legs_may_run;
pub use leg::{LegEnd, run_leg};
pub use phase::{PhaseEnd, run_phase};
pub use stop::Stop;
