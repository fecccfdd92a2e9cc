//! The pure interleaving core: worlds of passes that share a machine, and the steps from one to the
//! next. Nothing here runs.
#![tactic(auto)]

mod change;
mod commit;
mod event;
mod laws;
mod standing;

pub use change::ShardChange;
pub use commit::Commit;
pub use event::{Event, Kind};
pub use laws::{
    calm_calls_may_commit, endings_and_stamps, endings_tell, first_is_good, holders_may_commit,
    machines_tell, passes_keep, ports_may_commit, runs_keep, signals_may_commit,
    splits_and_joins_keep, states_may_commit, steps_keep, worlds_tell,
};
pub use standing::Standing;
