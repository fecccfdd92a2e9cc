//! A machine of two translators by names of its own. It is a machine that threads share, and each
//! call of a translator has the translator's number; all other calls are those of any machine. What
//! both were asked is one history.
#![tactic(auto)]

mod history;

pub use cmd_engine::{read_at, step_at, write_at};
pub use device_port::{signal_at, try_signal_at};
pub use history::one_history;
pub use its_migrate::{
    Precopy as PairPrecopy, Untracked as PairUntracked, migrate as migrate_pair,
    precopy as precopy_pair, running_as_stopped as pair_running_as_stopped, save as save_pair,
};
pub use its_turns::{Machine as PairMachine, close};
pub use owned_parts::Parts as PairParts;
pub use table_restore::restore_two;
pub use table_save::save_two;
