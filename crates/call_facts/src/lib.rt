//! Facts that explain a call: what the maps of a translator answer before and after it, how an LPI
//! stands at a redistributor, and what becomes of a write of a register. They change nothing.
#![tactic(auto)]

mod answers;
mod idle;
mod lpi_writes;
mod lpis;
mod pairs;
mod writes;

pub use answers::{Answer, Key, answer_of};
pub use idle::{IdleCause, idle_cause};
pub use lpi_writes::{LpiRule, lpi_rule};
pub use lpis::{LpiState, PendingChange, Waiting, lpi_state, pending_change, waiting_at};
pub use pairs::{EventChange, PairState, event_change, pair_state};
pub use writes::{WriteRule, write_rule};
