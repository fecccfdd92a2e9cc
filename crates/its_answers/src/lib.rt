//! What is answered to a script, or to a script and a report: statuses, the lines of refusals, a
//! report that grows leg by leg, and the check of one. Whoever runs a script, on threads or alone,
//! answers in these words.
#![tactic(auto)]

mod check;
mod copies;
mod ending;
mod refusals;
mod status;
mod telling;

pub use check::{bad_trace, say_check};
pub use ending::Ending;
pub use refusals::{machine_refusal, script_refusal};
pub use status::{Status, refusal};
pub use telling::{add_moved, end_done, end_refused, end_spent, open_text};
