//! A search in depth for an order of the calls of threads, each with the times at which it began
//! and returned, that fits what they were answered.
#![tactic(auto)]

mod asleep;
mod at_once;
mod choose;
mod fronts;
mod outcome;
mod recorded;
mod run_on;
mod search;
mod span;
mod trail;

pub use outcome::Outcome;
pub use recorded::Recorded;
pub use search::find_order;
pub use span::Span;
