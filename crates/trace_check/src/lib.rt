//! Whether a report is that of a run of its script, or where it first isn't.
#![tactic(auto)]

mod cursor;
mod end;
mod entry;
mod leg;
mod legs;
mod pending;
mod verdict;

pub use cursor::{Cursor, Next};
pub use legs::check;
pub use verdict::{Difference, Verdict};
