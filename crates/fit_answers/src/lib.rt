//! What is said to a script and what its threads were answered, where nobody knows in which order
//! their calls took effect: a report with places that explains it, that there is none, or that the
//! search came to its bound.
#![tactic(auto)]

mod left;
mod lines;
mod misfit;
mod reached;
mod reading;
mod say;
mod words;

pub use reading::read_told;
pub use say::say_fit;
