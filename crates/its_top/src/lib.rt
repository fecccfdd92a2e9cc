//! The command `its` over streams: the top call, which the program makes on its own words and
//! standard streams.
#![tactic(auto)]

mod command;
mod explain;
mod legs;
mod moves;
mod play;
mod say;
mod streams;
mod summarize;

pub use command::{its, refuse};
pub use its_answers::Status;
