//! The machine that threads share, for machine monitors in other languages: its passes behind
//! handles, and calls of a pass that take and answer numbers and bytes, and wait for nobody.
//!
//! A call of a pass says what it answers where the handle has no pass, that the handle keeps its
//! pass, and what it tells, which names one answer of one entry of the history.
#![tactic(auto)]

mod ack_calls;
mod acks;
mod answer;
mod attempts;
mod besides;
mod commands;
#[cfg(test)]
mod concern_tests;
mod count_calls;
#[cfg(test)]
mod count_tests;
mod counting;
mod event_look;
mod lent;
mod limit_calls;
#[cfg(test)]
mod limit_tests;
mod limits;
mod look_calls;
#[cfg(test)]
mod look_tests;
mod making;
mod mapped_looks;
mod message_calls;
mod messages;
mod needed;
mod needs_look;
#[cfg(test)]
mod pair_tests;
mod pass;
mod pending_look;
mod port;
mod register_calls;
mod registers;
mod step_calls;
mod step_reads;
mod stored_look;
mod telling;
mod telling_step;
#[cfg(test)]
mod tests;
mod told;
mod unseen;
mod views;
mod written_look;

pub use pass::Pass;
