//! Which state guest memory and register values stand for, and what their first fault is where they
//! stand for none: there is one such state at most, it is sound, and no fault is met in it.
#![tactic(auto)]

mod laws;

pub use laws::{at_most_one_state_stands, offences_are_decided, standing_is_sound};
