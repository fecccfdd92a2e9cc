//! The parts of a machine in hand, or where they stand, the state of the plain translators that
//! they stand for, where they send an event, and sets of redistributors.
#![tactic(auto)]

mod in_place;
mod parts;
mod redist_set;
mod translation;

pub use in_place::{InPlace, TranslatorRef};
pub use parts::{Parts, Translator};
pub use redist_set::RedistSet;
pub use translation::locate;
