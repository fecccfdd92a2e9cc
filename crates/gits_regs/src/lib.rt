//! The registers of a translator's control frame (IHI 0069, section 12.19).
#![tactic(auto)]

mod change;
mod laws;
mod masks;
pub mod offsets;
mod read;
mod regs;
mod restore;
mod values;
mod write;

pub use change::RegChange;
pub use laws::{advance_keeps_rules, reset_is_sound, restored_are_sound, write_keeps_rules};
pub use regs::Regs;
pub use restore::restore_regs;
pub use values::{NotValid, RegValues, Register};
