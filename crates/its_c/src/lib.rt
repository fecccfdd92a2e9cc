//! The translator for machine monitors in other languages: the machine of a handle, and calls
//! that take and answer numbers and bytes.
#![tactic(auto)]

mod ack_calls;
#[cfg(test)]
mod asked_tests;
mod calls;
mod commands;
mod count_calls;
#[cfg(test)]
mod count_tests;
mod handle;
mod interrupts;
mod kept;
mod lent;
mod lent_bytes;
#[cfg(test)]
mod limit_tests;
mod list_calls;
#[cfg(test)]
mod list_tests;
mod making;
#[cfg(test)]
mod many_tests;
mod mapped;
mod memory;
mod memory_calls;
#[cfg(test)]
mod pair_state_tests;
#[cfg(test)]
mod pair_tests;
mod pending;
mod pieces;
mod ranges;
mod registers;
mod saves;
mod step_calls;
mod stretches;
#[cfg(test)]
mod tests;
mod window_calls;
#[cfg(test)]
mod window_tests;
mod windows;
mod words;

pub use handle::Handle;
