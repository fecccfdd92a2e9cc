//! A run, an explanation or a check of some bytes, for a page: bytes in, bytes and a status out. One
//! caller makes the calls of all threads, and a number says in which order.
#![tactic(auto)]

mod answers;
mod calls;
mod explain;
mod legs;
mod moves;
mod out;
mod play;
mod say;
#[cfg(test)]
mod tests;
mod turns;
