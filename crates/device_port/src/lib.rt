//! The port of the devices: messages by the cache, and by the maps where the cache has no
//! translation (IHI 0069, sections 5.2.1 to 5.2.5). A device signals, or it writes by address.
//!
//! A call has up to seven arguments: how it waits, the machine, the caller's pass, a gate at which
//! a test may hold it, and what is asked. Its parts have one more, the parts that are in hand.
#![tactic(auto)]

mod finish;
mod hand;
mod hits;
mod home;
mod laws;
mod maps;
mod message;
mod signals;
mod told;
mod tried;
mod tries;
mod writes;

pub use hits::{Now, try_signal, try_signal_at};
pub use laws::requesters_are_apart;
pub use message::Message;
pub use signals::{signal, signal_at, signal_once, signal_once_at};
pub use told::Dma;
pub use tries::{try_dma, try_dma_within};
pub use writes::dma;
