//! What the slots hold.
use dirty_log::Tracked;
use guest_windows::{Memory, Spare};
use lpi_config::Conf;
use lpi_pending::{Pend, Redists};
use owned_parts::Translator;
use xlate_cache::Shard;

/// Guest memory.
#[derive(Drop)]
pub struct GuestMemory {
    /// All windows.
    pub memory: Memory,
    /// Pages for a write that may not fail.
    pub spare: Spare,
    /// The copy of the memory and its dirty pages, if the machine has them.
    pub track: Option<Tracked>,
    /// Empty places for the redistributors of all virtual processors, for whoever has memory in
    /// hand.
    pub redists: Redists,
}

/// The value of a part, or nothing where it is out of its slot. It takes 16 bytes.
#[derive(Drop)]
pub enum Value {
    /// A pass has the value.
    Vacant,
    /// Of a translator.
    Maps(Box<Translator>),
    /// Of the machine.
    Mem(Box<GuestMemory>),
    /// Of a translator's cache.
    Shard(Shard),
    /// The configuration of a virtual processor.
    Conf(Box<Conf>),
    /// What is pending at it.
    Pend(Box<Pend>),
}
