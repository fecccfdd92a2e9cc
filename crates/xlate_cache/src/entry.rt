//! Translations that are cached.
use its_types::{DeviceId, EventId, Target};

/// A translation of a pair, as it was at a stamp.
#[derive(Clone, Copy, Debug, PartialEq, Eq)]
pub struct Entry {
    /// The DeviceID of the pair.
    pub dev: DeviceId,
    /// The EventID of the pair.
    pub ev: EventId,
    /// The entry counts only while the word has this stamp.
    pub stamp: u32,
    /// The processor and the LPI.
    pub target: Target,
}
