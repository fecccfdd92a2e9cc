//! What a commit does to the cache.
use its_types::{DeviceId, EventId, Target};

/// What a commit does to the shards of its call's translator.
#[derive(Clone, Copy, Debug, PartialEq, Eq)]
pub enum ShardChange {
    /// They stay as they were.
    Keep,
    /// The pair's shard gets its translation.
    Fill(DeviceId, EventId, Target),
    /// The pair's shard loses its translations.
    Drop(DeviceId, EventId),
    /// All that are held lose every translation.
    Empty,
}
