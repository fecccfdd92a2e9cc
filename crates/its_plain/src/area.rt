//! Areas of guest memory that a save looks at.
use crate::fault::Region;

/// A stretch of guest memory that a save looks at, and whether it writes it.
#[derive(Clone, Copy, Debug, PartialEq, Eq)]
pub struct Area {
    /// Which table or queue it is.
    pub region: Region,
    /// A guest physical address.
    pub base: u64,
    /// In bytes.
    pub size: u64,
    /// No written stretch may share a byte with another.
    pub is_written: bool,
}
