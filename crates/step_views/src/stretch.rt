//! A stretch of guest memory.
use its_types::Addr;

/// Bytes of guest memory.
#[derive(Clone, Copy, Debug, PartialEq, Eq)]
pub struct Stretch {
    /// Where they begin.
    pub address: Addr,
    /// How many they are.
    pub length: u64,
}
