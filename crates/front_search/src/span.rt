//! When a call was under way.

/// When a call began and when it returned, by any clock.
#[derive(Clone, Copy, Debug, PartialEq, Eq)]
pub struct Span {
    /// It was called no earlier.
    pub begin: u64,
    /// It had returned by then.
    pub end: u64,
}
