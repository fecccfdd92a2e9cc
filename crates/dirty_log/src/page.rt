//! A page, as contracts see it.
/// A page of guest memory.
#[derive(Clone, Copy, Debug, PartialEq, Eq)]
pub struct Page {
    /// Its address divided by 4096.
    pub number: u64,
    /// It was written, and not copied since.
    pub dirty: bool,
}
