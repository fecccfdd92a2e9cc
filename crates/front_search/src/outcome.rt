//! The outcome of a search.

/// The outcome of a search.
#[derive(Debug, Drop)]
pub enum Outcome {
    /// The calls fit in this order of their threads.
    Fits(Vec<usize>),
    /// They fit in none. Some of them went in this order, the longest from which the search went
    /// back.
    Nowhere(Vec<usize>),
    /// So many calls were tried, and no more may be.
    Undecided(u64),
}
