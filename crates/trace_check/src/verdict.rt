//! The outcome of a check of a report.
use its_history::Text;

/// The outcome of a check of a report.
#[derive(Debug, Drop)]
pub enum Verdict {
    /// It is the report of a run.
    Agrees,
    /// It is that of no run.
    Differs(Difference),
}

/// The first line of a report that isn't right.
#[derive(Debug, Drop)]
pub struct Difference {
    /// Counted from 1.
    pub leg: u64,
    /// That of the entry, counted from 0 in each leg; for any other line, how many entries the leg
    /// has.
    pub place: u64,
    /// What the report says there: of an entry what follows its place, else the whole line.
    pub said: Text,
    /// What a run's report would say there, after these lines.
    pub is: Text,
}
