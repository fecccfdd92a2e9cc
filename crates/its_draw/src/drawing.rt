//! A picture as data.
use crate::events::{Bar, Moved, Row};
use crate::mark::Mark;
use crate::places::Frame;
use its_history::Text;
use its_types::{Listed, Vcpu};

/// A call in its column.
#[derive(Debug, Drop)]
pub struct Shown {
    /// Counted from 0 over all legs; past 4,294,967,295 all stand there.
    pub column: u32,
    /// Counted from 1 in each phase.
    pub thread: u32,
    /// What the call did.
    pub mark: Mark,
    /// The row of the event that it is a message of, if it has one.
    pub row: Option<u32>,
    /// The line of the report, but for its place.
    pub text: Text,
}

/// A wall before a column.
#[derive(Debug, Drop)]
pub struct Wall {
    /// As a call's.
    pub column: u32,
    /// Whether a leg begins there, and not only a phase.
    pub is_leg: bool,
    /// Its number.
    pub number: u32,
}

/// What is pending at a virtual processor at a leg's end.
#[derive(Debug, Drop)]
pub struct Pending {
    /// The leg's last column.
    pub column: u32,
    /// The virtual processor.
    pub vcpu: Vcpu,
    /// How many LPIs.
    pub count: u64,
    /// Their INTIDs, or `none`.
    pub text: Text,
}

/// A picture.
#[derive(Debug, Drop)]
pub struct Drawing {
    /// How many columns, lanes and rows it has.
    pub frame: Frame,
    /// The events that have a row.
    pub rows: Listed<Row>,
    /// Where they are mapped.
    pub bars: Listed<Bar>,
    /// Where they went to another collection.
    pub moves: Listed<Moved>,
    /// Where phases and legs begin.
    pub walls: Listed<Wall>,
    /// The calls.
    pub calls: Listed<Shown>,
    /// What is pending at each leg's end.
    pub pending: Listed<Pending>,
}
