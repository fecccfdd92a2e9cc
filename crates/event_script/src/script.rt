//! What a script says.
use crate::call_list::Calls;
use its_plain::Desc;
use its_types::Listed;

/// The calls of a thread.
pub type Thread = Calls;

/// Threads that run beside each other.
pub type Phase = Listed<Thread>;

/// Phases, of which each begins when the one before is over.
pub type Leg = Listed<Phase>;

/// How a leg ends after which another comes.
#[derive(Clone, Copy, Debug, PartialEq, Eq)]
pub enum Move {
    /// The machine is saved, and restored from the memory that it had.
    Migrate,
    /// It is saved into its second memory, after the last dirty pages went there, and restored from
    /// that.
    Precopy,
}

/// What a script says.
#[derive(Debug, Drop)]
pub struct Script {
    /// The machine that its calls are made on.
    pub desc: Desc,
    /// The line of each fill of the description, counted from 1.
    pub fill_lines: Listed<u64>,
    /// The line of each range of requesters, counted from 1.
    pub requester_lines: Listed<u64>,
    /// A migration stands between each two.
    pub legs: Listed<Leg>,
    /// How each leg but the last ends.
    pub moves: Listed<Move>,
}

/// A script, and the report that follows it.
#[derive(Debug, Drop)]
pub struct CheckInput<'a> {
    /// What was to be run.
    pub script: Script,
    /// What follows the line `trace`.
    pub report: &'a [u8],
}
