//! The outcome of a call that is tried once.
use crate::commits::Raced;
use crate::turns::Busy;
use its_types::Placed;
use thiserror::Error;

/// A call that takes each turn at the first try or gives up.
#[derive(Clone, Copy, Debug, PartialEq, Eq)]
pub enum Attempt<T> {
    /// It was made.
    Done(Placed<T>),
    /// It was not: another pass has a turn that it needs.
    Busy(Busy),
    /// It was not: another call was made first.
    Raced(Raced),
    /// It was not: all places are used.
    Spent,
}

/// All places are used, and no call can be made any more.
#[derive(Clone, Copy, Debug, PartialEq, Eq, Error)]
#[error("all places are used")]
pub struct Spent;

/// Why a call was not made that may take memory.
#[derive(Clone, Copy, Debug, PartialEq, Eq, Error)]
pub enum NotMade {
    /// All places are used, and no call can be made any more.
    #[error("all places are used")]
    Spent,
    /// There was no memory for it. Every part is as it was.
    #[error("out of memory")]
    NoMemory,
}

/// Why a call was not made that has the parts that it needs.
#[derive(Clone, Copy, Debug, PartialEq, Eq, Error)]
pub enum Lost {
    /// All places are used.
    #[error("all places are used")]
    Spent,
    /// Another call was made first.
    #[error("{0}")]
    Raced(Raced),
}

impl Lost {
    ghost use Rattle.std.specs.Prelude.{◌≡◌};
    ghost use Rattle.its_turns.specs.Calls.{attempt_of};

    /// The outcome of the whole call.
    pub fn attempt<T>(self) -> Attempt<T>
        ensures { result ≡ attempt_of self }
    {
        match self {
            Lost::Spent => Attempt::Spent,
            Lost::Raced(raced) => Attempt::Raced(raced),
        }
    }
}
