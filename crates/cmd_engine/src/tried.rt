//! The outcome of a step or of a write that is tried once.
ghost use Rattle.std.specs.Prelude.{◌≡◌};
ghost use Rattle.cmd_engine.specs.Tries.{tried_of};

use crate::missed::Missed;
use its_turns::{Busy, Raced};
use its_types::Placed;

/// A call that takes each turn at the first try or gives up.
#[derive(Clone, Copy, Debug, PartialEq, Eq)]
pub enum Tried<T> {
    /// It was made.
    Done(Placed<T>),
    /// It was not: another pass has a turn that it needs.
    Busy(Busy),
    /// It was not: another call was made first.
    Raced(Raced),
    /// It was not: the translator's stamp, which was to rise, has become the last one meanwhile.
    /// The next try takes every shard.
    Late,
    /// It was not: all places are used.
    Spent,
    /// It was not: the next command adds a device, a collection or an event, and there was no
    /// memory for it.
    NoMemory,
    /// It was not: the rule that the step keeps to forbids the next command.
    Full,
}

/// Of a call that was given up, or came to this.
pub(crate) fn outcome<T>(made: Result<Result<Placed<T>, Missed>, Busy>) -> Tried<T>
    ensures { result ≡ tried_of made }
{
    match made {
        Ok(Ok(placed)) => Tried::Done(placed),
        Ok(Err(Missed::Spent)) => Tried::Spent,
        Ok(Err(Missed::NoMemory)) => Tried::NoMemory,
        Ok(Err(Missed::Full)) => Tried::Full,
        Ok(Err(Missed::Raced(raced))) => Tried::Raced(raced),
        Ok(Err(Missed::Late)) => Tried::Late,
        Err(busy) => Tried::Busy(busy),
    }
}
