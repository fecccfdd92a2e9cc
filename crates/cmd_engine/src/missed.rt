//! What becomes of a call that waits for its turns and is tried once.
use its_turns::Raced;

/// Why it was not made. All parts are as they were.
#[derive(Clone, Copy, Debug, PartialEq, Eq)]
pub(crate) enum Missed {
    /// All places are used.
    Spent,
    /// The next command adds a device, a collection or an event, and there was no memory for it.
    NoMemory,
    /// A rule forbids the next command.
    Full,
    /// Another call was made first.
    Raced(Raced),
    /// The translator's stamp, which was to rise, is the last one by now.
    Late,
}
