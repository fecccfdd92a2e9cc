//! The steps of passes.
use crate::commit::Commit;
use its_types::Part;

/// One step of one pass.
#[derive(Clone, Copy, Debug, PartialEq, Eq)]
pub struct Event {
    /// The number of the pass.
    pub pass: u32,
    /// What it does.
    pub kind: Kind,
}

/// What a pass does in one step. Split and Note, Join and Meet are two forms of one kind each.
#[derive(Clone, Copy, Debug, PartialEq, Eq)]
pub enum Kind {
    /// It reads the word.
    Load,
    /// It tries the turn of a part that it doesn't hold.
    Try(Part),
    /// It takes the value of a part that it holds out of the slot.
    TakeOut(Part),
    /// It exchanges the word, if that is the one expected, and so makes a call with its reply.
    Commit(Commit),
    /// It puts what a part owes into the slot.
    PutHome(Part),
    /// It gives back the turn of a part that is in its slot.
    Release(Part),
    /// The root makes a pass of the next number.
    Split,
    /// It makes a note of what it has seen.
    Note,
    /// The root takes back the pass of a number, which holds nothing.
    Join(u32),
    /// It meets the note with this number. Notes are counted from 0, in the order in which they
    /// were made.
    Meet(u32),
}
