//! What a view is of.
/// What a view is of.
#[derive(Clone, Copy, Debug, PartialEq, Eq)]
pub enum Standing {
    /// Of a pass that takes steps.
    Pass,
    /// Of what a pass had seen when it made the note.
    Note,
    /// Joined or met.
    Spent,
}
