//! Which LPI is asked for.
use its_types::Intid;

/// Which of the LPIs of a virtual processor is asked for that are pending and enabled.
#[derive(Clone, Copy, Debug, PartialEq, Eq)]
pub enum Asked {
    /// The lowest.
    Lowest,
    /// The first by priority, of those whose priority is below the mask.
    Best(u8),
    /// This one.
    This(Intid),
}
