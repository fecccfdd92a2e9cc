//! What no call changes.
ghost use Rattle.std.specs.Prelude.{◌≡◌, IfOk};

use its_types::{Bases, Listed, Shape};
use std::alloc::{AllocError, Global};

/// What no call changes.
#[derive(Debug, Drop)]
pub struct Layout {
    /// How large the machine is.
    pub shape: Shape,
    /// Whether the guest programs the LPI registers of the redistributors. Otherwise LPIs are on at
    /// the tables described.
    pub gicr: bool,
    /// For each virtual processor, where its tables are described; none where the guest programs
    /// them.
    pub described: Listed<Bases>,
    /// Whether the machine has a second memory, and knows which pages were written.
    pub track: bool,
}

impl Layout {
    /// A copy of it.
    pub fn copy(&self, alloc: Global) -> Result<Layout, AllocError>
        ensures { IfOk result (λ l. l ≡ self.now) }
    {
        Ok(Layout {
            shape: self.shape,
            gicr: self.gicr,
            described: Listed::from_vec(Vec::from_slice(alloc, self.described.as_slice())?),
            track: self.track,
        })
    }
}
