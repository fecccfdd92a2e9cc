//! Why a pre-copy gave no machine.
ghost use Rattle.its_plain.specs.Plain.{Plain};
ghost use Rattle.its_migrate.specs.Precopying.{AreLeft, IsTrackedAgain};

use its_plain::SaveFault;
use its_turns::{Machine, Root};
use owned_parts::Parts;
use std::alloc::{AllocError, Global};
use table_restore::fresh_track;

/// Why no machine was gone on to.
#[derive(Drop)]
pub enum Precopy {
    /// The state can't be saved. The machine and its root come back as they were.
    Fault(Machine, Root, SaveFault),
    /// The host ran out of memory.
    NoMemory(Untracked),
}

/// What is left of a machine whose pre-copy ran out of memory: its parts at rest, but for the
/// second memory, which is gone. Where the machine had one, they are no machine's until
/// `tracked_again` gives them another.
#[derive(Drop)]
pub struct Untracked {
    /// The parts, without a second memory.
    pub parts: Parts,
}

impl Untracked {
    ghost use Rattle.its_plain.specs.Plain.{Plain};
    ghost use Rattle.its_migrate.specs.Precopying.{AreLeft, IsTrackedAgain};

    /// The parts of a machine in the same state, whose second memory, if it has one, is zero with
    /// every page dirty: `Machine::new` (its_turns) makes a machine of them. Where there is no
    /// memory for that, all stays as it is.
    ///
    /// ```
    /// let parts = match left.tracked_again(alloc) {
    ///     Ok(parts) => parts,
    ///     Err(left) => return Err(left),
    /// };
    /// ```
    pub fn tracked_again(self, alloc: Global) -> Result<Parts, Untracked>
        ensures { (u : Plain) → AreLeft u self.parts → IsTrackedAgain u self result }
    {
        match fresh_track(alloc, self.parts.layout.track, &self.parts.memory) {
            Ok(track) => {
                let Untracked { mut parts } = self;
                parts.track = track;
                Ok(parts)
            }
            Err(AllocError) => Err(self),
        }
    }
}
