//! How a leg ends that another follows: the machine goes on as another does.
ghost use Rattle.std.specs.Prelude.{IfOk};
ghost use Rattle.its_web.specs.Moves.{Leaves, Moves};

use event_script::Move;
use its_plain::{SaveError, SaveFault};
use owned_machine::Machine;
use std::alloc::{AllocError, Global};

/// What came of it.
#[derive(Clone, Copy)]
pub enum Left {
    /// The machine goes on, and so many pages were copied before, if any were to be.
    On(Option<u64>),
    /// The state can't be saved.
    Refused(SaveFault),
}

/// Leaves a machine in the way that the script says.
pub fn leave(alloc: Global, machine: &mut Machine, way: Move) -> Result<Left, AllocError>
    ensures { IfOk result (λ left. Leaves way machine.old machine.new left) }
{
    match migrate(alloc, machine, way) {
        Ok(pages) => Ok(Left::On(pages)),
        Err(SaveError::Fault(fault)) => Ok(Left::Refused(fault)),
        Err(SaveError::NoMemory) => Err(AllocError),
    }
}

/// Migrates it, and answers how many pages were copied before, if any were to be.
fn migrate(alloc: Global, machine: &mut Machine, way: Move) -> Result<Option<u64>, SaveError>
    ensures { Moves way result machine.old machine.new }
{
    match way {
        Move::Migrate => {
            machine.migrate(alloc)?;
            Ok(None)
        }
        Move::Precopy => {
            let pages = machine.precopy(alloc)?;
            Ok(Some(pages))
        }
    }
}
