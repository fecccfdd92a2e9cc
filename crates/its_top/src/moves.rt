//! How a leg ends that another follows: the machine is left for another that goes on.
ghost use Rattle.std.specs.Prelude.{◌≡◌, [], IfOk};
ghost use Rattle.its_turns.specs.Machines.{view, IsOf};
ghost use Rattle.its_turns.specs.Told.{IsLone};
ghost use Rattle.its_top.specs.Moves.{Leaves, IsLeftFor, precopy_error};

use event_script::Move;
use its_migrate::{Precopy, migrate, precopy};
use its_plain::{SaveError, SaveFault};
use its_turns::{Machine, Root};
use std::alloc::{AllocError, Global};

/// A machine that the threads of a leg share, with its root.
#[derive(Drop)]
pub struct Shared {
    /// What the threads share.
    pub machine: Machine,
    /// The pass that each thread's is split off.
    pub root: Root,
}

/// What came of it.
#[derive(Drop)]
pub enum Left {
    /// This machine goes on, and so many pages were copied before, if any were to be.
    On(Shared, Option<u64>),
    /// The state can't be saved.
    Refused(SaveFault),
}

/// Leaves a machine at rest in the way that the script says.
pub fn leave(alloc: Global, machine: Machine, root: Root, way: Move) -> Result<Left, AllocError>
    requires of { IsOf machine root }
    requires lone { IsLone (view root) }
    requires free { (view root).held ≡ [] }
    ensures { IfOk result (λ left. Leaves machine root way left) }
{
    match way {
        Move::Migrate => leave_now(alloc, machine, root),
        Move::Precopy => leave_copied(alloc, machine, root),
    }
}

/// Leaves it with no page copied before.
fn leave_now(alloc: Global, machine: Machine, root: Root) -> Result<Left, AllocError>
    requires of { IsOf machine root }
    requires lone { IsLone (view root) }
    requires free { (view root).held ≡ [] }
    ensures { IfOk result (λ left. Leaves machine root Move.Migrate left) }
{
    match migrate(alloc, machine, root) {
        Ok((machine, root)) => Ok(Left::On(Shared { machine, root }, None)),
        Err(kept) => left_for(kept.2),
    }
}

/// Leaves it once its pages were copied.
fn leave_copied(alloc: Global, machine: Machine, root: Root) -> Result<Left, AllocError>
    requires of { IsOf machine root }
    requires lone { IsLone (view root) }
    requires free { (view root).held ≡ [] }
    ensures { IfOk result (λ left. Leaves machine root Move.Precopy left) }
{
    match precopy(alloc, machine, root) {
        Ok((machine, root, pages)) => Ok(Left::On(Shared { machine, root }, Some(pages))),
        Err(error) => left_for(error_of(&error)),
    }
}

fn left_for(error: SaveError) -> Result<Left, AllocError>
    ensures { IfOk result (λ left. IsLeftFor error left) }
{
    match error {
        SaveError::Fault(fault) => Ok(Left::Refused(fault)),
        SaveError::NoMemory => Err(AllocError),
    }
}

fn error_of(error: &Precopy) -> SaveError
    ensures { result ≡ precopy_error error.now }
{
    match error {
        Precopy::Fault(_, _, fault) => SaveError::Fault(*fault),
        Precopy::NoMemory(_) => SaveError::NoMemory,
    }
}
