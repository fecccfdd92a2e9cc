//! Migrations: one machine is left for another that goes on from what it saves (KVM document
//! arm-vgic-its, "ITS Restore Sequence").
ghost use Rattle.std.specs.Prelude.{◌≡◌, [], IfOk, length};
ghost use Rattle.owned_parts.specs.Owned.{translators_of};
ghost use Rattle.owned_machine.specs.Migrations.{AreMoved};
ghost use Rattle.its_steps.specs.Parts.{translator_count};
ghost use Rattle.its_turns.specs.Machines.{setup, view, IsOf};
ghost use Rattle.its_turns.specs.Told.{IsLone};
ghost use Rattle.its_migrate.specs.Resting.{Migrates, Rests, resting};

use held_parts::{AtRest, put_whole, take_whole};
use its_plain::SaveError;
use its_turns::{Machine, Root};
use its_types::Open;
use owned_machine::moved;
use owned_parts::Parts;
use std::alloc::{AllocError, Global};

/// Saves into a copy of guest memory, and gives a machine that begins with what that copy and the
/// registers stand for, and its root. No pass but the root is out, and that holds nothing. Where
/// the state can't be saved, or memory runs out, both come back, the machine as it was.
///
/// ```
/// let (machine, root, moved) = match migrate(alloc, machine, root) {
///     Ok((machine, root)) => (machine, root, true),
///     Err((machine, root, _)) => (machine, root, false),
/// };
/// ```
pub fn migrate(
    alloc: Global,
    machine: Machine,
    root: Root,
) -> Result<(Machine, Root), (Machine, Root, SaveError)>
    requires of { IsOf machine root }
    requires lone { IsLone (view root) }
    requires free { (view root).held ≡ [] }
    ensures { Migrates machine root result }
{
    let mut root = root;
    let parts = match moved_parts(alloc, &machine, &mut root) {
        Ok(parts) => parts,
        Err(error) => return Err((machine, root, error)),
    };
    match Machine::new(alloc, machine.desc(), parts) {
        Ok(new) => Ok(new),
        Err(AllocError) => Err((machine, root, SaveError::NoMemory)),
    }
}

// The parts of the machine to go on with.
fn moved_parts(alloc: Global, machine: &Machine, root: &mut Root) -> Result<Parts, SaveError>
    requires of { IsOf machine.now root.old }
    requires lone { IsLone (view root.old) }
    requires free { (view root.old).held ≡ [] }
    ensures of { IsOf machine.now root.new }
    ensures rests { Rests (view root.old) (view root.new) }
    ensures moved { AreMoved (resting machine.now root.old) result }
    ensures layout { IfOk result (λ p. p.layout ≡ (setup machine.now).start.layout) }
    ensures translators { IfOk result (λ p. translator_count (setup machine.now)
        ≡ length (translators_of p.first p.second)) }
{
    let layout = machine.desc().layout(alloc)?;
    let whole = take_whole(&AtRest, machine, root, &Open);
    let moved = moved(alloc, &whole.in_place(&layout));
    put_whole(machine, root, whole);
    moved
}
