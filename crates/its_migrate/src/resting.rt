//! What is pending in a machine at rest.
ghost use Rattle.std.specs.Prelude.{◌≡◌, ◌<◌, [], IfOk, map};
ghost use Rattle.its_plain.specs.Plain.{pending_of};
ghost use Rattle.its_steps.specs.Parts.{vcpu_count};
ghost use Rattle.its_turns.specs.Machines.{setup, view, IsOf};
ghost use Rattle.its_turns.specs.Told.{IsLone};
ghost use Rattle.its_migrate.specs.Resting.{Rests, resting, pending_at_rest};

use held_parts::{AtRest, take_pend};
use its_turns::{Machine, Root, Value, look, put};
use its_types::{Intid, Listed, Part, Vcpu};
use std::alloc::{AllocError, Global};

/// For each virtual processor its pending LPIs, in rising order.
pub type PendingLists = Listed<Listed<Intid>>;

/// The LPIs that are pending at each virtual processor. No pass but the root is out, and that holds
/// nothing.
///
/// ```
/// let lists = pending(alloc, &machine, &mut root)?;
/// let mut count = 0usize;
/// for lpis in lists.as_slice() {
///     count = count.wrapping_add(lpis.as_slice().len());
/// }
/// ```
pub fn pending(
    alloc: Global,
    machine: &Machine,
    root: &mut Root,
) -> Result<PendingLists, AllocError>
    requires of { IsOf machine.now root.old }
    requires lone { IsLone (view root.old) }
    requires free { (view root.old).held ≡ [] }
    ensures of { IsOf machine.now root.new }
    ensures rests { Rests (view root.old) (view root.new) }
    ensures lists { IfOk result (λ lists. map (map (λ i. i.0)) lists ≡ pending_at_rest (resting
        machine.now root.old)) }
{
    let mut lists = Listed::new(alloc);
    look(machine, root);
    for vcpu in 0..machine.vcpus() {
        let lpis = pending_at(alloc, machine, root, Vcpu(vcpu))?;
        lists.push(lpis)?;
    }
    Ok(lists)
}

fn pending_at(
    alloc: Global,
    machine: &Machine,
    root: &mut Root,
    vcpu: Vcpu,
) -> Result<Listed<Intid>, AllocError>
    requires of { IsOf machine.now root.old }
    requires lone { IsLone (view root.old) }
    requires free { (view root.old).held ≡ [] }
    requires vcpu { vcpu.0 < vcpu_count (setup machine.now) }
    ensures of { IsOf machine.now root.new }
    ensures rests { Rests (view root.old) (view root.new) }
    ensures lpis { IfOk result (λ lpis. map (λ i. i.0) lpis ≡ pending_of (resting machine.now
        root.old) vcpu.0) }
{
    let pend = take_pend(&AtRest, machine, root, vcpu);
    look(machine, root);
    let lpis = pend.lpis(alloc);
    put(machine, root, Part::Pend(vcpu), Value::Pend(pend));
    Ok(Listed::from_vec(lpis?))
}
