//! Pre-copies: migrations of machines whose memory was copied while they ran, but for the pages
//! that are dirty still.
ghost use Rattle.std.specs.Prelude.{◌≡◌, [], Ok, IfOk, OnErr, MatchResult};
ghost use Rattle.its_plain.specs.Regions.{savable};
ghost use Rattle.its_plain.specs.Saved.{moved, moved_count};
ghost use Rattle.its_plain.specs.Sound.{IsSound};
ghost use Rattle.owned_parts.specs.Owned.{AreAllInHand, state_of_parts, state_in_place};
ghost use Rattle.owned_machine.specs.Whole.{IsMachine, GoesOn};
ghost use Rattle.its_turns.specs.Machines.{setup, view, IsOf};
ghost use Rattle.its_turns.specs.Told.{IsLone};
ghost use Rattle.its_turns.specs.declared.machine.Pass.{Pass};
ghost use Rattle.its_migrate.specs.Precopying.{Precopies, WentOnCopied, AreLeft, AreTaken};
ghost use Rattle.its_migrate.specs.Precopying.{AreUnpacked, IsLeftFor, with_track};
ghost use Rattle.its_migrate.specs.Resting.{Rests, IsCause, resting};

use crate::outcome::{Precopy, Untracked};
use dirty_log::Tracked;
use guest_windows::{Draft, Memory};
use held_parts::{AtRest, Whole, put_whole, take_whole};
use its_plain::{Layout, SaveError};
use its_turns::{GuestMemory, Machine, Root, close, look};
use its_types::Open;
use owned_machine::resumed;
use owned_parts::{InPlace, Parts};
use std::alloc::{AllocError, Global};
use table_save::{mark_tables, savable, save_in};

/// Copies the pages that are dirty, or that a save writes, to the second memory, saves there, and
/// gives a machine that begins with what that memory and the registers stand for, its root, and how
/// many pages were copied. The new machine has a second memory of its own, of which no page is
/// copied. No pass but the root is out, and that holds nothing. A machine without a second memory
/// goes on in a copy of its memory.
///
/// ```
/// let (machine, root, copied) = match precopy(alloc, machine, root) {
///     Ok((machine, root, count)) => (machine, root, Some(count)),
///     Err(Precopy::Fault(machine, root, _)) => (machine, root, None),
///     Err(Precopy::NoMemory(_)) => return Err(AllocError),
/// };
/// ```
pub fn precopy(alloc: Global, machine: Machine, root: Root) -> Result<(Machine, Root, u64), Precopy>
    requires of { IsOf machine root }
    requires lone { IsLone (view root) }
    requires free { (view root).held ≡ [] }
    ensures { Precopies machine root result }
{
    let mut root = root;
    match savable_parts(alloc, &machine, &mut root) {
        Ok((parts, track)) => next_machine(alloc, &machine, parts, track),
        Err(error) => Err(left(machine, root, error)),
    }
}

// The parts of a machine that can be saved, without its second memory, and that. Else all of them
// stay in the machine.
fn savable_parts(
    alloc: Global,
    machine: &Machine,
    root: &mut Root,
) -> Result<(Parts, Option<Tracked>), SaveError>
    requires of { IsOf machine.now root.old }
    requires lone { IsLone (view root.old) }
    requires free { (view root.old).held ≡ [] }
    ensures of { IsOf machine.now root.new }
    ensures taken { IfOk result (AreTaken (setup machine.now)) }
    ensures state { IfOk result (λ x.
        state_of_parts (with_track x.1 x.0) ≡ resting machine.now root.old) }
    ensures rests { OnErr result (Rests (view root.old) (view root.new)) }
    ensures cause { MatchResult result (λ _. Unit {0}) (IsCause (resting machine.now root.old)) }
{
    let layout = machine.desc().layout(alloc)?;
    let whole = take_whole(&AtRest, machine, root, &Open);
    match savable(alloc, &whole.in_place(&layout)) {
        Ok(()) => Ok(unpacked(layout, whole)),
        Err(error) => {
            put_whole(machine, root, whole);
            Err(error)
        }
    }
}

// What is left of a machine that couldn't be saved.
fn left(machine: Machine, root: Root, error: SaveError) -> Precopy
    requires of { IsOf machine root }
    requires lone { IsLone (view root) }
    requires free { (view root).held ≡ [] }
    ensures { IsLeftFor machine root error result }
{
    match error {
        SaveError::Fault(fault) => Precopy::Fault(machine, root, fault),
        SaveError::NoMemory => {
            let parts = closed(machine, root);
            Precopy::NoMemory(Untracked { parts })
        }
    }
}

// The parts of a machine whose root holds none, without its second memory. Takes no memory.
fn closed(machine: Machine, root: Root) -> Parts
    requires of { IsOf machine root }
    requires lone { IsLone (view root) }
    requires free { (view root).held ≡ [] }
    ensures { AreLeft (resting machine root) result }
{
    let mut root = root;
    look(&machine, &mut root);
    let mut parts = close(machine, root);
    parts.track = None;
    parts
}

// The parts that were taken, without the second memory, and that.
fn unpacked(layout: Layout, whole: Whole) -> (Parts, Option<Tracked>)
    ensures { AreUnpacked layout whole result }
{
    let Whole {
        first,
        second,
        memory,
    } = whole;
    let GuestMemory {
        memory,
        track,
        redists,
        ..
    } = Box::into_inner(memory);
    let parts = Parts {
        layout,
        first: Box::into_inner(first),
        second: match second {
            Some(second) => Some(Box::into_inner(second)),
            None => None,
        },
        memory,
        track: None,
        redists,
    };
    (parts, track)
}

// The machine that goes on from parts that were taken, or these parts.
fn next_machine(
    alloc: Global,
    machine: &Machine,
    parts: Parts,
    track: Option<Tracked>,
) -> Result<(Machine, Root, u64), Precopy>
    requires { AreTaken (setup machine.now) (parts, track) }
    ensures { (r : Pass) → state_of_parts (with_track track parts) ≡ resting machine.now r →
        Precopies machine.now r result }
{
    match machine_from(alloc, machine, &parts, track) {
        Ok(next) => {
            drop(parts);
            Ok(next)
        }
        Err(AllocError) => Err(Precopy::NoMemory(Untracked { parts })),
    }
}

fn machine_from(
    alloc: Global,
    machine: &Machine,
    parts: &Parts,
    track: Option<Tracked>,
) -> Result<(Machine, Root, u64), AllocError>
    requires { AreTaken (setup machine.now) (parts.now, track) }
    ensures { (r : Pass) → state_of_parts (with_track track parts.now) ≡ resting machine.now r →
        IfOk result (λ x. WentOnCopied machine.now r x.0 x.1 x.2) }
{
    let (next, count) = copied_parts(alloc, parts, track)?;
    let (next, root) = Machine::new(alloc, machine.desc(), next)?;
    Ok((next, root, count))
}

// The parts that go on in the second memory, or in a copy where there is none, and how many pages
// were copied. Of them nothing is written to the memory that is left.
fn copied_parts(
    alloc: Global,
    parts: &Parts,
    track: Option<Tracked>,
) -> Result<(Parts, u64), AllocError>
    requires machine { IsMachine (with_track track parts.now) }
    requires savable { savable (state_of_parts (with_track track parts.now)) ≡ Ok tt }
    ensures next { IfOk result (λ x.
        GoesOn x.0 (moved (state_of_parts (with_track track parts.now)))) }
    ensures count { IfOk result (λ x.
        x.1 ≡ moved_count (state_of_parts (with_track track parts.now))) }
{
    let parts = parts.in_place();
    let mut pages = Draft::new(alloc);
    save_in(&parts, &mut pages)?;
    let (mut memory, count) = copied_memory(alloc, &parts, track)?;
    memory.adopt(pages);
    let next = resumed(alloc, &parts, memory)?;
    Ok((next, count))
}

// Another memory that is as guest memory is: the second one, once the pages that are dirty, or that
// a save will write, are copied there. Answers how many they were.
fn copied_memory(
    alloc: Global,
    parts: &InPlace<'_>,
    track: Option<Tracked>,
) -> Result<(Memory, u64), AllocError>
    requires hand { AreAllInHand parts.now.layout.now.shape parts.now.redists.now }
    requires sound { IsSound (record (state_in_place parts.now) { track = track }) }
    ensures memory { IfOk result (λ x. x.0 ≡ parts.now.memory.now) }
    ensures count { IfOk result (λ x.
        x.1 ≡ moved_count (record (state_in_place parts.now) { track = track })) }
{
    let Some(mut track) = track else {
        return Ok((parts.memory.copy(alloc)?, 0));
    };
    mark_tables(parts, &mut track);
    let count = track.copy_from(parts.memory);
    Ok((track.copy.into_memory(), count))
}
