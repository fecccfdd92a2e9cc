//! A whole machine, restored.
ghost use Rattle.std.specs.Prelude.{◌≡◌, ◌≤◌, ◌∷◌, [], ℕ, Some, IfOk, IfErr, length};
ghost use Rattle.its_plain.specs.Saved.{track_of};
ghost use Rattle.its_plain.specs.Sound.{IsLayout};
ghost use Rattle.its_plain.specs.Stands.{Stands, IsFirstFault};
ghost use Rattle.owned_parts.specs.Owned.{AreAllInHand, state_of, state_of_parts};
ghost use Rattle.owned_parts.specs.Owned.{translators_of};
ghost use Rattle.owned_parts.specs.Places.{AreNotInHand};
ghost use Rattle.standing_states.specs.Laws.{bases_to_restore};
ghost use Rattle.table_restore.specs.Outcome.{AreTranslatorsFrom, IsFirstOf, IfFault, WhereFault};
ghost use Rattle.table_restore.specs.Outcome.{HasValuesFor};

use crate::error::RestoreError;
use crate::redists::redists_of;
use crate::track::fresh_track;
use crate::translators::begin_all;
use dirty_log::Tracked;
use gicr_regs::GicrValues;
use gits_regs::RegValues;
use guest_windows::Memory;
use its_plain::Layout;
use lpi_pending::Redists;
use owned_parts::{Parts, Translator};
use std::alloc::{AllocError, Global};

// What memory and register values stand for, but for the memory itself and the redistributors.
#[derive(Drop)]
struct Begun {
    layout: Layout,
    translators: (Translator, Option<Translator>),
    track: Option<Tracked>,
}

// The same with the redistributors.
#[derive(Drop)]
struct Found {
    begun: Begun,
    redists: Redists,
}

// A copy of the layout, and a second memory where it says so.
fn layout_and_track(
    alloc: Global,
    memory: &Memory,
    layout: &Layout,
) -> Result<(Layout, Option<Tracked>), AllocError>
    ensures layout { IfOk result (λ p. p.0 ≡ layout.now) }
    ensures track { IfOk result (λ p. p.1 ≡ track_of layout.now.track memory.now) }
{
    let copied = layout.copy(alloc)?;
    let track = fresh_track(alloc, layout.track, memory)?;
    Ok((copied, track))
}

// The call of `drop` is for the proof: what a function lets go by itself, at the end of a block, is
// proved there anew, piece by piece.
fn begin(
    alloc: Global,
    values: &[Option<RegValues>],
    memory: &Memory,
    layout: &Layout,
) -> Result<Begun, RestoreError>
    requires layout { IsLayout layout.now }
    requires some { 1 ≤ length values.now }
    requires most { length values.now ≤ 2 }
    ensures layout { IfOk result (λ b. b.layout ≡ layout.now) }
    ensures track { IfOk result (λ b. b.track ≡ track_of layout.now.track memory.now) }
    ensures translators { IfOk result (λ b.
        AreTranslatorsFrom layout.now.shape memory.now values.now
        (translators_of b.translators.0 b.translators.1)) }
    ensures fault { IfFault result (IsFirstOf layout.now.shape memory.now values.now) }
{
    let translators = begin_all(alloc, values, memory, layout.shape)?;
    let Ok((layout, track)) = layout_and_track(alloc, memory, layout) else {
        drop(translators);
        return Err(RestoreError::NoMemory);
    };
    Ok(Begun {
        layout,
        translators,
        track,
    })
}

fn find(
    alloc: Global,
    values: &[Option<RegValues>],
    gicr: &GicrValues,
    memory: &Memory,
    layout: &Layout,
) -> Result<Found, RestoreError>
    requires layout { IsLayout layout.now }
    requires given { HasValuesFor layout.now gicr.now }
    requires some { 1 ≤ length values.now }
    requires most { length values.now ≤ 2 }
    ensures stands { IfOk result (λ f.
        Stands memory.now values.now layout.now (bases_to_restore layout.now gicr.now)
        (state_of f.begun.layout (translators_of f.begun.translators.0 f.begun.translators.1)
        memory.now f.begun.track f.redists)) }
    ensures layout { IfOk result (λ f. f.begun.layout ≡ layout.now) }
    ensures in_hand { IfOk result (λ f. AreAllInHand layout.now.shape f.redists) }
    ensures no_others { IfOk result (λ f.
        (vcpu : ℕ) → layout.now.shape.vcpus ≤ vcpu → AreNotInHand f.redists vcpu) }
    ensures fault { IfFault result (IsFirstFault memory.now values.now layout.now.shape
        (bases_to_restore layout.now gicr.now)) }
{
    let redists = match redists_of(alloc, memory, gicr, layout) {
        Ok(redists) => redists,
        Err(error) => return Err(error.of(0)),
    };
    let begun = begin(alloc, values, memory, layout)?;
    Ok(Found { begun, redists })
}

/// The machine that memory, the values of a translator's registers and those of the redistributors'
/// LPI registers stand for, with a copy of the memory, or their first fault. A redistributor
/// whose LPIs are on and of which a table doesn't lie in one window is a fault before all
/// others; then come the registers, the collections, and the devices with their events. Where the
/// layout describes the LPI tables, the values of the LPI registers aren't looked at, and there may
/// be none. Where the machine has a second memory, that is zero, and every page is dirty.
pub fn restore(
    alloc: Global,
    values: RegValues,
    gicr: &GicrValues,
    memory: &Memory,
    layout: &Layout,
) -> Result<Parts, RestoreError>
    requires layout { IsLayout layout.now }
    requires given { HasValuesFor layout.now gicr.now }
    ensures stands { IfOk result (λ p.
        Stands memory.now (Some values ∷ []) layout.now (bases_to_restore layout.now gicr.now)
        (state_of_parts p)) }
    ensures layout { IfOk result (λ p. p.layout ≡ layout.now) }
    ensures copy { IfOk result (λ p. p.memory ≡ memory.now) }
    ensures in_hand { IfOk result (λ p. AreAllInHand layout.now.shape p.redists) }
    ensures no_others { IfOk result (λ p.
        (vcpu : ℕ) → layout.now.shape.vcpus ≤ vcpu → AreNotInHand p.redists vcpu) }
    ensures fault { IfFault result (IsFirstFault memory.now (Some values ∷ []) layout.now.shape
        (bases_to_restore layout.now gicr.now)) }
{
    restore_copy(alloc, &[Some(values)], gicr, memory, layout)
}

/// The same of two translators. The faults of the first come before those of the second.
pub fn restore_two(
    alloc: Global,
    first: RegValues,
    second: RegValues,
    gicr: &GicrValues,
    memory: &Memory,
    layout: &Layout,
) -> Result<Parts, RestoreError>
    requires layout { IsLayout layout.now }
    requires given { HasValuesFor layout.now gicr.now }
    ensures stands { IfOk result (λ p.
        Stands memory.now (Some first ∷ Some second ∷ []) layout.now
        (bases_to_restore layout.now gicr.now) (state_of_parts p)) }
    ensures layout { IfOk result (λ p. p.layout ≡ layout.now) }
    ensures copy { IfOk result (λ p. p.memory ≡ memory.now) }
    ensures in_hand { IfOk result (λ p. AreAllInHand layout.now.shape p.redists) }
    ensures no_others { IfOk result (λ p.
        (vcpu : ℕ) → layout.now.shape.vcpus ≤ vcpu → AreNotInHand p.redists vcpu) }
    ensures fault { IfFault result (IsFirstFault memory.now (Some first ∷ Some second ∷ [])
        layout.now.shape (bases_to_restore layout.now gicr.now)) }
{
    restore_copy(alloc, &[Some(first), Some(second)], gicr, memory, layout)
}

// With a copy of the memory.
fn restore_copy(
    alloc: Global,
    values: &[Option<RegValues>],
    gicr: &GicrValues,
    memory: &Memory,
    layout: &Layout,
) -> Result<Parts, RestoreError>
    requires layout { IsLayout layout.now }
    requires given { HasValuesFor layout.now gicr.now }
    requires some { 1 ≤ length values.now }
    requires most { length values.now ≤ 2 }
    ensures stands { IfOk result (λ p.
        Stands memory.now values.now layout.now (bases_to_restore layout.now gicr.now)
        (state_of_parts p)) }
    ensures layout { IfOk result (λ p. p.layout ≡ layout.now) }
    ensures copy { IfOk result (λ p. p.memory ≡ memory.now) }
    ensures in_hand { IfOk result (λ p. AreAllInHand layout.now.shape p.redists) }
    ensures no_others { IfOk result (λ p.
        (vcpu : ℕ) → layout.now.shape.vcpus ≤ vcpu → AreNotInHand p.redists vcpu) }
    ensures fault { IfFault result (IsFirstFault memory.now values.now layout.now.shape
        (bases_to_restore layout.now gicr.now)) }
{
    let memory = memory.copy(alloc)?;
    match restore_in(alloc, values, gicr, memory, layout) {
        Ok(parts) => Ok(parts),
        Err((_, error)) => Err(error),
    }
}

/// The machine that memory, the values of the registers of one translator or two, and those of the
/// redistributors' LPI registers stand for, with the memory itself, or their first fault. A
/// translator without values is at reset. With an error the memory comes back as it was.
pub fn restore_in(
    alloc: Global,
    values: &[Option<RegValues>],
    gicr: &GicrValues,
    memory: Memory,
    layout: &Layout,
) -> Result<Parts, (Memory, RestoreError)>
    requires layout { IsLayout layout.now }
    requires given { HasValuesFor layout.now gicr.now }
    requires some { 1 ≤ length values.now }
    requires most { length values.now ≤ 2 }
    ensures stands { IfOk result (λ p.
        Stands memory values.now layout.now (bases_to_restore layout.now gicr.now)
        (state_of_parts p)) }
    ensures layout { IfOk result (λ p. p.layout ≡ layout.now) }
    ensures memory { IfOk result (λ p. p.memory ≡ memory) }
    ensures in_hand { IfOk result (λ p. AreAllInHand layout.now.shape p.redists) }
    ensures no_others { IfOk result (λ p.
        (vcpu : ℕ) → layout.now.shape.vcpus ≤ vcpu → AreNotInHand p.redists vcpu) }
    ensures fault { IfErr result (λ e.
        WhereFault e.1 (IsFirstFault memory values.now layout.now.shape
        (bases_to_restore layout.now gicr.now))) }
    ensures back { IfErr result (λ e. e.0 ≡ memory) }
{
    match find(alloc, values, gicr, &memory, layout) {
        Ok(found) => Ok(Parts {
            layout: found.begun.layout,
            first: found.begun.translators.0,
            second: found.begun.translators.1,
            memory,
            track: found.begun.track,
            redists: found.redists,
        }),
        Err(error) => Err((memory, error)),
    }
}
