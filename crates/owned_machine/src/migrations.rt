//! Restored machines, and migrations (KVM document arm-vgic-its, "ITS Restore Sequence").
//!
//! Where parts are let go, that is by a call of `drop`: what a function lets go by itself, at the
//! end of a block or by an assignment, is proved there anew, piece by piece.
ghost use Rattle.std.specs.Prelude.{◌≡◌, true, IfOk, IfSome, map, is_some, Some};
ghost use Rattle.std.specs.List.{list_any};
ghost use Rattle.dirty_log.specs.Copies.{caught_up};
ghost use Rattle.dirty_log.specs.Pages.{dirty_count};
ghost use Rattle.guest_windows.specs.Windows.{extent};
ghost use Rattle.gicr_regs.specs.Registers.{all_restored_bases};
ghost use Rattle.saved_state.specs.Laws as reads;
ghost use Rattle.saved_state.specs.Laws.{bases_of, reads_of};
ghost use Rattle.standing_states.specs.Laws.{AreGiven};
ghost use Rattle.its_plain.specs.Answer.{copy_count};
ghost use Rattle.its_plain.specs.Described as described;
ghost use Rattle.its_plain.specs.Machine.{IsDescription};
ghost use Rattle.owned_parts.specs.Owned.{state_of_parts};
ghost use Rattle.owned_machine.specs.Whole.{IsMachine, GoesOn};
ghost use Rattle.its_plain.specs.Saved as plain;
ghost use Rattle.its_plain.specs.Saved.{IsSavable};
ghost use Rattle.owned_machine.specs.Migrations.{AreBegun, AreMade, AreMoved, AreOfMachine};
ghost use Rattle.owned_machine.specs.Migrations.{GoesOnFrom, IsFresh};
ghost use Rattle.owned_machine.specs.Migrations.{IsSavedCopy, memory_after};
ghost use Rattle.owned_machine.specs.Placed.{parts_in};
ghost use Rattle.owned_machine.specs.Start.{AreOfFirst};
ghost use Rattle.table_restore.specs.Outcome.{HasValuesFor};

use crate::make::start;
use crate::saves::mark_saved;
use crate::stale::drop_stale;
use dirty_log::Tracked;
use gicr_regs::{GicrValues, values_come_back, values_of};
use gits_regs::{RegValues, Regs, offsets};
use guest_windows::Memory;
use its_plain::{Desc, DescFault, Its, Layout, LpiTables, MakeError, SaveError};
use its_types::{Listed, Vcpu};
use owned_parts::{InPlace, Parts};
use std::alloc::{AllocError, Global};
use std::mem::replace;
use table_restore::{RestoreError, restore_in};
use table_save::saved_pages;

/// The parts that a description makes, restored from memory where the description says so, or the
/// first thing that is wrong. Of tables that KVM saved, the pending bits that no event leads to are
/// left out.
pub fn begin(alloc: Global, desc: &Desc) -> Result<Parts, MakeError>
    requires { IsDescription desc.now }
    ensures { AreBegun desc.now result }
{
    let parts = read(alloc, desc)?;
    if desc.from_kvm {
        fresh(alloc, parts)
    } else {
        Ok(parts)
    }
}

// The parts without pending bits that no event leads to.
fn fresh(alloc: Global, parts: Parts) -> Result<Parts, MakeError>
    requires { IsMachine parts }
    ensures { IsFresh (state_of_parts parts) result }
{
    let mut parts = parts;
    match drop_stale(&mut parts, alloc) {
        Ok(()) => Ok(parts),
        Err(_) => {
            drop(parts);
            Err(MakeError::NoMemory)
        }
    }
}

// The parts that a description makes, with each pending bit that memory has.
fn read(alloc: Global, desc: &Desc) -> Result<Parts, MakeError>
    requires { IsDescription desc.now }
    ensures { AreMade desc.now result }
{
    let parts = start(alloc, desc)?;
    let Ok(values) = values_to_restore(alloc, desc.translators.as_slice()) else {
        drop(parts);
        return Err(MakeError::NoMemory);
    };
    if are_given(&values) {
        let (layout, memory) = base_of(parts);
        restored(alloc, desc, &values, &layout, memory)
    } else {
        Ok(parts)
    }
}

// What no call changes, and guest memory.
fn base_of(parts: Parts) -> (Layout, Memory)
    ensures layout { result.0 ≡ parts.layout }
    ensures memory { result.1 ≡ parts.memory }
{
    let Parts {
        layout,
        memory,
        first,
        second,
        track,
        redists,
    } = parts;
    drop((first, second, track, redists));
    (layout, memory)
}

// What the memory of the machine at reset and these values stand for.
fn restored(
    alloc: Global,
    desc: &Desc,
    values: &[Option<RegValues>],
    layout: &Layout,
    memory: Memory,
) -> Result<Parts, MakeError>
    requires counts { IsDescription desc.now }
    requires base { AreOfFirst desc.now layout.now memory }
    requires values { values.now ≡ described.values_of desc.now }
    requires given { list_any is_some values.now ≡ true }
    ensures { AreMade desc.now result }
{
    let none = GicrValues {
        registers: Listed::new(alloc),
    };
    let given = values_given(&desc.tables, &none);
    match restore_in(alloc, values, given, memory, layout) {
        Ok(restored) => Ok(restored),
        Err((_, RestoreError::Fault(its, fault))) => {
            Err(MakeError::Fault(DescFault::Restore(its, fault)))
        }
        Err((_, RestoreError::NoMemory)) => Err(MakeError::NoMemory),
    }
}

// The values that each translator is restored with, if it is.
fn values_to_restore(
    alloc: Global,
    translators: &[Its],
) -> Result<Vec<Option<RegValues>>, AllocError>
    ensures { IfOk result (λ v. v.items ≡ map (λ t. t.restore) translators.now) }
{
    translators
        .iter()
        .map(|translator| translator.restore)
        .collect(alloc)
}

// Some translator is restored.
fn are_given(values: &[Option<RegValues>]) -> bool
    ensures { result ≡ list_any is_some values.now }
{
    values.iter().any(|value| value.is_some())
}

// The values of the redistributors' registers that a description gives, if it does.
fn values_given<'a>(tables: &'a LpiTables, none: &'a GicrValues) -> &'a GicrValues
    ensures { AreGiven tables.now result.now }
{
    match tables {
        LpiTables::Described { .. } => none,
        LpiTables::Registers(values) => values,
    }
}

/// The parts that a copy of memory and the registers stand for, once the tables are saved into the
/// copy (KVM document arm-vgic-its, "ITS Restore Sequence"); or why they can't be saved. The parts
/// given stay as they are.
pub fn moved(alloc: Global, parts: &InPlace<'_>) -> Result<Parts, SaveError>
    requires { IsMachine (parts_in parts.now) }
    ensures { AreMoved (state_of_parts (parts_in parts.now)) result }
{
    let memory = saved_copy(alloc, parts)?;
    Ok(resumed(alloc, parts, memory)?)
}

// A copy of memory, once the tables are saved into it.
fn saved_copy(alloc: Global, parts: &InPlace<'_>) -> Result<Memory, SaveError>
    requires { IsMachine (parts_in parts.now) }
    ensures { IsSavedCopy (state_of_parts (parts_in parts.now)) result }
{
    let pages = saved_pages(alloc, parts)?;
    let mut memory = parts.memory.copy(alloc)?;
    memory.adopt(pages);
    Ok(memory)
}

/// The parts that a memory and the registers stand for, where the tables are saved in that memory.
/// The parts given stay as they are.
pub fn resumed(alloc: Global, parts: &InPlace<'_>, memory: Memory) -> Result<Parts, AllocError>
    requires machine { AreOfMachine parts.now }
    requires savable { IsSavable (state_of_parts (parts_in parts.now)) }
    requires saved { memory ≡ plain.saved (state_of_parts (parts_in parts.now)) }
    ensures { IfOk result (λ p. GoesOn p (plain.moved (state_of_parts (parts_in parts.now)))) }
{
    let values = values_read(alloc, parts)?;
    let given = registers_of(alloc, parts)?;
    match restore_in(alloc, &values, &given, memory, parts.layout) {
        Ok(restored) => Ok(restored),
        Err((_, RestoreError::Fault(_, _))) => unreachable!(),
        Err((_, RestoreError::NoMemory)) => Err(AllocError),
    }
}

/// Goes on with the same, in the second memory where there is one, once the pages that are dirty or
/// that a save writes are copied there; answers how many they were. Where it answers an error, the
/// parts are as they were.
pub fn precopied(parts: &mut Parts, alloc: Global) -> Result<u64, SaveError>
    requires { IsMachine parts.old }
    ensures { GoesOnFrom parts.old result parts.new }
{
    let mut next = moved(alloc, &parts.in_place())?;
    mark_saved(parts);
    let count = go_on_in_copy(parts.track.take(), &mut next.memory);
    go_on(parts, next);
    Ok(count)
}

/// The parts of a machine from now on.
pub fn go_on(parts: &mut Parts, next: Parts)
    ensures { parts.new ≡ next }
{
    drop(replace(parts, next));
}

// Makes the second memory, where there is one, the memory, once the dirty pages are copied there,
// and answers how many they were.
fn go_on_in_copy(second: Option<Tracked>, memory: &mut Memory) -> u64
    requires { IfSome second (λ t. map extent t.copy ≡ map extent memory.old) }
    ensures memory { memory.new ≡ memory_after memory.old second }
    ensures count { result ≡ copy_count second }
{
    let Some(track) = second else {
        return 0;
    };
    let (copy, count) = copied_last(track, memory);
    *memory = copy;
    count
}

// The second memory, once the dirty pages are copied there, and how many they were.
fn copied_last(track: Tracked, memory: &Memory) -> (Memory, u64)
    requires { map extent track.copy ≡ map extent memory.now }
    ensures memory { result.0 ≡ (caught_up memory.now track).copy }
    ensures count { result.1 ≡ dirty_count track.log }
{
    let mut track = track;
    let count = track.copy_from(memory);
    (track.copy.into_memory(), count)
}

// What is read of the registers of each translator.
fn values_read(alloc: Global, parts: &InPlace<'_>) -> Result<Vec<Option<RegValues>>, AllocError>
    ensures { IfOk result (λ v.
        v.items ≡ map (λ r. Some r) (reads_of (state_of_parts (parts_in parts.now)))) }
{
    let mut values = Vec::with_capacity(alloc, 2)?;
    values.push(Some(translator_values(parts.first.regs)))?;
    if let Some(second) = parts.second {
        values.push(Some(translator_values(second.regs)))?;
    }
    Ok(values)
}

// What is read of a translator's registers.
#[tactic(auto, unfolding(saved_state::specs::Laws::values_read, gits_regs::specs::Registers::read_reg, gits_regs::specs::Registers::read_word))]
fn translator_values(regs: &Regs) -> RegValues
    ensures { result ≡ reads.values_read regs.now }
{
    RegValues {
        ctlr: regs.read(offsets::CTLR, 4),
        cbaser: regs.read(offsets::CBASER, 8),
        creadr: regs.read(offsets::CREADR, 8),
        cwriter: regs.read(offsets::CWRITER, 8),
        baser0: regs.read(offsets::BASER0, 8),
        baser1: regs.read(offsets::BASER1, 8),
    }
}

// The values of the redistributors' registers, where the guest programs them.
fn registers_of(alloc: Global, parts: &InPlace<'_>) -> Result<GicrValues, AllocError>
    requires { AreOfMachine parts.now }
    ensures bases { IfOk result (λ values. parts.now.layout.now.gicr ≡ true
        → all_restored_bases parts.now.layout.now.shape.vcpus values ≡ bases_of
        (state_of_parts (parts_in parts.now))) }
    ensures many { IfOk result (HasValuesFor parts.now.layout.now) }
{
    if !parts.layout.gicr {
        return Ok(GicrValues {
            registers: Listed::new(alloc),
        });
    }
    values_come_back();
    let mut registers = Vec::new(alloc);
    for vcpu in 0..parts.layout.shape.vcpus {
        let conf = parts.redists.conf(Vcpu(vcpu));
        registers.push(values_of(conf.bases()))?;
    }
    Ok(GicrValues {
        registers: Listed::from_vec(registers),
    })
}
