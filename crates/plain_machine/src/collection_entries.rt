//! The collections that have entries in a saved table.
ghost use Rattle.std.specs.Prelude.{◌≡◌, IfOk, OnOk, if◌then◌else◌};
ghost use Rattle.plain_machine.specs.CollectionEntries as spec;

use crate::mapped_entries::MappedEvent;
use crate::saved_words::collection_entry;
use crate::tables;
use gits_regs::Regs;
use its_types::{Icid, Vcpu};
use std::alloc::{AllocError, Global};
use std::marker::Model;

/// What the entry of a collection leads to: a virtual processor, or none.
#[derive(Clone, Copy)]
pub struct EntryTarget {
    number: u32,
}

impl Model for EntryTarget {
    ghost use Rattle.its_types.specs.declared.ids.Vcpu.{Vcpu};
    ghost use Rattle.its_types.specs.Maps.{vcpu_code};

    ghost Value = { Vcpu };

    ghost coded = { vcpu_code };

    ghost view = { λ t. record { 0 = t.number } };

    ghost inverse = { λ v. record { number = v.0 } };
}

impl EntryTarget {
    ghost use Rattle.std.specs.Prelude.{◌≡◌, ◌<◌, ◌^◌};
    ghost use Rattle.its_plain.specs.Saved.{never_mapped};

    /// A virtual processor.
    pub fn of(vcpu: Vcpu) -> EntryTarget
        ensures { result ≡ vcpu }
    {
        EntryTarget {
            number: u32::from(vcpu.0),
        }
    }

    /// None, of a collection that isn't mapped.
    pub fn never_mapped() -> EntryTarget
        ensures { result ≡ never_mapped }
    {
        EntryTarget {
            number: 0xffff_ffff,
        }
    }

    /// The number that the entry has.
    pub fn number(&self) -> u64
        ensures number { result ≡ self.now.0 }
        ensures fits { result < 2 ^ 32 }
    {
        u64::from(self.number)
    }
}

/// The collections that have entries, in rising order: the mapped ones and, for a Linux guest,
/// those that events name.
pub fn collection_entries(
    alloc: Global,
    linux: bool,
    regs: &Regs,
    collections: &[(u16, Vcpu)],
    events: &[((u32, u32), MappedEvent)],
) -> Result<Vec<(u16, EntryTarget)>, AllocError>
    ensures { IfOk result (λ v.
        v.items
        ≡ (if linux then spec.with_entries regs.now collections.now events.now
        else collections.now)) }
{
    let mut list = mapped(alloc, collections)?;
    if linux {
        add_named(&mut list, regs, events)?;
    }
    Ok(list)
}

fn mapped(alloc: Global, collections: &[(u16, Vcpu)]) -> Result<Vec<(u16, EntryTarget)>, AllocError>
    ensures { IfOk result (λ v. v.items ≡ collections.now) }
{
    let mut list = Vec::new(alloc);
    for &(icid, vcpu) in collections {
        list.push((icid, EntryTarget::of(vcpu)))?;
    }
    Ok(list)
}

// From the last event on to the first.
fn add_named(
    list: &mut Vec<(u16, EntryTarget)>,
    regs: &Regs,
    events: &[((u32, u32), MappedEvent)],
) -> Result<(), AllocError>
    ensures { OnOk result
        (list.new.items ≡ spec.with_entries regs.now list.old.items events.now) }
{
    for at in (0..events.len()).rev() {
        add_entry(list, regs, events[at].1.get().icid)?;
    }
    Ok(())
}

fn add_entry(list: &mut Vec<(u16, EntryTarget)>, regs: &Regs, icid: Icid) -> Result<(), AllocError>
    ensures { OnOk result (list.new.items ≡ spec.with_entry regs.now icid.0 list.old.items) }
{
    let has_place = u32::from(icid.0) < regs.collection_places();
    if has_place && tables::find(list, icid.0).is_none() {
        tables::put(list, icid.0, EntryTarget::never_mapped())?;
    }
    Ok(())
}

/// The entry at a place of a table, or zero after the last.
pub fn entry_word(collections: &[(u16, EntryTarget)], at: usize) -> u64
    ensures { result ≡ spec.entry_word collections.now at }
{
    collection_entry(collections.get(at).copied())
}
