//! A translator as registers and plain lists.
ghost use Rattle.std.specs.Prelude.{◌≡◌, ◌≤◌, ◌++◌, OnOk, IfOk, slice_set};
ghost use Rattle.std.specs.Option.{option_map};
ghost use Rattle.gits_regs.specs.Registers as registers;
ghost use Rattle.its_types.specs.Maps as maps;
ghost use Rattle.its_plain.specs.Plain as plain;
ghost use Rattle.its_plain.specs.Translation as translation;
ghost use Rattle.its_plain.specs.Answer as answers;
ghost use Rattle.its_plain.specs.Regions as regions;
ghost use Rattle.its_plain.specs.Saved as saved;
ghost use Rattle.plain_machine.specs.Memories.{put_all};
ghost use Rattle.plain_machine.specs.Mapped.{HasTable};
ghost use Rattle.plain_machine.specs.Slots.{maps_set, regs_set, translator_in};

use crate::maps::MapLists;
use crate::tracked_memory::TrackedMemory;
use crate::{areas, saved_tables};
use gits_regs::{RegChange, Regs, offsets};
use guest_windows::Memory;
use its_plain::{Area, Cause};
use its_types::{Device, DeviceId, Event, EventId, Icid, Shape, Target, Vcpu};
use std::alloc::{AllocError, Global};
use std::marker::Model;

/// A translator's registers and maps.
#[derive(Drop)]
pub struct TranslatorLists {
    pub(crate) regs: Regs,
    pub(crate) maps: MapLists,
}

impl Model for TranslatorLists {
    ghost use Rattle.its_plain.specs.Plain.{Translator, translator_code};

    ghost Value = { Translator };

    ghost coded = { translator_code };

    ghost view = { λ t. record { regs = t.regs; maps = t.maps } };
}

impl TranslatorLists {
    /// Registers at reset, and nothing mapped.
    pub fn new(alloc: Global, dev_bits: u8) -> TranslatorLists
        requires least { 16 ≤ dev_bits }
        requires most { dev_bits ≤ 20 }
        ensures { result ≡ record { regs = registers.reset dev_bits; maps = maps.no_maps } }
    {
        TranslatorLists {
            regs: Regs::reset(dev_bits),
            maps: MapLists::new(alloc),
        }
    }

    /// The registers.
    pub fn regs(&self) -> &Regs
        ensures { result.now ≡ self.now.regs }
    {
        &self.regs
    }

    pub(crate) fn maps(&self) -> &MapLists
        ensures { result.now ≡ self.now.maps }
    {
        &self.maps
    }

    /// Where the maps send an event.
    #[tactic(auto, unfolding(its_plain::specs::Translation::located))]
    pub fn locate(&self, dev: DeviceId, ev: EventId) -> Result<Target, Cause>
        ensures { result ≡ translation.located self.now dev.0 ev.0 }
    {
        if !self.regs.enabled() {
            return Err(Cause::Disabled);
        }
        self.maps.device(dev).ok_or(Cause::NoDevice)?;
        let event = self.maps.event(dev, ev).ok_or(Cause::NoEvent)?.get();
        let vcpu = self.maps.collection(event.icid).ok_or(Cause::NoCollection)?;
        Ok(Target {
            vcpu,
            intid: event.intid,
        })
    }

    /// Adds the areas of the tables.
    #[tactic(auto, unfolding(its_plain::specs::Regions::table_areas))]
    pub(crate) fn add_tables(
        &self,
        its: u8,
        areas: &mut Vec<Area>,
        memory: &Memory,
    ) -> Result<(), AllocError>
        ensures { OnOk result
            (areas.new.items ≡ areas.old.items ++ regions.table_areas memory.now its self.now) }
    {
        areas::add_devices(areas, its, &self.regs, memory)?;
        areas::add_collections(areas, its, &self.regs)?;
        self.maps.add_itts(its, areas)
    }

    /// The first device whose level-1 entry isn't valid.
    pub(crate) fn first_unplaced(&self, memory: &Memory) -> Option<DeviceId>
        ensures { option_map (λ d. d.0) result
            ≡ option_map (λ d. d.0) (regions.first_unplaced memory.now self.now) }
    {
        self.maps.first_unplaced(&self.regs, memory)
    }

    /// Writes the tables. `before` is memory as it was before any table was written.
    #[tactic(auto, using(crate::proofs::SavedTables::put_more), unfolding(its_plain::specs::Saved::translator_words))]
    pub(crate) fn write_tables(
        &self,
        alloc: Global,
        memory: &mut TrackedMemory,
        shape: &Shape,
        before: &Memory,
    ) -> Result<(), AllocError>
        ensures { OnOk result (memory.new ≡ put_all memory.old
            (saved.translator_words shape.now before.now self.now)) }
    {
        saved_tables::write_devices(memory, before, &self.regs, &self.maps)?;
        saved_tables::write_collections(alloc, memory, shape, &self.regs, &self.maps)?;
        self.maps.write_itts(memory)
    }

    fn write(&mut self, shape: &Shape, off: u32, size: u8, value: u64)
        ensures { self.new
            ≡ answers.translator_written shape.now self.old
            (registers.write_reg self.old.regs off size value) }
    {
        let before = self.regs;
        let change = self.regs.write(off, size, value);
        if shape.linux && has_same_tables(&before, &self.regs) {
            return;
        }
        match change {
            RegChange::DevicesEmptied => self.maps.empty_devices(),
            RegChange::CollectionsEmptied => self.maps.empty_collections(),
            _ => {}
        }
    }

    fn advance(&mut self)
        ensures { self.new ≡ record self.old { regs = registers.advanced self.old.regs } }
    {
        self.regs.advance();
    }

    fn map_device(&mut self, dev: DeviceId, device: Device) -> Result<(), AllocError>
        requires { HasTable device }
        ensures { OnOk result
            (self.new ≡ record self.old { maps = maps.device_mapped self.old.maps dev.0 device }) }
    {
        self.maps.map_device(dev, device)
    }

    fn unmap_device(&mut self, dev: DeviceId)
        ensures { self.new ≡ record self.old { maps = maps.device_unmapped self.old.maps dev.0 } }
    {
        self.maps.unmap_device(dev);
    }

    fn map_event(&mut self, dev: DeviceId, ev: EventId, event: Event) -> Result<(), AllocError>
        requires { 1 ≤ event.intid.0 }
        ensures { OnOk result (self.new
            ≡ record self.old { maps = maps.event_mapped self.old.maps dev.0 ev.0 event }) }
    {
        self.maps.map_event(dev, ev, event)
    }

    fn unmap_event(&mut self, dev: DeviceId, ev: EventId)
        ensures { self.new
            ≡ record self.old { maps = maps.event_unmapped self.old.maps dev.0 ev.0 } }
    {
        self.maps.unmap_event(dev, ev);
    }

    fn map_collection(&mut self, icid: Icid, vcpu: Vcpu) -> Result<(), AllocError>
        ensures { OnOk result (self.new
            ≡ record self.old { maps = maps.collection_mapped self.old.maps icid.0 vcpu }) }
    {
        self.maps.map_collection(icid, vcpu)
    }

    fn unmap_collection(&mut self, icid: Icid)
        ensures { self.new
            ≡ record self.old { maps = maps.collection_unmapped self.old.maps icid.0 } }
    {
        self.maps.unmap_collection(icid);
    }
}

// ---- one of several translators, where it is there

// Whether both tables are the same.
#[tactic(auto, unfolding(gits_regs::specs::Registers::read_reg, gits_regs::specs::Registers::read_64))]
fn has_same_tables(one: &Regs, other: &Regs) -> bool
    ensures { result ≡ answers.has_same_tables one.now other.now }
{
    one.read(offsets::BASER0, 8) == other.read(offsets::BASER0, 8)
        && one.read(offsets::BASER1, 8) == other.read(offsets::BASER1, 8)
}

/// Writes `size` bytes at an offset of a translator's control frame.
pub fn write(all: &mut [TranslatorLists], shape: &Shape, its: u8, off: u32, size: u8, value: u64)
    ensures { all.new
        ≡ slice_set all.old its (answers.translator_written shape.now (translator_in all.old its)
        (registers.write_reg (translator_in all.old its).regs off size value)) }
{
    let at = usize::from(its);
    if at < all.len() {
        all[at].write(shape, off, size, value);
    }
}

/// Moves a translator's GITS_CREADR past a command.
pub fn advance(all: &mut [TranslatorLists], its: u8)
    ensures { all.new ≡ regs_set all.old its (registers.advanced (translator_in all.old its).regs) }
{
    let at = usize::from(its);
    if at < all.len() {
        all[at].advance();
    }
}

/// Maps a device of a translator.
pub fn map_device(
    all: &mut [TranslatorLists],
    its: u8,
    dev: DeviceId,
    device: Device,
) -> Result<(), AllocError>
    requires { HasTable device }
    ensures { OnOk result (all.new
        ≡ maps_set all.old its
        (maps.device_mapped (translator_in all.old its).maps dev.0 device)) }
{
    let at = usize::from(its);
    if at < all.len() {
        all[at].map_device(dev, device)?;
    }
    Ok(())
}

/// Unmaps a device of a translator, and its events.
pub fn unmap_device(all: &mut [TranslatorLists], its: u8, dev: DeviceId)
    ensures { all.new ≡ maps_set all.old its
        (maps.device_unmapped (translator_in all.old its).maps dev.0) }
{
    let at = usize::from(its);
    if at < all.len() {
        all[at].unmap_device(dev);
    }
}

/// Maps an event of a translator.
pub fn map_event(
    all: &mut [TranslatorLists],
    its: u8,
    dev: DeviceId,
    ev: EventId,
    event: Event,
) -> Result<(), AllocError>
    requires { 1 ≤ event.intid.0 }
    ensures { OnOk result (all.new
        ≡ maps_set all.old its
        (maps.event_mapped (translator_in all.old its).maps dev.0 ev.0 event)) }
{
    let at = usize::from(its);
    if at < all.len() {
        all[at].map_event(dev, ev, event)?;
    }
    Ok(())
}

/// Unmaps an event of a translator.
pub fn unmap_event(all: &mut [TranslatorLists], its: u8, dev: DeviceId, ev: EventId)
    ensures { all.new
        ≡ maps_set all.old its (maps.event_unmapped (translator_in all.old its).maps dev.0 ev.0) }
{
    let at = usize::from(its);
    if at < all.len() {
        all[at].unmap_event(dev, ev);
    }
}

/// Maps a collection of a translator.
pub fn map_collection(
    all: &mut [TranslatorLists],
    its: u8,
    icid: Icid,
    vcpu: Vcpu,
) -> Result<(), AllocError>
    ensures { OnOk result (all.new
        ≡ maps_set all.old its
        (maps.collection_mapped (translator_in all.old its).maps icid.0 vcpu)) }
{
    let at = usize::from(its);
    if at < all.len() {
        all[at].map_collection(icid, vcpu)?;
    }
    Ok(())
}

/// Unmaps a collection of a translator.
pub fn unmap_collection(all: &mut [TranslatorLists], its: u8, icid: Icid)
    ensures { all.new
        ≡ maps_set all.old its (maps.collection_unmapped (translator_in all.old its).maps icid.0) }
{
    let at = usize::from(its);
    if at < all.len() {
        all[at].unmap_collection(icid);
    }
}
