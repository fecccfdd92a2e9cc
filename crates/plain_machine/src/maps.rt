//! The maps of a translator as plain lists.
use crate::collection_entries::{EntryTarget, collection_entries};
use crate::mapped_entries::{MappedDevice, MappedEvent};
use crate::saved_lists::{add_itts, device_after, event_after, first_unplaced, write_itts};
use crate::saved_words::{device_entry, event_entry};
use crate::tables;
use crate::tracked_memory::TrackedMemory;
use gits_regs::Regs;
use guest_windows::Memory;
use its_plain::Area;
use its_types::{Device, DeviceId, Event, EventId, Icid, Shape, Vcpu};
use std::alloc::{AllocError, Global};
use std::marker::Model;

/// Devices, events and collections, each a list whose keys rise.
#[derive(Drop)]
pub struct MapLists {
    pub(crate) devices: Vec<(u32, MappedDevice)>,
    pub(crate) events: Vec<((u32, u32), MappedEvent)>,
    pub(crate) collections: Vec<(u16, Vcpu)>,
}

impl Model for MapLists {
    ghost use Rattle.its_types.specs.Maps.{Maps, maps_code};

    ghost Value = { Maps };

    ghost coded = { maps_code };

    ghost use Rattle.plain_machine.specs.MapLists.{maps_of_lists, Rise};

    ghost view = { maps_of_lists };

    ghost invariant = { Rise };
}

impl MapLists {
    ghost use Rattle.std.specs.Prelude.{◌≡◌, ◌≤◌, ◌==◌, ◌++◌, OnOk, IfOk, IfSome, filter, map};
    ghost use Rattle.std.specs.Option.{option_map};
    ghost use Rattle.std.specs.FinMap.{entries};
    ghost use Rattle.its_types.specs.Maps as spec;
    ghost use Rattle.its_plain.specs.Commands.{intids_of};
    ghost use Rattle.plain_machine.specs.Mapped.{HasTable};
    ghost use Rattle.its_plain.specs.Regions as regions;
    ghost use Rattle.its_plain.specs.Saved as saved;
    ghost use Rattle.plain_machine.specs.Memories.{put_all};

    /// Nothing is mapped.
    pub fn new(alloc: Global) -> MapLists
        ensures { result ≡ spec.no_maps }
    {
        MapLists {
            devices: Vec::new(alloc),
            events: Vec::new(alloc),
            collections: Vec::new(alloc),
        }
    }

    /// A mapped device.
    pub fn device(&self, dev: DeviceId) -> Option<MappedDevice>
        ensures { result ≡ spec.device_of self.now dev.0 }
    {
        tables::find(&self.devices, dev.0)
    }

    /// A mapped event.
    pub fn event(&self, dev: DeviceId, ev: EventId) -> Option<MappedEvent>
        ensures { result ≡ spec.event_of self.now dev.0 ev.0 }
    {
        tables::find(&self.events, (dev.0, ev.0))
    }

    /// The virtual processor of a mapped collection.
    pub fn collection(&self, icid: Icid) -> Option<Vcpu>
        ensures { result ≡ spec.collection_of self.now icid.0 }
    {
        tables::find(&self.collections, icid.0)
    }

    /// The INTIDs of the events of a collection, by device and event.
    pub fn intids(&self, alloc: Global, icid: Icid) -> Result<Vec<u32>, AllocError>
        ensures { IfOk result (λ v. v.items ≡ intids_of self.now icid.0) }
    {
        tables::intids(alloc, &self.events, icid)
    }

    /// Maps a device, which then has no event. Out of memory, nothing is said of the maps.
    pub fn map_device(&mut self, dev: DeviceId, device: Device) -> Result<(), AllocError>
        requires { HasTable device }
        ensures { OnOk result (self.new ≡ spec.device_mapped self.old dev.0 device) }
    {
        tables::put(&mut self.devices, dev.0, MappedDevice::new(device))?;
        tables::remove_events(&mut self.events, dev.0);
        Ok(())
    }

    /// Unmaps a device and its events.
    pub fn unmap_device(&mut self, dev: DeviceId)
        ensures { self.new ≡ spec.device_unmapped self.old dev.0 }
    {
        tables::remove_device(&mut self.devices, dev.0);
        tables::remove_events(&mut self.events, dev.0);
    }

    /// Maps an event. Out of memory, nothing is said of the maps.
    pub fn map_event(&mut self, dev: DeviceId, ev: EventId, event: Event) -> Result<(), AllocError>
        requires { 1 ≤ event.intid.0 }
        ensures { OnOk result (self.new ≡ spec.event_mapped self.old dev.0 ev.0 event) }
    {
        tables::put(&mut self.events, (dev.0, ev.0), MappedEvent::new(event))?;
        Ok(())
    }

    /// Unmaps an event, if it is mapped.
    pub fn unmap_event(&mut self, dev: DeviceId, ev: EventId)
        ensures { self.new ≡ spec.event_unmapped self.old dev.0 ev.0 }
    {
        tables::remove_event(&mut self.events, dev.0, ev.0);
    }

    /// Maps a collection. Out of memory, nothing is said of the maps.
    pub fn map_collection(&mut self, icid: Icid, vcpu: Vcpu) -> Result<(), AllocError>
        ensures { OnOk result (self.new ≡ spec.collection_mapped self.old icid.0 vcpu) }
    {
        tables::put(&mut self.collections, icid.0, vcpu)?;
        Ok(())
    }

    /// Unmaps a collection, if it is mapped.
    pub fn unmap_collection(&mut self, icid: Icid)
        ensures { self.new ≡ spec.collection_unmapped self.old icid.0 }
    {
        tables::remove_collection(&mut self.collections, icid.0);
    }

    /// Unmaps all devices and events.
    pub fn empty_devices(&mut self)
        ensures { self.new ≡ spec.devices_emptied self.old }
    {
        self.devices.clear();
        self.events.clear();
    }

    /// Unmaps all collections. Events stay.
    pub fn empty_collections(&mut self)
        ensures { self.new ≡ spec.collections_emptied self.old }
    {
        self.collections.clear();
    }

    /// Adds the areas of the interrupt translation tables.
    pub fn add_itts(&self, its: u8, areas: &mut Vec<Area>) -> Result<(), AllocError>
        ensures { OnOk result
            (areas.new.items ≡ areas.old.items ++ regions.itt_areas its self.now) }
    {
        add_itts(areas, its, &self.devices)
    }

    /// The first device whose level-1 entry isn't valid.
    pub fn first_unplaced(&self, regs: &Regs, memory: &Memory) -> Option<DeviceId>
        ensures { option_map (λ d. d.0) result
            ≡ option_map (λ d. d.0)
            (regions.first_unplaced memory.now (record { regs = regs.now; maps = self.now })) }
    {
        first_unplaced(&self.devices, regs, memory)
    }

    /// Writes the interrupt translation tables.
    pub fn write_itts(&self, memory: &mut TrackedMemory) -> Result<(), AllocError>
        ensures { OnOk result
            (memory.new ≡ put_all memory.old (saved.itt_words self.now)) }
    {
        write_itts(memory, &self.devices, self)
    }

    /// The entry of a device in a saved table, or zero where it isn't mapped.
    #[tactic(auto, unfolding(its_plain::specs::Saved::device_word))]
    pub fn device_word(&self, dev: DeviceId) -> u64
        ensures { result ≡ saved.device_word self.now dev.0 }
    {
        device_entry(dev.0, self.device(dev), self.device_after(dev))
    }

    fn device_after(&self, dev: DeviceId) -> Option<u32>
        ensures { result ≡ saved.device_after self.now dev.0 }
    {
        device_after(&self.devices, dev)
    }

    /// The entry of an event in a saved table, or zero where it isn't mapped.
    #[tactic(auto, unfolding(its_plain::specs::Saved::event_word))]
    pub fn event_word(&self, dev: DeviceId, ev: u32) -> u64
        ensures { result ≡ saved.event_word self.now dev.0 ev }
    {
        event_entry(ev, self.event(dev, EventId(ev)), self.event_after(dev, ev))
    }

    fn event_after(&self, dev: DeviceId, ev: u32) -> Option<u32>
        ensures { result ≡ saved.event_after self.now dev.0 ev }
    {
        event_after(&self.events, dev, ev)
    }

    /// The collections that have entries in a saved table, in rising order.
    pub fn collection_entries(
        &self,
        alloc: Global,
        shape: &Shape,
        regs: &Regs,
    ) -> Result<Vec<(u16, EntryTarget)>, AllocError>
        ensures { IfOk result (λ v.
            v.items
            ≡ entries (saved.saved_collections shape.now (record {
              regs = regs.now;
              maps = self.now;
            }))) }
    {
        collection_entries(alloc, shape.linux, regs, &self.collections, &self.events)
    }
}
