//! The maps of a translator.
ghost use Rattle.std.specs.Prelude.{◌≡◌, ◌≤◌, ◌<◌, ◌&&◌, ℕ, true, false, None, IsSome, IfSome};
ghost use Rattle.std.specs.Prelude.{OnOk, OnErr, length};
ghost use Rattle.std.specs.FinMap as finmap;
ghost use Rattle.its_types.specs.Maps.{device_of, event_of, collection_of, events_at, no_maps};
ghost use Rattle.its_types.specs.Maps.{device_mapped, device_unmapped, event_mapped};
ghost use Rattle.its_types.specs.Maps.{event_unmapped, collection_mapped, collection_unmapped};
ghost use Rattle.its_types.specs.Maps.{devices_emptied, collections_emptied};
ghost use Rattle.its_maps.specs.Counting.{has_events, named, IsTally, counts_another, AreCounted};
ghost use Rattle.its_maps.specs.LookUp.{looked_up};
ghost use Rattle.its_maps.specs.MapRoom.{without};
ghost use Rattle.its_maps.specs.NextNamed.{end_of};
ghost use Rattle.its_maps.specs.MapsRoom.{event_room, EventsHaveDevices, KeysFit};
ghost use Rattle.its_maps.specs.Walks.{events_left};

use crate::counts::Counts;
use crate::device_record::DeviceRecord;
use crate::event_table::EventTable;
use crate::look_up::LookUp;
use crate::paged_map::PagedMap;
use crate::paged_walk::PagedWalk;
use crate::reserve::Reserve;
use crate::walks::{CollectionWalk, DeviceWalk, EventWalk};
use its_types::{Device, DeviceId, Event, EventId, Icid, Vcpu};
use std::alloc::{AllocError, Global};
use std::marker::Model;

/// The devices, events and collections of a translator (IHI 0069, section 5.2). Each event's device
/// is mapped.
///
/// A look-up, a map or an unmap costs about the same however much is mapped and in whatever order:
/// a key has its place in a page of such places, which is there while one of its keys is mapped.
/// The few events of a device are one vector. Unmapping a device costs with its events, each of
/// which is counted no more.
///
/// The three calls that make room take memory, and no other call does. After such a call that
/// succeeded, one map call of its kind finds the page and the place that it may need. There is room
/// for no more than 2^32 - 1 devices and 2^64 - 2 events.
#[derive(Drop)]
pub struct Maps {
    devices: PagedMap<DeviceRecord>,
    collections: PagedMap<Vcpu>,
    device_page: Reserve<DeviceRecord>,
    event_page: Reserve<Event>,
    collection_page: Reserve<Vcpu>,
    counts: Counts,
    alloc: Global,
}

impl Model for Maps {
    ghost use Rattle.its_maps.specs.MapsRoom.{MapsRoom, maps_room_code, KeysFit};

    ghost Value = { MapsRoom };

    ghost coded = { maps_room_code };

    ghost use Rattle.std.specs.Prelude.{◌&&◌};
    ghost use Rattle.its_maps.specs.Counting.{counts_device, counts_another, AreCounted};
    ghost use Rattle.its_maps.specs.View.{shown, room_of, event_room_in};

    ghost view = { λ m. record {
      maps = shown m.devices.map m.collections.map;
      room = record {
        devices = room_of (m.device_page && counts_device m.counts) m.devices.spare;
        events = event_room_in (m.event_page && counts_another m.counts) m.devices.map;
        collections = room_of m.collection_page m.collections.spare;
      };
    } };

    ghost invariant = { λ m. KeysFit m.collections.map × AreCounted m.counts m.devices.map };
}

impl Maps {
    /// No device, event or collection, and room for none. Room will come from the allocator given.
    pub fn new(alloc: Global) -> Maps
        ensures { result.maps ≡ no_maps }
    {
        Maps {
            devices: PagedMap::new(alloc),
            collections: PagedMap::new(alloc),
            device_page: Reserve::empty(),
            event_page: Reserve::empty(),
            collection_page: Reserve::empty(),
            counts: Counts::new(alloc),
            alloc,
        }
    }

    /// Makes room for one device more.
    pub fn room_for_device(&mut self) -> Result<(), AllocError>
        ensures maps { self.new.maps ≡ self.old.maps }
        ensures ok { OnOk result (1 ≤ self.new.room.devices) }
        ensures grows { self.old.room.devices ≤ self.new.room.devices }
        ensures others { self.new.room ≡ record self.old.room { devices = self.new.room.devices } }
        ensures err { OnErr result (self.new ≡ self.old) }
    {
        if self.counts.devices == u32::MAX {
            return Err(AllocError);
        }
        self.devices.make_room()?;
        self.device_page.fill(self.alloc)
    }

    /// Makes room for one event more of a mapped device.
    pub fn room_for_event(&mut self, dev: DeviceId) -> Result<(), AllocError>
        requires { IsSome (device_of self.old.maps dev.0) }
        ensures maps { self.new.maps ≡ self.old.maps }
        ensures ok { OnOk result (1 ≤ event_room self.new.room dev.0) }
        ensures grows { (d : ℕ) → event_room self.old.room d ≤ event_room self.new.room d }
        ensures others { self.new.room ≡ record self.old.room { events = self.new.room.events } }
        ensures err { OnErr result (self.new ≡ self.old) }
    {
        let record = self.devices.get_mut(dev.0);
        record.events.make_room(self.alloc)?;
        fill_for_event(&mut self.counts, &mut self.event_page, self.alloc)
    }

    /// Makes room for one collection more.
    pub fn room_for_collection(&mut self) -> Result<(), AllocError>
        ensures maps { self.new.maps ≡ self.old.maps }
        ensures ok { OnOk result (1 ≤ self.new.room.collections) }
        ensures grows { self.old.room.collections ≤ self.new.room.collections }
        ensures others { self.new.room ≡ record self.old.room {
          collections =
              self.new.room.collections;
        } }
        ensures err { OnErr result (self.new ≡ self.old) }
    {
        self.collections.make_room()?;
        self.collection_page.fill(self.alloc)
    }

    /// Maps a device, which then has no event.
    pub fn map_device(&mut self, dev: DeviceId, device: Device)
        requires { device_of self.old.maps dev.0 ≡ None → 1 ≤ self.old.room.devices }
        ensures maps { self.new.maps ≡ device_mapped self.old.maps dev.0 device }
        ensures room { self.new.room.collections ≡ self.old.room.collections }
    {
        let record = DeviceRecord {
            device,
            events: EventTable::new(self.alloc),
        };
        leave_device(&mut self.counts, &self.devices, dev);
        self.counts.devices += 1;
        self.devices.insert(dev.0, record, &mut self.device_page);
    }

    /// Maps an event of a mapped device.
    pub fn map_event(&mut self, dev: DeviceId, ev: EventId, event: Event)
        requires mapped { IsSome (device_of self.old.maps dev.0) }
        requires room { event_of self.old.maps dev.0 ev.0 ≡ None
            → 1 ≤ event_room self.old.room dev.0 }
        ensures maps { self.new.maps ≡ event_mapped self.old.maps dev.0 ev.0 event }
        ensures room { self.new.room ≡ record self.old.room { events = self.new.room.events } }
    {
        let record = self.devices.get_mut(dev.0);
        let before = record.events.get(ev.0).copied();
        self.counts.leave(before);
        self.counts.enter(event.icid);
        record.events.insert(ev.0, event, &mut self.event_page);
    }

    /// Maps a collection to a virtual processor.
    pub fn map_collection(&mut self, icid: Icid, vcpu: Vcpu)
        requires { collection_of self.old.maps icid.0 ≡ None → 1 ≤ self.old.room.collections }
        ensures maps { self.new.maps ≡ collection_mapped self.old.maps icid.0 vcpu }
        ensures room { self.new.room ≡ record self.old.room {
          collections =
              self.new.room.collections;
        } }
    {
        let Icid(number) = icid;
        self.collections
            .insert(u32::from(number), vcpu, &mut self.collection_page);
    }

    /// Unmaps a device, if it is mapped, with its events.
    pub fn unmap_device(&mut self, dev: DeviceId)
        ensures maps { self.new.maps ≡ device_unmapped self.old.maps dev.0 }
        ensures room { self.new.room.collections ≡ self.old.room.collections }
    {
        leave_device(&mut self.counts, &self.devices, dev);
        self.devices.remove(dev.0);
    }

    /// Unmaps an event, if it is mapped.
    pub fn unmap_event(&mut self, dev: DeviceId, ev: EventId)
        ensures maps { self.new.maps ≡ event_unmapped self.old.maps dev.0 ev.0 }
        ensures room { self.new.room ≡ record self.old.room { events = self.new.room.events } }
    {
        if self.devices.contains(dev.0) {
            let record = self.devices.get_mut(dev.0);
            let gone = record.events.get(ev.0).copied();
            self.counts.leave(gone);
            record.events.remove(ev.0);
        }
    }

    /// Gives a mapped event another collection, and leaves its INTID.
    pub fn move_event(&mut self, dev: DeviceId, ev: EventId, icid: Icid)
        requires { IsSome (event_of self.old.maps dev.0 ev.0) }
        ensures maps { IfSome (event_of self.old.maps dev.0 ev.0) (λ event.
            self.new.maps
            ≡ event_mapped self.old.maps dev.0 ev.0 (record event { icid = icid })) }
        ensures room { self.new.room ≡ record self.old.room { events = self.new.room.events } }
    {
        let record = self.devices.get_mut(dev.0);
        let before = record.events.get(ev.0).copied();
        self.counts.leave(before);
        self.counts.enter(icid);
        record.events.move_to(ev.0, icid);
    }

    /// Unmaps a collection, if it is mapped.
    pub fn unmap_collection(&mut self, icid: Icid)
        ensures maps { self.new.maps ≡ collection_unmapped self.old.maps icid.0 }
        ensures room { self.new.room ≡ record self.old.room {
          collections =
              self.new.room.collections;
        } }
    {
        self.collections.remove(u32::from(icid.0));
    }

    /// Unmaps all devices with their events.
    pub fn empty_devices(&mut self)
        ensures maps { self.new.maps ≡ devices_emptied self.old.maps }
        ensures room { self.new.room.collections ≡ self.old.room.collections }
    {
        self.devices.clear();
        self.counts = Counts::new(self.alloc);
    }

    /// Unmaps all collections.
    pub fn empty_collections(&mut self)
        ensures maps { self.new.maps ≡ collections_emptied self.old.maps }
        ensures room { self.new.room ≡ record self.old.room {
          collections =
              self.new.room.collections;
        } }
    {
        self.collections.clear();
    }

    /// What a device is mapped to, if it is.
    pub fn device(&self, dev: DeviceId) -> Option<Device>
        ensures { result ≡ device_of self.now.maps dev.0 }
    {
        let record = self.devices.get(dev.0)?;
        Some(record.device)
    }

    /// What is mapped of a device and one of its events, found in one search of the devices.
    pub fn look_up(&self, dev: DeviceId, ev: EventId) -> LookUp
        ensures found { result ≡ looked_up self.now.maps dev.0 ev.0 }
        ensures mapped { EventsHaveDevices self.now.maps }
    {
        match self.devices.get(dev.0) {
            None => LookUp::NoDevice,
            Some(record) => match record.events.get(ev.0) {
                None => LookUp::NoEvent(record.device),
                Some(event) => LookUp::Mapped(record.device, *event),
            },
        }
    }

    /// The virtual processor that a mapped collection goes to.
    pub fn collection(&self, icid: Icid) -> Option<Vcpu>
        ensures { result ≡ collection_of self.now.maps icid.0 }
    {
        self.collections.get(u32::from(icid.0)).copied()
    }

    /// How many devices are mapped. Nothing is walked.
    pub fn device_count(&self) -> u32
        ensures { result ≡ length (finmap.entries self.now.maps.devices) }
    {
        self.counts.devices
    }

    /// How many events are mapped. Nothing is walked.
    pub fn event_count(&self) -> u64
        ensures { result ≡ length (finmap.entries self.now.maps.events) }
    {
        self.counts.events
    }

    /// Whether a mapped event names a collection, mapped or not. It costs the same however many
    /// events there are.
    pub fn has_events_of(&self, icid: Icid) -> bool
        ensures { result ≡ has_events self.now.maps icid.0 }
    {
        self.counts.tally.has(icid)
    }

    /// The first collection from an ICID on, mapped or not, that a mapped event names.
    pub fn next_named(&self, from: u32) -> Option<Icid>
        ensures here { IfSome result (λ icid.
            (from ≤ icid.0) × (has_events self.now.maps icid.0 ≡ true)) }
        ensures before { (n : ℕ) → from ≤ n → n < end_of result
            → has_events self.now.maps n ≡ false }
    {
        self.counts.tally.next(from)
    }

    /// The mapped devices, by rising DeviceID.
    pub fn devices(&self) -> DeviceWalk<'_>
        ensures { result ≡ finmap.entries self.now.maps.devices }
    {
        DeviceWalk {
            rest: self.devices.walk(),
        }
    }

    /// The mapped events of a device, by rising EventID. A device that isn't mapped has none.
    pub fn events(&self, dev: DeviceId) -> EventWalk<'_>
        ensures { events_left result ≡ events_at self.now.maps dev.0 }
    {
        match self.devices.get(dev.0) {
            Some(record) => record.events.walk(),
            None => EventWalk {
                few: &[],
                many: PagedWalk::new(&[]),
            },
        }
    }

    /// The mapped collections, by rising ICID.
    pub fn collections(&self) -> CollectionWalk<'_>
        ensures collections { result ≡ finmap.entries self.now.maps.collections }
        ensures fits { KeysFit self.now.maps.collections }
    {
        CollectionWalk {
            rest: self.collections.walk(),
        }
    }
}

// What an event's place needs besides room in its device: a page, and room in the counts.
fn fill_for_event(
    counts: &mut Counts,
    page: &mut Reserve<Event>,
    alloc: Global,
) -> Result<(), AllocError>
    requires { IsTally counts.old.tally }
    ensures devices { counts.new.devices ≡ counts.old.devices }
    ensures events { counts.new.events ≡ counts.old.events }
    ensures tally { IsTally counts.new.tally }
    ensures named { (icid : ℕ) → icid < 65536
        → named counts.new.tally icid ≡ named counts.old.tally icid }
    ensures ok { OnOk result ((page.new && counts_another counts.new) ≡ true) }
    ensures err { OnErr result
        ((page.new && counts_another counts.new) ≡ (page.old && counts_another counts.old)) }
    ensures lacking { OnErr result ((page.old && counts_another counts.old) ≡ false) }
{
    counts.make_room(alloc)?;
    page.fill(alloc)
}

// Counts a device, if it is mapped, and its events no more.
fn leave_device(counts: &mut Counts, devices: &PagedMap<DeviceRecord>, dev: DeviceId)
    requires { AreCounted counts.old devices.now.map }
    ensures { AreCounted counts.new (without devices.now.map dev.0) }
{
    if let Some(record) = devices.get(dev.0) {
        counts.devices -= 1;
        counts.leave_all(record.events.walk());
    }
}
