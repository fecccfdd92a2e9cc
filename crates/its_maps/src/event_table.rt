//! The events of a device: few of them in one vector, more in pages.

ghost use Rattle.std.specs.Prelude.{◌≡◌, ◌≤◌, true, false, IfSome, IfOk, OnOk, OnErr};
ghost use Rattle.std.specs.Option.{option_copied};
ghost use Rattle.std.specs.FinMap as map;
ghost use Rattle.its_maps.specs.MapRoom.{without};
ghost use Rattle.its_maps.specs.Walks.{events_left};

use crate::paged_map::PagedMap;
use crate::paged_walk::PagedWalk;
use crate::reserve::Reserve;
use crate::sorted_map::SortedMap;
use crate::walks::EventWalk;
use its_types::{Event, Icid};
use std::alloc::{AllocError, Global};
use std::marker::Model;

// How many events have a vector at most.
const FEW: usize = 8;

/// The mapped events of a device, by EventID.
#[derive(Drop)]
pub struct EventTable {
    form: Form,
}

#[derive(Drop)]
enum Form {
    Few(SortedMap<Event>),
    Many(PagedMap<Event>),
}

impl Model for EventTable {
    ghost use Rattle.its_types.specs.Maps.{event_code};
    ghost use Rattle.its_types.specs.declared.translation.Event.{Event};
    ghost use Rattle.its_maps.specs.MapRoom.{MapRoom, map_room_code};

    ghost Value = { MapRoom Event };

    ghost coded = { map_room_code event_code };

    ghost use Rattle.its_maps.specs.EventTables.{events_of};

    ghost view = { λ t. events_of t.form };
}

impl EventTable {
    /// No event, and no memory.
    pub fn new(alloc: Global) -> Self
        ensures { result.map ≡ map.empty }
    {
        EventTable {
            form: Form::Few(SortedMap::new(alloc)),
        }
    }

    /// Makes room for one event more.
    pub fn make_room(&mut self, alloc: Global) -> Result<(), AllocError>
        ensures map { self.new.map ≡ self.old.map }
        ensures ok { OnOk result (1 ≤ self.new.spare) }
        ensures err { OnErr result (self.new ≡ self.old) }
    {
        match &mut self.form {
            Form::Many(pages) => pages.make_room(),
            Form::Few(events) if events.entries().len() < FEW => events.make_room(),
            Form::Few(events) => {
                let pages = in_pages(alloc, events)?;
                self.form = Form::Many(pages);
                Ok(())
            }
        }
    }

    /// What an event is mapped to, if it is.
    pub fn get(&self, ev: u32) -> Option<&Event>
        ensures { option_copied result ≡ map.get self.now.map ev }
    {
        match &self.form {
            Form::Few(events) => events.get(ev),
            Form::Many(pages) => pages.get(ev),
        }
    }

    /// Maps an event.
    pub fn insert(&mut self, ev: u32, event: Event, reserve: &mut Reserve<Event>)
        requires spare { map.contains_key self.old.map ev ≡ false → 1 ≤ self.old.spare }
        requires reserve { map.contains_key self.old.map ev ≡ false → reserve.old ≡ true }
        ensures { self.new.map ≡ map.insert self.old.map ev event }
    {
        match &mut self.form {
            Form::Few(events) => events.insert(ev, event),
            Form::Many(pages) => pages.insert(ev, event, reserve),
        }
    }

    /// Gives an event another collection.
    pub fn move_to(&mut self, ev: u32, icid: Icid)
        requires { map.contains_key self.old.map ev ≡ true }
        ensures { IfSome (map.get self.old.map ev) (λ event.
            self.new.map ≡ map.insert self.old.map ev (record event { icid = icid })) }
    {
        match &mut self.form {
            Form::Few(events) => events.get_mut(ev).icid = icid,
            Form::Many(pages) => pages.get_mut(ev).icid = icid,
        }
    }

    /// Unmaps an event, if it is mapped.
    pub fn remove(&mut self, ev: u32)
        ensures { self.new.map ≡ without self.old.map ev }
    {
        match &mut self.form {
            Form::Few(events) => events.remove(ev),
            Form::Many(pages) => pages.remove(ev),
        }
    }

    /// The events, by rising EventID.
    pub fn walk(&self) -> EventWalk<'_>
        ensures { events_left result ≡ map.entries self.now.map }
    {
        match &self.form {
            Form::Few(events) => EventWalk {
                few: events.entries(),
                many: PagedWalk::new(&[]),
            },
            Form::Many(pages) => EventWalk {
                few: &[],
                many: pages.walk(),
            },
        }
    }
}

// The same events in pages, with room for one more.
fn in_pages(alloc: Global, events: &SortedMap<Event>) -> Result<PagedMap<Event>, AllocError>
    ensures map { IfOk result (λ pages. pages.map ≡ events.now.map) }
    ensures room { IfOk result (λ pages. 1 ≤ pages.spare) }
{
    let mut pages = PagedMap::new(alloc);
    let mut reserve = Reserve::empty();
    for (ev, event) in events.entries() {
        pages.make_room()?;
        reserve.fill(alloc)?;
        pages.insert(*ev, *event, &mut reserve);
    }
    pages.make_room()?;
    Ok(pages)
}
