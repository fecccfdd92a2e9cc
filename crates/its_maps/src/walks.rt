//! Iterators over what is mapped, in rising order.

ghost use Rattle.std.specs.Iterator.{YieldsFirstBy, item_count};

use crate::device_record::DeviceRecord;
use crate::paged_walk::PagedWalk;
use its_types::{Device, DeviceId, Event, EventId, Icid, Vcpu};
use std::marker::Model;

/// The mapped devices.
#[derive(Drop)]
pub struct DeviceWalk<'a> {
    pub(crate) rest: PagedWalk<'a, DeviceRecord>,
}

impl<'a> Model for DeviceWalk<'a> {
    ghost use Rattle.std.specs.Prelude.{ℕ, List, map};
    ghost use Rattle.its_types.specs.declared.translation.Device.{Device};
    ghost use Rattle.its_maps.specs.Walks.{left_of_pages};

    ghost Value = { List (ℕ × Device) };

    ghost view = { λ w. map (λ d. (d.0, d.1.device)) (left_of_pages w.rest) };
}

impl<'a> Iterator for DeviceWalk<'a> {
    type Item = (DeviceId, Device);

    ghost next_gives = { YieldsFirstBy (λ d. (d.0.0, d.1)) (λ w. w) };

    ghost remaining = { item_count (λ w. w) };

    fn next(&mut self) -> Option<(DeviceId, Device)> {
        let (dev, record) = self.rest.next()?;
        Some((DeviceId(dev), record.device))
    }
}

/// The mapped events of a device.
#[derive(Drop)]
pub struct EventWalk<'a> {
    pub(crate) few: &'a [(u32, Event)],
    pub(crate) many: PagedWalk<'a, Event>,
}

impl<'a> Model for EventWalk<'a> {
    ghost use Rattle.its_maps.specs.Walks.{EventsLeft};

    ghost Value = { EventsLeft };

    ghost view = { λ w. record { few = w.few.now; many = w.many } };
}

impl<'a> Iterator for EventWalk<'a> {
    type Item = (EventId, Event);

    ghost use Rattle.its_maps.specs.Walks.{events_left};

    ghost next_gives = { YieldsFirstBy (λ e. (e.0.0, e.1)) events_left };

    ghost remaining = { item_count events_left };

    fn next(&mut self) -> Option<(EventId, Event)> {
        if let Some(((ev, event), rest)) = self.few.split_first() {
            self.few = rest;
            return Some((EventId(*ev), *event));
        }
        let (ev, event) = self.many.next()?;
        Some((EventId(ev), *event))
    }
}

impl<'a> EventWalk<'a> {
    ghost use Rattle.std.specs.Prelude.{◌≡◌, ◌+◌, ◌<◌, ◌≤◌, ◌++◌, [], length, take};
    ghost use Rattle.its_maps.specs.Pages.{slots_from, AllFrom};
    ghost use Rattle.its_maps.specs.Walks.{events_left};

    /// The next places from an EventID on, at most so many, as they lie in memory: all that the
    /// walk has there. A walk that can't hand out places from there on gives none.
    pub fn places(&mut self, ev: EventId, most: usize) -> &'a [Option<Event>]
        ensures walk { events_left self.old ≡ slots_from ev.0 result.now ++ events_left self.new }
        ensures most { length result.now ≤ most }
        ensures keys { ev.0 + length result.now ≤ 4294967296 }
        ensures after { 0 < length result.now
            → AllFrom (ev.0 + length result.now) (events_left self.new) }
        ensures here { self.old.few ≡ [] → self.old.many.key ≡ ev.0
            → result.now ≡ take most self.old.many.places }
    {
        if !self.few.is_empty() {
            return &[];
        }
        self.many.places(ev.0, most)
    }
}

/// The mapped collections.
#[derive(Drop)]
pub struct CollectionWalk<'a> {
    pub(crate) rest: PagedWalk<'a, Vcpu>,
}

impl<'a> Model for CollectionWalk<'a> {
    ghost use Rattle.std.specs.Prelude.{ℕ, List};
    ghost use Rattle.its_types.specs.declared.ids.Vcpu.{Vcpu};
    ghost use Rattle.its_maps.specs.MapsRoom.{EachFits};
    ghost use Rattle.its_maps.specs.Walks.{left_of_pages};

    ghost Value = { List (ℕ × Vcpu) };

    ghost view = { λ w. left_of_pages w.rest };

    ghost invariant = { λ w. EachFits (left_of_pages w.rest) };
}

impl<'a> Iterator for CollectionWalk<'a> {
    type Item = (Icid, Vcpu);

    ghost next_gives = { YieldsFirstBy (λ c. (c.0.0, c.1)) (λ w. w) };

    ghost remaining = { item_count (λ w. w) };

    fn next(&mut self) -> Option<(Icid, Vcpu)> {
        let (icid, vcpu) = self.rest.next()?;
        Some((Icid(icid as u16), *vcpu))
    }
}
