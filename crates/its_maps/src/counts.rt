//! How many devices and events are mapped, and how many events name each collection.

ghost use Rattle.std.specs.Prelude.{◌≡◌, ◌+◌, ◌-◌, ◌^◌, ◌<◌, ◌≤◌, ℕ, true, false, is_some, OnOk};
ghost use Rattle.std.specs.Prelude.{OnErr, ◌||◌};
ghost use Rattle.std.specs.List.{sum_by};
ghost use Rattle.its_maps.specs.Counting.{named, naming, is_named, one, of_option, IsTally};
ghost use Rattle.its_maps.specs.Counting.{counts_another};
ghost use Rattle.its_maps.specs.Walks.{events_left};

use crate::tally::Tally;
use crate::walks::EventWalk;
use its_types::{Event, Icid};
use std::alloc::{AllocError, Global};

// With so many events there is room for none: the number of them then stays below 2^64 - 1.
const MOST_EVENTS: u64 = u64::MAX - 1;

/// The numbers of what is mapped.
#[derive(Drop)]
pub struct Counts {
    /// How many devices.
    pub devices: u32,
    /// How many events, below 2^64 - 1.
    pub events: u64,
    /// How many events name each collection.
    pub tally: Tally,
}

impl Counts {
    /// Nothing is mapped.
    pub fn new(alloc: Global) -> Self
        ensures devices { result.devices ≡ 0 }
        ensures events { result.events ≡ 0 }
        ensures tally { IsTally result.tally }
        ensures named { (icid : ℕ) → named result.tally icid ≡ 0 }
    {
        Counts {
            devices: 0,
            events: 0,
            tally: Tally::new(alloc),
        }
    }

    /// Makes room to count one event more.
    pub fn make_room(&mut self, alloc: Global) -> Result<(), AllocError>
        requires { IsTally self.old.tally }
        ensures devices { self.new.devices ≡ self.old.devices }
        ensures events { self.new.events ≡ self.old.events }
        ensures tally { IsTally self.new.tally }
        ensures named { (icid : ℕ) → icid < 65536
            → named self.new.tally icid ≡ named self.old.tally icid }
        ensures ok { OnOk result (counts_another self.new ≡ true) }
        ensures err { OnErr result (counts_another self.new ≡ false) }
        ensures lacking { OnErr result (counts_another self.old ≡ false) }
    {
        if self.events >= MOST_EVENTS {
            return Err(AllocError);
        }
        self.tally.make_room(alloc)
    }

    /// One event more is mapped.
    pub fn enter(&mut self, icid: Icid)
        requires tally { IsTally self.old.tally }
        requires room { counts_another self.old ≡ true }
        requires fits { named self.old.tally icid.0 < 2 ^ 64 - 1 }
        ensures devices { self.new.devices ≡ self.old.devices }
        ensures events { self.new.events ≡ self.old.events + 1 }
        ensures below { self.new.events < 2 ^ 64 - 1 }
        ensures tally { IsTally self.new.tally }
        ensures named { (n : ℕ) → named self.new.tally n
            ≡ named self.old.tally n + is_named icid.0 n }
    {
        self.events += 1;
        self.tally.add(icid);
    }

    /// An event that was mapped, if it was, isn't any more.
    pub fn leave(&mut self, event: Option<Event>)
        requires tally { IsTally self.old.tally }
        requires some { of_option one event ≤ self.old.events }
        requires below { self.old.events < 2 ^ 64 - 1 }
        requires named { (n : ℕ) → n < 65536
            → of_option (naming n) event ≤ named self.old.tally n }
        ensures devices { self.new.devices ≡ self.old.devices }
        ensures events { self.new.events + of_option one event ≡ self.old.events }
        ensures tally { IsTally self.new.tally }
        ensures named { (n : ℕ) → n < 65536
            → named self.new.tally n + of_option (naming n) event ≡ named self.old.tally n }
        ensures room { (is_some event || counts_another self.old) ≡ true
            → counts_another self.new ≡ true }
    {
        if let Some(gone) = event {
            self.events -= 1;
            self.tally.take(gone.icid);
        }
    }

    /// All events of a device aren't mapped any more.
    pub fn leave_all(&mut self, events: EventWalk)
        requires tally { IsTally self.old.tally }
        requires some { sum_by (λ e. one e.1) (events_left events) ≤ self.old.events }
        requires named { (n : ℕ) → n < 65536
            → sum_by (λ e. naming n e.1) (events_left events) ≤ named self.old.tally n }
        ensures devices { self.new.devices ≡ self.old.devices }
        ensures events { self.new.events + sum_by (λ e. one e.1) (events_left events.entry)
            ≡ self.old.events }
        ensures tally { IsTally self.new.tally }
        ensures named { (n : ℕ) → n < 65536
            → named self.new.tally n + sum_by (λ e. naming n e.1) (events_left events.entry)
            ≡ named self.old.tally n }
    {
        for (_, event) in events {
            self.events -= 1;
            self.tally.take(event.icid);
        }
    }
}
