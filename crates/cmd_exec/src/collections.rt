//! The events of a collection: what happens to the LPIs of all of them.
ghost use Rattle.std.specs.Prelude.{◌≡◌, ◌<◌, ℕ, true, List, ◌++◌, length};
ghost use Rattle.its_maps.specs.MapsRoom.{EventsHaveDevices};
ghost use Rattle.its_maps.specs.Walks.{events_left};
ghost use Rattle.its_plain.specs.Commands.{intids_of, conf_all_reread_at};
ghost use Rattle.cmd_exec.specs.InHand.{is_on_in, confs_changed, lpis_moved_in};
ghost use Rattle.cmd_exec.specs.Ready.{TakesAll, CanEachReread};
ghost use Rattle.cmd_exec.specs.Walked.{lpis_of, AreLeft};

use crate::batch::Batch;
use crate::lpis::move_lpi;
use crate::rereading::reread_batch;
use guest_windows::Memory;
use its_maps::{EventWalk, Maps};
use its_types::{Icid, Vcpu};
use lpi_pending::Redists;

/// The pending LPIs of its events go from one virtual processor to another, whose LPIs are on. The
/// maps are walked only where it has events.
pub fn move_lpis(redists: &mut Redists, maps: &Maps, icid: Icid, from: Vcpu, to: Vcpu)
    requires devices { EventsHaveDevices maps.now.maps }
    requires from { TakesAll redists.old from.0 (intids_of maps.now.maps icid.0) }
    requires to { TakesAll redists.old to.0 (intids_of maps.now.maps icid.0) }
    requires on { is_on_in redists.old to.0 ≡ true }
    ensures { redists.new ≡ lpis_moved_in (intids_of maps.now.maps icid.0) from.0 to.0 redists.old }
{
    if !maps.has_events_of(icid) {
        return;
    }
    for (dev, _) in maps.devices() {
        move_lpis_of(redists, maps.events(dev), icid, from, to);
    }
}

// Those of one device.
fn move_lpis_of(redists: &mut Redists, events: EventWalk, icid: Icid, from: Vcpu, to: Vcpu)
    requires from { TakesAll redists.old from.0 (lpis_of (events_left events) icid.0) }
    requires to { TakesAll redists.old to.0 (lpis_of (events_left events) icid.0) }
    requires on { is_on_in redists.old to.0 ≡ true }
    ensures { redists.new
        ≡ lpis_moved_in (lpis_of (events_left events.entry) icid.0) from.0 to.0 redists.old }
{
    for (_, event) in events {
        if event.icid == icid {
            move_lpi(redists, from, to, event.intid);
        }
    }
}

/// Each of the first virtual processors reads the configuration of the LPIs of its events again.
/// The maps are walked once, however many virtual processors there are, and only where the
/// collection has events.
pub fn reread_collection(
    redists: &mut Redists,
    vcpus: u16,
    memory: &Memory,
    maps: &Maps,
    icid: Icid,
)
    requires devices { EventsHaveDevices maps.now.maps }
    requires each { CanEachReread vcpus redists.old (intids_of maps.now.maps icid.0) }
    ensures { redists.new
        ≡ confs_changed vcpus (conf_all_reread_at memory.now (intids_of maps.now.maps icid.0))
        redists.old }
{
    if !maps.has_events_of(icid) {
        return;
    }
    let mut batch = Batch::new();
    for (dev, _) in maps.devices() {
        reread_collection_of(redists, vcpus, memory, maps.events(dev), icid, &mut batch);
    }
    reread_batch(redists, vcpus, memory, batch.intids());
}

// Those of one device come to a batch, which is read again each time that it is full.
fn reread_collection_of(
    redists: &mut Redists,
    vcpus: u16,
    memory: &Memory,
    events: EventWalk,
    icid: Icid,
    batch: &mut Batch,
)
    requires { CanEachReread vcpus redists.old
        (batch.old ++ lpis_of (events_left events) icid.0) }
    ensures { AreLeft vcpus memory.now (batch.old ++ lpis_of (events_left events.entry) icid.0)
        batch.new redists.old redists.new }
{
    for (_, event) in events {
        if event.icid == icid {
            flush_full(redists, vcpus, memory, batch);
            batch.push(event.intid);
        }
    }
}

// A full batch is read again, and is then empty.
fn flush_full(redists: &mut Redists, vcpus: u16, memory: &Memory, batch: &mut Batch)
    requires { CanEachReread vcpus redists.old batch.old }
    ensures left { AreLeft vcpus memory.now batch.old batch.new redists.old redists.new }
    ensures room { length batch.new < 64 }
{
    if batch.has_room() {
        return;
    }
    reread_batch(redists, vcpus, memory, batch.intids());
    batch.clear();
}
