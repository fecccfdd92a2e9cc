//! Pending bits that KVM left behind. It writes an LPI's bit in the pending table of its present
//! target, leaves older bits in other tables as they are, and reads none of these.
ghost use Rattle.std.specs.Prelude.{◌≡◌, ◌<◌, ◌≤◌, ℕ, true, false, OnOk, IfOk, is_some, length};
ghost use Rattle.std.specs.Prelude.{Some, slice_get};
ghost use Rattle.std.specs.FinMap.{entries};
ghost use Rattle.its_plain.specs.Described.{without_stale};
ghost use Rattle.its_types.specs.Maps.{events_at};
ghost use Rattle.its_types.specs.Ranges.{is_lpi, most_vcpus};
ghost use Rattle.lpi_pending.specs.InHand.{pend_in, set_pend};
ghost use Rattle.lpi_pending.specs.PendingSets.{PendingSet};
ghost use Rattle.owned_parts.specs.Owned.{state_of_parts};
ghost use Rattle.owned_machine.specs.Stale.{AddsBy, AreSets, AreSetsBy, ArePut, FitsPlace, LeadInside};
ghost use Rattle.owned_machine.specs.Stale.{any_leads, leads, led_in, only, some_leads};
ghost use Rattle.owned_machine.specs.Stale.{with_pending};
ghost use Rattle.owned_machine.specs.Whole.{IsMachine, GoesOn};

use its_maps::Maps;
use its_types::{DeviceId, Event, Intid, Shape, Vcpu};
use lpi_pending::{Pending, Redists};
use owned_parts::Parts;
use std::alloc::{AllocError, Global};

/// Leaves of each virtual processor's pending LPIs those that an event leads there. Each event is
/// looked at once.
pub fn drop_stale(parts: &mut Parts, alloc: Global) -> Result<(), AllocError>
    requires { IsMachine parts.old }
    ensures { OnOk result (GoesOn parts.new (without_stale (state_of_parts parts.old))) }
{
    let sets = led_to(alloc, parts)?;
    put_sets(&mut parts.redists, sets);
    Ok(())
}

// Of each virtual processor, the pending LPIs that an event leads there.
fn led_to(alloc: Global, parts: &Parts) -> Result<Vec<Pending>, AllocError>
    requires { IsMachine parts.now }
    ensures { IfOk result (λ sets. AreSetsBy parts.now (led_in parts.now) sets.items) }
{
    let mut sets = no_sets(alloc, parts)?;
    add_all(&mut sets, parts);
    Ok(sets)
}

// A set for each virtual processor, with nothing in it.
fn no_sets(alloc: Global, parts: &Parts) -> Result<Vec<Pending>, AllocError>
    requires { IsMachine parts.now }
    ensures { IfOk result (λ sets. AreSetsBy parts.now (λ vcpu intid. false) sets.items) }
{
    let Shape {
        vcpus,
        lpi_bits,
        ..
    } = parts.layout.shape;
    let mut sets = Vec::with_capacity(alloc, usize::from(vcpus))?;
    for _ in 0..vcpus {
        sets.push(Pending::new(alloc, lpi_bits)?)?;
    }
    Ok(sets)
}

// With those that the events of all translators lead to.
fn add_all(sets: &mut [Pending], parts: &Parts)
    requires whole { IsMachine parts.now }
    requires sets { AreSets parts.now sets.old }
    ensures { AddsBy parts.now (led_in parts.now) sets.old sets.new }
{
    add_led_to(sets, parts, &parts.first.maps);
    if let Some(second) = &parts.second {
        add_led_to(sets, parts, &second.maps);
    }
}

// With those that the events of one translator lead to.
fn add_led_to(sets: &mut [Pending], parts: &Parts, maps: &Maps)
    requires whole { IsMachine parts.now }
    requires inside { LeadInside parts.now.layout.shape maps.now.maps }
    requires sets { AreSets parts.now sets.old }
    ensures { AddsBy parts.now (any_leads maps.now.maps (entries maps.now.maps.events)) sets.old
        sets.new }
{
    for (dev, _) in maps.devices() {
        add_of_device(sets, parts, maps, dev);
    }
}

// With those of the events of one device.
fn add_of_device(sets: &mut [Pending], parts: &Parts, maps: &Maps, dev: DeviceId)
    requires whole { IsMachine parts.now }
    requires inside { LeadInside parts.now.layout.shape maps.now.maps }
    requires sets { AreSets parts.now sets.old }
    ensures { AddsBy parts.now (some_leads maps.now.maps (events_at maps.now.maps dev.0)) sets.old
        sets.new }
{
    for (_, event) in maps.events(dev) {
        add_event(sets, parts, maps, event);
    }
}

// With that of one event, if its collection is mapped.
fn add_event(sets: &mut [Pending], parts: &Parts, maps: &Maps, event: Event)
    requires whole { IsMachine parts.now }
    requires inside { LeadInside parts.now.layout.shape maps.now.maps }
    requires lpi { is_lpi parts.now.layout.shape.lpi_bits event.intid.0 ≡ true }
    requires sets { AreSets parts.now sets.old }
    ensures { AddsBy parts.now (leads maps.now.maps event) sets.old sets.new }
{
    if let Some(vcpu) = maps.collection(event.icid) {
        add(sets, parts, vcpu, event.intid);
    }
}

// With one LPI of one virtual processor, if it is pending there.
fn add(sets: &mut [Pending], parts: &Parts, vcpu: Vcpu, intid: Intid)
    requires whole { IsMachine parts.now }
    requires vcpu { vcpu.0 < parts.now.layout.shape.vcpus }
    requires lpi { is_lpi parts.now.layout.shape.lpi_bits intid.0 ≡ true }
    requires sets { AreSets parts.now sets.old }
    ensures { AddsBy parts.now (only vcpu intid.0) sets.old sets.new }
{
    if parts.redists.pend(vcpu).has(intid) {
        sets[usize::from(vcpu.0)].set(intid);
    }
}

// The sets, in the place of those that were pending.
fn put_sets(redists: &mut Redists, sets: Vec<Pending>)
    requires few { length sets.items ≤ most_vcpus }
    requires held { (vcpu : ℕ) → vcpu < length sets.items
        → is_some (pend_in redists.old vcpu) ≡ true }
    requires fit { (vcpu : ℕ) (set : PendingSet) → vcpu < length sets.items
        → slice_get sets.items vcpu ≡ Some set → FitsPlace set (pend_in redists.old vcpu) }
    ensures { ArePut redists.old sets.items (length sets.items) redists.new }
{
    let mut vcpu = 0;
    for pending in sets {
        put(redists, Vcpu(vcpu), pending);
        vcpu += 1;
    }
}

// Where LPIs are off, nothing is pending before or after.
fn put(redists: &mut Redists, vcpu: Vcpu, pending: Pending)
    requires held { is_some (pend_in redists.old vcpu.0) ≡ true }
    requires fits { FitsPlace pending (pend_in redists.old vcpu.0) }
    ensures { redists.new ≡ set_pend redists.old vcpu.0
        (with_pending pending (pend_in redists.old vcpu.0)) }
{
    let pend = redists.pend_mut(vcpu);
    if pend.accepts() {
        pend.replace(pending);
    }
}
