//! What a machine is asked of what is mapped, and of what is pending where it goes.
ghost use Rattle.std.specs.Prelude.{◌≡◌, length, IfOk};
ghost use Rattle.std.specs.FinMap.{entries};
ghost use Rattle.its_explain.specs.Looks as spec;
ghost use Rattle.its_explain.specs.Watched.{maps_at};

use crate::facts::Counts;
use crate::replayed::Replayed;
use its_maps::Maps;
use its_types::{Device, DeviceId, Icid, Vcpu};
use std::alloc::AllocError;

impl Replayed {
    /// What a device is mapped to.
    pub fn device(&self, its: u8, dev: DeviceId) -> Option<Device>
        ensures { result ≡ spec.device_in (maps_at self.now its) dev }
    {
        match self.translator(its) {
            Some(translator) => translator.maps.device(dev),
            None => None,
        }
    }

    /// Where a collection goes.
    pub fn collection(&self, its: u8, icid: Icid) -> Option<Vcpu>
        ensures { result ≡ spec.collection_in (maps_at self.now its) icid }
    {
        match self.translator(its) {
            Some(translator) => translator.maps.collection(icid),
            None => None,
        }
    }

    /// How many events of a device are mapped.
    pub fn count_events(&self, its: u8, dev: DeviceId) -> u64
        ensures { result ≡ spec.events_in (maps_at self.now its) dev }
    {
        match self.translator(its) {
            Some(translator) => count_events_of(translator.maps, dev),
            None => 0,
        }
    }

    /// How much is mapped.
    pub fn counts(&self, its: u8) -> Counts
        ensures { result ≡ spec.counts_in (maps_at self.now its) }
    {
        match self.translator(its) {
            Some(translator) => counts_of(translator.maps),
            None => Counts::NONE,
        }
    }

    /// How many LPIs are pending at a virtual processor, if there is one.
    pub fn count_where(&self, vcpu: Option<Vcpu>) -> Result<usize, AllocError>
        ensures { IfOk result (λ n. n ≡ spec.pending_where self.now vcpu) }
    {
        match vcpu {
            Some(vcpu) => self.count_pending(usize::from(vcpu.0)),
            None => Ok(0),
        }
    }
}

/// How much is mapped.
fn counts_of(maps: &Maps) -> Counts
    ensures { result ≡ spec.counts maps.now.maps }
{
    Counts {
        devices: u64::from(maps.device_count()),
        events: maps.event_count(),
        collections: count_collections(maps),
    }
}

fn count_collections(maps: &Maps) -> u64
    ensures { result ≡ spec.as_many (length (entries maps.now.maps.collections)) }
{
    let mut count = 0u64;
    for (_icid, _) in maps.collections() {
        count = count.saturating_add(1);
    }
    count
}

fn count_events_of(maps: &Maps, dev: DeviceId) -> u64
    ensures { result ≡ spec.event_count maps.now.maps dev }
{
    let mut count = 0u64;
    for (_ev, _) in maps.events(dev) {
        count = count.saturating_add(1);
    }
    count
}
