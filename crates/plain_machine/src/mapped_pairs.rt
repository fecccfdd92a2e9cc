//! The pairs of a device and an event that are mapped.
use crate::mapped_entries::MappedEvent;
use crate::maps::MapLists;
use crate::translator::TranslatorLists;
use its_types::{DeviceId, EventId};
use std::alloc::{AllocError, Global};

impl TranslatorLists {
    ghost use Rattle.std.specs.Prelude.{◌≡◌, IfOk};
    ghost use Rattle.plain_machine.specs.MappedPairs as pairs;

    /// Every pair of a device and an event that is mapped, by device and then by event.
    pub fn events(&self, alloc: Global) -> Result<Vec<(DeviceId, EventId)>, AllocError>
        ensures pairs { IfOk result (λ v. v.items ≡ pairs.mapped_pairs self.now.maps) }
        ensures mapped { IfOk result (λ v. pairs.AreMapped self.now.maps v.items) }
    {
        self.maps.pairs(alloc)
    }
}

impl MapLists {
    ghost use Rattle.std.specs.Prelude.{◌≡◌, IfOk};
    ghost use Rattle.plain_machine.specs.MappedPairs as pairs;

    fn pairs(&self, alloc: Global) -> Result<Vec<(DeviceId, EventId)>, AllocError>
        ensures pairs { IfOk result (λ v. v.items ≡ pairs.mapped_pairs self.now) }
        ensures mapped { IfOk result (λ v. pairs.AreMapped self.now v.items) }
    {
        pairs_of(alloc, &self.events)
    }
}

ghost use Rattle.std.specs.Prelude.{◌≡◌, IfOk, map};
ghost use Rattle.plain_machine.specs.MappedPairs.{pair_of};

// The keys of some events.
fn pairs_of(
    alloc: Global,
    events: &[((u32, u32), MappedEvent)],
) -> Result<Vec<(DeviceId, EventId)>, AllocError>
    ensures { IfOk result (λ v. v.items ≡ map pair_of events.now) }
{
    events
        .iter()
        .map(|entry| (DeviceId(entry.0.0), EventId(entry.0.1)))
        .collect(alloc)
}
