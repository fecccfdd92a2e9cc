//! What can be asked of all the entries of a shard.
ghost use Rattle.std.specs.Prelude.{◌≡◌};
ghost use Rattle.xlate_cache.specs.Observed as spec;

use crate::entry::Entry;
use crate::pairs::first_way;
use crate::shard::{Shard, is_of};
use its_types::{DeviceId, EventId};
use std::alloc::{AllocError, Global};

impl Shard {
    ghost use Rattle.std.specs.Prelude.{◌≡◌, IfOk, ◌↔◌, IsTrue};
    ghost use Rattle.xlate_cache.specs.Observed as spec;
    ghost use Rattle.xlate_cache.specs.Ways.{IsShard};

    /// A copy: the same entries in the same ways.
    pub fn copy(&self, alloc: Global) -> Result<Shard, AllocError>
        ensures { IfOk result (λ s. s ≡ self.now) }
    {
        let ways = Box::new(alloc, *self.ways)?;
        Ok(Shard { ways })
    }

    /// The ways of all sets, one set after another.
    pub fn ways(&self) -> &[Option<Entry>]
        ensures ways { result.now ≡ self.now }
        ensures shard { IsShard self.now }
    {
        &self.ways[..]
    }

    /// Whether it has an entry of a pair, of whatever stamp.
    pub fn has_entry_of(&self, dev: DeviceId, ev: EventId) -> bool
        ensures { result ≡ spec.has_entry_of self.now dev.0 ev.0 }
    {
        let first = first_way(dev, ev);
        any_of(&self.ways()[first..first + 4], dev, ev)
    }

    /// Whether it has no entry but the given one.
    pub fn holds_only(&self, given: Option<Entry>) -> bool
        ensures ways { result ≡ spec.holds_only self.now given }
        ensures only { IsTrue result ↔ spec.HoldsOnly self.now given }
    {
        all_only(self.ways(), given)
    }
}

// Some of the ways has an entry of the pair.
fn any_of(ways: &[Option<Entry>], dev: DeviceId, ev: EventId) -> bool
    ensures { result ≡ spec.has_entry_of ways.now dev.0 ev.0 }
{
    ways.iter().any(|way| is_of(way, dev, ev))
}

// None of some ways has an entry but the given one.
fn all_only(ways: &[Option<Entry>], given: Option<Entry>) -> bool
    ensures { result ≡ spec.holds_only ways.now given }
{
    ways.iter().all(|way| is_only(way, &given))
}

// The way has no entry but the given one.
fn is_only(way: &Option<Entry>, given: &Option<Entry>) -> bool
    ensures { result ≡ spec.is_only given.now way.now }
{
    match (way, given) {
        (None, _) => true,
        (Some(_), None) => false,
        (Some(entry), Some(given)) => entry == given,
    }
}
