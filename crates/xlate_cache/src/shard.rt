//! A shard of the cache.
ghost use Rattle.std.specs.Prelude.{◌≡◌, ◌<◌, not, IfOk, position, length};
ghost use Rattle.std.specs.Option.{is_none};
ghost use Rattle.xlate_cache.specs.Ways as spec;
ghost use Rattle.xlate_cache.specs.Ways.{entry, chosen, filled, dropped, no_entries, IsShard};
ghost use Rattle.xlate_cache.specs.Laws.{FindsEntry, FindsFill, LeavesOthers, TakesFromSet};
ghost use Rattle.xlate_cache.specs.Laws.{TakesCurrentIfFull, AddsOne, Drops, KeepsOthers};
ghost use Rattle.xlate_cache.specs.Laws.{FindsNothing};

use crate::entry::Entry;
use crate::pairs::first_way;
use its_types::{DeviceId, EventId, Target};
use std::alloc::{AllocError, Global};
use std::marker::Model;

/// 64 sets of four ways, one set after another. Each entry stands in the set of its pair.
#[derive(Drop)]
pub struct Shard {
    pub(crate) ways: Box<[Option<Entry>; 256]>,
}

impl Model for Shard {
    ghost use Rattle.std.specs.Prelude.{List, Option};
    ghost use Rattle.xlate_cache.specs.declared.entry.Entry.{Entry};
    ghost use Rattle.xlate_cache.specs.Ways.{IsShard};

    ghost Value = { List (Option Entry) };

    ghost view = { λ s. s.ways.value };

    ghost invariant = { λ s. IsShard s.ways.value };
}

impl Shard {
    /// No entry.
    pub fn new(alloc: Global) -> Result<Shard, AllocError>
        ensures ways { IfOk result (λ s. s ≡ no_entries) }
        ensures nothing { IfOk result FindsNothing }
    {
        let ways = Box::new(alloc, no_ways())?;
        Ok(Shard { ways })
    }

    /// The target of a pair's translation that was filled with a stamp, if it is there.
    pub fn find(&self, dev: DeviceId, ev: EventId, stamp: u32) -> Option<Target>
        ensures found { result ≡ spec.found self.now dev.0 ev.0 stamp }
        ensures entry { FindsEntry self.now dev.0 ev.0 stamp }
        ensures shard { IsShard self.now }
    {
        let first = first_way(dev, ev);
        let ways: &[Option<Entry>; 256] = &self.ways;
        find_in(&ways[first..first + 4], dev, ev, stamp)
    }

    /// Puts in a pair's translation, and takes away at most one: that of the pair, else one of
    /// another stamp, else that of the first way.
    pub fn fill(&mut self, dev: DeviceId, ev: EventId, stamp: u32, target: Target)
        ensures ways { self.new ≡ filled self.old (entry dev ev stamp target) }

        // Right after it the translation is found, and each other as before, but the one that was
        // taken away.
        ensures found { FindsFill self.old (entry dev ev stamp target) }
        ensures others { LeavesOthers self.old (entry dev ev stamp target) }

        // That one was of the pair's set. It is of the same stamp and of another pair only where
        // the set holds four such.
        ensures set { TakesFromSet self.old (entry dev ev stamp target) }
        ensures current { TakesCurrentIfFull self.old (entry dev ev stamp target) }
        ensures entries { AddsOne self.old (entry dev ev stamp target) }
    {
        let first = first_way(dev, ev);
        let ways: &[Option<Entry>; 256] = &self.ways;
        let way = chosen_way(&ways[first..first + 4], dev, ev, stamp);
        let entry = Entry {
            dev,
            ev,
            stamp,
            target,
        };
        self.ways[first + way] = Some(entry);
    }

    /// Takes away the translations of a pair, whatever their stamps.
    pub fn drop_event(&mut self, dev: DeviceId, ev: EventId)
        ensures ways { self.new ≡ dropped self.old dev.0 ev.0 }
        ensures found { Drops self.old dev.0 ev.0 }
        ensures entries { KeepsOthers self.old dev.0 ev.0 }
    {
        let first = first_way(dev, ev);
        for way in first..first + 4 {
            if is_of(&self.ways[way], dev, ev) {
                self.ways[way] = None;
            }
        }
    }

    /// Takes away all translations.
    pub fn empty(&mut self)
        ensures ways { self.new ≡ no_entries }
        ensures nothing { FindsNothing self.new }
    {
        *self.ways = no_ways();
    }
}

#[tactic(auto, unfolding(crate::specs::Ways::no_entries))]
fn no_ways() -> [Option<Entry>; 256]
    ensures { result ≡ no_entries }
{
    [None; 256]
}

pub(crate) fn is_of(way: &Option<Entry>, dev: DeviceId, ev: EventId) -> bool
    ensures { result ≡ spec.is_of dev.0 ev.0 way.now }
{
    match way {
        Some(entry) => entry.dev.0 == dev.0 && entry.ev.0 == ev.0,
        None => false,
    }
}

fn has_stamp(way: &Option<Entry>, stamp: u32) -> bool
    ensures { result ≡ spec.has_stamp stamp way.now }
{
    match way {
        Some(entry) => entry.stamp == stamp,
        None => false,
    }
}

fn find_in(set: &[Option<Entry>], dev: DeviceId, ev: EventId, stamp: u32) -> Option<Target>
    ensures { result ≡ spec.found set.now dev.0 ev.0 stamp }
{
    for way in set {
        if is_of(way, dev, ev) && has_stamp(way, stamp) {
            return target_in(way);
        }
    }
    None
}

fn target_in(way: &Option<Entry>) -> Option<Target>
    ensures { result ≡ spec.target_in way.now }
{
    match way {
        Some(entry) => Some(entry.target),
        None => None,
    }
}

fn pair_way(set: &[Option<Entry>], dev: DeviceId, ev: EventId) -> Option<usize>
    ensures { result ≡ position (spec.is_of dev.0 ev.0) set.now }
{
    set.iter().position(|way| is_of(way, dev, ev))
}

fn empty_way(set: &[Option<Entry>]) -> Option<usize>
    ensures { result ≡ position is_none set.now }
{
    set.iter().position(|way| way.is_none())
}

fn stale_way(set: &[Option<Entry>], stamp: u32) -> Option<usize>
    ensures { result ≡ position (λ way. not (spec.has_stamp stamp way)) set.now }
{
    set.iter().position(|way| !has_stamp(way, stamp))
}

// Which way of a set an entry takes.
fn chosen_way(set: &[Option<Entry>], dev: DeviceId, ev: EventId, stamp: u32) -> usize
    requires { length set.now ≡ 4 }
    ensures way { result ≡ chosen set.now dev.0 ev.0 stamp }
    ensures of_four { result < 4 }
{
    pair_way(set, dev, ev)
        .or(empty_way(set))
        .or(stale_way(set, stamp))
        .unwrap_or(0)
}
