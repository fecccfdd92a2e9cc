//! A page of places.

ghost use Rattle.std.specs.Prelude.{◌≡◌, ◌<◌, length, slice_set, slice_index_or, Some, None};
ghost use Rattle.std.specs.Prelude.{is_some, true, IfOk, IsTrue, ◌↔◌};
ghost use Rattle.std.specs.Option.{option_copied};
ghost use Rattle.its_maps.specs.Pages.{IsBlank};

use std::alloc::{AllocError, Global};
use std::marker::Model;

/// How many places a page has.
pub const PLACES: u32 = 64;

/// Places for values.
#[derive(Drop)]
pub struct Page<V> {
    slots: Vec<Option<V>>,
}

impl<V> Model for Page<V> {
    ghost use Rattle.std.specs.Prelude.{◌≡◌, List, Option, length};
    ghost use Rattle.its_maps.specs.declared.page.TheConstants.{PLACES};

    ghost Value = { List (Option V) };

    ghost view = { λ p. p.slots.items };

    ghost invariant = { λ p. length p.slots.items ≡ PLACES };
}

impl<V: Drop> Page<V> {
    ghost use Rattle.std.specs.Borrow.{sem};
    ghost use Rattle.its_maps.specs.Lending.{LendsPlace};

    /// A page with no value.
    pub fn blank(alloc: Global) -> Result<Self, AllocError>
        ensures { IfOk result IsBlank }
    {
        let mut slots = Vec::with_capacity(alloc, PLACES as usize)?;
        for _ in 0..PLACES {
            slots.push(None)?;
        }
        Ok(Page { slots })
    }

    /// The value of a place, if it has one.
    pub fn get(&self, at: usize) -> Option<&V>
        requires { at < PLACES }
        ensures { option_copied result ≡ slice_index_or self.now at None }
    {
        self.slots[at].as_ref()
    }

    /// Sets a place's value.
    pub fn put(&mut self, at: usize, value: V)
        requires { at < PLACES }
        ensures full { length self.old ≡ PLACES }
        ensures page { self.new ≡ slice_set self.old at (Some value) }
    {
        self.slots[at] = Some(value);
    }

    /// The value of a place that has one.
    pub fn get_mut(&mut self, at: usize) -> &mut V
        requires place { at < PLACES }
        requires there { is_some (slice_index_or self.old at None) ≡ true }
        ensures* writes_back { sem 𝓛 (LendsPlace V.row self.entry at result) }
        ensures full { length self.old ≡ PLACES }
        ensures value { Some result.now ≡ slice_index_or self.old at None }
    {
        self.slots[at].as_mut().unwrap()
    }

    /// Takes a place's value away.
    pub fn take(&mut self, at: usize)
        requires { at < PLACES }
        ensures full { length self.old ≡ PLACES }
        ensures page { self.new ≡ slice_set self.old at None }
    {
        self.slots[at] = None;
    }

    /// Whether no place has a value.
    pub fn is_blank(&self) -> bool
        ensures { IsTrue result ↔ IsBlank self.now }
    {
        self.slots.iter().all(|slot| slot.is_none())
    }
}

impl<V> Page<V> {
    /// The places, in order.
    pub fn slots(&self) -> &[Option<V>]
        ensures slots { result.now ≡ self.now }
        ensures length { length result.now ≡ PLACES }
    {
        &self.slots
    }
}
