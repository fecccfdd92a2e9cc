//! What a script gives processor by processor.
ghost use Rattle.std.specs.Prelude.{◌≡◌, [], ◌<◌, ◌≤◌, None, Some, OnOk, IfOk, length, map, replicate};
ghost use Rattle.std.specs.Prelude.{slice_index_or, slice_set, filter_map, is_some, is_none};
ghost use Rattle.std.specs.List.{list_all};
ghost use Rattle.std.specs.Option.{unwrap_or};
ghost use Rattle.its_types.specs.Ranges.{most_vcpus};
ghost use Rattle.event_script.specs.Description as spec;
ghost use Rattle.event_script.specs.Text.{number};

use crate::text;
use its_types::{Listed, Vcpu};
use std::alloc::{AllocError, Global};
use std::marker::Model;

/// A place for each virtual processor of a machine, which has what a line gave of it; or none
/// before their number is known.
#[derive(Drop)]
pub struct Places<T> {
    places: Vec<Option<T>>,
}

impl<T> Model for Places<T> {
    ghost use Rattle.std.specs.Prelude.{List, Option, ◌≤◌, length};
    ghost use Rattle.its_types.specs.Ranges.{most_vcpus};

    ghost Value = { List (Option T) };

    ghost view = { λ p. p.places.items };

    ghost invariant = { λ p. length p.places.items ≤ most_vcpus };
}

impl<T: Copy + Drop> Places<T> {
    /// Those of no processor.
    pub fn none(alloc: Global) -> Places<T>
        ensures { result ≡ [] }
    {
        Places {
            places: Vec::new(alloc),
        }
    }

    /// Those of so many processors, nothing given.
    pub fn of(alloc: Global, count: u16) -> Result<Places<T>, AllocError>
        requires { count ≤ most_vcpus }
        ensures { IfOk result (λ places. places ≡ replicate count None) }
    {
        let mut places = Vec::new(alloc);
        for _ in 0..count {
            places.push(None)?;
        }
        Ok(Places { places })
    }

    /// How many processors there are.
    pub fn count(&self) -> u16
        ensures count { result ≡ length self.now }
        ensures few { result ≤ most_vcpus }
    {
        self.places.len() as u16
    }

    /// Whether a field is the number of a processor of which something was given.
    pub fn is_given_at(&self, field: &[u8]) -> bool
        ensures { result ≡ spec.is_given self.now (number field.now) }
    {
        match text::number(field) {
            Some(vcpu) => vcpu < self.places.len() as u64 && self.places[vcpu as usize].is_some(),
            None => false,
        }
    }

    /// Gives it of a processor.
    pub fn give(&mut self, vcpu: Vcpu, item: T)
        requires { vcpu.0 < length self.old }
        ensures { self.new ≡ slice_set self.old vcpu.0 (Some item) }
    {
        self.places[usize::from(vcpu.0)] = Some(item);
    }

    /// Whether it was given of each processor.
    pub fn all_given(&self) -> bool
        ensures { result ≡ list_all is_some self.now }
    {
        self.places.iter().all(|place| place.is_some())
    }

    /// Whether it was given of no processor.
    pub fn none_given(&self) -> bool
        ensures { result ≡ list_all is_none self.now }
    {
        self.places.iter().all(|place| place.is_none())
    }

    /// What was given, in the processors' order.
    pub fn given(&self, alloc: Global) -> Result<Listed<T>, AllocError>
        ensures { IfOk result (λ items. items ≡ filter_map (λ place. place) self.now) }
    {
        let mut items = Listed::new(alloc);
        for place in &self.places {
            if let Some(item) = place {
                items.push(*item)?;
            }
        }
        Ok(items)
    }

    /// What was given, in the processors' order, and another value where nothing was.
    pub fn filled(&self, alloc: Global, other: T) -> Result<Listed<T>, AllocError>
        ensures { IfOk result (λ items. items ≡ map (λ place. unwrap_or place other) self.now) }
    {
        let mut items = Listed::new(alloc);
        for place in &self.places {
            items.push(place.unwrap_or(other))?;
        }
        Ok(items)
    }
}
