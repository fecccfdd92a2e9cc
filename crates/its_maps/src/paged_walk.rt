//! The entries of a map of pages, in rising order.

ghost use Rattle.std.specs.Iterator.{YieldsFirstBy};

use crate::page::{PLACES, Page};
use std::marker::Model;

/// What is left of the places of a page, the first of which is a key's, and the pages after it.
#[derive(Drop)]
pub struct PagedWalk<'a, V> {
    slots: &'a [Option<V>],
    key: u64,
    pages: &'a [(u32, Page<V>)],
}

impl<'a, V> Model for PagedWalk<'a, V> {
    ghost use Rattle.std.specs.Prelude.{◌+◌, ◌≤◌, length};
    ghost use Rattle.its_maps.specs.Pages.{EachNumberFits, FollowFrom};
    ghost use Rattle.its_maps.specs.Walks.{PagesLeft};

    ghost Value = { PagesLeft V };

    ghost view = { λ w. record { key = w.key; places = w.slots.now; pages = w.pages.now } };

    ghost invariant = { λ w. (w.key + length w.slots.now ≤ 4294967296)
        × EachNumberFits w.pages.now
        × FollowFrom (w.key + length w.slots.now) w.pages.now };
}

impl<'a, V> PagedWalk<'a, V> {
    ghost use Rattle.std.specs.Prelude.{◌≡◌, ◌+◌, ◌<◌, ◌≤◌, ◌++◌, length, take};
    ghost use Rattle.its_maps.specs.Pages.{slots_from, paged, EachNumberFits};
    ghost use Rattle.its_maps.specs.Pages.{AllFrom, FollowFrom};
    ghost use Rattle.its_maps.specs.Walks.{left_of_pages};

    /// The entries of pages by number.
    pub fn new(pages: &'a [(u32, Page<V>)]) -> Self
        requires fit { EachNumberFits pages.now }
        requires follow { FollowFrom 0 pages.now }
        ensures { left_of_pages result ≡ paged pages.now }
    {
        PagedWalk {
            slots: &[],
            key: 0,
            pages,
        }
    }

    /// The next key that has a value. Places without one are passed over.
    pub fn next(&mut self) -> Option<(u32, &'a V)>
        ensures { YieldsFirstBy (λ e. (e.0, e.1.now)) left_of_pages self.old result self.new }
    {
        loop {
            match self.slots.split_first() {
                Some((slot, rest)) => {
                    let key = self.key as u32;
                    self.slots = rest;
                    self.key += 1;
                    if let Some(value) = slot {
                        return Some((key, value));
                    }
                }
                None => {
                    let (page, rest) = self.pages.split_first()?;
                    self.slots = page.1.slots();
                    self.key = u64::from(page.0 * PLACES);
                    self.pages = rest;
                }
            }
        }
    }

    /// What is left of a page whose next place is a key's, at most so many places. Of a page whose
    /// next place is another key's it gives none.
    pub fn places(&mut self, key: u32, most: usize) -> &'a [Option<V>]
        ensures walk { left_of_pages self.old
            ≡ slots_from key result.now ++ left_of_pages self.new }
        ensures most { length result.now ≤ most }
        ensures keys { key + length result.now ≤ 4294967296 }
        ensures after { 0 < length result.now
            → AllFrom (key + length result.now) (left_of_pages self.new) }
        ensures here { self.old.key ≡ key → result.now ≡ take most self.old.places }
    {
        if self.key != u64::from(key) {
            return &[];
        }
        let (places, left) = self.slots.split_at(most.min(self.slots.len()));
        self.slots = left;
        self.key += places.len() as u64;
        places
    }
}
