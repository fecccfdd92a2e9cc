//! A map from numbers in pages. A key is set or taken away in the same time however many there are.

ghost use Rattle.std.specs.Prelude.{◌≡◌, ◌≤◌, true, false, Some, OnOk, OnErr};
ghost use Rattle.std.specs.Option.{option_copied};
ghost use Rattle.std.specs.FinMap as map;
ghost use Rattle.its_maps.specs.MapRoom.{without};
ghost use Rattle.its_maps.specs.Walks.{left_of_pages};

use crate::page::{PLACES, Page};
use crate::paged_walk::PagedWalk;
use crate::reserve::Reserve;
use crate::sorted_map::SortedMap;
use std::alloc::{AllocError, Global};
use std::marker::Model;

/// A map from numbers to values: the pages that have a value, by the key over `PLACES`. How many
/// pages more it takes without memory is seen as a number.
#[derive(Drop)]
pub struct PagedMap<V> {
    pages: SortedMap<Page<V>>,
}

impl<V> Model for PagedMap<V> {
    ghost use Rattle.its_maps.specs.MapRoom.{MapRoom, map_room_code};
    ghost use Rattle.its_maps.specs.Pages.{paged_map, NumbersFit};

    ghost Value = { MapRoom V };

    ghost coded = { map_room_code V.code };

    ghost view = { λ m. record { map = paged_map m.pages.map; spare = m.pages.spare } };

    ghost invariant = { λ m. NumbersFit m.pages.map };
}

impl<V: Drop> PagedMap<V> {
    ghost use Rattle.std.specs.Borrow.{sem};
    ghost use Rattle.its_maps.specs.Lending.{LendsPaged};

    /// No keys, and no memory.
    pub fn new(alloc: Global) -> Self
        ensures { result.map ≡ map.empty }
    {
        PagedMap {
            pages: SortedMap::new(alloc),
        }
    }

    /// Makes room for one page more.
    pub fn make_room(&mut self) -> Result<(), AllocError>
        ensures map { self.new.map ≡ self.old.map }
        ensures ok { OnOk result (1 ≤ self.new.spare) }
        ensures err { OnErr result (self.new ≡ self.old) }
    {
        self.pages.make_room()
    }

    /// A key's value, if it has one.
    pub fn get(&self, key: u32) -> Option<&V>
        ensures { option_copied result ≡ map.get self.now.map key }
    {
        let page = self.pages.get(key / PLACES)?;
        page.get((key % PLACES) as usize)
    }

    /// Whether a key has a value.
    pub fn contains(&self, key: u32) -> bool
        ensures { result ≡ map.contains_key self.now.map key }
    {
        self.get(key).is_some()
    }

    /// Sets a key's value. A key whose page isn't there gets the page in reserve.
    pub fn insert(&mut self, key: u32, value: V, reserve: &mut Reserve<V>)
        requires spare { map.contains_key self.old.map key ≡ false → 1 ≤ self.old.spare }
        requires reserve { map.contains_key self.old.map key ≡ false → reserve.old ≡ true }
        ensures { self.new.map ≡ map.insert self.old.map key value }
    {
        let number = key / PLACES;
        let at = (key % PLACES) as usize;
        if self.pages.contains(number) {
            let page = self.pages.get_mut(number);
            page.put(at, value);
        } else {
            let mut page = reserve.take();
            page.put(at, value);
            self.pages.insert(number, page);
        }
    }

    /// The value of a key that has one.
    pub fn get_mut(&mut self, key: u32) -> &mut V
        requires { map.contains_key self.old.map key ≡ true }
        ensures* writes_back { sem 𝓛 (LendsPaged V.row self.entry key result) }
        ensures value { Some result.now ≡ map.get self.old.map key }
    {
        let page = self.pages.get_mut(key / PLACES);
        page.get_mut((key % PLACES) as usize)
    }

    /// The keys with their values, in rising order.
    pub fn walk(&self) -> PagedWalk<'_, V>
        ensures { left_of_pages result ≡ map.entries self.now.map }
    {
        PagedWalk::new(self.pages.entries())
    }

    /// Takes a key away, if it is there.
    pub fn remove(&mut self, key: u32)
        ensures { self.new.map ≡ without self.old.map key }
    {
        let number = key / PLACES;
        if self.pages.contains(number) {
            let page = self.pages.get_mut(number);
            page.take((key % PLACES) as usize);
            if page.is_blank() {
                self.pages.remove(number);
            }
        }
    }

    /// Takes all keys away.
    pub fn clear(&mut self)
        ensures { self.new.map ≡ map.empty }
    {
        self.pages.clear();
    }
}
