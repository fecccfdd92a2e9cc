//! From one collection that has an entry in a saved table to the next.

ghost use Rattle.std.specs.Prelude.{◌≡◌, ◌<◌, ◌≤◌, ◌+◌, ℕ, List, MatchOption, IfSome, [], ◌∷◌};
ghost use Rattle.std.specs.Prelude.{true, false, Some};
ghost use Rattle.std.specs.FinMap.{entries};
ghost use Rattle.its_plain.specs.Plain.{Translator};
ghost use Rattle.its_plain.specs.Saved.{saved_collections};
ghost use Rattle.its_types.specs.declared.ids.Vcpu as plain;
ghost use Rattle.table_save.specs.EntriesLeft.{collections_with};
ghost use Rattle.table_save.specs.EntriesLeft.{Leaves, IsNextNamed, begins_below, named_places};

use crate::entry_front::EntryFront;
use gits_regs::Regs;
use its_maps::{CollectionWalk, Maps};
use its_types::{Icid, Shape, Vcpu};
use table_entries::NEVER_MAPPED;

impl<'a> EntryFront<'a> {
    /// All of them.
    pub fn new(shape: Shape, regs: &Regs, maps: &'a Maps) -> EntryFront<'a>
        ensures { Leaves result (entries (saved_collections shape
            (record { regs = regs.now; maps = maps.now.maps }))) }
    {
        let places = named_places(shape, regs);
        let mut rest = maps.collections();
        let first = taken(&mut rest);
        EntryFront {
            maps,
            places,
            from: 0,
            first,
            rest,
            named: next_named(maps, places, 0),
        }
    }

    /// The next one, and the number of its processor.
    pub fn next(&mut self) -> Option<(Icid, u32)>
        ensures { (es : List (ℕ × plain.Vcpu)) → Leaves self.old es → MatchOption result
            ((es ≡ []) × Leaves self.new [])
            (λ c. (left : List (ℕ × plain.Vcpu)) × (es ≡ (c.0.0, record { 0 = c.1 }) ∷ left)
            × Leaves self.new left) }
    {
        match self.named {
            None => self.pass_mapped(),
            Some(icid) => {
                if self.begins_below(icid) {
                    self.pass_mapped()
                } else {
                    Some(self.pass_named(icid))
                }
            }
        }
    }

    // Whether a mapped one stands before an ICID.
    fn begins_below(&self, icid: Icid) -> bool
        ensures { result ≡ begins_below icid.0 self.now.first }
    {
        matches!(self.first, Some((first, _)) if first.0 < icid.0)
    }

    fn pass_named(&mut self, icid: Icid) -> (Icid, u32)
        requires named { self.old.named ≡ Some icid }
        requires first { begins_below icid.0 self.old.first ≡ false }
        ensures { (es : List (ℕ × plain.Vcpu)) → Leaves self.old es →
            (left : List (ℕ × plain.Vcpu))
            × (es ≡ (result.0.0, record { 0 = result.1 }) ∷ left) × Leaves self.new left }
    {
        self.from = after(icid);
        self.named = next_named(self.maps, self.places, self.from);
        (icid, NEVER_MAPPED)
    }

    fn pass_mapped(&mut self) -> Option<(Icid, u32)>
        requires { IfSome self.old.named (λ icid. begins_below icid.0 self.old.first ≡ true) }
        ensures { (es : List (ℕ × plain.Vcpu)) → Leaves self.old es → MatchOption result
            ((es ≡ []) × Leaves self.new [])
            (λ c. (left : List (ℕ × plain.Vcpu)) × (es ≡ (c.0.0, record { 0 = c.1 }) ∷ left)
            × Leaves self.new left) }
    {
        match self.first {
            None => None,
            Some((icid, vcpu)) => {
                self.from = after(icid);
                self.first = taken(&mut self.rest);
                Some((icid, u32::from(vcpu.0)))
            }
        }
    }
}

// Below which ICID collections that aren't mapped have entries: where the shape says so, below the
// number of the table's places.
fn named_places(shape: Shape, regs: &Regs) -> u32
    ensures places { result ≡ named_places shape regs.now }
    ensures few { result ≤ 65536 }
{
    if shape.linux {
        regs.collection_places()
    } else {
        0
    }
}

// The next ICID.
fn after(icid: Icid) -> u32
    ensures after { result ≡ icid.0 + 1 }
    ensures most { result ≤ 65536 }
{
    u32::from(icid.0) + 1
}

// The next one of a walk.
fn taken(walk: &mut CollectionWalk<'_>) -> Option<(Icid, Vcpu)>
    ensures { collections_with result walk.new ≡ walk.old }
{
    walk.next()
}

// The first collection from an ICID on, below another, that isn't mapped and that an event names.
fn next_named(maps: &Maps, places: u32, from: u32) -> Option<Icid>
    requires from { from ≤ 65536 }
    requires places { places ≤ 65536 }
    ensures { IsNextNamed maps.now.maps places from result }
{
    let mut at = from;
    while let Some(icid) = maps.next_named(at) {
        if u32::from(icid.0) >= places {
            return None;
        }
        if maps.collection(icid).is_none() {
            return Some(icid);
        }
        at = after(icid);
    }
    None
}
