//! The interrupt translation tables.

ghost use Rattle.guest_windows.specs.Drafts.{laid};
ghost use Rattle.std.specs.Prelude.{◌≡◌, ◌+◌, ◌<◌, ◌≤◌, ◌^◌, ◌∷◌, [], ℕ, OnOk, length};
ghost use Rattle.std.specs.Prelude.{slice_index};
ghost use Rattle.std.specs.FinMap.{entries};
ghost use Rattle.std.specs.List.{AllByRecursion};
ghost use Rattle.its_types.specs.Maps.{events_at};
ghost use Rattle.its_maps.specs.Walks.{events_left};
ghost use Rattle.its_plain.specs.Saved.{put_words, put_tables};
ghost use Rattle.table_save.specs.Pass.{FitsDevice, FitsEvent, event_entry_word, events_with};
ghost use Rattle.table_save.specs.Pass.{first_key, RisesFrom, PassedEvents};
ghost use Rattle.table_save.specs.Tables.{itt_tables};

use crate::slots::{put_slots, word_of};
use crate::words::{BLOCK, put_block, put_zeros};
use guest_windows::{Draft, Memory};
use its_maps::{EventWalk, Maps};
use its_types::{Device, DeviceId, Event, EventId};
use std::alloc::AllocError;
use std::marker::Model;

/// A device's events that are not written yet, by rising EventID.
#[derive(Drop)]
struct EventFront<'a> {
    first: Option<(EventId, Event)>,
    rest: EventWalk<'a>,
}

impl<'a> Model for EventFront<'a> {
    ghost use Rattle.std.specs.Prelude.{ℕ, List};
    ghost use Rattle.its_types.specs.declared.translation.Event.{Event};
    ghost use Rattle.its_maps.specs.Walks.{events_left};
    ghost use Rattle.table_save.specs.Pass.{events_with};

    ghost Value = { List (ℕ × Event) };

    ghost view = { λ f. events_with f.first (events_left f.rest) };
}

impl<'a> EventFront<'a> {
    ghost use Rattle.guest_windows.specs.Drafts.{laid};
    ghost use Rattle.std.specs.Prelude.{◌≡◌, ◌+◌, ◌<◌, ◌≤◌, ◌^◌, ℕ, OnOk, false, length};
    ghost use Rattle.std.specs.Prelude.{slice_index};
    ghost use Rattle.std.specs.List.{AllByRecursion};
    ghost use Rattle.its_types.specs.Maps.{events_at};
    ghost use Rattle.its_plain.specs.Saved.{put_words};
    ghost use Rattle.table_save.specs.Pass.{RisesFrom, FitsEvent, event_entry_word};
    ghost use Rattle.table_save.specs.Pass.{PassedEvents, begins_below};

    fn new(maps: &'a Maps, dev: DeviceId) -> EventFront<'a>
        ensures { result ≡ events_at maps.now.maps dev.0 }
    {
        let mut rest = maps.events(dev);
        let first = rest.next();
        EventFront { first, rest }
    }

    // The words of the next places, of which there is one at least, the first of them that at which
    // the events begin at the earliest. It answers how many places it wrote.
    fn next_words(&mut self, id: u32, words: &mut [u64]) -> usize
        requires some { 0 < length words.old }
        requires few { id + length words.old < 2 ^ 32 }
        requires rises { RisesFrom id self.old }
        requires fit { AllByRecursion FitsEvent self.old }
        ensures some { 0 < result }
        ensures most { result ≤ length words.old }
        ensures length { length words.new ≡ length words.old }
        ensures words { (k : ℕ) → k < result
            → slice_index words.new k ≡ event_entry_word self.old (id + k) }
        ensures rest { PassedEvents (id + result) self.old self.new }
    {
        match self.first {
            Some((ev, event)) if ev.0 == id => {
                let (next, count) = put_page(&mut self.rest, id, event, words);
                self.first = next;
                count
            }
            _ => {
                let gap = self.gap(id, words.len());
                words[..gap].fill(0);
                gap
            }
        }
    }

    // How many places are before the first event, of so many at most.
    fn gap(&self, id: u32, most: usize) -> usize
        requires few { id + most < 2 ^ 32 }
        requires rises { RisesFrom id self.now }
        ensures most { result ≤ most }
        ensures none { begins_below (id + result) self.now ≡ false }
        ensures some { 0 < most → begins_below (id + 1) self.now ≡ false → 0 < result }
    {
        match self.first {
            Some((ev, _)) => most.min((ev.0 - id) as usize),
            None => most,
        }
    }

    // The words of some places, at the first of which the events begin at the earliest.
    fn words_at(&mut self, id: u32, words: &mut [u64])
        requires few { id + length words.old < 2 ^ 32 }
        requires rises { RisesFrom id self.old }
        requires fit { AllByRecursion FitsEvent self.old }
        ensures length { length words.new ≡ length words.old }
        ensures words { (k : ℕ) → k < length words.old
            → slice_index words.new k ≡ event_entry_word self.old (id + k) }
        ensures rest { PassedEvents (id + length words.old) self.old self.new }
    {
        let mut done = 0;
        while done < words.len() {
            done += self.next_words(id + done as u32, &mut words[done..]);
        }
    }

    // How many of the next places are written at once: those before the first event, where they are
    // more than a block, or else a block. At the first of them the events begin at the earliest.
    fn span(&self, id: u32, most: u32) -> u32
        requires some { 0 < most }
        requires rises { RisesFrom id self.now }
        ensures some { 0 < result }
        ensures most { result ≤ most }
        ensures free { 512 < result → begins_below (id + result) self.now ≡ false }
    {
        let gap = match self.first {
            Some((ev, _)) => most.min(ev.0 - id),
            None => most,
        };
        if gap > BLOCK { gap } else { most.min(BLOCK) }
    }

    // Writes the places of a block, or of more without an event, at the first of which the events
    // begin at the earliest.
    fn put_block(
        &mut self,
        draft: &mut Draft,
        under: &Memory,
        base: u64,
        id: u32,
        count: u32,
    ) -> Result<(), AllocError>
        requires low { base < 2 ^ 54 }
        requires few { 512 < count → begins_below (id + count) self.old ≡ false }
        requires fits { id + count < 2 ^ 32 }
        requires rises { RisesFrom id self.old }
        requires fit { AllByRecursion FitsEvent self.old }
        ensures memory { OnOk result (laid draft.new under.now
            ≡ put_words (laid draft.old under.now) base
            (λ i. event_entry_word self.old (id + i)) count) }
        ensures rest { PassedEvents (id + count) self.old self.new }
    {
        if !self.begins_below(id + count) {
            return put_zeros(draft, under, base, count);
        }
        let mut words = [0u64; BLOCK as usize];
        let words = &mut words[..count as usize];
        self.words_at(id, words);
        put_block(draft, under, base, words)
    }

    fn begins_below(&self, id: u32) -> bool
        ensures { result ≡ begins_below id self.now }
    {
        matches!(self.first, Some((ev, _)) if ev.0 < id)
    }
}

// The word of an event, and those of the places after it on its page, as far as there are words. It
// answers the next event, and how many places it wrote.
fn put_page(
    rest: &mut EventWalk<'_>,
    id: u32,
    event: Event,
    words: &mut [u64],
) -> (Option<(EventId, Event)>, usize)
    requires some { 0 < length words.old }
    requires few { id + length words.old < 2 ^ 32 }
    requires rises { RisesFrom (id + 1) (events_left rest.old) }
    requires fit { AllByRecursion FitsEvent ((id, event) ∷ events_left rest.old) }
    ensures some { 0 < result.1 }
    ensures most { result.1 ≤ length words.old }
    ensures length { length words.new ≡ length words.old }
    ensures words { (k : ℕ) → k < result.1
        → slice_index words.new k
        ≡ event_entry_word ((id, event) ∷ events_left rest.old) (id + k) }
    ensures rest { PassedEvents (id + result.1) ((id, event) ∷ events_left rest.old)
        (events_with result.0 (events_left rest.new)) }
{
    let slots = rest.places(EventId(id + 1), words.len() - 1);
    let next = rest.next();
    let first = put_slots(
        &mut words[1..1 + slots.len()],
        slots,
        id + 1,
        event_id(next),
    );
    words[0] = word_of(id, event, first);
    (next, 1 + slots.len())
}

fn event_id(entry: Option<(EventId, Event)>) -> Option<u32>
    ensures { result ≡ first_key (events_with entry []) }
{
    let (ev, _) = entry?;
    Some(ev.0)
}

/// Writes the table of each mapped device.
pub fn put_itts(draft: &mut Draft, under: &Memory, maps: &Maps) -> Result<(), AllocError>
    requires devices { AllByRecursion FitsDevice (entries maps.now.maps.devices) }
    requires events { (dev : ℕ) → AllByRecursion FitsEvent (events_at maps.now.maps dev) }
    ensures { OnOk result (laid draft.new under.now
        ≡ put_tables (laid draft.old under.now)
        (itt_tables maps.now.maps (entries maps.now.maps.devices))) }
{
    for (dev, device) in maps.devices() {
        put_itt(draft, under, maps, dev, device)?;
    }
    Ok(())
}

// How many places a table has.
fn places(bits: u8) -> u32
    requires { bits ≤ 16 }
    ensures places { result ≡ 2 ^ bits }
    ensures most { result ≤ 65536 }
{
    1 << bits
}

fn put_itt(
    draft: &mut Draft,
    under: &Memory,
    maps: &Maps,
    dev: DeviceId,
    device: Device,
) -> Result<(), AllocError>
    requires low { device.itt.0 < 2 ^ 52 }
    requires few { device.bits ≤ 16 }
    requires events { AllByRecursion FitsEvent (events_at maps.now.maps dev.0) }
    ensures { OnOk result (laid draft.new under.now
        ≡ put_words (laid draft.old under.now) device.itt.0
        (event_entry_word (events_at maps.now.maps dev.0)) (2 ^ device.bits)) }
{
    let mut front = EventFront::new(maps, dev);
    let count = places(device.bits);
    let mut done = 0;
    while done < count {
        let more = front.span(done, count - done);
        front.put_block(draft, under, device.itt.0 + 8 * u64::from(done), done, more)?;
        done += more;
    }
    Ok(())
}
