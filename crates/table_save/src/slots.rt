//! The words of places as the map has them, from the last one on to the first: so the next event is
//! known at each.

ghost use Rattle.std.specs.Prelude.{◌≡◌, ◌+◌, ◌<◌, ◌≤◌, ◌^◌, length, IfSome};
ghost use Rattle.std.specs.List.{AllByRecursion};
ghost use Rattle.its_plain.specs.Saved as saved;
ghost use Rattle.its_maps.specs.Pages.{slots_from};
ghost use Rattle.table_save.specs.Pass.{FitsEvent, first_from, pack_event, slot_words};

use its_types::Event;
use table_entries::Ite;

/// Writes the words of places, the first of which is that of an EventID, before the next event
/// after them. It answers the first event of them, or else the next.
pub fn put_slots(
    words: &mut [u64],
    slots: &[Option<Event>],
    id: u32,
    after: Option<u32>,
) -> Option<u32>
    requires long { length words.old ≡ length slots.now }
    requires few { id + length slots.now ≤ 2 ^ 32 }
    requires fit { AllByRecursion FitsEvent (slots_from id slots.now) }
    requires after { IfSome after (λ next. id + length slots.now ≤ next) }
    ensures words { words.new ≡ slot_words id slots.now after }
    ensures first { result ≡ first_from id slots.now after }
{
    let mut next = after;
    for i in (0..slots.len()).rev() {
        words[i] = match &slots[i] {
            Some(event) => {
                let at = id + i as u32;
                let word = word_of(at, *event, next);
                next = Some(at);
                word
            }
            None => 0,
        };
    }
    next
}

/// The word of an event, with the distance to the next one.
pub fn word_of(id: u32, event: Event, next: Option<u32>) -> u64
    requires some { 1 ≤ event.intid.0 }
    requires later { IfSome next (λ n. id ≤ n) }
    ensures { result ≡ pack_event event (saved.distance 65535 id next) }
{
    let entry = Ite {
        next: distance(id, next),
        intid: event.intid,
        icid: event.icid,
    };
    entry.pack()
}

// How far the next one is, at most 65535, or 0 where there is none.
fn distance(id: u32, next: Option<u32>) -> u16
    requires { IfSome next (λ n. id ≤ n) }
    ensures { result ≡ saved.distance 65535 id next }
{
    match next {
        Some(next) => (next - id).min(65535) as u16,
        None => 0,
    }
}
