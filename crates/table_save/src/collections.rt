//! The collection table.

ghost use Rattle.std.specs.Prelude.{◌≡◌, ◌<◌, ◌≤◌, ◌^◌, ℕ, List, OnOk, IfOk, drop, slice_get};
ghost use Rattle.guest_windows.specs.Drafts.{laid};
ghost use Rattle.its_plain.specs.Saved as saved;
ghost use Rattle.its_plain.specs.Saved.{put_words, put_tables, collection_words};
ghost use Rattle.its_types.specs.declared.ids.Vcpu.{Vcpu};
ghost use Rattle.table_save.specs.EntriesLeft.{Leaves};
ghost use Rattle.table_save.specs.Tables.{collection_entry};

use crate::entry_front::EntryFront;
use crate::words::{BLOCK, put_block, put_zeros};
use gits_regs::Regs;
use guest_windows::{Draft, Memory};
use its_maps::Maps;
use its_types::{Icid, Shape};
use std::alloc::AllocError;
use table_entries::Cte;

/// Writes the collections that have entries by rising ICID, and zeros after them.
#[tactic(auto, unfolding(its_plain::specs::Saved::collection_word))]
pub fn put_collections(
    draft: &mut Draft,
    under: &Memory,
    shape: Shape,
    regs: &Regs,
    maps: &Maps,
) -> Result<(), AllocError>
    ensures { OnOk result (laid draft.new under.now
        ≡ put_tables (laid draft.old under.now)
        (collection_words shape (record { regs = regs.now; maps = maps.now.maps }))) }
{
    if !regs.table_valid(1) {
        return Ok(());
    }
    let mut front = EntryFront::new(shape, regs, maps);
    put_places(
        draft,
        under,
        regs.table_base(1).0,
        regs.collection_places(),
        &mut front,
    )
}

fn put_places(
    draft: &mut Draft,
    under: &Memory,
    base: u64,
    count: u32,
    front: &mut EntryFront<'_>,
) -> Result<(), AllocError>
    requires low { base < 2 ^ 53 }
    requires few { count ≤ 65536 }
    ensures { (es : List (ℕ × Vcpu)) → Leaves front.old es → OnOk result (laid draft.new under.now
        ≡ put_words (laid draft.old under.now) base
        (λ i. saved.collection_entry (slice_get es i)) count) }
{
    let mut done = 0;
    while done < count {
        done += put_some(
            draft,
            under,
            base + 8 * u64::from(done),
            count - done,
            front,
        )?;
    }
    Ok(())
}

// Writes some of the next places, of which there is one at least: a block of the next collections
// with zeros after them, or all places where no collection is left. It answers how many it wrote.
fn put_some(
    draft: &mut Draft,
    under: &Memory,
    base: u64,
    most: u32,
    front: &mut EntryFront<'_>,
) -> Result<u32, AllocError>
    requires low { base < 2 ^ 54 }
    requires some { 0 < most }
    ensures some { IfOk result (λ n. 0 < n) }
    ensures most { IfOk result (λ n. n ≤ most) }
    ensures memory { (es : List (ℕ × Vcpu)) → Leaves front.old es
        → IfOk result (λ n. laid draft.new under.now
        ≡ put_words (laid draft.old under.now) base
        (λ i. saved.collection_entry (slice_get es i)) n) }
    ensures rest { (es : List (ℕ × Vcpu)) → Leaves front.old es
        → IfOk result (λ n. Leaves front.new (drop n es)) }
{
    let Some(first) = front.next() else {
        put_zeros(draft, under, base, most)?;
        return Ok(most);
    };
    let count = most.min(BLOCK);
    let mut words = [0u64; BLOCK as usize];
    let words = &mut words[..count as usize];
    words[0] = word_of(Some(first));
    for i in 1..words.len() {
        words[i] = word_of(front.next());
    }
    put_block(draft, under, base, words)?;
    Ok(count)
}

fn word_of(collection: Option<(Icid, u32)>) -> u64
    ensures { result ≡ collection_entry collection }
{
    match collection {
        Some((icid, vcpu)) => {
            let entry = Cte {
                vcpu_number: u64::from(vcpu),
                icid,
            };
            entry.pack()
        }
        None => 0,
    }
}
