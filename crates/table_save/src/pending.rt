//! The pending tables.

ghost use Rattle.guest_windows.specs.Drafts.{laid};
ghost use Rattle.std.specs.Prelude.{◌≡◌, ◌+◌, ◌*◌, ◌<◌, ◌≤◌, ◌^◌, ℕ, OnOk, length, slice_index};
ghost use Rattle.std.specs.List.{flat_map};
ghost use Rattle.its_types.specs.Ranges.{pending_bytes};
ghost use Rattle.its_plain.specs.Saved.{put_words, put_tables, pending_word, pending_words};
ghost use Rattle.its_plain.specs.Sound.{IsShape};
ghost use Rattle.owned_parts.specs.Owned.{AreAllInHand, HasLpisOfPend, redistributor_of};
ghost use Rattle.gicr_regs.specs.Registers.{AreLow};
ghost use Rattle.table_save.specs.Areas.{redistributors_of, HaveLowTables};

use crate::words::{BLOCK, put_block, put_zeros};
use guest_windows::{Draft, Memory};
use its_types::{Shape, Vcpu, le_u64};
use lpi_config::Conf;
use lpi_pending::{Pend, Pending, Redists};
use std::alloc::AllocError;

/// Writes the pending tables, but for the bytes that belong to no LPI.
pub fn put_pending(
    draft: &mut Draft,
    under: &Memory,
    redists: &Redists,
    shape: Shape,
) -> Result<(), AllocError>
    requires shape { IsShape shape }
    requires in_hand { AreAllInHand shape redists.now }
    requires low { HaveLowTables shape redists.now }
    ensures { OnOk result (laid draft.new under.now
        ≡ put_tables (laid draft.old under.now)
        (flat_map (pending_words shape) (redistributors_of shape redists.now))) }
{
    for vcpu in 0..shape.vcpus {
        put_table(
            draft,
            under,
            redists.conf(Vcpu(vcpu)),
            redists.pend(Vcpu(vcpu)),
            shape,
        )?;
    }
    Ok(())
}

// Writes a redistributor's table, where its LPIs are on.
fn put_table(
    draft: &mut Draft,
    under: &Memory,
    conf: &Conf,
    pend: &Pend,
    shape: Shape,
) -> Result<(), AllocError>
    requires shape { IsShape shape }
    requires lpis { HasLpisOfPend shape pend.now }
    requires low { AreLow conf.now.bases }
    ensures { OnOk result (laid draft.new under.now ≡ put_tables (laid draft.old under.now)
        (pending_words shape (redistributor_of conf.now pend.now))) }
{
    if !conf.bases().on {
        return Ok(());
    }
    let count = (shape.pending_bytes() - 1024) / 8;
    let base = conf.bases().pend.table.0 + 1024;
    match pend.pending() {
        Some(pending) => put_words_of(draft, under, base, count as u32, pending),
        None => put_zeros(draft, under, base, count as u32),
    }
}

// Writes so many words, of which the first has the bits of the first LPIs.
fn put_words_of(
    draft: &mut Draft,
    under: &Memory,
    base: u64,
    count: u32,
    pending: &Pending,
) -> Result<(), AllocError>
    requires low { base < 2 ^ 53 }
    requires few { count ≤ 16384 }
    requires in_table { 1024 + 8 * count ≤ pending_bytes pending.now.lpi_bits }
    ensures { OnOk result (laid draft.new under.now
        ≡ put_words (laid draft.old under.now) base
        (λ i. pending_word pending.now.lpis (1024 + 8 * i)) count) }
{
    let mut words = [0u64; BLOCK as usize];
    let mut done = 0;
    while done < count {
        let more = (count - done).min(BLOCK);
        let block = &mut words[..more as usize];
        words_from(pending, done, block);
        put_block(draft, under, base + 8 * u64::from(done), block)?;
        done += more;
    }
    Ok(())
}

// The words of a block, of which the first is word `first` of those that have LPIs.
fn words_from(pending: &Pending, first: u32, words: &mut [u64])
    requires few { first + length words.old ≤ 16384 }
    requires in_table { 1024 + 8 * (first + length words.old)
        ≤ pending_bytes pending.now.lpi_bits }
    ensures length { length words.new ≡ length words.old }
    ensures words { (k : ℕ) → k < length words.old
        → slice_index words.new k ≡ pending_word pending.now.lpis (1024 + 8 * (first + k)) }
{
    for i in 0..words.len() {
        words[i] = word_of(pending, 1024 + 8 * (first + i as u32));
    }
}

// Eight bytes of the table from byte `n` on.
#[tactic(auto, unfolding(its_plain::specs::Saved::pending_word))]
fn word_of(pending: &Pending, n: u32) -> u64
    requires low { 1024 ≤ n }
    requires high { n < 2 ^ 18 }
    requires in_table { n + 8 ≤ pending_bytes pending.now.lpi_bits }
    ensures { result ≡ pending_word pending.now.lpis n }
{
    let bytes = [
        pending.byte(n),
        pending.byte(n + 1),
        pending.byte(n + 2),
        pending.byte(n + 3),
        pending.byte(n + 4),
        pending.byte(n + 5),
        pending.byte(n + 6),
        pending.byte(n + 7),
    ];
    le_u64(&bytes, 0)
}
