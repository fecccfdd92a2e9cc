//! The stamps that a commit may leave.
ghost use Rattle.std.specs.Prelude.{◌≡◌, ◌≤◌, ◌<◌, ℕ, IfOk, Some, length};
ghost use Rattle.std.specs.Bool.{Decides};
ghost use Rattle.std.specs.List.{AllByRecursion};
ghost use Rattle.xlate_cache.specs.declared.entry.Entry.{Entry as Translation};
ghost use Rattle.its_player.specs.Contents.{content_of};
ghost use Rattle.its_player.specs.Held as spec;
ghost use Rattle.its_player.specs.Shared.{setup_of};
ghost use Rattle.its_steps.specs.Good.{Holds};
ghost use Rattle.its_steps.specs.MayCall as may;
ghost use Rattle.its_steps.specs.Parts.{translator_count};
ghost use Rattle.its_steps.specs.World as world;

use crate::content::Content;
use crate::held::Held;
use crate::renewals::its_of;
use crate::shared::Shared;
use crate::steady::{is_maps, is_shard};
use its_steps::{Commit, ShardChange};
use its_types::{Part, Word};
use std::alloc::{AllocError, Global};
use xlate_cache::Entry;

fn holds_maps(held: &[Held], its: usize) -> bool
    ensures { result ≡ spec.holds (Part.Maps its) held.now }
{
    held.iter().any(|x| is_maps(x.part(), its))
}

fn holds_shard(held: &[Held], its: usize, number: u32) -> bool
    ensures { result ≡ spec.holds (Part.Shard its number) held.now }
{
    held.iter().any(|x| is_shard(x.part(), its, number))
}

// Whether so many shards of a translator are held.
fn holds_shards(held: &[Held], its: usize, shards: u32) -> bool
    ensures { Decides result ((n : ℕ) → n < shards → Holds (Part.Shard its n) held.now) }
{
    for n in 0..shards {
        if !holds_shard(held, its, n) {
            return false;
        }
    }
    true
}

impl Shared {
    // What a commit puts into the shards of a translator.
    fn fill_of(&self, commit: &Commit, to: Word, its: usize) -> Option<Entry>
        ensures fill { (e : Translation) → result ≡ Some e →
            may.IsFill (setup_of self.now) to commit.now.call commit.now.change its e }
        ensures only { (e : Translation) →
            may.IsFill (setup_of self.now) to commit.now.call commit.now.change its e →
            result ≡ Some e }
    {
        let ShardChange::Fill(dev, ev, target) = commit.change else {
            return None;
        };
        if usize::from(its_of(&commit.call)) != its {
            return None;
        }
        Some(Entry {
            dev,
            ev,
            stamp: self.stamp_of(to, its),
            target,
        })
    }

    // Whether a part that is owed has no translation of a translator but the one filled in.
    fn has_fill_alone(
        &self,
        part: Part,
        owed: &Content,
        commit: &Commit,
        to: Word,
        its: usize,
    ) -> bool
        ensures { Decides result
            (may.HasFillsAlone (setup_of self.now) to commit.now.call commit.now.change its part
            (content_of owed.now)) }
    {
        let Part::Shard(other, _) = part else {
            return true;
        };
        let Content::Shard(shard) = owed else {
            return true;
        };
        if usize::from(other) != its {
            return true;
        }
        shard.holds_only(self.fill_of(commit, to, its))
    }

    fn have_fills_alone(&self, owed: &[Held], commit: &Commit, to: Word, its: usize) -> bool
        ensures { Decides result (AllByRecursion
            (λ x. may.HasFillsAlone (setup_of self.now) to commit.now.call commit.now.change its
            x.part x.owed)
            owed.now) }
    {
        match owed {
            [] => true,
            [x, rest @ ..] => {
                if !self.has_fill_alone(x.part(), x.owed(), commit, to, its) {
                    return false;
                }
                self.have_fills_alone(rest, commit, to, its)
            }
        }
    }

    fn stays(
        &self,
        alloc: Global,
        commit: &Commit,
        to: Word,
        its: usize,
        held: &[Held],
        owed: &[Held],
    ) -> Result<bool, AllocError>
        requires shards { 1 ≤ self.now.shards }
        requires to { to ≡ world.word_after commit.now }
        ensures { IfOk result (λ b.
            Decides b (may.StampStays (setup_of self.now) commit.now its held.now owed.now)) }
    {
        if self.stamp_of(to, its) != self.stamp_of(commit.expected, its) {
            return Ok(false);
        }
        self.are_steady(alloc, its, owed, held, owed)
    }

    fn rises(&self, commit: &Commit, to: Word, its: usize, held: &[Held]) -> bool
        requires { to ≡ world.word_after commit.now }
        ensures { Decides result (may.StampRises (setup_of self.now) commit.now its held.now) }
    {
        if usize::from(its_of(&commit.call)) != its {
            return false;
        }
        if !holds_maps(held, its) {
            return false;
        }
        let stamp = self.stamp_of(to, its);
        if u64::from(stamp) != u64::from(self.stamp_of(commit.expected, its)) + 1 {
            return false;
        }
        if stamp > self.limits.stamp_last {
            return false;
        }
        true
    }

    fn renews(&self, commit: &Commit, to: Word, its: usize, held: &[Held], owed: &[Held]) -> bool
        requires { to ≡ world.word_after commit.now }
        ensures { Decides result
            (may.StampRenews (setup_of self.now) commit.now its held.now owed.now) }
    {
        if usize::from(its_of(&commit.call)) != its {
            return false;
        }
        if self.stamp_of(to, its) != 0 {
            return false;
        }
        if !holds_maps(held, its) {
            return false;
        }
        if !holds_shards(held, its, self.shards) {
            return false;
        }
        self.have_fills_alone(owed, commit, to, its)
    }

    // Whether one translator may have this stamp.
    fn may_stamp(
        &self,
        alloc: Global,
        commit: &Commit,
        to: Word,
        held: &[Held],
        owed: &[Held],
        its: usize,
    ) -> Result<bool, AllocError>
        requires shards { 1 ≤ self.now.shards }
        requires to { to ≡ world.word_after commit.now }
        ensures { IfOk result (λ b.
            Decides b (may.MayStamp (setup_of self.now) commit.now held.now owed.now its)) }
    {
        if self.stays(alloc, commit, to, its, held, owed)? {
            return Ok(true);
        }
        if self.rises(commit, to, its, held) {
            return Ok(true);
        }
        Ok(self.renews(commit, to, its, held, owed))
    }

    /// Whether the word may have this stamp.
    pub fn may_stamps(
        &self,
        alloc: Global,
        commit: &Commit,
        to: Word,
        held: &[Held],
        owed: &[Held],
    ) -> Result<bool, AllocError>
        requires shards { 1 ≤ self.now.shards }
        requires to { to ≡ world.word_after commit.now }
        ensures { IfOk result (λ b.
            Decides b ((its : ℕ) → its < translator_count (setup_of self.now) →
            may.MayStamp (setup_of self.now) commit.now held.now owed.now its)) }
    {
        for its in 0..self.start.translators().len() {
            let may = self.may_stamp(alloc, commit, to, held, owed, its)?;
            if !may {
                return Ok(false);
            }
        }
        Ok(true)
    }
}
