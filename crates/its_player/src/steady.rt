//! When a commit may leave its stamp: translations go on, or none is current any more.
ghost use Rattle.std.specs.Prelude.{◌≡◌, ◌≤◌, ◌⊎◌, ℕ, IfOk, Ok};
ghost use Rattle.std.specs.Bool.{Decides};
ghost use Rattle.its_types.specs.declared.ids.Target.{Target as Goal};
ghost use Rattle.its_plain.specs.Plain.{Translator};
ghost use Rattle.its_plain.specs.Translation.{located};
ghost use Rattle.its_player.specs.Held as spec;
ghost use Rattle.its_steps.specs.MayCall as may;
ghost use Rattle.its_player.specs.Shared.{setup_of};

use crate::content::Content;
use crate::held::Held;
use crate::shared::Shared;
use its_types::{DeviceId, EventId, Part, Target};
use plain_machine::TranslatorLists;
use std::alloc::{AllocError, Global};
use xlate_cache::shard_of;

/// Whether the part is some translator's maps.
pub fn is_maps(part: Part, its: usize) -> bool
    ensures { result ≡ spec.same_part part (Part.Maps its) }
{
    match part {
        Part::Maps(other) => usize::from(other) == its,
        _ => false,
    }
}

/// Whether the part is a shard of some translator's cache.
pub fn is_shard(part: Part, its: usize, number: u32) -> bool
    ensures { result ≡ spec.same_part part (Part.Shard its number) }
{
    match part {
        Part::Shard(other, n) => usize::from(other) == its && n == number,
        _ => false,
    }
}

fn lacks_in(owed: &[Held], its: usize, number: u32, dev: DeviceId, ev: EventId) -> bool
    ensures { result ≡ spec.owes_such (Part.Shard its number) (spec.lacks dev.0 ev.0) owed.now }
{
    owed.iter()
        .any(|x| is_shard(x.part(), its, number) && x.lacks(dev, ev))
}

fn is_located(translator: &TranslatorLists, dev: DeviceId, ev: EventId, target: Target) -> bool
    ensures { Decides result (located translator.now dev.0 ev.0 ≡ Ok target) }
{
    match translator.locate(dev, ev) {
        Ok(found) => found == target,
        Err(_) => false,
    }
}

impl Shared {
    // Whether a pair that the maps send somewhere goes there after too, or has left its shard.
    fn keeps_pair(
        &self,
        its: usize,
        owed: &[Held],
        before: &TranslatorLists,
        after: &TranslatorLists,
        dev: DeviceId,
        ev: EventId,
    ) -> bool
        requires { 1 ≤ self.now.shards }
        ensures { Decides result ((target : Goal) → located before.now dev.0 ev.0 ≡ Ok target →
            (located after.now dev.0 ev.0 ≡ Ok target) ⊎
            may.IsWithout (setup_of self.now) its dev.0 ev.0 owed.now) }
    {
        match before.locate(dev, ev) {
            Err(_) => true,
            Ok(target) => {
                if is_located(after, dev, ev, target) {
                    return true;
                }
                lacks_in(owed, its, shard_of(dev, ev, self.shards), dev, ev)
            }
        }
    }

    // Whether all pairs do.
    fn keeps_pairs(
        &self,
        alloc: Global,
        its: usize,
        owed: &[Held],
        before: &TranslatorLists,
        after: &TranslatorLists,
    ) -> Result<bool, AllocError>
        requires { 1 ≤ self.now.shards }
        ensures { IfOk result (λ b.
            Decides b ((dev ev : ℕ) (target : Goal) → located before.now dev ev ≡ Ok target →
            (located after.now dev ev ≡ Ok target) ⊎
            may.IsWithout (setup_of self.now) its dev ev owed.now)) }
    {
        let pairs = before.events(alloc)?;
        for pair in &pairs {
            if !self.keeps_pair(its, owed, before, after, pair.0, pair.1) {
                return Ok(false);
            }
        }
        Ok(true)
    }

    // Whether a part that is held does.
    fn is_steady(
        &self,
        alloc: Global,
        its: usize,
        owed: &[Held],
        before: &Held,
        after: &Held,
    ) -> Result<bool, AllocError>
        requires { 1 ≤ self.now.shards }
        ensures { IfOk result (λ b.
            Decides b (may.IsSteady (setup_of self.now) its owed.now before.now.part before.now.owed
            after.now.owed)) }
    {
        match (before.part(), before.owed(), after.owed()) {
            (Part::Maps(other), Content::Maps(first), Content::Maps(second)) => {
                if usize::from(other) != its {
                    return Ok(true);
                }
                self.keeps_pairs(alloc, its, owed, first, second)
            }
            _ => Ok(true),
        }
    }

    /// Whether each pair that a translator's maps sent somewhere goes there as before, or has left its
    /// shard.
    pub fn are_steady(
        &self,
        alloc: Global,
        its: usize,
        owed: &[Held],
        before: &[Held],
        after: &[Held],
    ) -> Result<bool, AllocError>
        requires { 1 ≤ self.now.shards }
        ensures { IfOk result (λ b.
            Decides b (may.AreSteady (setup_of self.now) its owed.now before.now after.now)) }
    {
        let [x, xs @ ..] = before else {
            return Ok(true);
        };
        let [y, ys @ ..] = after else {
            return Ok(true);
        };
        if !self.is_steady(alloc, its, owed, x, y)? {
            return Ok(false);
        }
        self.are_steady(alloc, its, owed, xs, ys)
    }
}
