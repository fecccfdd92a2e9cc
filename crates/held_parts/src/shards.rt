//! All shards of a translator, taken the first one first.
ghost use Rattle.std.specs.Prelude.{◌≡◌, ◌<◌, ◌≤◌, ℕ, List, MatchResult};
ghost use Rattle.its_steps.specs.Contents.{Held};
ghost use Rattle.its_steps.specs.Parts.{translator_count};
ghost use Rattle.its_turns.specs.Machines.{setup, view, IsOf};
ghost use Rattle.held_parts.specs.Shards.{shards_held, AreNoShards, AreShards, AreBeforeShards};
ghost use Rattle.held_parts.specs.Shards.{IsShardOf};
ghost use Rattle.held_parts.specs.Once.{TakesAtOnce, FindsBusy};
ghost use Rattle.held_parts.specs.Taking.{TakesOnly, holding};

use crate::getting::take_shard;
use crate::turns::Turns;
use its_turns::{Busy, Machine, Pass, Value, put, try_take_shard};
use its_types::Part;
use std::marker::Model;
use xlate_cache::Shard;

/// Places for shards 0 to 63. Each holds one, which is then in hand, or is empty.
#[derive(Drop)]
pub struct Shards {
    places: [Option<Shard>; 64],
}

impl Model for Shards {
    ghost use Rattle.std.specs.Prelude.{◌≡◌, List, Option, length};
    ghost use Rattle.held_parts.specs.Shards.{Ways};

    ghost Value = { List (Option Ways) };

    ghost view = { λ s. s.places };

    ghost invariant = { λ s. length s.places ≡ 64 };
}

impl Shards {
    ghost use Rattle.std.specs.Prelude.{◌≡◌, ◌≢◌, ◌<◌, ℕ, true, Some, None, is_some};
    ghost use Rattle.std.specs.Prelude.{slice_set, length};
    ghost use Rattle.held_parts.specs.Shards.{in_place, emptied, AreNoShards, AreEmptied};

    /// Empty places. Takes no memory.
    pub fn new() -> Shards
        ensures { AreNoShards result }
    {
        Shards {
            places: [
                None, None, None, None, None, None, None, None, None, None, None, None, None, None,
                None, None, None, None, None, None, None, None, None, None, None, None, None, None,
                None, None, None, None, None, None, None, None, None, None, None, None, None, None,
                None, None, None, None, None, None, None, None, None, None, None, None, None, None,
                None, None, None, None, None, None, None, None,
            ],
        }
    }

    /// Takes every translation away from each shard that is in hand.
    pub fn empty_all(&mut self)
        ensures { AreEmptied self.old self.new }
    {
        // What the fields keep is known once one of them is looked at.
        let _ = &self.places;
        for number in 0..64u32 {
            self.empty_one(number);
        }
    }

    fn empty_one(&mut self, number: u32)
        requires in_range { number < 64 }
        ensures here { in_place self.new number ≡ emptied (in_place self.old number) }
        ensures others { (n : ℕ) → n ≢ number → in_place self.new n ≡ in_place self.old n }
    {
        if let Some(mut shard) = self.places[number as usize].take() {
            shard.empty();
            self.places[number as usize] = Some(shard);
        }
    }

    // Puts a shard into its empty place.
    fn place(&mut self, number: u32, shard: Shard)
        requires in_range { number < 64 }
        ensures placed { self.new ≡ slice_set self.old number (Some shard) }
        ensures size { length self.new ≡ 64 }
    {
        self.places[number as usize] = Some(shard);
    }

    // Takes a shard that is in hand, and leaves its place empty.
    fn take_out(&mut self, number: u32) -> Shard
        requires { is_some (in_place self.old number) ≡ true }
        ensures value { in_place self.old number ≡ Some result }
        ensures taken { self.new ≡ slice_set self.old number None }
    {
        match self.places[number as usize].take() {
            Some(shard) => shard,
            None => unreachable!(),
        }
    }
}

/// Takes all shards of a translator out, the first one first, and puts them in their places.
pub fn take_shards<T: Turns>(
    how: &T,
    machine: &Machine,
    pass: &mut Pass,
    its: u8,
    shards: &mut Shards,
)
    requires of { IsOf machine.now pass.old }
    requires stands { its < translator_count (setup machine.now) }
    requires empty { AreNoShards shards.old }
    requires order { AreBeforeShards its (view pass.old).held }
    requires allowed { T.allowed (view pass.old) }
    ensures of { IsOf machine.now pass.new }
    ensures takes { TakesOnly (IsShardOf its) (view pass.old) (view pass.new) }
    ensures held { (view pass.new).held ≡ shards_held its shards.new (setup machine.now).shards
        (view pass.old).held }
    ensures hand { AreShards (setup machine.now).shards shards.new }
    ensures allowed { T.allowed (view pass.new) }
{
    for number in 0..machine.shards() {
        let shard = take_shard(how, machine, pass, its, number);
        shards.place(number, shard);
    }
}

/// Tries all shards of a translator, each once and the first one first, and puts them in their
/// places. Where another pass has one, none of them is held afterwards.
pub fn once_shards(
    machine: &Machine,
    pass: &mut Pass,
    its: u8,
    shards: &mut Shards,
) -> Result<(), Busy>
    requires of { IsOf machine.now pass.old }
    requires stands { its < translator_count (setup machine.now) }
    requires empty { AreNoShards shards.old }
    requires order { AreBeforeShards its (view pass.old).held }
    ensures of { IsOf machine.now pass.new }
    ensures result { MatchResult result
        (λ _. TakesAtOnce (IsShardOf its) (view pass.old) (view pass.new) ×
        ((view pass.new).held ≡ shards_held its shards.new (setup machine.now).shards
        (view pass.old).held) × AreShards (setup machine.now).shards shards.new)
        (λ b. FindsBusy (IsShardOf its) (view pass.old) b (view pass.new)
        × AreNoShards shards.new) }
{
    for number in 0..machine.shards() {
        match try_take_shard(machine, pass, its, number) {
            Ok(shard) => shards.place(number, shard),
            Err(busy) => {
                put_first(machine, pass, its, number, shards);
                return Err(busy);
            }
        }
    }
    Ok(())
}

/// Puts them back, the last one first. Their places are empty then.
pub fn put_shards(machine: &Machine, pass: &mut Pass, its: u8, shards: &mut Shards)
    requires of { IsOf machine.now pass.old }
    requires stands { its < translator_count (setup machine.now) }
    requires hand { AreShards (setup machine.now).shards shards.old }
    requires held { (before : List Held) ×
        ((view pass.old).held ≡ shards_held its shards.old (setup machine.now).shards before) }
    ensures of { IsOf machine.now pass.new }
    ensures empty { AreNoShards shards.new }
    ensures home { (before : List Held) →
        (view pass.old).held ≡ shards_held its shards.old (setup machine.now).shards before →
        view pass.new ≡ holding (view pass.old) before }
{
    put_first(machine, pass, its, machine.shards(), shards);
}

// The first so many, the last one of them first.
fn put_first(machine: &Machine, pass: &mut Pass, its: u8, count: u32, shards: &mut Shards)
    requires of { IsOf machine.now pass.old }
    requires stands { its < translator_count (setup machine.now) }
    requires count { count ≤ (setup machine.now).shards }
    requires hand { AreShards count shards.old }
    requires held { (before : List Held) ×
        ((view pass.old).held ≡ shards_held its shards.old count before) }
    ensures of { IsOf machine.now pass.new }
    ensures empty { AreNoShards shards.new }
    ensures home { (before : List Held) →
        (view pass.old).held ≡ shards_held its shards.old count before →
        view pass.new ≡ holding (view pass.old) before }
{
    for k in 0..count {
        let number = count - 1 - k;
        let shard = shards.take_out(number);
        put(machine, pass, Part::Shard(its, number), Value::Shard(shard));
    }
}
