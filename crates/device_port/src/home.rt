//! Parts that are put back.
ghost use Rattle.std.specs.Prelude.{◌≡◌, ◌<◌, List, []};
ghost use Rattle.its_steps.specs.Contents.{Held};
ghost use Rattle.its_steps.specs.Parts.{translator_count};
ghost use Rattle.its_turns.specs.Machines.{setup, view, IsOf};
ghost use Rattle.device_port.specs.Hands.{hand_held, one_held, IsHand};

use crate::hand::Hand;
use its_turns::{Machine, Pass, Value, put};
use its_types::Part;
use owned_parts::Translator;

/// A translator's shard, and what is pending at a target, which was taken after it.
#[inline(always)]
pub fn put_two(machine: &Machine, pass: &mut Pass, its: u8, hand: Hand)
    requires of { IsOf machine.now pass.old }
    requires its { its < translator_count (setup machine.now) }
    requires hand { IsHand (setup machine.now) hand }
    requires held { (before : List Held) × ((view pass.old).held ≡ hand_held its hand before) }
    ensures of { IsOf machine.now pass.new }
    ensures home { (before : List Held) → (view pass.old).held ≡ hand_held its hand before →
        view pass.new ≡ record (view pass.old) { held = before } }
{
    let Hand {
        number,
        shard,
        target,
        pend,
    } = hand;
    put(machine, pass, Part::Pend(target.vcpu), Value::Pend(pend));
    put(machine, pass, Part::Shard(its, number), Value::Shard(shard));
}

/// A translator's maps, which were taken before them, its shard, and what is pending at a target.
pub fn put_three(machine: &Machine, pass: &mut Pass, its: u8, maps: Box<Translator>, hand: Hand)
    requires of { IsOf machine.now pass.old }
    requires its { its < translator_count (setup machine.now) }
    requires hand { IsHand (setup machine.now) hand }
    requires held { (view pass.old).held ≡ hand_held its hand (one_held its maps.value) }
    ensures of { IsOf machine.now pass.new }
    ensures home { view pass.new ≡ record (view pass.old) { held = [] } }
{
    put_two(machine, pass, its, hand);
    put(machine, pass, Part::Maps(its), Value::Maps(maps));
}
