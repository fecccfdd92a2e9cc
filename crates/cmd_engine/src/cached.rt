//! The shards that a call has in hand, and what its commit does to them and to the stamp.
ghost use Rattle.std.specs.Prelude.{◌≡◌, ◌<◌, MatchOption};
ghost use Rattle.its_steps.specs.Parts.{translator_count, stamp_of};
ghost use Rattle.its_turns.specs.Machines.{setup, AreWithin};
ghost use Rattle.cmd_engine.specs.Cached.{IsRisen};

use held_parts::Shards;
use its_steps::ShardChange;
use its_turns::Machine;
use its_types::{DeviceId, EventId, Word};
use xlate_cache::Shard;

/// What a call ends, if it takes effect, and the shards of its translator that are in hand for
/// that.
#[derive(Drop)]
pub(crate) enum Cached {
    /// It ends no translation.
    Nothing,
    /// It ends those of one pair, whose shard is in hand.
    Pair(DeviceId, EventId, Shard),
    /// It may end any, and the stamp is to rise.
    Any,
    /// It may end any, and every shard is in hand.
    Every(Shards),
}

/// The word's stamp that a commit leaves, and what it does to the shards.
#[derive(Clone, Copy)]
pub(crate) struct Mark {
    pub stamp: u32,
    pub change: ShardChange,
}

impl Mark {
    ghost use Rattle.std.specs.Prelude.{◌≡◌};
    ghost use Rattle.cmd_engine.specs.Cached.{mark_of};
    ghost use Rattle.its_steps.specs.declared.change.ShardChange.TheVariants as change;

    /// Of a call that ends no translation.
    pub fn staying(word: Word) -> Mark
        ensures { result ≡ mark_of word.stamp change.Keep }
    {
        Mark {
            stamp: word.stamp,
            change: ShardChange::Keep,
        }
    }
}

impl Cached {
    ghost use Rattle.std.specs.Prelude.{◌≡◌, ◌<◌, MatchOption};
    ghost use Rattle.its_steps.specs.Parts.{translator_count, stamp_of};
    ghost use Rattle.its_turns.specs.Machines.{setup, AreWithin};
    ghost use Rattle.cmd_engine.specs.Cached.{MayMark, AreChanged, IsAny};

    /// What the commit of the call leaves, if it takes effect. There is no answer where the
    /// translator's stamp is the last one and not every shard is in hand.
    pub fn mark(&self, machine: &Machine, its: u8, word: Word) -> Option<Mark>
        requires its { its < translator_count (setup machine.now) }
        requires within { AreWithin (setup machine.now) word }
        ensures { MatchOption result
            ((stamp_of (setup machine.now) word its ≡ (setup machine.now).limits.stamp_last)
            × IsAny self.now)
            (λ m. MayMark (setup machine.now) its self.now word m) }
    {
        match self {
            Cached::Nothing => Some(Mark::staying(word)),
            Cached::Pair(dev, ev, _) => Some(Mark {
                stamp: word.stamp,
                change: ShardChange::Drop(*dev, *ev),
            }),
            Cached::Any => risen(machine, its, word),
            Cached::Every(_) => match risen(machine, its, word) {
                Some(mark) => Some(mark),
                None => Some(Mark {
                    stamp: machine.stamp_with(word, its, 0),
                    change: ShardChange::Empty,
                }),
            },
        }
    }

    /// Does to the shards in hand what was committed.
    pub fn change(&mut self, change: ShardChange)
        ensures { AreChanged change self.old self.new }
    {
        match (change, self) {
            (ShardChange::Drop(..), Cached::Pair(dev, ev, shard)) => shard.drop_event(*dev, *ev),
            (ShardChange::Empty, Cached::Every(shards)) => shards.empty_all(),
            _ => {}
        }
    }
}

// With the translator's stamp one higher, unless it is the last one.
fn risen(machine: &Machine, its: u8, word: Word) -> Option<Mark>
    requires its { its < translator_count (setup machine.now) }
    requires within { AreWithin (setup machine.now) word }
    ensures { MatchOption result
        (stamp_of (setup machine.now) word its ≡ (setup machine.now).limits.stamp_last)
        (λ m. IsRisen (setup machine.now) its word m) }
{
    let stamp = machine.stamp_of(word, its);
    if stamp < machine.stamp_last() {
        Some(Mark {
            stamp: machine.stamp_with(word, its, stamp + 1),
            change: ShardChange::Keep,
        })
    } else {
        None
    }
}
