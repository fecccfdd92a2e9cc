//! What a machine tells of itself.
use crate::machine::Machine;
use its_plain::Desc;
use its_types::{DeviceId, EventId, Word};
use xlate_cache::shard_of;

impl Machine {
    ghost use Rattle.std.specs.Prelude.{◌≡◌, ◌<◌, ◌≤◌, ℕ, length};
    ghost use Rattle.its_types.specs.Ranges.{most_vcpus};
    ghost use Rattle.its_types.specs.declared.machine.Part.TheVariants as part;
    ghost use Rattle.xlate_cache.specs.Pairs.{shard_number};
    ghost use Rattle.its_plain.specs.Machine.{layout_of};
    ghost use Rattle.its_steps.specs.Parts.{Stands, translator_count, vcpu_count};
    ghost use Rattle.its_steps.specs.Parts as spec;
    ghost use Rattle.its_turns.specs.Machines.{setup};

    /// What the machine was made from, without the bytes that were put into memory and the
    /// registers that it was restored with.
    pub fn desc(&self) -> &Desc
        ensures desc { result.now ≡ self.now.desc }
        ensures limits { result.now.limits ≡ (setup self.now).limits }
        ensures shards { result.now.shards ≡ (setup self.now).shards }
        ensures shape { result.now.shape ≡ (setup self.now).start.layout.shape }
        ensures layout { layout_of result.now ≡ (setup self.now).start.layout }
        ensures translators { length result.now.translators ≡ translator_count (setup self.now) }
    {
        &self.desc
    }

    /// The last place of the history, which no call gets.
    pub fn place_last(&self) -> u64
        ensures { result ≡ (setup self.now).limits.place_last }
    {
        self.desc.limits.place_last
    }

    /// The last stamp before it is renewed.
    pub fn stamp_last(&self) -> u32
        ensures { result ≡ (setup self.now).limits.stamp_last }
    {
        self.desc.limits.stamp_last
    }

    /// How many translators there are: one or two.
    pub fn translators(&self) -> u8
        ensures translators { result ≡ translator_count (setup self.now) }
        ensures some { 1 ≤ result }
        ensures most { result ≤ 2 }
    {
        self.translators
    }

    /// The stamp of a translator in a word.
    pub fn stamp_of(&self, word: Word, its: u8) -> u32
        requires its { its < translator_count (setup self.now) }
        ensures { result ≡ spec.stamp_of (setup self.now) word its }
    {
        if its == 0 {
            word.stamp >> self.first_shift
        } else {
            word.stamp % 4096
        }
    }

    /// A word's stamp, where that of one translator is another and the others stay.
    pub fn stamp_with(&self, word: Word, its: u8, stamp: u32) -> u32
        requires its { its < translator_count (setup self.now) }
        requires low { stamp ≤ (setup self.now).limits.stamp_last }
        ensures { result
            ≡ spec.stamp_with (translator_count (setup self.now)) word.stamp its stamp }
    {
        if self.translators == 1 {
            stamp
        } else if its == 0 {
            stamp * 4096 + word.stamp % 4096
        } else {
            word.stamp / 4096 * 4096 + stamp
        }
    }

    /// How many shards a translator's cache has: 1 to 64.
    pub fn shards(&self) -> u32
        ensures shards { result ≡ (setup self.now).shards }
        ensures some { 1 ≤ result }
        ensures most { result ≤ 64 }
    {
        self.desc.shards
    }

    /// How many virtual processors there are: at most 512.
    pub fn vcpus(&self) -> u16
        ensures vcpus { result ≡ vcpu_count (setup self.now) }
        ensures most { result ≤ most_vcpus }
    {
        self.desc.shape.vcpus
    }

    /// The number of the shard that a pair's translations are in, of each translator's cache.
    pub fn shard_of(&self, dev: DeviceId, ev: EventId) -> u32
        ensures number { result ≡ shard_number dev.0 ev.0 (setup self.now).shards }
        ensures stands { (its : ℕ) → its < translator_count (setup self.now)
            → Stands (setup self.now) (part.Shard its result) }
    {
        match self.desc.shards {
            // No division: most machines have so many.
            64 => shard_of(dev, ev, 64),
            shards => shard_of(dev, ev, shards),
        }
    }
}
