//! What a part contains.
ghost use Rattle.std.specs.Prelude.{◌≡◌, IfOk};
ghost use Rattle.its_player.specs.Contents.{content_of};
ghost use Rattle.its_player.specs.Held as spec;

use its_plain::{Cause, Signal};
use its_types::{DeviceId, EventId, Target};
use plain_machine::{ConfLists, PendLists, TrackedMemory, TranslatorLists};
use std::alloc::{AllocError, Global};

/// What a part contains.
#[derive(Drop)]
pub enum Content {
    /// A translator's registers and maps.
    Maps(TranslatorLists),
    /// Guest memory, and what stands beside it.
    Mem(TrackedMemory),
    /// A shard of a translator's cache.
    Shard(xlate_cache::Shard),
    /// A redistributor's LPI registers, with its copy of the configuration.
    Conf(ConfLists),
    /// Its pending LPIs, and whether it takes LPIs.
    Pend(PendLists),
}

impl Content {
    /// Equal content.
    pub fn copy(&self, alloc: Global) -> Result<Content, AllocError>
        ensures { IfOk result (λ c. c ≡ self.now) }
    {
        match self {
            Content::Maps(translator) => Ok(Content::Maps(translator.copy(alloc)?)),
            Content::Mem(memory) => Ok(Content::Mem(memory.copy(alloc)?)),
            Content::Shard(shard) => Ok(Content::Shard(shard.copy(alloc)?)),
            Content::Conf(conf) => Ok(Content::Conf(conf.copy(alloc)?)),
            Content::Pend(pend) => Ok(Content::Pend(pend.copy(alloc)?)),
        }
    }

    /// The target that it has for a pair under a stamp, if it is a shard.
    pub fn target(&self, dev: DeviceId, ev: EventId, stamp: u32) -> Option<Target>
        ensures { result ≡ spec.target_in dev.0 ev.0 stamp (content_of self.now) }
    {
        match self {
            Content::Shard(shard) => shard.find(dev, ev, stamp),
            _ => None,
        }
    }

    /// Whether it is what is pending at a redistributor that tells this of a message for a target.
    pub fn tells(&self, signal: Signal, target: Target) -> bool
        ensures { result ≡ spec.tells signal target (content_of self.now) }
    {
        match self {
            Content::Pend(pend) => is_told(signal, target, pend.accepts()),
            _ => false,
        }
    }

    /// Whether it is a shard that has no entry of a pair.
    pub fn lacks(&self, dev: DeviceId, ev: EventId) -> bool
        ensures { result ≡ spec.lacks dev.0 ev.0 (content_of self.now) }
    {
        match self {
            Content::Shard(shard) => !shard.has_entry_of(dev, ev),
            _ => false,
        }
    }
}

fn is_told(signal: Signal, target: Target, on: bool) -> bool
    ensures { result ≡ spec.is_told signal target on }
{
    match (signal, on) {
        (Signal::Delivered { vcpu, intid }, true) => {
            vcpu.0 == target.vcpu.0 && intid.0 == target.intid.0
        }
        (Signal::Dropped(Cause::LpisOff), false) => true,
        _ => false,
    }
}
