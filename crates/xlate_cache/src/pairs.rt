//! Where a pair's translations are cached.
ghost use Rattle.std.specs.Prelude.{◌≡◌, ◌≤◌, ◌*◌};
ghost use Rattle.xlate_cache.specs.Pairs as spec;
ghost use Rattle.xlate_cache.specs.Ways as ways;

use its_types::{DeviceId, EventId};

fn pair_hash(dev: DeviceId, ev: EventId) -> u32
    ensures { result ≡ spec.pair_hash dev.0 ev.0 }
{
    let DeviceId(dev) = dev;
    let EventId(ev) = ev;
    dev.wrapping_mul(31).wrapping_add(ev)
}

/// The shard that has a pair's translations, where there are so many.
pub fn shard_of(dev: DeviceId, ev: EventId, shards: u32) -> u32
    requires { 1 ≤ shards }
    ensures { result ≡ spec.shard_number dev.0 ev.0 shards }
{
    pair_hash(dev, ev) % shards
}

/// The first way of a pair's set.
pub fn first_way(dev: DeviceId, ev: EventId) -> usize
    ensures { result ≡ ways.first_way dev.0 ev.0 }
{
    let hash = u64::from(pair_hash(dev, ev));
    4 * ((hash + hash / 64) % 64) as usize
}
