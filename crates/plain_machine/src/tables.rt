//! Maps as lists of entries whose keys rise.
ghost use Rattle.std.specs.Prelude.{◌≡◌, ◌==◌, OnOk, OnErr, IfOk, not, map, filter};
ghost use Rattle.std.specs.Ordering.{nat_cmp};
ghost use Rattle.std.specs.FinMap.{find, put};
ghost use Rattle.std.specs.FinMap.Entries.{where_key};
ghost use Rattle.its_types.specs.Maps.{pair_cmp, is_pair};

use crate::mapped_entries::MappedEvent;
use its_types::Icid;
use std::alloc::{AllocError, Global};
use std::cmp::Ordering;

/// The value of a key.
pub fn find<K: Ord + Copy, V: Copy>(entries: &[(K, V)], key: K) -> Option<V>
    ensures { result ≡ find K.cmp key entries.now }
{
    for &(k, value) in entries {
        if key.cmp(&k) == Ordering::Equal {
            return Some(value);
        }
    }
    None
}

/// Sets a key's value.
pub fn put<K: Ord + Copy, V: Copy>(
    entries: &mut Vec<(K, V)>,
    key: K,
    value: V,
) -> Result<(), AllocError>
    ensures ok { OnOk result (entries.new.items ≡ put K.cmp key value entries.old.items) }
    ensures err { OnErr result (entries.new.items ≡ entries.old.items) }
{
    for at in 0..entries.len() {
        let k = entries[at].0;
        match key.cmp(&k) {
            Ordering::Less => {
                entries.insert(at, (key, value))?;
                return Ok(());
            }
            Ordering::Equal => {
                entries[at] = (k, value);
                return Ok(());
            }
            Ordering::Greater => {}
        }
    }
    entries.push((key, value))?;
    Ok(())
}

/// Takes a device away.
pub fn remove_device<V: Drop>(entries: &mut Vec<(u32, V)>, dev: u32)
    ensures { entries.new.items ≡ where_key nat_cmp (λ k. not (k == dev)) entries.old.items }
{
    entries.retain(|entry| entry.0 != dev);
}

/// Takes a collection away.
pub fn remove_collection<V: Drop>(entries: &mut Vec<(u16, V)>, icid: u16)
    ensures { entries.new.items ≡ where_key nat_cmp (λ k. not (k == icid)) entries.old.items }
{
    entries.retain(|entry| entry.0 != icid);
}

/// Takes all events of a device away.
pub fn remove_events<V: Drop>(entries: &mut Vec<((u32, u32), V)>, dev: u32)
    ensures { entries.new.items ≡ where_key pair_cmp (λ k. not (k.0 == dev)) entries.old.items }
{
    entries.retain(|entry| entry.0.0 != dev);
}

/// Takes an event away.
pub fn remove_event<V: Drop>(entries: &mut Vec<((u32, u32), V)>, dev: u32, ev: u32)
    ensures { entries.new.items ≡ where_key pair_cmp (λ k. not (is_pair dev ev k))
        entries.old.items }
{
    entries.retain(|entry| !(entry.0.0 == dev && entry.0.1 == ev));
}

/// The INTIDs of the events of a collection.
pub fn intids(
    alloc: Global,
    entries: &[((u32, u32), MappedEvent)],
    icid: Icid,
) -> Result<Vec<u32>, AllocError>
    ensures { IfOk result (λ v.
        v.items ≡ map (λ e. e.1.intid.0) (filter (λ e. e.1.icid.0 == icid.0) entries.now)) }
{
    entries
        .iter()
        .filter(|entry| entry.1.get().icid.0 == icid.0)
        .map(|entry| entry.1.get().intid.0)
        .collect(alloc)
}
