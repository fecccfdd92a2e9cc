//! Shards of the cache.
use its_types::{DeviceId, EventId, Intid, Target, Vcpu};
use std::test::Fail;
use xlate_cache::{Entry, Shard, shard_of};

const DEV: DeviceId = DeviceId(16);

fn target(ev: u32) -> Target {
    Target {
        vcpu: Vcpu(1),
        intid: Intid(ev),
    }
}

fn fill(shard: &mut Shard, events: &[u32], stamp: u32) {
    for ev in events {
        shard.fill(DEV, EventId(*ev), stamp, target(*ev));
    }
}

// How many of the events are found. None may have the target of another.
fn found(shard: &Shard, events: &[u32], stamp: u32) -> Option<usize> {
    let mut found = 0usize;
    for ev in events {
        if let Some(at) = shard.find(DEV, EventId(*ev), stamp) {
            if at != target(*ev) {
                return None;
            }
            found = found.saturating_add(1);
        }
    }
    Some(found)
}

// With event 252 of device 16 these share set 55.
const FOUR: [u32; 4] = [0, 63, 126, 189];

#[test]
fn a_fifth_entry_of_a_set_takes_one(rt: HostRuntime) -> Result<(), Fail> {
    let mut shard = Shard::new(rt.alloc())?;
    fill(&mut shard, &FOUR, 0);
    let four = [found(&shard, &FOUR, 0), found(&shard, &FOUR, 1)];
    fill(&mut shard, &[252], 0);
    let five = [found(&shard, &[252], 0), found(&shard, &FOUR, 0)];
    assert_eq!(rt; (four, five), ([Some(4), Some(0)], [Some(1), Some(3)]));
    Ok(())
}

#[test]
fn drops(rt: HostRuntime) -> Result<(), Fail> {
    let mut shard = Shard::new(rt.alloc())?;
    fill(&mut shard, &[3, 4], 7);
    shard.drop_event(DEV, EventId(3));
    let left = [found(&shard, &[3], 7), found(&shard, &[4], 7)];
    shard.empty();
    let emptied = found(&shard, &[4], 7);
    assert_eq!(rt; (left, emptied), ([Some(0), Some(1)], Some(0)));
    Ok(())
}

#[test]
fn shards_of_events(rt: HostRuntime) {
    assert_eq!(rt; shard_of(DEV, EventId(4), 16), 4);
}

#[test]
fn a_copy_has_entries_of_its_own(rt: HostRuntime) -> Result<(), Fail> {
    let mut shard = Shard::new(rt.alloc())?;
    fill(&mut shard, &[3], 7);
    let copy = shard.copy(rt.alloc())?;
    fill(&mut shard, &[4], 7);
    let entry = Some(Entry {
        dev: DEV,
        ev: EventId(3),
        stamp: 7,
        target: target(3),
    });
    let four = EventId(4);
    let has = [shard.has_entry_of(DEV, four), copy.has_entry_of(DEV, four)];
    let only = [
        shard.holds_only(entry),
        copy.holds_only(entry),
        copy.holds_only(None),
    ];
    let ways = copy.ways().len();
    assert_eq!(rt;
        (has, only, ways),
        ([true, false], [false, true, false], 256)
    );
    Ok(())
}
