//! Passes that race on the word.
ghost use Rattle.std.specs.Prelude.{IfOk};
ghost use Rattle.its_plain.specs.Sound.{IsSound};

use crate::descriptions::{LIMITS, desc};
use its_command::Op;
use its_plain::{Bytes64, Call, Cause, Reply, Signal, StepReply};
use its_player::World;
use its_steps::{Commit, Event, Kind, ShardChange};
use its_types::{Addr, DeviceId, EventId, Intid, Part, Target, Vcpu, Word};
use plain_machine::State;
use std::alloc::{AllocError, Global};
use std::test::Fail;

// What passes do, or what is then seen. A call is made by a pass with the parts that it names.
enum Act {
    // A value of so many bytes to the register at an offset, with the maps.
    Write(u32, u32, u8, u64),
    // 32 bytes put into memory.
    Poke(u32, u64, [u8; 32]),
    // A command that runs, and the stamp that it leaves.
    Run(u32, &'static [Part], u32, Op),
    // A signal of event 3 of device 16.
    Signal(u32, &'static [Part], u32, Reply, ShardChange),
    Step(u32, Kind),
    Take(u32, &'static [Part]),
    Give(u32, &'static [Part]),
    // The word's stamp and place. The history is as long as that place.
    IsAt(u32, u64),
    // The word that a pass read last.
    Last(u32, Option<Word>),
}

fn start(alloc: Global) -> Result<State, Fail>
    ensures { IfOk result IsSound }
{
    let desc = desc(alloc, None, &[])?;
    Ok(State::new(alloc, &desc)?)
}

// Two steps of a pass, one after the other.
fn both(
    alloc: Global,
    world: World,
    pass: u32,
    first: Kind,
    second: Kind,
) -> Result<World, AllocError> {
    let events = [Event { pass, kind: first }, Event { pass, kind: second }];
    world.run(alloc, &events)
}

fn take(alloc: Global, world: World, pass: u32, parts: &[Part]) -> Result<World, AllocError> {
    let mut world = world;
    for part in parts {
        world = both(alloc, world, pass, Kind::Try(*part), Kind::TakeOut(*part))?;
    }
    Ok(world)
}

fn give(alloc: Global, world: World, pass: u32, parts: &[Part]) -> Result<World, AllocError> {
    let mut world = world;
    for part in parts {
        world = both(
            alloc,
            world,
            pass,
            Kind::PutHome(*part),
            Kind::Release(*part),
        )?;
    }
    Ok(world)
}

fn step(alloc: Global, world: World, pass: u32, kind: Kind) -> Result<World, AllocError> {
    world.run(alloc, &[Event { pass, kind }])
}

// A pass makes a call with these parts. The word is the expected one but for its stamp afterwards.
fn make(
    alloc: Global,
    world: World,
    pass: u32,
    parts: &[Part],
    commit: Commit,
) -> Result<World, AllocError> {
    let world = step(alloc, world, pass, Kind::Load)?;
    let world = take(alloc, world, pass, parts)?;
    let expected = world.word();
    let commit = Kind::Commit(Commit { expected, ..commit });
    let world = step(alloc, world, pass, commit)?;
    give(alloc, world, pass, parts)
}

fn commit(stamp: u32, call: Call, reply: Reply, change: ShardChange) -> Commit {
    Commit {
        expected: Word { stamp: 0, place: 0 },
        stamp,
        call,
        reply,
        change,
    }
}

fn write(off: u32, size: u8, value: u64) -> Commit {
    let call = Call::WriteReg {
        its: 0,
        off,
        size,
        value,
    };
    commit(0, call, Reply::Ok, ShardChange::Keep)
}

fn poke(addr: u64, bytes: [u8; 32]) -> Commit {
    let call = Call::Poke {
        addr: Addr(addr),
        bytes: Bytes64::new(&bytes),
    };
    commit(0, call, Reply::Ok, ShardChange::Keep)
}

fn run(stamp: u32, op: Op) -> Commit {
    let reply = Reply::Step(StepReply::Ran(op));
    commit(stamp, Call::Step { its: 0 }, reply, ShardChange::Keep)
}

fn does(alloc: Global, world: World, act: &Act) -> Result<World, AllocError> {
    match act {
        Act::Write(pass, off, size, value) => {
            make(alloc, world, *pass, &[MAPS], write(*off, *size, *value))
        }
        Act::Poke(pass, addr, bytes) => {
            make(alloc, world, *pass, &[Part::Mem], poke(*addr, *bytes))
        }
        Act::Run(pass, parts, stamp, op) => make(alloc, world, *pass, parts, run(*stamp, *op)),
        Act::Signal(pass, parts, stamp, reply, change) => {
            let signal = commit(*stamp, SIGNAL, *reply, *change);
            make(alloc, world, *pass, parts, signal)
        }
        Act::Step(pass, kind) => step(alloc, world, *pass, *kind),
        Act::Take(pass, parts) => take(alloc, world, *pass, parts),
        Act::Give(pass, parts) => give(alloc, world, *pass, parts),
        Act::IsAt(..) | Act::Last(..) => Ok(world),
    }
}

fn is_seen(world: &World, act: &Act) -> bool {
    match act {
        Act::IsAt(stamp, place) => {
            let word = world.word();
            let length = world.history().len() as u64;
            word.stamp == *stamp && word.place == *place && length == *place
        }
        Act::Last(pass, word) => world.last(*pass) == *word,
        _ => true,
    }
}

// Four passes, tables, a queue and three commands, a signal that fills the cache, and a command to
// come.
fn world(alloc: Global) -> Result<World, Fail> {
    let mut world = World::new(alloc, start(alloc)?, LIMITS, 4)?;
    for _ in 0..4u32 {
        world = step(alloc, world, 0, Kind::Split)?;
    }
    for act in &PREPARED {
        world = does(alloc, world, act)?;
    }
    Ok(world)
}

// How many of the acts that world does, or shows, as they say, up to the first that it doesn't.
fn play(alloc: Global, acts: &[Act]) -> Result<usize, Fail> {
    let mut world = world(alloc)?;
    for (at, act) in acts.iter().enumerate() {
        world = does(alloc, world, act)?;
        if !is_seen(&world, act) {
            return Ok(at);
        }
    }
    Ok(acts.len())
}

// ---- rows

const MAPS: Part = Part::Maps(0);

// What MAPTI takes.
const MAPPING: [Part; 6] = [
    MAPS,
    Part::Mem,
    Part::Conf(Vcpu(0)),
    Part::Conf(Vcpu(1)),
    Part::Conf(Vcpu(2)),
    Part::Conf(Vcpu(3)),
];

const PENDING: [Part; 4] = [
    Part::Pend(Vcpu(0)),
    Part::Pend(Vcpu(1)),
    Part::Pend(Vcpu(2)),
    Part::Pend(Vcpu(3)),
];

// What a signal takes that the cache has.
const CACHED: [Part; 2] = [Part::Shard(0, 3), Part::Pend(Vcpu(2))];

// The same, with the other part of the redistributor.
const MISTAKEN: [Part; 2] = [Part::Shard(0, 3), Part::Conf(Vcpu(2))];

const MAPD: [u8; 32] = [
    8, 0, 0, 0, 16, 0, 0, 0, 4, 0, 0, 0, 0, 0, 0, 0, 0, 0, 12, 128, 0, 0, 0, 128, 0, 0, 0, 0, 0, 0,
    0, 0,
];

const MAPC: [u8; 32] = [
    9, 0, 0, 0, 0, 0, 0, 0, 0, 0, 0, 0, 0, 0, 0, 0, 1, 0, 2, 0, 0, 0, 0, 128, 0, 0, 0, 0, 0, 0, 0,
    0,
];

const MAPTI: [u8; 32] = [
    10, 0, 0, 0, 16, 0, 0, 0, 3, 0, 0, 0, 8, 32, 0, 0, 1, 0, 0, 0, 0, 0, 0, 0, 0, 0, 0, 0, 0, 0, 0,
    0,
];

const UNMAPD: [u8; 32] = [
    8, 0, 0, 0, 16, 0, 0, 0, 0, 0, 0, 0, 0, 0, 0, 0, 0, 0, 0, 0, 0, 0, 0, 0, 0, 0, 0, 0, 0, 0, 0, 0,
];

const SIGNAL: Call = Call::Signal {
    its: 0,
    dev: DeviceId(16),
    ev: EventId(3),
};

const DELIVERED: Reply = Reply::Signal(Signal::Delivered {
    vcpu: Vcpu(2),
    intid: Intid(8200),
});

const DROPPED: Reply = Reply::Signal(Signal::Dropped(Cause::NoDevice));

const FILL: ShardChange = ShardChange::Fill(
    DeviceId(16),
    EventId(3),
    Target {
        vcpu: Vcpu(2),
        intid: Intid(8200),
    },
);

// The calls of places 0 to 13. MAPTI runs while another pass has all that is pending.
const PREPARED: [Act; 16] = [
    Act::Write(1, 0x100, 8, 0x8107_0000_8000_0200),
    Act::Write(1, 0x108, 8, 0x8407_0000_8001_0200),
    Act::Write(1, 0x80, 8, 0x8000_0000_8002_0000),
    Act::Write(1, 0, 4, 1),
    Act::Poke(1, 0x8002_0000, MAPD),
    Act::Poke(1, 0x8002_0020, MAPC),
    Act::Poke(1, 0x8002_0040, MAPTI),
    Act::Write(1, 0x88, 8, 0x60),
    Act::Run(1, &[MAPS, Part::Mem], 0, Op::Mapd),
    Act::Run(1, &[MAPS, Part::Mem], 0, Op::Mapc),
    Act::Take(2, &PENDING),
    Act::Run(1, &MAPPING, 0, Op::Mapti),
    Act::Give(2, &PENDING),
    Act::Signal(
        2,
        &[MAPS, Part::Shard(0, 3), Part::Pend(Vcpu(2))],
        0,
        DELIVERED,
        FILL,
    ),
    Act::Poke(2, 0x8002_0060, UNMAPD),
    Act::Write(2, 0x88, 8, 0x80),
];

// A cached signal is overtaken by the command that unmaps its device.
const OVERTAKEN: [Act; 11] = [
    Act::IsAt(0, 14),
    Act::Step(4, Kind::Load),
    Act::Take(4, &CACHED),
    Act::Run(3, &[MAPS, Part::Mem], 1, Op::Mapd),
    Act::IsAt(1, 15),
    Act::Step(
        4,
        Kind::Commit(Commit {
            expected: Word {
                stamp: 0,
                place: 14,
            },
            stamp: 0,
            call: SIGNAL,
            reply: DELIVERED,
            change: ShardChange::Keep,
        }),
    ),
    Act::IsAt(1, 15),
    Act::Last(
        4,
        Some(Word {
            stamp: 1,
            place: 15,
        }),
    ),
    Act::Give(4, &CACHED),
    Act::Signal(4, &[MAPS], 1, DROPPED, ShardChange::Keep),
    Act::IsAt(1, 16),
];

#[test]
fn a_signal_is_overtaken(rt: HostRuntime) -> Result<(), Fail> {
    assert_eq!(rt; play(rt.alloc(), &OVERTAKEN)?, 11);
    Ok(())
}

// Without the maps no other reply is allowed, and with another's part no commit.
const NOT_ALLOWED: [Act; 8] = [
    Act::Signal(4, &[Part::Mem], 0, DELIVERED, ShardChange::Keep),
    Act::IsAt(0, 14),
    Act::Signal(4, &[MAPS], 0, DROPPED, ShardChange::Keep),
    Act::IsAt(0, 14),
    Act::Signal(4, &MISTAKEN, 0, DELIVERED, ShardChange::Keep),
    Act::IsAt(0, 14),
    Act::Step(9, Kind::Load),
    Act::Last(9, None),
];

#[test]
fn what_is_not_allowed_changes_nothing(rt: HostRuntime) -> Result<(), Fail> {
    assert_eq!(rt; play(rt.alloc(), &NOT_ALLOWED)?, 8);
    Ok(())
}
