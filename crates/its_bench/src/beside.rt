//! What a thread does all the time beside threads that signal.

use crate::asks::Ask;
use crate::guest::{Queue, Rounds, mapc, mapti};
use crate::signals::{map_device, map_devices};
use its_command::Command;
use its_types::{DeviceId, EventId, Icid, Intid, Vcpu};
use std::alloc::{AllocError, Global};

/// What the other thread does, at the last virtual processor. Of what a signal to another one
/// needs, only a save takes anything.
#[derive(Clone, Copy)]
pub enum Beside {
    /// There is no other thread.
    Nothing,
    /// INT of an event.
    Int,
    /// INV of an event.
    Inv,
    /// MAPTI of an event that is mapped.
    Mapti,
    /// MAPTI of events that aren't mapped, and one MAPD in 2,048 commands.
    MaptiNew,
    /// INVALL of a collection with 16 events.
    Invall,
    /// INVALL of a collection with 1,024 events, on a machine of so many virtual processors.
    InvallMany(u16),
    /// Acknowledgements, with no LPI pending.
    Take,
    /// Saves.
    Save,
    /// Saves with 1,024 events more.
    SaveMany,
}

/// All of them, with their names.
pub const BESIDE: [(&str, Beside); 11] = [
    ("beside-nothing", Beside::Nothing),
    ("beside-int", Beside::Int),
    ("beside-inv", Beside::Inv),
    ("beside-mapti", Beside::Mapti),
    ("beside-mapti-new", Beside::MaptiNew),
    ("beside-invall", Beside::Invall),
    ("beside-invall-1024-of-4", Beside::InvallMany(4)),
    ("beside-invall-1024-of-16", Beside::InvallMany(16)),
    ("beside-take", Beside::Take),
    ("beside-save", Beside::Save),
    ("beside-save-1024", Beside::SaveMany),
];

/// How many threads signal, and what their rows' names end in. Each has a device and a virtual
/// processor of its own.
pub const SIGNALLING: [(usize, &str); 3] = [(1, ""), (2, "-2"), (4, "-4")];

// One for each thread that signals, and one for the other.
const VCPUS: u16 = 5;

// The other thread's device, and its number, which its collection has too.
const OWN: DeviceId = DeviceId(80);

const OWN_NUMBER: u16 = 4;

// Its first event, and the LPI of that.
const EV: EventId = EventId(0);

const INTID: Intid = Intid(8448);

// Its device with many events, and their collection.
const WIDE: DeviceId = DeviceId(96);

const WIDE_ICID: u16 = 5;

impl Beside {
    /// How many virtual processors the machine has.
    pub fn vcpus(self) -> u16 {
        match self {
            Beside::InvallMany(vcpus) => vcpus,
            _ => VCPUS,
        }
    }

    /// Whether so many threads that signal leave the last virtual processor to the other one.
    pub fn is_apart(self, threads: usize) -> bool {
        threads < usize::from(self.vcpus())
    }

    /// What maps the devices and is needed besides, and what the other thread calls.
    pub fn prepared(self, alloc: Global) -> Result<Rounds, AllocError> {
        let (mut asks, mut queue) = map_devices(alloc, 0)?;
        let last = Vcpu(self.vcpus().saturating_sub(1));
        queue.run(&mut asks, &mapc(OWN_NUMBER, last))?;
        queue.run(&mut asks, &mapc(WIDE_ICID, last))?;
        map_device(&mut asks, &mut queue, 0, OWN, OWN_NUMBER)?;
        let mut rounds = self.rounds(alloc, queue, last)?;
        for ask in rounds.before.as_slice() {
            asks.push(*ask)?;
        }
        rounds.before = asks;
        Ok(rounds)
    }

    // What the other thread calls.
    fn rounds(self, alloc: Global, queue: Queue, last: Vcpu) -> Result<Rounds, AllocError> {
        let (dev, ev, icid) = (OWN, EV, Icid(OWN_NUMBER));
        match self {
            Beside::Nothing => Ok(Rounds::none(alloc)),
            Beside::Int => queue.rounds(alloc, &Command::Int { dev, ev }),
            Beside::Inv => queue.rounds(alloc, &Command::Inv { dev, ev }),
            Beside::Mapti => queue.rounds(alloc, &mapti(dev, ev, INTID, OWN_NUMBER)),
            Beside::MaptiNew => queue.rounds_of_new(alloc, WIDE, WIDE_ICID),
            Beside::Invall => queue.rounds(alloc, &Command::Invall { icid }),
            Beside::InvallMany(_) => queue.rounds_of_invalls(alloc, WIDE, WIDE_ICID),
            Beside::Take => Rounds::of(alloc, Ask::Take(last)),
            Beside::Save => Rounds::of(alloc, Ask::Save),
            Beside::SaveMany => queue.rounds_of_saves(alloc, WIDE, WIDE_ICID),
        }
    }
}
