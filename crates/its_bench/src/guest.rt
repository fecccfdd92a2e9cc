//! The guest's side of the command queue, and what it maps.
ghost use Rattle.std.specs.Prelude.{◌≤◌};

use crate::asks::Ask;
use its_command::{Command, EventIdBits, IttAddr, RdBase, encode};
use its_plain::Bytes64;
use its_types::{Addr, DeviceId, EventId, Icid, Intid, Vcpu};
use std::alloc::{AllocError, Global};

const QUEUE: u64 = 0x8002_0000;

// 16 pages of 4 KiB.
const QUEUE_BYTES: u64 = 0x1_0000;

// How many commands there is room for.
const QUEUE_PLACES: u32 = 2048;

// How often the translator is told in one round of the queue, as at most 2,047 commands wait.
const QUARTERS: u32 = 4;

// How many events of one device are mapped at once, by commands in half of the queue's places.
const EVENTS: u32 = 1 << EVENT_BITS;

const EVENT_BITS: u8 = 10;

// Of a device with as many events as the queue has places.
const NEW_BITS: u8 = 11;

// The first of their LPIs.
const FIRST_LPI: u32 = 9216;

// How far a translator's queue and tables stand from those of the one before it.
const APART: u64 = 0x18_0000;

// The interrupt translation table of the device that has one of 512 KiB.
const WIDE_TABLE: u64 = 0x8010_0000;

// That of the others, 4 KiB apart.
const TABLES: u64 = 0x800c_0000;

/// Where the guest writes its next command.
#[derive(Clone, Copy)]
pub struct Queue {
    its: u8,
    place: u64,
}

impl Queue {
    /// A translator's empty queue.
    pub fn new(its: u8) -> Queue {
        Queue { its, place: 0 }
    }

    /// Whose queue it is.
    pub fn its(&self) -> u8 {
        self.its
    }

    /// Writes a command into the queue. There are at most 2,047 that were not taken.
    pub fn write(&mut self, asks: &mut Vec<Ask>, command: &Command) -> Result<(), AllocError> {
        let place = self.place % QUEUE_BYTES;
        asks.push(Ask::Poke {
            addr: Addr(QUEUE + APART * u64::from(self.its) + place),
            bytes: Bytes64::new(&encode(command)),
        })?;
        self.place = (place + 32) % QUEUE_BYTES;
        Ok(())
    }

    /// Tells the translator how far the queue is written.
    pub fn tell(&self, asks: &mut Vec<Ask>) -> Result<(), AllocError> {
        asks.push(Ask::Write {
            its: self.its,
            off: 0x88,
            size: 8,
            value: self.place,
        })?;
        Ok(())
    }

    /// Has the translator carry a command out.
    pub fn run(&mut self, asks: &mut Vec<Ask>, command: &Command) -> Result<(), AllocError> {
        self.write(asks, command)?;
        self.tell(asks)?;
        asks.push(Ask::Step { its: self.its })?;
        Ok(())
    }
}

impl Queue {
    /// Has the translator carry this command out over and over.
    pub fn rounds(self, alloc: Global, command: &Command) -> Result<Rounds, AllocError> {
        self.rounds_of_both(alloc, command, command)
    }

    /// Has the translator carry these commands out by turns, over and over.
    pub fn rounds_of_both(
        mut self,
        alloc: Global,
        first: &Command,
        second: &Command,
    ) -> Result<Rounds, AllocError> {
        let mut rounds = Rounds::none(alloc);
        self.fill(&mut rounds.before, first, second)?;
        self.go_round(&mut rounds.calls)?;
        Ok(rounds)
    }

    /// Has the translator map 1,024 events of a device, and saves over and over.
    pub fn rounds_of_saves(
        mut self,
        alloc: Global,
        dev: DeviceId,
        icid: u16,
    ) -> Result<Rounds, AllocError> {
        let mut rounds = Rounds::of(alloc, Ask::Save)?;
        self.write_events(&mut rounds.before, dev, icid)?;
        self.carry_out(&mut rounds.before, EVENTS)?;
        Ok(rounds)
    }

    /// Has the translator map 1,024 events of a device in a collection, and carry out INVALL of
    /// it over and over.
    pub fn rounds_of_invalls(
        mut self,
        alloc: Global,
        dev: DeviceId,
        icid: u16,
    ) -> Result<Rounds, AllocError> {
        let mut rounds = Rounds::none(alloc);
        self.write_events(&mut rounds.before, dev, icid)?;
        self.carry_out(&mut rounds.before, EVENTS)?;
        let invall = Command::Invall { icid: Icid(icid) };
        self.fill(&mut rounds.before, &invall, &invall)?;
        self.go_round(&mut rounds.calls)?;
        Ok(rounds)
    }

    /// Has the translator map new events of a device over and over. The first of each 2,048
    /// commands maps the device, again from the second time on, which unmaps its events.
    pub fn rounds_of_new(
        mut self,
        alloc: Global,
        dev: DeviceId,
        icid: u16,
    ) -> Result<Rounds, AllocError> {
        let mut rounds = Rounds::none(alloc);
        self.write(&mut rounds.before, &mapd_wide(dev, NEW_BITS))?;
        for ev in 1..QUEUE_PLACES {
            let intid = Intid(FIRST_LPI + ev);
            self.write(&mut rounds.before, &mapti(dev, EventId(ev), intid, icid))?;
        }
        self.go_round(&mut rounds.calls)?;
        Ok(rounds)
    }

    /// Has the translator unmap 1,024 events of a device over and over, and map them between.
    pub fn rounds_of_discards(
        mut self,
        alloc: Global,
        dev: DeviceId,
        icid: u16,
    ) -> Result<Rounds, AllocError> {
        let mut rounds = Rounds::none(alloc);
        self.write_events(&mut rounds.before, dev, icid)?;
        for ev in 0..EVENTS {
            let ev = EventId(ev);
            self.write(&mut rounds.before, &Command::Discard { dev, ev })?;
        }
        self.go_on(&mut rounds.between, EVENTS)?;
        self.go_on(&mut rounds.calls, EVENTS)?;
        Ok(rounds)
    }

    // Has the translator map a device, and writes the commands that map its events.
    fn write_events(
        &mut self,
        asks: &mut Vec<Ask>,
        dev: DeviceId,
        icid: u16,
    ) -> Result<(), AllocError> {
        self.run(asks, &mapd_wide(dev, EVENT_BITS))?;
        for ev in 0..EVENTS {
            let intid = Intid(FIRST_LPI + ev);
            self.write(asks, &mapti(dev, EventId(ev), intid, icid))?;
        }
        Ok(())
    }

    // Writes the commands into all places, by turns.
    fn fill(
        &mut self,
        asks: &mut Vec<Ask>,
        first: &Command,
        second: &Command,
    ) -> Result<(), AllocError> {
        for _ in 0..QUEUE_PLACES / 2 {
            self.write(asks, first)?;
            self.write(asks, second)?;
        }
        Ok(())
    }

    // Has the translator carry out what is in each place.
    fn go_round(&mut self, asks: &mut Vec<Ask>) -> Result<(), AllocError> {
        for _ in 0..QUARTERS {
            self.go_on(asks, QUEUE_PLACES / QUARTERS)?;
        }
        Ok(())
    }

    // Has the translator carry out what is in so many places.
    fn go_on(&mut self, asks: &mut Vec<Ask>, places: u32) -> Result<(), AllocError> {
        self.place = (self.place % QUEUE_BYTES + 32 * u64::from(places)) % QUEUE_BYTES;
        self.carry_out(asks, places)
    }

    // Has the translator carry out what was written last, so many commands.
    fn carry_out(&self, asks: &mut Vec<Ask>, places: u32) -> Result<(), AllocError> {
        self.tell(asks)?;
        for _ in 0..places {
            asks.push(Ask::Step { its: self.its })?;
        }
        Ok(())
    }
}

/// Calls that a thread makes over and over.
#[derive(Drop)]
pub struct Rounds {
    /// What is called once before them.
    pub before: Vec<Ask>,
    /// What is called each time before them, and isn't timed.
    pub between: Vec<Ask>,
    pub calls: Vec<Ask>,
}

impl Rounds {
    /// No calls.
    pub fn none(alloc: Global) -> Rounds {
        Rounds {
            before: Vec::new(alloc),
            between: Vec::new(alloc),
            calls: Vec::new(alloc),
        }
    }

    /// One call.
    pub fn of(alloc: Global, call: Ask) -> Result<Rounds, AllocError> {
        let mut rounds = Rounds::none(alloc);
        rounds.calls.push(call)?;
        Ok(rounds)
    }

    /// Two calls, by turns.
    pub fn of_both(alloc: Global, first: Ask, second: Ask) -> Result<Rounds, AllocError> {
        let mut rounds = Rounds::of(alloc, first)?;
        rounds.calls.push(second)?;
        Ok(rounds)
    }
}

/// Turns a translator on or off.
pub fn enable(asks: &mut Vec<Ask>, its: u8, on: bool) -> Result<(), AllocError> {
    asks.push(Ask::Write {
        its,
        off: 0x0,
        size: 4,
        value: u64::from(on),
    })?;
    Ok(())
}

/// Gives a translator its queue and its tables of devices and collections, and turns it on.
pub fn begin(asks: &mut Vec<Ask>, its: u8) -> Result<(), AllocError> {
    let apart = APART * u64::from(its);
    for (off, value) in [
        (0x80, 0x8000_0000_8002_000f),
        (0x100, 0x8107_0000_8000_0200),
        (0x108, 0x8407_0000_8001_0200),
    ] {
        asks.push(Ask::Write {
            its,
            off,
            size: 8,
            value: value | apart,
        })?;
    }
    enable(asks, its, true)
}

/// Maps a collection to a virtual processor.
pub fn mapc(icid: u16, vcpu: Vcpu) -> Command {
    Command::Mapc {
        icid: Icid(icid),
        target: RdBase::new(u64::from(vcpu.0)),
        valid: true,
    }
}

/// Maps a device whose EventIDs have so many bits to the large table.
pub fn mapd_wide(dev: DeviceId, bits: u8) -> Command
    requires least { 1 ≤ bits }
    requires most { bits ≤ 16 }
{
    Command::Mapd {
        dev,
        bits: EventIdBits::new(bits),
        itt: IttAddr::new(WIDE_TABLE),
        valid: true,
    }
}

/// Maps a device of a translator with 16 events to a table of its own, which has this number.
pub fn mapd(its: u8, dev: DeviceId, table: u16) -> Command {
    Command::Mapd {
        dev,
        bits: EventIdBits::new(4),
        itt: IttAddr::new(TABLES + 0x4000 * u64::from(its) + 0x1000 * u64::from(table)),
        valid: true,
    }
}

/// Maps an event.
pub fn mapti(dev: DeviceId, ev: EventId, intid: Intid, icid: u16) -> Command {
    Command::Mapti {
        dev,
        ev,
        intid,
        icid: Icid(icid),
    }
}
