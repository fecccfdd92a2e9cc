//! What came of a call: what the machine answered of what the call concerns, before and after it.
ghost use Rattle.std.specs.Prelude.{◌≡◌};
ghost use Rattle.its_explain.specs.Facts as spec;

use call_facts::{IdleCause, LpiState, PairState, Waiting, WriteRule};
use its_command::Command;
use its_types::{Addr, Bases, Device, DeviceId, EventId, Icid, Vcpu};

/// A message, or a command that names an event.
#[derive(Clone, Copy)]
pub struct EventFact {
    /// The number of the translator.
    pub its: u8,
    /// The device.
    pub dev: DeviceId,
    /// Its event.
    pub ev: EventId,
    /// What the maps said of both before.
    pub before: PairState,
    /// And after.
    pub after: PairState,
    /// How the event's LPI stood before, where it then went.
    pub was: Option<LpiState>,
    /// How it stands after, where it goes; where it goes nowhere any more, where it went.
    pub is: Option<LpiState>,
}

/// A command that maps or unmaps a device.
#[derive(Clone, Copy)]
pub struct DeviceFact {
    /// The number of the translator.
    pub its: u8,
    /// The device.
    pub dev: DeviceId,
    /// What it was mapped to.
    pub before: Option<Device>,
    /// What it is mapped to.
    pub after: Option<Device>,
    /// How many events it had.
    pub events: u64,
}

/// A command that maps or unmaps a collection.
#[derive(Clone, Copy)]
pub struct CollectionFact {
    /// The number of the translator.
    pub its: u8,
    /// The collection.
    pub icid: Icid,
    /// Where it went.
    pub before: Option<Vcpu>,
    /// Where it goes.
    pub after: Option<Vcpu>,
    /// How many LPIs were pending where it went.
    pub had: usize,
    /// How many are pending there after.
    pub has: usize,
}

/// How much a translator has mapped.
#[derive(Clone, Copy, PartialEq, Eq)]
pub struct Counts {
    /// Devices.
    pub devices: u64,
    /// Their events.
    pub events: u64,
    /// Collections.
    pub collections: u64,
}

impl Counts {
    /// Nothing.
    pub const NONE: Counts = Counts {
        devices: 0,
        events: 0,
        collections: 0,
    };
}

/// A write of a translator's register.
#[derive(Clone, Copy)]
pub struct RegisterFact {
    /// What becomes of such a write; none where there is no such translator.
    pub rule: Option<WriteRule>,
    /// What the register read before.
    pub before: u64,
    /// And after.
    pub after: u64,
    /// What was mapped before.
    pub had: Counts,
    /// And after.
    pub has: Counts,
}

/// A write of an LPI register.
#[derive(Clone, Copy)]
pub struct LpiRegisterFact {
    /// The registers before.
    pub before: Option<Bases>,
    /// And after.
    pub after: Option<Bases>,
    /// What the register reads after.
    pub value: u64,
    /// How many LPIs were pending before.
    pub had: usize,
    /// How many are pending after.
    pub has: usize,
}

/// What came of a call, beside its reply.
#[derive(Clone, Copy)]
pub enum Fact {
    /// Nothing that the machine is asked for.
    None,
    /// A message, or a command that names an event.
    Event(EventFact),
    /// A command that maps or unmaps a device.
    Device(DeviceFact),
    /// A command that maps or unmaps a collection.
    Collection(CollectionFact),
    /// How many LPIs were pending at the processor from which all go to another.
    Moved(usize),
    /// Why no command was taken, and where the next one would stand in the queue.
    Idle(Option<IdleCause>, u64),
    /// What waited at the processor that acknowledges.
    Waiting(Waiting),
    /// How the LPI stood that is claimed.
    Claimed(Option<LpiState>),
    /// What the 64-bit register reads of which a part is read, or the 32-bit one.
    Read(u64),
    /// A write of a translator's register.
    Written(RegisterFact),
    /// A write of an LPI register.
    LpiWritten(LpiRegisterFact),
}

impl Fact {
    /// That of a message, or of a command that names an event.
    pub fn event(&self) -> Option<EventFact>
        ensures { result ≡ spec.event_fact self.now }
    {
        match *self {
            Fact::Event(fact) => Some(fact),
            _ => None,
        }
    }

    /// What waited where an LPI was to be acknowledged.
    pub fn waiting(&self) -> Option<Waiting>
        ensures { result ≡ spec.waiting_fact self.now }
    {
        match *self {
            Fact::Waiting(waiting) => Some(waiting),
            _ => None,
        }
    }

    /// How an LPI stood that was claimed, if its number was an LPI's.
    pub fn claimed(&self) -> Option<LpiState>
        ensures { result ≡ spec.claimed_fact self.now }
    {
        match *self {
            Fact::Claimed(state) => state,
            _ => None,
        }
    }
}

/// The command that a step took.
#[derive(Clone, Copy)]
pub struct Taken {
    /// The number of the translator.
    pub its: u8,
    /// Where it stands.
    pub addr: Addr,
    /// What it is.
    pub command: Command,
}
