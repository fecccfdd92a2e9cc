//! Calls and their replies.
use crate::bytes64::Bytes64;
use crate::fault::SaveFault;
use its_command::Op;
use its_types::{Addr, DeviceId, EventId, Intid, Vcpu};

/// What a device, a virtual processor or the guest asks of the machine. `its` is the number of a
/// translator.
#[derive(Clone, Copy, Debug, PartialEq, Eq)]
pub enum Call {
    /// A device's message.
    Signal {
        its: u8,
        dev: DeviceId,
        ev: EventId,
    },
    /// A virtual processor acknowledges an LPI.
    Take(Vcpu),
    /// The LPI that it would acknowledge.
    Show(Vcpu),
    /// The LPI that comes first by priority, of those whose priority is below the mask.
    Best {
        vcpu: Vcpu,
        mask: u8,
    },
    /// A virtual processor acknowledges this LPI, if it is pending and enabled.
    Claim {
        vcpu: Vcpu,
        intid: Intid,
    },
    /// A write of guest memory.
    Poke {
        addr: Addr,
        bytes: Bytes64,
    },
    /// A read of 1 to 64 bytes of guest memory; any other count is answered `Outside`.
    Peek {
        addr: Addr,
        count: u8,
    },
    /// A read of 4 or 8 bytes of a translator's registers.
    ReadReg {
        its: u8,
        off: u32,
        size: u8,
    },
    /// A write of 4 or 8 bytes of a translator's registers.
    WriteReg {
        its: u8,
        off: u32,
        size: u8,
        value: u64,
    },
    /// A read of 4 or 8 bytes of the LPI registers of a virtual processor's redistributor.
    ReadGicr {
        vcpu: Vcpu,
        off: u32,
        size: u8,
    },
    /// A write of 4 or 8 bytes of them.
    WriteGicr {
        vcpu: Vcpu,
        off: u32,
        size: u8,
        value: u64,
    },
    /// A translator takes its next command.
    Step {
        its: u8,
    },
    /// The tables of every translator and redistributor are written to guest memory.
    Save,
    /// The pages of guest memory that are dirty go to the second memory.
    Copy,
    /// A device's write of guest memory by address, which may be a message.
    Dma {
        /// The number of the requester.
        req: u32,
        /// Where the first byte goes.
        addr: Addr,
        /// 1 to 64 bytes.
        bytes: Bytes64,
        /// What it is by the description.
        route: Route,
    },
}

/// What a device's write by address is, by the description of the machine.
#[derive(Clone, Copy, Debug, PartialEq, Eq)]
pub enum Route {
    /// A message to a translator.
    Signal { its: u8, dev: DeviceId, ev: EventId },
    /// A write of guest memory.
    Poke,
    /// A message of a requester that is no device.
    NoRequester,
    /// It meets a frame of a translator, and is no message.
    Frame,
}

/// Why a signal went nowhere: the first that applies.
#[derive(Clone, Copy, Debug, PartialEq, Eq)]
pub enum Cause {
    /// The translator is not enabled.
    Disabled,
    /// The device is not mapped.
    NoDevice,
    /// The event is not mapped.
    NoEvent,
    /// The event's collection is not mapped.
    NoCollection,
    /// The target's LPIs are off.
    LpisOff,
}

/// Where a signal went.
#[derive(Clone, Copy, Debug, PartialEq, Eq)]
pub enum Signal {
    /// The LPI is pending at the processor.
    Delivered { vcpu: Vcpu, intid: Intid },
    /// Nothing changed.
    Dropped(Cause),
}

/// An LPI that a virtual processor acknowledges, or would.
#[derive(Clone, Copy, Debug, PartialEq, Eq)]
pub enum Ack {
    /// It is pending and enabled. The priority has bits 1 and 0 clear.
    Some { intid: Intid, priority: u8 },
    /// No LPI that was asked for is pending and enabled.
    None,
}

/// Why a command was refused: the first that applies.
#[derive(Clone, Copy, Debug, PartialEq, Eq)]
pub enum Reason {
    /// The opcode is none of a translator's twelve.
    UnknownCommand,
    /// A MAPD whose device has no place in the device table, or with V = 0 one whose DeviceID has
    /// too many bits.
    DeviceRange,
    /// A MAPD with more than 16 EventID bits.
    SizeRange,
    /// There is no processor of this number.
    TargetRange,
    /// The collection has no place in the collection table.
    CollectionRange,
    /// The device isn't mapped.
    NoDevice,
    /// The EventID has more bits than its device was mapped with.
    EventRange,
    /// The INTID isn't that of an LPI.
    IntidRange,
    /// The event isn't mapped.
    NoEvent,
    /// The collection isn't mapped.
    NoCollection,
    /// LPIs are off at a processor that the command needs.
    LpisOff,
}

/// What became of a command.
#[derive(Clone, Copy, Debug, PartialEq, Eq)]
pub enum CmdReply {
    /// The command had its effect.
    Ran(Op),
    /// The command had none.
    Refused(Op, Reason),
}

/// What became of a step.
#[derive(Clone, Copy, Debug, PartialEq, Eq)]
pub enum StepReply {
    /// The translator is not enabled, or its queue is empty.
    Idle,
    /// The command had its effect, and the queue goes on.
    Ran(Op),
    /// The command had none, and the queue goes on.
    Refused(Op, Reason),
    /// The next command's bytes don't lie in one window.
    QueueFault(Addr),
}

/// What a call is answered.
#[derive(Clone, Copy, Debug, PartialEq, Eq)]
pub enum Reply {
    /// Of a signal.
    Signal(Signal),
    /// Of a `Take`, a `Show`, a `Best` or a `Claim`.
    Ack(Ack),
    /// A write that was taken, or ignored.
    Ok,
    /// The bytes don't lie in one window.
    Outside,
    /// What a `Peek` read.
    Bytes(Bytes64),
    /// What a register read. One of 4 bytes is in the low 32 bits.
    Value(u64),
    /// Of a step.
    Step(StepReply),
    /// All tables are written.
    Saved,
    /// Nothing was written.
    SaveFault(SaveFault),
    /// So many pages went to the second memory.
    Copied(u64),
    /// Of a message by address whose requester is no device.
    NoRequester,
}

/// A call of a pass, and what it was answered.
#[derive(Clone, Copy, Debug, PartialEq, Eq)]
pub struct Entry {
    /// The number of the pass that made the call.
    pub pass: u32,
    /// What it asked.
    pub call: Call,
    /// What the translator answered.
    pub reply: Reply,
}
