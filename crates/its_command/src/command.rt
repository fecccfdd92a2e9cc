//! The commands of the queue.
use crate::fields::{EventIdBits, IttAddr, RdBase, UnknownOp};
use its_types::{DeviceId, EventId, Icid, Intid};

/// A command of the queue (IHI 0069, section 5.3).
#[derive(Clone, Copy, Debug, PartialEq, Eq)]
pub enum Command {
    /// Gives an event to another collection.
    Movi {
        dev: DeviceId,
        ev: EventId,
        icid: Icid,
    },
    /// Makes an event's interrupt pending.
    Int {
        dev: DeviceId,
        ev: EventId,
    },
    /// Makes an event's interrupt not pending.
    Clear {
        dev: DeviceId,
        ev: EventId,
    },
    /// Waits for the effects of earlier commands at a processor.
    Sync {
        target: RdBase,
    },
    /// Maps a device to its interrupt translation table, or unmaps it.
    Mapd {
        dev: DeviceId,
        bits: EventIdBits,
        itt: IttAddr,
        valid: bool,
    },
    /// Maps a collection to a processor, or unmaps it.
    Mapc {
        icid: Icid,
        target: RdBase,
        valid: bool,
    },
    /// Maps an event to an interrupt and a collection.
    Mapti {
        dev: DeviceId,
        ev: EventId,
        intid: Intid,
        icid: Icid,
    },
    /// Maps an event to the interrupt of its own number, and to a collection.
    Mapi {
        dev: DeviceId,
        ev: EventId,
        icid: Icid,
    },
    /// Reads the configuration of an event's interrupt again.
    Inv {
        dev: DeviceId,
        ev: EventId,
    },
    /// Reads the configuration of all interrupts of a collection again.
    Invall {
        icid: Icid,
    },
    /// Moves all pending interrupts from one processor to another.
    Movall {
        from: RdBase,
        to: RdBase,
    },
    /// Unmaps an event, and makes its interrupt not pending.
    Discard {
        dev: DeviceId,
        ev: EventId,
    },
    /// None of these.
    Unknown(UnknownOp),
}

/// The name of a command.
#[derive(Clone, Copy, Debug, PartialEq, Eq)]
pub enum Op {
    /// MOVI, opcode 0x01.
    Movi,
    /// INT, opcode 0x03.
    Int,
    /// CLEAR, opcode 0x04.
    Clear,
    /// SYNC, opcode 0x05.
    Sync,
    /// MAPD, opcode 0x08.
    Mapd,
    /// MAPC, opcode 0x09.
    Mapc,
    /// MAPTI, opcode 0x0A.
    Mapti,
    /// MAPI, opcode 0x0B.
    Mapi,
    /// INV, opcode 0x0C.
    Inv,
    /// INVALL, opcode 0x0D.
    Invall,
    /// MOVALL, opcode 0x0E.
    Movall,
    /// DISCARD, opcode 0x0F.
    Discard,
    /// The opcode of a command that has no name.
    Unknown(u8),
}
