//! Commands of a queue, as numbers.
use crate::asks::DEVICE;
use its_command::{Command, EventIdBits, IttAddr, RdBase};
use its_types::{EventId, Icid, Intid};

/// A command, as the numbers that it is made of. Its device is number 16, with events of 5 bits and
/// its table at 0x800c_0000, or at 0x800c_0100.
#[derive(Clone, Copy)]
pub enum Given {
    Mapd,
    MapdBeside,
    Unmapd,
    /// A collection and its target.
    Mapc(u16, u16),
    /// An event, its LPI and its collection.
    Mapti(u32, u32, u16),
    /// An event and its new collection.
    Movi(u32, u16),
    Discard(u32),
    Inv(u32),
    /// The processor that LPIs leave, and the one that they go to.
    Movall(u16, u16),
}

pub fn command(given: Given) -> Command {
    match given {
        Given::Mapd => mapd(IttAddr::new(0x800c_0000), true),
        Given::MapdBeside => mapd(IttAddr::new(0x800c_0100), true),
        Given::Unmapd => mapd(IttAddr::new(0x800c_0000), false),
        Given::Mapc(icid, target) => Command::Mapc {
            icid: Icid(icid),
            target: RdBase::new(u64::from(target)),
            valid: true,
        },
        Given::Mapti(ev, intid, icid) => Command::Mapti {
            dev: DEVICE,
            ev: EventId(ev),
            intid: Intid(intid),
            icid: Icid(icid),
        },
        Given::Movi(ev, icid) => Command::Movi {
            dev: DEVICE,
            ev: EventId(ev),
            icid: Icid(icid),
        },
        Given::Discard(ev) => Command::Discard {
            dev: DEVICE,
            ev: EventId(ev),
        },
        Given::Inv(ev) => Command::Inv {
            dev: DEVICE,
            ev: EventId(ev),
        },
        Given::Movall(from, to) => Command::Movall {
            from: RdBase::new(u64::from(from)),
            to: RdBase::new(u64::from(to)),
        },
    }
}

fn mapd(itt: IttAddr, valid: bool) -> Command {
    Command::Mapd {
        dev: DEVICE,
        bits: EventIdBits::new(5),
        itt,
        valid,
    }
}
