//! Entries of a history, and why a save or a restore was refused, as they are printed.
use gits_regs::Register;
use its_command::Op;
use its_history::{entry_text, restore_fault_text, save_fault_text};
use its_plain::{
    Ack, Bytes64, Call, Cause, Reason, Region, Reply, RestoreFault, Route, SaveFault, Signal,
    StepReply, Table,
};
use its_types::{Addr, DeviceId, EventId, Icid, Intid, Vcpu};
use std::alloc::{AllocError, Global};
use std::test::Fail;

/// A message of event 3 of device 16.
pub const SIGNAL: Call = Call::Signal {
    its: 0,
    dev: DeviceId(16),
    ev: EventId(3),
};

/// The message went to virtual processor 2.
pub const DELIVERED: Reply = Reply::Signal(Signal::Delivered {
    vcpu: Vcpu(2),
    intid: Intid(8200),
});

/// An acknowledgement at virtual processor 2.
pub const TAKE: Call = Call::Take(Vcpu(2));

/// Its interrupt.
pub const LPI: Reply = Reply::Ack(Ack::Some {
    intid: Intid(8200),
    priority: 0xa0,
});

const STEP: Call = Call::Step { its: 0 };

// Calls of LPIs, of registers, of steps, and of a second translator, with their replies.
const ENTRIES: [(Call, Reply); 18] = [
    (SIGNAL, DELIVERED),
    (SIGNAL, Reply::Signal(Signal::Dropped(Cause::LpisOff))),
    (TAKE, LPI),
    (Call::Show(Vcpu(2)), Reply::Ack(Ack::None)),
    (
        Call::Best {
            vcpu: Vcpu(2),
            mask: 240,
        },
        LPI,
    ),
    (
        Call::Claim {
            vcpu: Vcpu(2),
            intid: Intid(8200),
        },
        Reply::Ack(Ack::None),
    ),
    (
        Call::ReadReg {
            its: 0,
            off: 8,
            size: 8,
        },
        Reply::Value(0x1ef71),
    ),
    (
        Call::WriteReg {
            its: 0,
            off: 0x100,
            size: 8,
            value: 0x8107_0000_8000_0200,
        },
        Reply::Ok,
    ),
    (
        Call::ReadGicr {
            vcpu: Vcpu(2),
            off: 0x78,
            size: 8,
        },
        Reply::Value(0x8006_0000),
    ),
    (
        Call::WriteGicr {
            vcpu: Vcpu(2),
            off: 0,
            size: 4,
            value: 1,
        },
        Reply::Ok,
    ),
    (STEP, Reply::Step(StepReply::Idle)),
    (STEP, Reply::Step(StepReply::Ran(Op::Mapti))),
    (
        STEP,
        Reply::Step(StepReply::Refused(Op::Unknown(0), Reason::UnknownCommand)),
    ),
    (STEP, Reply::Step(StepReply::QueueFault(Addr(0x9000_0000)))),
    (
        Call::Signal {
            its: 1,
            dev: DeviceId(16),
            ev: EventId(3),
        },
        DELIVERED,
    ),
    (
        Call::ReadReg {
            its: 1,
            off: 0x88,
            size: 4,
        },
        Reply::Value(0x60),
    ),
    (
        Call::WriteReg {
            its: 1,
            off: 0x88,
            size: 8,
            value: 0x60,
        },
        Reply::Ok,
    ),
    (Call::Step { its: 1 }, Reply::Step(StepReply::Ran(Op::Mapd))),
];

/// Appends a line.
pub fn push_line(lines: &mut String, line: &str) -> Result<(), AllocError> {
    lines.push_str(line)?;
    lines.push('\n')
}

// Lines at place 7, of the first thread of the second phase.
fn push_entries(
    lines: &mut String,
    alloc: Global,
    rows: &[(Call, Reply)],
) -> Result<(), AllocError> {
    for (call, reply) in rows {
        let entry = entry_text(alloc, 7, 2, 1, call, reply)?;
        push_line(lines, entry.as_str())?;
    }
    Ok(())
}

// Two bytes that a device writes.
fn dma(req: u32, addr: u64, route: Route) -> Call {
    Call::Dma {
        req,
        addr: Addr(addr),
        bytes: Bytes64::new(&[3, 0]),
        route,
    }
}

fn entries_with_bytes() -> [(Call, Reply); 8] {
    let poke = Call::Poke {
        addr: Addr(0x8003_0008),
        bytes: Bytes64::new(&[0x4a]),
    };
    let outside = Call::Peek {
        addr: Addr(0x801f_ffff),
        count: 2,
    };
    let peek = Call::Peek {
        addr: Addr(0x8000_0080),
        count: 8,
    };
    let eight = Bytes64::new(&[4, 0x80, 1, 0x10, 0, 0, 0, 0x80]);
    let route = Route::Signal {
        its: 0,
        dev: DeviceId(16),
        ev: EventId(3),
    };
    [
        (poke, Reply::Ok),
        (outside, Reply::Outside),
        (peek, Reply::Bytes(eight)),
        (Call::Copy, Reply::Copied(512)),
        (dma(256, 0x809_0040, route), DELIVERED),
        (dma(512, 0x809_0040, Route::NoRequester), Reply::NoRequester),
        (dma(256, 0x809_0042, Route::Frame), Reply::Outside),
        (dma(u32::MAX, 0x8003_0008, Route::Poke), Reply::Ok),
    ]
}

const LINES: &str = "7 2.1 signal 16 3 -> delivered 2 8200
7 2.1 signal 16 3 -> dropped lpis-off
7 2.1 take 2 -> lpi 8200 0xa0
7 2.1 show 2 -> none
7 2.1 best 2 0xf0 -> lpi 8200 0xa0
7 2.1 claim 2 8200 -> none
7 2.1 read 0x8 8 -> value 0x1ef71
7 2.1 write 0x100 8 0x8107000080000200 -> ok
7 2.1 rread 2 0x78 8 -> value 0x80060000
7 2.1 rwrite 2 0x0 4 0x1 -> ok
7 2.1 step -> idle
7 2.1 step -> ran mapti
7 2.1 step -> refused 0x0 unknown-command
7 2.1 step -> queue-fault 0x90000000
7 2.1 b signal 16 3 -> delivered 2 8200
7 2.1 b read 0x88 4 -> value 0x60
7 2.1 b write 0x88 8 0x60 -> ok
7 2.1 b step -> ran mapd
7 2.1 poke 0x80030008 4a -> ok
7 2.1 peek 0x801fffff 2 -> outside
7 2.1 peek 0x80000080 8 -> bytes 0480011000000080
7 2.1 copy -> copied 512
7 2.1 dma 256 0x8090040 0300 -> delivered 2 8200
7 2.1 dma 512 0x8090040 0300 -> dropped no-requester
7 2.1 dma 256 0x8090042 0300 -> outside
7 2.1 dma 4294967295 0x80030008 0300 -> ok
";

#[test]
fn entries(rt: HostRuntime) -> Result<(), Fail> {
    let mut lines = String::new(rt.alloc());
    push_entries(&mut lines, rt.alloc(), &ENTRIES)?;
    push_entries(&mut lines, rt.alloc(), &entries_with_bytes())?;
    assert_eq!(rt; lines.as_str(), LINES);
    Ok(())
}

const REFUSED_SAVES: [SaveFault; 11] = [
    SaveFault::Overlap(Region::Itt(0, DeviceId(16)), Region::Itt(0, DeviceId(17))),
    SaveFault::NoPlace(0, DeviceId(16384)),
    SaveFault::Outside(Region::Page(0, 2)),
    SaveFault::Overlap(Region::Itt(0, DeviceId(16)), Region::Itt(1, DeviceId(16))),
    SaveFault::NoPlace(1, DeviceId(3)),
    SaveFault::Outside(Region::Page(1, 2)),
    SaveFault::Outside(Region::Level1(1)),
    SaveFault::Overlap(Region::Devices(1), Region::Collections(1)),
    SaveFault::Overlap(Region::Pending(Vcpu(3)), Region::Config),
    SaveFault::Overlap(Region::ConfigOf(Vcpu(1)), Region::Queue(0)),
    SaveFault::Overlap(Region::Config, Region::Queue(1)),
];

const REFUSED_SAVE_LINES: &str = "overlap itt 16 itt 17
no-place 16384
outside page 2
overlap itt 16 b-itt 16
no-place b 3
outside b-page 2
outside b-level1
overlap b-devices b-collections
overlap pending 3 config
overlap config 1 queue
overlap config b-queue
";

const REFUSED_RESTORES: [RestoreFault; 11] = [
    RestoreFault::NotValid(Register::Cbaser),
    RestoreFault::NotValid(Register::Baser1),
    RestoreFault::OutsideTable(Addr(0xf_ffff_ffff_abf8)),
    RestoreFault::BadCollection(Icid(8192)),
    RestoreFault::BadTarget(Icid(1), 4),
    RestoreFault::DoubleCollection(Icid(1)),
    RestoreFault::BadSize(DeviceId(0)),
    RestoreFault::PastEnd(Table::Devices, 8191, 1),
    RestoreFault::PastEnd(Table::Itt(DeviceId(16)), 31, 2),
    RestoreFault::BadIntid(DeviceId(16), EventId(3), Intid(8191)),
    RestoreFault::BadRedist(Vcpu(2)),
];

const REFUSED_RESTORE_LINES: &str = "not-valid cbaser
not-valid baser1
outside-table 0xfffffffffabf8
bad-collection 8192
bad-target 1 4
double-collection 1
bad-size 0
past-end devices 8191 1
past-end itt 16 31 2
bad-intid 16 3 8191
bad-redist 2
";

fn push_refused_saves(lines: &mut String, alloc: Global) -> Result<(), AllocError> {
    for fault in &REFUSED_SAVES {
        let line = save_fault_text(alloc, fault)?;
        push_line(lines, line.as_str())?;
    }
    Ok(())
}

fn push_refused_restores(lines: &mut String, alloc: Global) -> Result<(), AllocError> {
    for fault in &REFUSED_RESTORES {
        let line = restore_fault_text(alloc, fault)?;
        push_line(lines, line.as_str())?;
    }
    Ok(())
}

#[test]
fn causes_of_what_is_refused(rt: HostRuntime) -> Result<(), Fail> {
    let mut saves = String::new(rt.alloc());
    push_refused_saves(&mut saves, rt.alloc())?;
    assert_eq!(rt; saves.as_str(), REFUSED_SAVE_LINES);
    let mut restores = String::new(rt.alloc());
    push_refused_restores(&mut restores, rt.alloc())?;
    assert_eq!(rt; restores.as_str(), REFUSED_RESTORE_LINES);
    Ok(())
}
