//! What a step reads and concerns, command by command; where an event leads; which tables a save
//! writes.
ghost use Rattle.its_plain.specs.Machine.{IsDescription};
ghost use Rattle.owned_machine.specs.Whole.{IsMachine};

use crate::descriptions::{desc, enabling};
use its_plain::{Call, Desc, MakeError};
use its_types::{Addr, DeviceId, EventId, Icid, Intid, Profile, Vcpu};
use owned_machine::Machine;
use owned_parts::Parts;
use std::alloc::{AllocError, Global};
use step_views::{Destination, Needs, Stretch, adds_event, concerned, event, event_count, needs};
use table_save::written_tables;

// A page of the device table, and the commands of the queue, 32 bytes each.
const WORDS: [(u64, u64); 32] = [
    (0x8008_0000, 0x8000_0000_8009_0000),
    // MAPD 5 with 4 bits, MAPD 6 with V = 0, MAPC 1 to processor 2, INV 5 3.
    (0x8002_0000, 0x5_0000_0008),
    (0x8002_0008, 3),
    (0x8002_0010, 0x8000_0000_800a_0000),
    (0x8002_0020, 0x6_0000_0008),
    (0x8002_0040, 9),
    (0x8002_0050, 0x8000_0000_0002_0001),
    (0x8002_0060, 0x5_0000_000c),
    (0x8002_0068, 3),
    // MAPTI 5 3 to 8199, 5 3 to 8200, and 5 4 to 70,000, each by 1.
    (0x8002_0080, 0x5_0000_000a),
    (0x8002_0088, 0x2007_0000_0003),
    (0x8002_0090, 1),
    (0x8002_00a0, 0x5_0000_000a),
    (0x8002_00a8, 0x2008_0000_0003),
    (0x8002_00b0, 1),
    (0x8002_00c0, 0x5_0000_000a),
    (0x8002_00c8, 0x1_1170_0000_0004),
    (0x8002_00d0, 1),
    // INT 5 3, INV 5 3, INVALL 1, INVALL 2, MOVALL from 2 to 0, SYNC 0.
    (0x8002_00e0, 0x5_0000_0003),
    (0x8002_00e8, 3),
    (0x8002_0100, 0x5_0000_000c),
    (0x8002_0108, 3),
    (0x8002_0120, 0xd),
    (0x8002_0130, 1),
    (0x8002_0140, 0xd),
    (0x8002_0150, 2),
    (0x8002_0160, 0xe),
    (0x8002_0170, 0x2_0000),
    (0x8002_0180, 5),
    // MAPC 1 with V = 0, and the same of device 5.
    (0x8002_01a0, 9),
    (0x8002_01b0, 1),
    (0x8002_01c0, 0x5_0000_0008),
];

// What the next command reads beside its own bytes; the virtual processors that it concerns, none
// where it is refused; and whether it adds an event. Then, once it is taken, where event 3 of
// device 5 leads, and how many events are mapped.
type Row = (Option<Stretch>, [bool; 4], bool, Destination, u64);

// The level-1 entry of the first devices, the configuration byte of LPI 8199, and the whole table,
// which all processors share.
const LEVEL1: Option<Stretch> = Some(Stretch {
    address: Addr(0x8008_0000),
    length: 8,
});

const BYTE: Option<Stretch> = Some(Stretch {
    address: Addr(0x8003_0007),
    length: 1,
});

const TABLE: Option<Stretch> = Some(Stretch {
    address: Addr(0x8003_0000),
    length: 57_344,
});

const NONE: [bool; 4] = [false; 4];

const ALL: [bool; 4] = [true; 4];

const NO_EVENT: Destination = Destination::NoEvent;

const NO_COLLECTION: Destination = Destination::NoCollection {
    intid: Intid(8199),
    icid: Icid(1),
};

const SECOND: Destination = Destination::Processor {
    intid: Intid(8199),
    icid: Icid(1),
    vcpu: Vcpu(2),
};

const ROWS: [Row; 15] = [
    (LEVEL1, NONE, false, NO_EVENT, 0),
    (None, NONE, false, NO_EVENT, 0),
    (None, NONE, false, NO_EVENT, 0),
    (None, NONE, false, NO_EVENT, 0),
    (BYTE, ALL, true, SECOND, 1),
    (None, ALL, false, SECOND, 1),
    (None, NONE, false, SECOND, 1),
    (None, [false, false, true, false], false, SECOND, 1),
    (BYTE, ALL, false, SECOND, 1),
    (TABLE, ALL, false, SECOND, 1),
    (None, NONE, false, SECOND, 1),
    (None, [true, false, true, false], false, SECOND, 1),
    (None, NONE, false, SECOND, 1),
    (None, NONE, false, NO_COLLECTION, 1),
    (None, NONE, false, Destination::NoDevice, 0),
];

// Just this stretch, or none, after the command's own 32 bytes.
fn reads_just(mut needs: Needs<'_>, expected: Option<Stretch>) -> bool {
    let Some(first) = needs.next() else {
        return false;
    };
    first.length == 32 && needs.next() == expected && needs.next().is_none()
}

// Whether the machine's next command is seen as the row says.
fn is_seen(parts: &Parts, row: &Row) -> bool
    requires { IsMachine parts.now }
{
    let set = concerned(parts, 0);
    let concerns = [
        set.has(Vcpu(0)),
        set.has(Vcpu(1)),
        set.has(Vcpu(2)),
        set.has(Vcpu(3)),
    ];
    reads_just(needs(parts, 0), row.0) && concerns == row.1 && adds_event(parts, 0) == row.2
}

fn leads(parts: &Parts, to: &Destination, count: u64) -> bool
    requires { IsMachine parts.now }
{
    event(parts, 0, DeviceId(5), EventId(3)) == *to && event_count(parts, 0) == count
}

fn step(alloc: Global, machine: &mut Machine) -> Result<(), AllocError> {
    machine.answer(alloc, &Call::Step { its: 0 })?;
    Ok(())
}

// Whether a command is seen as its row says, before a step takes it and after.
fn is_taken(alloc: Global, machine: &mut Machine, row: &Row) -> Result<bool, AllocError> {
    let seen = is_seen(machine.parts(), row);
    step(alloc, machine)?;
    Ok(seen && leads(machine.parts(), &row.3, row.4))
}

// How many of the rows are so, before one that isn't.
fn count_taken(alloc: Global, machine: &mut Machine) -> Result<usize, AllocError> {
    for call in &enabling(0xc107_0000_8008_0200, 0x1e0) {
        machine.answer(alloc, call)?;
    }
    for (at, row) in ROWS.iter().enumerate() {
        if !is_taken(alloc, machine, row)? {
            return Ok(at);
        }
    }
    Ok(ROWS.len())
}

// A page of the device table, the collection table, and the pending tables.
const WRITTEN: [(Addr, u64); 6] = [
    (Addr(0x8009_0000), 0x1_0000),
    (Addr(0x8001_0000), 0x1_0000),
    (Addr(0x8004_0400), 7168),
    (Addr(0x8005_0400), 7168),
    (Addr(0x8006_0400), 7168),
    (Addr(0x8007_0400), 7168),
];

// Whether these are the tables that a save writes.
fn lists_just(alloc: Global, parts: &Parts, expected: &[(Addr, u64)]) -> Result<bool, AllocError>
    requires { IsMachine parts.now }
{
    let list = written_tables(alloc, &parts.in_place())?;
    Ok(list.as_slice() == expected)
}

// Whether nothing is seen before, how many of the rows are seen, and whether the tables are.
type Seen = (bool, usize, bool);

// The rows, before and after which nothing is mapped.
fn seen(alloc: Global, machine: &mut Machine) -> Result<Seen, AllocError> {
    let before = needs(machine.parts(), 0).next().is_none()
        && leads(machine.parts(), &Destination::NoDevice, 0);
    let rows = count_taken(alloc, machine)?;
    let lists = lists_just(alloc, machine.parts(), &WRITTEN)?;
    Ok((before, rows, lists))
}

fn seen_of_made(alloc: Global, desc: &Desc) -> Result<Result<Seen, AllocError>, MakeError>
    requires { IsDescription desc.now }
{
    let mut machine = Machine::new(alloc, desc)?;
    Ok(seen(alloc, &mut machine))
}

fn seen_of_new(alloc: Global) -> Result<Result<Seen, AllocError>, MakeError> {
    let mut desc = desc(alloc, None, &WORDS)?;
    desc.shape.profile = Profile::Two;
    seen_of_made(alloc, &desc)
}

#[test]
fn each_command_is_seen(rt: HostRuntime) {
    assert_eq!(rt; seen_of_new(rt.alloc()), Ok(Ok((true, ROWS.len(), true))));
}
