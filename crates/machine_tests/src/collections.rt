//! What a save writes in a collection table, where events name collections that aren't mapped: both
//! machines write it alike.
ghost use Rattle.its_plain.specs.Machine.{IsDescription};

use crate::descriptions::{desc, enabling, write};
use its_plain::{Bytes64, Call, Desc, MakeError, Reply};
use its_types::Addr;
use owned_machine::Machine;
use plain_machine::State;
use std::alloc::{AllocError, Global};
use std::test::Fail;

// The commands of the queue, 32 bytes each.
const WORDS: [(u64, u64); 15] = [
    // MAPD of device 16 with 5 bits, and MAPTI 16 1 to 8200 by 2.
    (0x8002_0000, 0x10_0000_0008),
    (0x8002_0008, 4),
    (0x8002_0010, 0x8000_0000_800c_0000),
    (0x8002_0020, 0x10_0000_000a),
    (0x8002_0028, 0x2008_0000_0001),
    (0x8002_0030, 2),
    // MAPC of 3 to processor 0, and of 2 to processor 1; then 2 unmapped.
    (0x8002_0040, 9),
    (0x8002_0050, 0x8000_0000_0000_0003),
    (0x8002_0060, 9),
    (0x8002_0070, 0x8000_0000_0001_0002),
    (0x8002_0080, 9),
    (0x8002_0090, 2),
    // MAPTI 16 2 to 8201 by 1.
    (0x8002_00a0, 0x10_0000_000a),
    (0x8002_00a8, 0x2009_0000_0002),
    (0x8002_00b0, 1),
];

// Collection 3 goes to processor 0, and 2 to processor 1; 1 and 2 aren't mapped.
const THIRD: u64 = 0x8000_0000_0000_0003;

const SECOND: u64 = 0x8000_0000_0001_0002;

const UNMAPPED_FIRST: u64 = 0x8000_ffff_ffff_0001;

const UNMAPPED_SECOND: u64 = 0x8000_ffff_ffff_0002;

// Whether it is a Linux guest's machine, where the queue ends, and the first entries of the
// collection table once it is saved.
type Row = (bool, u64, [u64; 4]);

const ROWS: [Row; 9] = [
    (true, 0x20, [0, 0, 0, 0]),
    (true, 0x40, [UNMAPPED_SECOND, 0, 0, 0]),
    (false, 0x40, [0, 0, 0, 0]),
    (true, 0x60, [UNMAPPED_SECOND, THIRD, 0, 0]),
    (true, 0x80, [SECOND, THIRD, 0, 0]),
    (true, 0xa0, [UNMAPPED_SECOND, THIRD, 0, 0]),
    (false, 0xa0, [THIRD, 0, 0, 0]),
    (true, 0xc0, [UNMAPPED_FIRST, UNMAPPED_SECOND, THIRD, 0]),
    (false, 0xc0, [THIRD, 0, 0, 0]),
];

// Two collections, of which only the first has a place in a table of one page.
const LAST_WORDS: [(u64, u64); 9] = [
    // MAPD of device 16 with 5 bits.
    (0x8002_0000, 0x10_0000_0008),
    (0x8002_0008, 4),
    (0x8002_0010, 0x8000_0000_800c_0000),
    // MAPTI 16 1 to 8200 by 8191, and 16 2 to 8201 by 8192.
    (0x8002_0020, 0x10_0000_000a),
    (0x8002_0028, 0x2008_0000_0001),
    (0x8002_0030, 0x1fff),
    (0x8002_0040, 0x10_0000_000a),
    (0x8002_0048, 0x2009_0000_0002),
    (0x8002_0050, 0x2000),
];

const UNMAPPED_LAST: u64 = 0x8000_ffff_ffff_1fff;

// A flat device table of one page, and collection tables of one page and of two.
const DEVICES: u64 = 0x8107_0000_8000_0200;

const ONE_PAGE: u64 = 0x8407_0000_8001_0200;

const TWO_PAGES: u64 = 0x8407_0000_8001_0201;

// Of the first entries of the collection table.
const PLACES: [Addr; 4] = [
    Addr(0x8001_0000),
    Addr(0x8001_0008),
    Addr(0x8001_0010),
    Addr(0x8001_0018),
];

const STEP: Call = Call::Step { its: 0 };

// ---- both machines

fn ask_both(
    alloc: Global,
    machine: &mut Machine,
    state: State,
    calls: &[Call],
) -> Result<State, AllocError> {
    let mut state = state;
    for call in calls {
        let (next, _) = state.answer(alloc, call)?;
        state = next;
        machine.answer(alloc, call)?;
    }
    Ok(state)
}

// Whether the first entries of the collection table are the expected ones in both.
fn have_both(
    alloc: Global,
    machine: &mut Machine,
    state: State,
    entries: &[u64],
) -> Result<bool, AllocError> {
    let mut state = state;
    let mut are_there = true;
    for (place, entry) in PLACES.iter().zip(entries) {
        let peek = Call::Peek {
            addr: *place,
            count: 8,
        };
        let expected = Reply::Bytes(Bytes64::new(&entry.to_le_bytes()));
        let (next, found) = state.answer(alloc, &peek)?;
        state = next;
        are_there = are_there && found == expected && machine.answer(alloc, &peek)? == expected;
    }
    Ok(are_there)
}

// What is asked before a save, and the entries that it then writes.
type Asked<'a> = (&'a [Call], &'a [u64]);

fn saves(
    alloc: Global,
    machine: &mut Machine,
    state: State,
    asked: Asked<'_>,
) -> Result<bool, AllocError> {
    let state = ask_both(alloc, machine, state, asked.0)?;
    let state = ask_both(alloc, machine, state, &[Call::Save])?;
    have_both(alloc, machine, state, asked.1)
}

fn saves_made(
    alloc: Global,
    desc: &Desc,
    asked: Asked<'_>,
) -> Result<Result<bool, AllocError>, MakeError>
    requires { IsDescription desc.now }
{
    let mut machine = Machine::new(alloc, desc)?;
    saves_from(alloc, desc, &mut machine, asked)
}

fn saves_from(
    alloc: Global,
    desc: &Desc,
    machine: &mut Machine,
    asked: Asked<'_>,
) -> Result<Result<bool, AllocError>, MakeError>
    requires { IsDescription desc.now }
{
    let state = State::new(alloc, desc)?;
    Ok(saves(alloc, machine, state, asked))
}

fn saves_new(
    alloc: Global,
    linux: bool,
    words: &[(u64, u64)],
    asked: Asked<'_>,
) -> Result<Result<bool, AllocError>, MakeError> {
    let mut desc = desc(alloc, None, words)?;
    desc.shape.linux = linux;
    saves_made(alloc, &desc, asked)
}

// The tables, the queue up to an offset, and more steps than it has commands.
fn running(cwriter: u64) -> [Call; 11] {
    let [queue, devices, collections, enabled, filled] = enabling(DEVICES, cwriter);
    [
        queue,
        devices,
        collections,
        enabled,
        filled,
        STEP,
        STEP,
        STEP,
        STEP,
        STEP,
        STEP,
    ]
}

// How many rows are so, up to the first that isn't.
fn count_rows(alloc: Global) -> Result<usize, Fail> {
    for (at, (linux, cwriter, entries)) in ROWS.iter().enumerate() {
        if !saves_new(alloc, *linux, &WORDS, (&running(*cwriter), entries))?? {
            return Ok(at);
        }
    }
    Ok(ROWS.len())
}

#[test]
fn collections_that_events_name_have_entries(rt: HostRuntime) -> Result<(), Fail> {
    assert_eq!(rt; count_rows(rt.alloc())?, ROWS.len());
    Ok(())
}

#[test]
fn a_collection_with_no_place_has_none(rt: HostRuntime) {
    let calls = [
        write(0x80, 8, 0x8000_0000_8002_0000),
        write(0x100, 8, DEVICES),
        write(0x108, 8, TWO_PAGES),
        write(0x0, 4, 1),
        write(0x88, 8, 0x60),
        STEP,
        STEP,
        STEP,
        write(0x0, 4, 0),
        write(0x108, 8, ONE_PAGE),
    ];
    let found = saves_new(rt.alloc(), true, &LAST_WORDS, (&calls, &[UNMAPPED_LAST, 0]));
    assert_eq!(rt; found, Ok(Ok(true)));
}
