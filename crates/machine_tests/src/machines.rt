//! What no script says of a machine: windows and frames that it can't describe, and a machine that
//! goes on after a migration that was refused.
ghost use Rattle.its_plain.specs.Machine.{IsDescription};

use crate::descriptions::{VALUES, desc, windows};
use its_plain::{
    Ack, Bytes64, Call, Desc, DescFault, Its, MakeError, Region, Reply, SaveError, SaveFault,
};
use its_types::{Addr, DeviceId, Intid, Listed, Vcpu};
use owned_machine::Machine;
use std::alloc::{AllocError, Global};
use std::test::Fail;

// ---- migrations

// Device 16 sends its event 3 to processor 2 as LPI 8200, which is pending there.
const APART: [(u64, u64); 5] = [
    (0x8003_0008, 0xa1),
    (0x8001_0000, 0x8000_0000_0002_0001),
    (0x8000_0080, 0x8000_0000_1001_8004),
    (0x800c_0018, 0x0000_0000_2008_0001),
    (0x8006_0400, 0x0100),
];

// Device 17 has the same table.
const OVERLAPPING: [(u64, u64); 6] = [
    (0x8003_0008, 0xa1),
    (0x8001_0000, 0x8000_0000_0002_0001),
    (0x8000_0080, 0x8002_0000_1001_8004),
    (0x8000_0088, 0x8000_0000_1001_8004),
    (0x800c_0018, 0x0000_0000_2008_0001),
    (0x8006_0400, 0x0100),
];

// What a migration answers, whether just LPI 8200 is pending at processor 2 afterwards, the next
// copy, and how many pages then go to the second memory at a migration there.
type Moved = (Option<SaveFault>, bool, Reply, Option<u64>);

fn moves(alloc: Global, machine: &mut Machine) -> Result<Moved, AllocError> {
    let fault = migrates(alloc, machine)?;
    let pends = is_pending(alloc, machine)?;
    let copied = copies(alloc, machine)?;
    let count = precopies(alloc, machine)?;
    Ok((fault, pends, copied, count))
}

fn migrates(alloc: Global, machine: &mut Machine) -> Result<Option<SaveFault>, AllocError> {
    match machine.migrate(alloc) {
        Ok(()) => Ok(None),
        Err(SaveError::Fault(fault)) => Ok(Some(fault)),
        Err(SaveError::NoMemory) => Err(AllocError),
    }
}

fn copies(alloc: Global, machine: &mut Machine) -> Result<Reply, AllocError> {
    machine.answer(alloc, &Call::Copy)
}

fn precopies(alloc: Global, machine: &mut Machine) -> Result<Option<u64>, AllocError> {
    match machine.precopy(alloc) {
        Ok(count) => Ok(Some(count)),
        Err(SaveError::Fault(_)) => Ok(None),
        Err(SaveError::NoMemory) => Err(AllocError),
    }
}

fn is_pending(alloc: Global, machine: &Machine) -> Result<bool, AllocError> {
    if machine.vcpus() != 4 {
        return Ok(false);
    }
    let lpis = machine.pending(alloc, 2)?;
    Ok(lpis.as_slice() == [Intid(8200)].as_slice())
}

fn moves_made(alloc: Global, desc: &Desc) -> Result<Result<Moved, AllocError>, MakeError>
    requires { IsDescription desc.now }
{
    let mut machine = Machine::new(alloc, desc)?;
    Ok(moves(alloc, &mut machine))
}

fn moved(alloc: Global, words: &[(u64, u64)]) -> Result<Result<Moved, AllocError>, MakeError> {
    let mut desc = desc(alloc, Some(VALUES), words)?;
    desc.track = true;
    moves_made(alloc, &desc)
}

#[test]
fn a_machine_goes_on_whether_it_is_moved_or_not(rt: HostRuntime) -> Result<(), Fail> {
    let fault = SaveFault::Overlap(Region::Itt(0, DeviceId(16)), Region::Itt(0, DeviceId(17)));
    let found = [
        moved(rt.alloc(), &APART)??,
        moved(rt.alloc(), &OVERLAPPING)??,
    ];
    let expected = [
        (None, true, Reply::Copied(512), Some(41)),
        (Some(fault), true, Reply::Copied(512), None),
    ];
    assert_eq!(rt; found, expected);
    Ok(())
}

// ---- windows

fn peek(addr: u64) -> Call {
    Call::Peek {
        addr: Addr(addr),
        count: 2,
    }
}

// Calls of memory with the replies, and three that ask for what the machine doesn't have: processor
// 4, and a second memory.
fn asked() -> [(Call, Reply); 7] {
    let poke = Call::Poke {
        addr: Addr(0xff_8000_0000),
        bytes: Bytes64::new(&[1, 2]),
    };
    let best = Call::Best {
        vcpu: Vcpu(4),
        mask: 255,
    };
    let claim = Call::Claim {
        vcpu: Vcpu(4),
        intid: Intid(8201),
    };
    [
        (peek(0xff_8000_0000), Reply::Bytes(Bytes64::new(&[0, 0]))),
        (poke, Reply::Ok),
        (peek(0xff_8000_0000), Reply::Bytes(Bytes64::new(&[1, 2]))),
        (peek(0x100_7fff_ffff), Reply::Outside),
        (best, Reply::Ack(Ack::None)),
        (claim, Reply::Ack(Ack::None)),
        (Call::Copy, Reply::Copied(0)),
    ]
}

// How many of the calls the machine answers so, up to the first that it doesn't.
fn count_answered(alloc: Global, machine: &mut Machine) -> Result<usize, AllocError> {
    let calls = asked();
    for (at, (call, expected)) in calls.iter().enumerate() {
        if machine.answer(alloc, call)? != *expected {
            return Ok(at);
        }
    }
    Ok(calls.len())
}

fn count_made(alloc: Global, desc: &Desc) -> Result<Result<usize, AllocError>, MakeError>
    requires { IsDescription desc.now }
{
    let mut machine = Machine::new(alloc, desc)?;
    Ok(count_answered(alloc, &mut machine))
}

// How many a machine answers so whose window has 1 TiB, where that is within the limit.
fn of_a_tebibyte(alloc: Global, limit: u64) -> Result<Result<usize, AllocError>, MakeError> {
    let windows = windows(alloc, 1 << 40)?;
    let mut desc = desc(alloc, None, &[])?;
    desc.windows = windows;
    desc.memory_limit = limit;
    count_made(alloc, &desc)
}

#[test]
fn a_window_of_a_tebibyte(rt: HostRuntime) {
    let found = [
        of_a_tebibyte(rt.alloc(), u64::MAX),
        of_a_tebibyte(rt.alloc(), (1 << 40) - 1),
    ];
    let refused = MakeError::Fault(DescFault::Windows);
    assert_eq!(rt; found, [Ok(Ok(7)), Err(refused)]);
}

// ---- frames

fn at(frames: u64) -> Its {
    Its {
        restore: None,
        frames: Some(Addr(frames)),
    }
}

// Why there is no machine of two translators whose frames stand there, if there is none.
fn fault_of_frames(alloc: Global, frames: (u64, u64)) -> Result<Option<MakeError>, AllocError> {
    let translators = Vec::from_slice(alloc, &[at(frames.0), at(frames.1)])?;
    let mut desc = desc(alloc, None, &[])?;
    desc.translators = Listed::from_vec(translators);
    Ok(Machine::new(alloc, &desc).err())
}

const FIRST: Option<MakeError> = Some(MakeError::Fault(DescFault::Frames(0)));

const SECOND: Option<MakeError> = Some(MakeError::Fault(DescFault::Frames(1)));

// Frames of both translators, of which the first is told where they meet. The window begins at 0x8000_0000, and has 2 MiB.
const FRAMES: [((u64, u64), Option<MakeError>); 6] = [
    ((0x7ffe_0000, 0x8020_0000), None),
    ((0x7ffe_0001, 0x8020_0000), FIRST),
    ((0x7ffe_0000, 0x801f_ffff), SECOND),
    ((0x0808_0000, 0x0809_ffff), FIRST),
    ((0x0808_0000, 0xf_ffff_fffe_0000), None),
    ((0xf_ffff_fffe_0001, 0x0808_0000), FIRST),
];

// How many are answered so, up to the first that aren't.
fn count_frames(alloc: Global) -> Result<usize, AllocError> {
    for (row, (frames, fault)) in FRAMES.iter().enumerate() {
        if fault_of_frames(alloc, *frames)? != *fault {
            return Ok(row);
        }
    }
    Ok(FRAMES.len())
}

#[test]
fn frames_that_fit(rt: HostRuntime) {
    assert_eq!(rt; count_frames(rt.alloc()), Ok(6));
}
