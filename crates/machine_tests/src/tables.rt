//! Tables that are restored and saved, on the parts of a machine.
ghost use Rattle.its_plain.specs.Machine.{IsDescription};
ghost use Rattle.owned_machine.specs.Whole.{IsMachine};

use crate::descriptions::{VALUES, desc};
use gicr_regs::{GicrRegisters, GicrValues};
use guest_windows::Memory;
use its_maps::LookUp;
use its_plain::{Desc, MakeError, SaveError};
use its_types::{Addr, Device, DeviceId, Event, EventId, Icid, Intid, Listed, Vcpu};
use owned_machine::Machine;
use owned_parts::Parts;
use std::alloc::{AllocError, Global};
use table_restore::{RestoreError, restore};
use table_save::save;

// Tables as a host leaves them: device 16 is the last, and after it an old entry stands; between
// its events too.
const OLD_ENTRIES: [(u64, u64); 8] = [
    (0x8001_0000, 0x8000_0000_0002_0001),
    (0x8000_0080, 0x8000_0000_1001_8004),
    (0x8000_0100, 0x8000_0000_1001_80ff),
    (0x800c_0018, 0x0004_0000_2008_0001),
    (0x800c_0028, 0xffff_ffff_ffff_ffff),
    (0x800c_0038, 0x0000_0000_2009_0001),
    (0x8003_0008, 0xa1),
    (0x8006_0400, 0x0100),
];

// The same once they are saved again.
const SAVED: [(u64, u64); 7] = [
    (0x8001_0000, 0x8000_0000_0002_0001),
    (0x8000_0080, 0x8000_0000_1001_8004),
    (0x8000_0100, 0),
    (0x800c_0018, 0x0004_0000_2008_0001),
    (0x800c_0028, 0),
    (0x800c_0038, 0x0000_0000_2009_0001),
    (0x8006_0400, 0x0100),
];

const DEVICE: Device = Device {
    itt: Addr(0x800c_0000),
    bits: 5,
};

const EVENT: Event = Event {
    intid: Intid(8201),
    icid: Icid(1),
};

const OFF: GicrRegisters = GicrRegisters {
    ctlr: 0,
    propbaser: 0,
    pendbaser: 0,
};

// Whether the entries are found that walks reach, and no old ones.
fn are_found(parts: &Parts) -> bool {
    let maps = &parts.first.maps;
    maps.device(DeviceId(16)) == Some(DEVICE)
        && maps.device(DeviceId(32)).is_none()
        && maps.look_up(DeviceId(16), EventId(5)) == LookUp::NoEvent(DEVICE)
        && maps.look_up(DeviceId(16), EventId(7)) == LookUp::Mapped(DEVICE, EVENT)
        && maps.collection(Icid(1)) == Some(Vcpu(2))
}

fn restores(alloc: Global, parts: &Parts) -> Result<bool, AllocError>
    requires { IsMachine parts.now }
{
    let registers = vec![in alloc; OFF; usize::from(parts.layout.shape.vcpus)]?;
    let off = GicrValues {
        registers: Listed::from_vec(registers),
    };
    match restore(alloc, VALUES, &off, &parts.memory, &parts.layout) {
        Ok(restored) => Ok(are_found(&restored)),
        Err(RestoreError::Fault(..)) => Ok(false),
        Err(RestoreError::NoMemory) => Err(AllocError),
    }
}

fn saves(alloc: Global, parts: &Parts) -> Result<bool, SaveError>
    requires { IsMachine parts.now }
{
    if parts.second.is_some() || parts.track.is_some() {
        return Ok(false);
    }
    let regs = &parts.first.regs;
    let maps = &parts.first.maps;
    let mut memory = parts.memory.copy(alloc)?;
    save(
        alloc,
        regs,
        maps,
        &parts.redists,
        &parts.layout,
        &mut memory,
    )?;
    Ok(are_in(&memory, &SAVED))
}

fn are_in(memory: &Memory, words: &[(u64, u64)]) -> bool {
    for &(addr, word) in words {
        if memory.read_u64(Addr(addr)) != Ok(word) {
            return false;
        }
    }
    true
}

fn restored_and_saved(alloc: Global, parts: &Parts) -> Result<(bool, bool), SaveError>
    requires { IsMachine parts.now }
{
    Ok((restores(alloc, parts)?, saves(alloc, parts)?))
}

fn both_of_made(alloc: Global, desc: &Desc) -> Result<Result<(bool, bool), SaveError>, MakeError>
    requires { IsDescription desc.now }
{
    let machine = Machine::new(alloc, desc)?;
    Ok(restored_and_saved(alloc, machine.parts()))
}

fn both(alloc: Global) -> Result<Result<(bool, bool), SaveError>, MakeError> {
    let desc = desc(alloc, Some(VALUES), &OLD_ENTRIES)?;
    both_of_made(alloc, &desc)
}

#[test]
fn old_entries_are_not_read_and_go_with_a_save(rt: HostRuntime) {
    assert_eq!(rt; both(rt.alloc()), Ok(Ok((true, true))));
}
