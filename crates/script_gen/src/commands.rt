//! The commands of a generated script.
ghost use Rattle.std.specs.Prelude.{◌≡◌, ◌<◌, ◌≤◌, ◌+◌, ◌++◌, OnOk, IfOk, map};
ghost use Rattle.std.specs.List.{range_with_len};
ghost use Rattle.script_gen.specs.Commands as spec;

use its_command::{Command, EventIdBits, IttAddr, RdBase};
use its_types::{DeviceId, EventId, FIRST_LPI, Icid, Intid};
use std::alloc::{AllocError, Global};

// How many collections there are, of which each is a virtual processor's.
const COLLECTIONS: u16 = 4;

/// How many events a device has.
pub const EVENTS: u32 = 64;

// Where the interrupt translation table of device 1 stands, before those of the other devices.
const FIRST_ITT: u64 = 0x800C_0000;

fn map_collection(icid: u16) -> Command
    ensures { result ≡ spec.map_collection icid }
{
    Command::Mapc {
        icid: Icid(icid),
        target: RdBase::new(icid.into()),
        valid: true,
    }
}

fn map_device(dev: u32) -> Command
    requires first { 1 ≤ dev }
    requires last { dev ≤ 63 }
    ensures { result ≡ spec.map_device dev }
{
    Command::Mapd {
        dev: DeviceId(dev),
        bits: EventIdBits::new(6),
        itt: IttAddr::new(FIRST_ITT + 0x200 * u64::from(dev - 1)),
        valid: true,
    }
}

fn map_event(dev: u32, ev: u32) -> Command
    requires first { 1 ≤ dev }
    requires last { dev ≤ 63 }
    requires event { ev < 64 }
    ensures { result ≡ spec.map_event dev ev }
{
    Command::Mapti {
        dev: DeviceId(dev),
        ev: EventId(ev),
        intid: Intid(FIRST_LPI + EVENTS * (dev - 1) + ev),
        icid: Icid((ev % 4) as u16),
    }
}

// The first events of a device.
#[tactic(auto, unfolding(crate::specs::Commands::event_commands))]
fn event_commands(alloc: Global, dev: u32, count: u32) -> Result<Vec<Command>, AllocError>
    requires first { 1 ≤ dev }
    requires last { dev ≤ 63 }
    requires events { count ≤ 64 }
    ensures { IfOk result (λ v. v.items ≡ spec.event_commands dev count) }
{
    (0..count).map(|ev| map_event(dev, ev)).collect(alloc)
}

// A device, and then its events.
#[tactic(auto, unfolding(crate::specs::Commands::device_commands))]
fn push_device(alloc: Global, out: &mut Vec<Command>, dev: u32) -> Result<(), AllocError>
    requires first { 1 ≤ dev }
    requires last { dev ≤ 63 }
    ensures { OnOk result (out.new.items ≡ out.old.items ++ spec.device_commands dev) }
{
    let events = event_commands(alloc, dev, EVENTS)?;
    out.push(map_device(dev))?;
    out.extend_from_slice(&events)?;
    Ok(())
}

// The collections of the virtual processors.
fn collection_commands(alloc: Global) -> Result<Vec<Command>, AllocError>
    ensures { IfOk result (λ v. v.items ≡ map spec.map_collection (range_with_len 0 4)) }
{
    (0..COLLECTIONS)
        .map(|icid| map_collection(icid))
        .collect(alloc)
}

/// The commands that map the collections, and the devices 1 to `devices` with their events.
#[tactic(auto, unfolding(crate::specs::Commands::setup_commands))]
pub fn setup_commands(alloc: Global, devices: u32) -> Result<Vec<Command>, AllocError>
    requires { devices ≤ 63 }
    ensures { IfOk result (λ v. v.items ≡ spec.setup_commands devices) }
{
    let mut out = collection_commands(alloc)?;
    for dev in 1..devices + 1 {
        push_device(alloc, &mut out, dev)?;
    }
    Ok(out)
}

fn move_event(devices: u32, j: u32) -> Command
    requires some { 1 ≤ devices }
    requires most { devices ≤ 63 }
    ensures { result ≡ spec.move_event devices j }
{
    Command::Movi {
        dev: DeviceId(1 + j % devices),
        ev: EventId(j % EVENTS),
        icid: Icid(0),
    }
}

/// The commands that give so many events of the devices 1 to `devices` to collection 0.
#[tactic(auto, unfolding(crate::specs::Commands::move_commands))]
pub fn move_commands(alloc: Global, devices: u32, count: u32) -> Result<Vec<Command>, AllocError>
    requires some { 1 ≤ devices }
    requires most { devices ≤ 63 }
    ensures { IfOk result (λ v. v.items ≡ spec.move_commands devices count) }
{
    (0..count).map(|j| move_event(devices, j)).collect(alloc)
}
