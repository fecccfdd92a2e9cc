//! What a device's write by address is: a message, a write of memory, or nothing (IHI 0069,
//! sections 5.1.3 and 12.19.15).
ghost use Rattle.std.specs.Prelude.{◌≡◌, ◌⊎◌, ◌<◌, ◌≤◌, ◌==◌, length, IfSome};
ghost use Rattle.std.specs.Prelude.{if◌then◌else◌};
ghost use Rattle.std.specs.List.{list_any};
ghost use Rattle.std.specs.Option.{option_map};
ghost use Rattle.its_plain.specs.Doorbells as spec;
ghost use Rattle.its_plain.specs.Doorbells.{route_of, doorbell_of, device_of_requester};
ghost use Rattle.its_plain.specs.declared.call.Route.TheVariants as route;
ghost use Rattle.dma_routes.specs.Routes.{AreDevices};

use byteorder::{ByteOrder, LittleEndian};
use its_plain::{Bytes64, Desc, Its, RequesterRanges, Route};
use its_types::{Addr, DeviceId, EventId};

// How many bytes the two frames of a translator have.
const FRAMES: u64 = 0x2_0000;

// Where GITS_TRANSLATER stands in them.
const TRANSLATER: u64 = 0x1_0040;

/// What a requester's write is by a description. Its requester is found in time logarithmic in the
/// description's ranges of requesters, no two of which have a number in common.
pub fn route(desc: &Desc, req: u32, addr: Addr, bytes: &Bytes64) -> Route
    requires translators { length desc.now.translators ≤ 2 }
    requires devices { AreDevices desc.now.requesters }
    ensures route { result ≡ route_of desc.now req addr.0 bytes.now }
{
    let bytes = bytes.as_slice();
    let count = bytes.len() as u64;
    let translators = desc.translators.as_slice();
    match rung(translators, addr, count) {
        Some(its) => message(its, bytes, device_of(req, &desc.requesters)),
        None => no_message(translators, addr, count),
    }
}

// The first translator whose doorbell is written.
fn rung(translators: &[Its], addr: Addr, count: u64) -> Option<u8>
    requires { length translators.now ≤ 2 }
    ensures rung { result ≡ spec.rung 0 addr.0 count translators.now }
    ensures count { IfSome result (λ _. (count ≡ 2) ⊎ (count ≡ 4)) }
{
    for (its, translator) in translators.iter().enumerate() {
        if rings(translator, addr, count) {
            return Some(its as u8);
        }
    }
    None
}

// Its four bytes are written, or its lower two.
fn rings(translator: &Its, addr: Addr, count: u64) -> bool
    ensures { result ≡ spec.rings addr.0 count translator.now }
{
    match translator.frames {
        Some(frames) => is_doorbell(frames, addr) && (count == 2 || count == 4),
        None => false,
    }
}

fn is_doorbell(frames: Addr, addr: Addr) -> bool
    ensures { result ≡ (addr.0 == doorbell_of frames) }
{
    addr.0 >= TRANSLATER && addr.0 - TRANSLATER == frames.0
}

// The device that a requester is, if it is one.
fn device_of(req: u32, ranges: &RequesterRanges) -> Option<DeviceId>
    requires { AreDevices ranges.now }
    ensures { option_map (λ dev. dev.0) result ≡ device_of_requester req ranges.now }
{
    let range = ranges.find(req)?;
    Some(DeviceId(range.dev.0 + (req - range.first)))
}

// A device's event is the number that is written.
fn message(its: u8, bytes: &[u8], dev: Option<DeviceId>) -> Route
    requires { (length bytes.now ≡ 2) ⊎ (length bytes.now ≡ 4) }
    ensures { result ≡ spec.message its bytes.now (option_map (λ dev. dev.0) dev) }
{
    let Some(dev) = dev else {
        return Route::NoRequester;
    };
    let ev = if bytes.len() == 2 {
        u32::from(LittleEndian::read_u16(bytes))
    } else {
        LittleEndian::read_u32(bytes)
    };
    Route::Signal {
        its,
        dev,
        ev: EventId(ev),
    }
}

// A write of memory, if no byte of it is in a translator's frames.
fn no_message(translators: &[Its], addr: Addr, count: u64) -> Route
    requires { 0 < count }
    ensures { result ≡ (if list_any (spec.meets_frames addr.0 count) translators.now
        then route.Frame else route.Poke) }
{
    for translator in translators {
        if meets_frames(translator, addr, count) {
            return Route::Frame;
        }
    }
    Route::Poke
}

fn meets_frames(translator: &Its, addr: Addr, count: u64) -> bool
    requires { 0 < count }
    ensures { result ≡ spec.meets_frames addr.0 count translator.now }
{
    match translator.frames {
        Some(frames) => {
            addr.0.saturating_sub(frames.0) < FRAMES && frames.0.saturating_sub(addr.0) < count
        }
        None => false,
    }
}
