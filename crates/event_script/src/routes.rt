//! What a device's write by address is, by what was said of frames and requesters.
ghost use Rattle.std.specs.Prelude.{◌≡◌, ◌⊎◌, IfSome, find, length};
ghost use Rattle.std.specs.List.{list_any};
ghost use Rattle.std.specs.Option.{option_map};
ghost use Rattle.its_plain.specs.Doorbells as doorbells;
ghost use Rattle.event_script.specs.Described.{desc_so_far, translators_of};
ghost use Rattle.event_script.specs.Routes as spec;

use crate::draft::Draft;
use byteorder::{ByteOrder, LittleEndian};
use its_plain::{Its, Requesters, Route};
use its_types::{Addr, DeviceId, EventId};

/// How many bytes the two frames of a translator have.
const FRAMES: u128 = 131_072;

/// Where GITS_TRANSLATER stands in them.
const TRANSLATER: u128 = 65_536 + 64;

impl Draft {
    /// The route of a requester's write.
    #[tactic(auto, unfolding(its_plain::specs::Doorbells::route_of))]
    pub fn route(&self, req: u32, addr: Addr, bytes: &[u8]) -> Route
        ensures { result ≡ spec.said_route (desc_so_far self.now) req addr.0 bytes.now }
    {
        match self.rung(addr.0, bytes.len()) {
            Some(its) => self.message(its, req, bytes),
            None => self.no_message(addr.0, bytes.len()),
        }
    }

    /// A requester's message to a translator.
    fn message(&self, its: u8, req: u32, bytes: &[u8]) -> Route
        requires { (length bytes.now ≡ 2) ⊎ (length bytes.now ≡ 4) }
        ensures { result ≡ spec.in_range (doorbells.message its bytes.now
            (doorbells.device_of_requester req self.now.requesters)) }
    {
        match device_of(self.requesters.as_slice(), req) {
            Some(dev) => Route::Signal {
                its,
                dev,
                ev: event_of(bytes),
            },
            None => Route::NoRequester,
        }
    }

    /// A write that is no message.
    fn no_message(&self, addr: u64, count: usize) -> Route
        ensures { result ≡ spec.no_message (translators_of self.now) addr count }
    {
        if self.meets_frames(addr, count) {
            Route::Frame
        } else {
            Route::Poke
        }
    }

    /// The translator whose doorbell is written.
    fn rung(&self, addr: u64, count: usize) -> Option<u8>
        ensures its { result ≡ doorbells.rung 0 addr count (translators_of self.now) }
        ensures either { IfSome result (λ _. (count ≡ 2) ⊎ (count ≡ 4)) }
    {
        if rings(addr, count, self.first) {
            Some(0)
        } else if self.pair && rings(addr, count, self.second) {
            Some(1)
        } else {
            None
        }
    }

    /// Whether one of the bytes is in a frame.
    fn meets_frames(&self, addr: u64, count: usize) -> bool
        ensures { result
            ≡ list_any (doorbells.meets_frames addr count) (translators_of self.now) }
    {
        meets(addr, count, self.first) || self.pair && meets(addr, count, self.second)
    }
}

/// Whether the doorbell of a translator is written.
fn rings(addr: u64, count: usize, its: Its) -> bool
    ensures { result ≡ doorbells.rings addr count its }
{
    match its.frames {
        Some(frames) => {
            u128::from(addr) == u128::from(frames.0) + TRANSLATER && (count == 2 || count == 4)
        }
        None => false,
    }
}

/// Whether one of the bytes is in the frames of a translator.
fn meets(addr: u64, count: usize, its: Its) -> bool
    ensures { result ≡ doorbells.meets_frames addr count its }
{
    match its.frames {
        Some(frames) => {
            u128::from(addr) < u128::from(frames.0) + FRAMES
                && u128::from(frames.0) < u128::from(addr) + count as u128
        }
        None => false,
    }
}

/// The device that a requester is, if it is one.
fn device_of(requesters: &[Requesters], req: u32) -> Option<DeviceId>
    ensures { result ≡ spec.in_reach (doorbells.device_of_requester req requesters.now) }
{
    match range_of(requesters, req) {
        Some(range) => {
            let number = range.dev.0.checked_add(req.saturating_sub(range.first))?;
            Some(DeviceId(number))
        }
        None => None,
    }
}

/// The first range that a requester is in.
fn range_of(requesters: &[Requesters], req: u32) -> Option<&Requesters>
    ensures { option_map (λ r. r.now) result ≡ find (doorbells.is_among req) requesters.now }
{
    requesters
        .iter()
        .find(|range| range.first <= req && req <= range.last)
}

/// The event of a message's bytes.
fn event_of(bytes: &[u8]) -> EventId
    requires { (length bytes.now ≡ 2) ⊎ (length bytes.now ≡ 4) }
    ensures { result ≡ spec.event_of bytes.now }
{
    if bytes.len() == 2 {
        EventId(u32::from(LittleEndian::read_u16(bytes)))
    } else {
        EventId(LittleEndian::read_u32(bytes))
    }
}
