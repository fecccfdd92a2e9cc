//! The fields of a line.
ghost use Rattle.std.specs.Prelude.{◌≡◌, ◌<◌, ◌≤◌, ◌&&◌, List, IfOk, map, length};
ghost use Rattle.event_script.specs.Outcome.{Gives};
ghost use Rattle.event_script.specs.Fields as spec;

use crate::fault::{Kind, LineError, ensure};
use crate::text;
use its_plain::Bytes64;
use its_types::{Addr, DeviceId, EventId, Icid, Intid, Listed, Vcpu};
use std::alloc::Global;

/// The field at a place, or an empty one.
pub fn arg<'a>(fields: &[&'a [u8]], at: usize) -> &'a [u8]
    ensures { result.now ≡ spec.arg (map (λ f. f.now) fields.now) at }
{
    match fields.get(at) {
        Some(field) => field,
        None => &[],
    }
}

/// A number from `low` to `high`, both included.
#[tactic(auto, unfolding(crate::specs::Fields::number_within))]
pub fn number_within(low: u64, high: u64, field: &[u8]) -> Result<u64, Kind>
    ensures value { result ≡ spec.number_within low high field.now }
    ensures within { IfOk result (λ n. (low ≤ n) × (n ≤ high)) }
{
    match text::number(field) {
        Some(number) if low <= number && number <= high => Ok(number),
        _ => Err(Kind::Number),
    }
}

/// A number of 64 bits.
pub fn any_number(field: &[u8]) -> Result<u64, Kind>
    ensures { result ≡ spec.any_number field.now }
{
    number_within(0, u64::MAX, field)
}

/// A guest physical address of 64 bits. Whether memory is there is found later.
#[tactic(auto, unfolding(crate::specs::Fields::address))]
pub fn address(field: &[u8]) -> Result<Addr, Kind>
    ensures { result ≡ spec.address field.now }
{
    Ok(Addr(any_number(field)?))
}

/// A DeviceID of 32 bits, in range or not.
#[tactic(auto, unfolding(crate::specs::Fields::device))]
pub fn device(field: &[u8]) -> Result<DeviceId, Kind>
    ensures { result ≡ spec.device field.now }
{
    Ok(DeviceId(number_within(0, u64::from(u32::MAX), field)? as u32))
}

/// An EventID of 32 bits, in range or not.
#[tactic(auto, unfolding(crate::specs::Fields::event))]
pub fn event(field: &[u8]) -> Result<EventId, Kind>
    ensures { result ≡ spec.event field.now }
{
    Ok(EventId(number_within(0, u64::from(u32::MAX), field)? as u32))
}

/// An INTID of 32 bits, in range or not.
#[tactic(auto, unfolding(crate::specs::Fields::interrupt))]
pub fn interrupt(field: &[u8]) -> Result<Intid, Kind>
    ensures { result ≡ spec.interrupt field.now }
{
    Ok(Intid(number_within(0, u64::from(u32::MAX), field)? as u32))
}

/// A number of a collection, of 16 bits.
#[tactic(auto, unfolding(crate::specs::Fields::collection))]
pub fn collection(field: &[u8]) -> Result<Icid, Kind>
    ensures { result ≡ spec.collection field.now }
{
    Ok(Icid(number_within(0, u64::from(u16::MAX), field)? as u16))
}

/// A processor of a machine that has so many.
#[tactic(auto, unfolding(crate::specs::Fields::processor))]
pub fn processor(vcpus: u16, field: &[u8]) -> Result<Vcpu, Kind>
    ensures value { result ≡ spec.processor vcpus field.now }
    ensures below { IfOk result (λ v. v.0 < vcpus) }
{
    let number = any_number(field)?;
    ensure(number < u64::from(vcpus), Kind::Number)?;
    Ok(Vcpu(number as u16))
}

/// From one byte to so many.
#[tactic(auto, unfolding(crate::specs::Fields::bytes_within))]
pub fn bytes_within(alloc: Global, most: usize, field: &[u8]) -> Result<Listed<u8>, LineError>
    ensures { Gives (λ bytes. bytes) result (spec.bytes_within most field.now) }
{
    match hex::decode(alloc, field) {
        Ok(bytes) if !bytes.is_empty() && bytes.len() <= most => Ok(Listed::from_vec(bytes)),
        Err(hex::FromHexError::OutOfMemory) => Err(LineError::Memory),
        _ => Err(LineError::Fault(Kind::Hex)),
    }
}

/// From one byte to 64.
#[tactic(auto, unfolding(crate::specs::Fields::bytes_within))]
pub fn few_bytes(field: &[u8]) -> Result<Bytes64, Kind>
    ensures { result ≡ spec.bytes_within 64 field.now }
{
    let count = field.len() / 2;
    if count == 0 || count > 64 {
        return Err(Kind::Hex);
    }
    let mut buffer = [0; 64];
    match hex::decode_to_slice(field, &mut buffer[..count]) {
        Ok(()) => Ok(Bytes64::new(&buffer[..count])),
        Err(_) => Err(Kind::Hex),
    }
}
