//! The 32 bytes of commands (IHI 0069, section 5.3).
ghost use Rattle.std.specs.Prelude.{◌≡◌, ◌+◌, ◌*◌, ◌<◌, ◌^◌};
ghost use Rattle.its_command.specs.Commands as spec;

use crate::command::Command;
use crate::fields::RdBase;
use its_types::{DeviceId, EventId, Icid, Intid, put_le_u64};

/// The 32 bytes of a command, with zeros at the bits that it has no field for.
#[tactic(auto, using(crate::proofs::Encoded::bytes_are_command))]
pub fn encode(command: &Command) -> [u8; 32]
    ensures encoded { result ≡ spec.encoded command.now }
    ensures command { spec.IsCommand result command.now }
    ensures within { spec.IsWithinBits command.now }
{
    form_of(command)
}

#[tactic(auto, unfolding(crate::specs::Commands::encoded))]
fn form_of(command: &Command) -> [u8; 32]
    ensures encoded { result ≡ spec.encoded command.now }
    ensures within { spec.IsWithinBits command.now }
{
    match *command {
        Command::Movi { dev, ev, icid } => {
            doublewords(of_device(0x01, dev), of_event(ev), of_collection(icid), 0)
        }
        Command::Int { dev, ev } => doublewords(of_device(0x03, dev), of_event(ev), 0, 0),
        Command::Clear { dev, ev } => doublewords(of_device(0x04, dev), of_event(ev), 0, 0),
        Command::Sync { target } => doublewords(0x05, 0, at_target(target), 0),
        Command::Mapd {
            dev,
            bits,
            itt,
            valid,
        } => doublewords(
            of_device(0x08, dev),
            u64::from(bits.get()) - 1,
            with_valid(itt.get(), valid),
            0,
        ),
        Command::Mapc {
            icid,
            target,
            valid,
        } => doublewords(
            0x09,
            0,
            with_valid(collection_and_target(icid, target), valid),
            0,
        ),
        Command::Mapti {
            dev,
            ev,
            intid,
            icid,
        } => doublewords(
            of_device(0x0A, dev),
            event_and_interrupt(ev, intid),
            of_collection(icid),
            0,
        ),
        Command::Mapi { dev, ev, icid } => {
            doublewords(of_device(0x0B, dev), of_event(ev), of_collection(icid), 0)
        }
        Command::Inv { dev, ev } => doublewords(of_device(0x0C, dev), of_event(ev), 0, 0),
        Command::Invall { icid } => doublewords(0x0D, 0, of_collection(icid), 0),
        Command::Movall { from, to } => doublewords(0x0E, 0, at_target(from), at_target(to)),
        Command::Discard { dev, ev } => doublewords(of_device(0x0F, dev), of_event(ev), 0, 0),
        Command::Unknown(opcode) => doublewords(u64::from(opcode.get()), 0, 0, 0),
    }
}

fn doublewords(first: u64, second: u64, third: u64, fourth: u64) -> [u8; 32]
    ensures { result ≡ spec.doublewords first second third fourth }
{
    let mut bytes = [0; 32];
    put_le_u64(&mut bytes, 0, first);
    put_le_u64(&mut bytes, 8, second);
    put_le_u64(&mut bytes, 16, third);
    put_le_u64(&mut bytes, 24, fourth);
    bytes
}

/// The first doubleword of a command of a device.
fn of_device(opcode: u8, dev: DeviceId) -> u64
    ensures fields { result ≡ spec.of_device opcode dev.0 }
    ensures fits { dev.0 < 2 ^ 32 }
{
    u64::from(opcode) + u64::from(dev.0) * (1 << 32)
}

/// The second doubleword of a command of an event.
fn of_event(ev: EventId) -> u64
    ensures fields { result ≡ ev.0 }
    ensures fits { ev.0 < 2 ^ 32 }
{
    u64::from(ev.0)
}

/// The second doubleword of MAPTI.
fn event_and_interrupt(ev: EventId, intid: Intid) -> u64
    ensures fields { result ≡ ev.0 + intid.0 * 2 ^ 32 }
    ensures event_fits { ev.0 < 2 ^ 32 }
    ensures interrupt_fits { intid.0 < 2 ^ 32 }
{
    u64::from(ev.0) + u64::from(intid.0) * (1 << 32)
}

/// The third doubleword of a command of a collection.
fn of_collection(icid: Icid) -> u64
    ensures fields { result ≡ icid.0 }
    ensures fits { icid.0 < 2 ^ 16 }
{
    u64::from(icid.0)
}

/// A processor's number where it stands in the third or fourth doubleword.
fn at_target(target: RdBase) -> u64
    ensures fields { result ≡ spec.at_target target }
    ensures fits { target < 2 ^ 36 }
{
    target.get() * (1 << 16)
}

/// The third doubleword of MAPC, but for V.
fn collection_and_target(icid: Icid, target: RdBase) -> u64
    ensures fields { result ≡ icid.0 + spec.at_target target }
    ensures below { result < 2 ^ 63 }
    ensures collection_fits { icid.0 < 2 ^ 16 }
    ensures target_fits { target < 2 ^ 36 }
{
    of_collection(icid) + at_target(target)
}

/// A doubleword with V where it stands.
fn with_valid(number: u64, valid: bool) -> u64
    requires { number < 2 ^ 63 }
    ensures { result ≡ number + spec.at_valid valid }
{
    if valid { number + (1 << 63) } else { number }
}
