//! Commands from their 32 bytes (IHI 0069, section 5.3).
ghost use Rattle.std.specs.Prelude.{◌≡◌};
ghost use Rattle.its_command.specs.Commands as spec;

use crate::command::Command;
use crate::fields::{EventIdBits, IttAddr, RdBase, UnknownOp};
use its_types::{DeviceId, EventId, Icid, Intid, bit_of, field, le_u64};

/// The command that 32 bytes are. Bits that it has no field for are free.
#[tactic(auto, using(crate::proofs::Meaning::is_decoded), unfolding(crate::specs::Commands::decoded))]
pub fn decode(bytes: &[u8; 32]) -> Command
    ensures decoded { result ≡ spec.decoded bytes.now }
    ensures command { spec.IsCommand bytes.now result }
{
    match field(le_u64(bytes, 0), 0, 8) as u8 {
        0x01 => Command::Movi {
            dev: device(bytes),
            ev: event(bytes),
            icid: collection(bytes),
        },
        0x03 => Command::Int {
            dev: device(bytes),
            ev: event(bytes),
        },
        0x04 => Command::Clear {
            dev: device(bytes),
            ev: event(bytes),
        },
        0x05 => Command::Sync {
            target: target(bytes),
        },
        0x08 => Command::Mapd {
            dev: device(bytes),
            bits: event_id_bits(bytes),
            itt: itt(bytes),
            valid: valid(bytes),
        },
        0x09 => Command::Mapc {
            icid: collection(bytes),
            target: target(bytes),
            valid: valid(bytes),
        },
        0x0A => Command::Mapti {
            dev: device(bytes),
            ev: event(bytes),
            intid: interrupt(bytes),
            icid: collection(bytes),
        },
        0x0B => Command::Mapi {
            dev: device(bytes),
            ev: event(bytes),
            icid: collection(bytes),
        },
        0x0C => Command::Inv {
            dev: device(bytes),
            ev: event(bytes),
        },
        0x0D => Command::Invall {
            icid: collection(bytes),
        },
        0x0E => Command::Movall {
            from: target(bytes),
            to: second_target(bytes),
        },
        0x0F => Command::Discard {
            dev: device(bytes),
            ev: event(bytes),
        },
        opcode => Command::Unknown(UnknownOp::new(opcode)),
    }
}

fn device(bytes: &[u8; 32]) -> DeviceId
    ensures { result.0 ≡ spec.device_of bytes.now }
{
    DeviceId(field(le_u64(bytes, 0), 32, 32) as u32)
}

fn event(bytes: &[u8; 32]) -> EventId
    ensures { result.0 ≡ spec.event_of bytes.now }
{
    EventId(field(le_u64(bytes, 8), 0, 32) as u32)
}

fn interrupt(bytes: &[u8; 32]) -> Intid
    ensures { result.0 ≡ spec.intid_of bytes.now }
{
    Intid(field(le_u64(bytes, 8), 32, 32) as u32)
}

fn collection(bytes: &[u8; 32]) -> Icid
    ensures { result.0 ≡ spec.icid_of bytes.now }
{
    Icid(field(le_u64(bytes, 16), 0, 16) as u16)
}

fn target(bytes: &[u8; 32]) -> RdBase
    ensures { result ≡ spec.target_of bytes.now }
{
    RdBase::new(field(le_u64(bytes, 16), 16, 36))
}

fn second_target(bytes: &[u8; 32]) -> RdBase
    ensures { result ≡ spec.second_target_of bytes.now }
{
    RdBase::new(field(le_u64(bytes, 24), 16, 36))
}

fn valid(bytes: &[u8; 32]) -> bool
    ensures { result ≡ spec.is_valid bytes.now }
{
    bit_of(le_u64(bytes, 16), 63)
}

fn event_id_bits(bytes: &[u8; 32]) -> EventIdBits
    ensures { result ≡ spec.event_id_bits_of bytes.now }
{
    EventIdBits::new(field(le_u64(bytes, 8), 0, 5) as u8 + 1)
}

fn itt(bytes: &[u8; 32]) -> IttAddr
    ensures { result ≡ spec.itt_of bytes.now }
{
    IttAddr::new(field(le_u64(bytes, 16), 8, 44) * (1 << 8))
}
