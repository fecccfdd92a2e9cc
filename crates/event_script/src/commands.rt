//! The commands that a `command` line can have.
ghost use Rattle.std.specs.Prelude.{◌≡◌, map};
ghost use Rattle.event_script.specs.Commands as spec;

use crate::fault::{Kind, ensure};
use crate::fields::{arg, collection, device, event, interrupt, number_within};
use crate::words::CommandWord;
use its_command::{Command, EventIdBits, IttAddr, RdBase};

/// How many fields the line of a command has.
pub fn command_fields(word: CommandWord) -> usize
    ensures { result ≡ spec.command_fields word }
{
    match word {
        CommandWord::Unmapd | CommandWord::Unmapc | CommandWord::Invall | CommandWord::Sync => 4,
        CommandWord::Mapc
        | CommandWord::Movall
        | CommandWord::Int
        | CommandWord::Clear
        | CommandWord::Discard
        | CommandWord::Inv => 5,
        CommandWord::Mapd | CommandWord::Mapi | CommandWord::Movi => 6,
        CommandWord::Mapti => 7,
    }
}

#[tactic(auto, unfolding(crate::specs::Commands::rdbase))]
fn rdbase(field: &[u8]) -> Result<RdBase, Kind>
    ensures { result ≡ spec.rdbase field.now }
{
    Ok(RdBase::new(number_within(0, (1 << 36) - 1, field)?))
}

#[tactic(auto, unfolding(crate::specs::Commands::itt_address))]
fn itt_address(field: &[u8]) -> Result<IttAddr, Kind>
    ensures { result ≡ spec.itt_address field.now }
{
    let addr = number_within(0, (1 << 52) - 1, field)?;
    ensure(addr % 256 == 0, Kind::Number)?;
    Ok(IttAddr::new(addr))
}

#[tactic(auto, unfolding(crate::specs::Commands::event_id_bits))]
fn event_id_bits(field: &[u8]) -> Result<EventIdBits, Kind>
    ensures { result ≡ spec.event_id_bits field.now }
{
    Ok(EventIdBits::new(number_within(1, 32, field)? as u8))
}

#[tactic(auto, unfolding(crate::specs::Commands::mapd_of))]
fn mapd_of(fields: &[&[u8]]) -> Result<Command, Kind>
    ensures { result ≡ spec.mapd_of (map (λ f. f.now) fields.now) }
{
    Ok(Command::Mapd {
        dev: device(arg(fields, 3))?,
        bits: event_id_bits(arg(fields, 4))?,
        itt: itt_address(arg(fields, 5))?,
        valid: true,
    })
}

#[tactic(auto, unfolding(crate::specs::Commands::unmapd_of))]
fn unmapd_of(fields: &[&[u8]]) -> Result<Command, Kind>
    ensures { result ≡ spec.unmapd_of (map (λ f. f.now) fields.now) }
{
    Ok(Command::Mapd {
        dev: device(arg(fields, 3))?,
        bits: EventIdBits::new(1),
        itt: IttAddr::new(0),
        valid: false,
    })
}

#[tactic(auto, unfolding(crate::specs::Commands::mapc_of))]
fn mapc_of(fields: &[&[u8]]) -> Result<Command, Kind>
    ensures { result ≡ spec.mapc_of (map (λ f. f.now) fields.now) }
{
    Ok(Command::Mapc {
        icid: collection(arg(fields, 3))?,
        target: rdbase(arg(fields, 4))?,
        valid: true,
    })
}

#[tactic(auto, unfolding(crate::specs::Commands::unmapc_of))]
fn unmapc_of(fields: &[&[u8]]) -> Result<Command, Kind>
    ensures { result ≡ spec.unmapc_of (map (λ f. f.now) fields.now) }
{
    Ok(Command::Mapc {
        icid: collection(arg(fields, 3))?,
        target: RdBase::new(0),
        valid: false,
    })
}

#[tactic(auto, unfolding(crate::specs::Commands::mapti_of))]
fn mapti_of(fields: &[&[u8]]) -> Result<Command, Kind>
    ensures { result ≡ spec.mapti_of (map (λ f. f.now) fields.now) }
{
    Ok(Command::Mapti {
        dev: device(arg(fields, 3))?,
        ev: event(arg(fields, 4))?,
        intid: interrupt(arg(fields, 5))?,
        icid: collection(arg(fields, 6))?,
    })
}

#[tactic(auto, unfolding(crate::specs::Commands::movall_of))]
fn movall_of(fields: &[&[u8]]) -> Result<Command, Kind>
    ensures { result ≡ spec.movall_of (map (λ f. f.now) fields.now) }
{
    Ok(Command::Movall {
        from: rdbase(arg(fields, 3))?,
        to: rdbase(arg(fields, 4))?,
    })
}

#[tactic(auto, unfolding(crate::specs::Commands::mapi_of))]
fn mapi_of(fields: &[&[u8]]) -> Result<Command, Kind>
    ensures { result ≡ spec.mapi_of (map (λ f. f.now) fields.now) }
{
    Ok(Command::Mapi {
        dev: device(arg(fields, 3))?,
        ev: event(arg(fields, 4))?,
        icid: collection(arg(fields, 5))?,
    })
}

#[tactic(auto, unfolding(crate::specs::Commands::movi_of))]
fn movi_of(fields: &[&[u8]]) -> Result<Command, Kind>
    ensures { result ≡ spec.movi_of (map (λ f. f.now) fields.now) }
{
    Ok(Command::Movi {
        dev: device(arg(fields, 3))?,
        ev: event(arg(fields, 4))?,
        icid: collection(arg(fields, 5))?,
    })
}

#[tactic(auto, unfolding(crate::specs::Commands::int_of))]
fn int_of(fields: &[&[u8]]) -> Result<Command, Kind>
    ensures { result ≡ spec.int_of (map (λ f. f.now) fields.now) }
{
    Ok(Command::Int {
        dev: device(arg(fields, 3))?,
        ev: event(arg(fields, 4))?,
    })
}

#[tactic(auto, unfolding(crate::specs::Commands::clear_of))]
fn clear_of(fields: &[&[u8]]) -> Result<Command, Kind>
    ensures { result ≡ spec.clear_of (map (λ f. f.now) fields.now) }
{
    Ok(Command::Clear {
        dev: device(arg(fields, 3))?,
        ev: event(arg(fields, 4))?,
    })
}

#[tactic(auto, unfolding(crate::specs::Commands::discard_of))]
fn discard_of(fields: &[&[u8]]) -> Result<Command, Kind>
    ensures { result ≡ spec.discard_of (map (λ f. f.now) fields.now) }
{
    Ok(Command::Discard {
        dev: device(arg(fields, 3))?,
        ev: event(arg(fields, 4))?,
    })
}

#[tactic(auto, unfolding(crate::specs::Commands::inv_of))]
fn inv_of(fields: &[&[u8]]) -> Result<Command, Kind>
    ensures { result ≡ spec.inv_of (map (λ f. f.now) fields.now) }
{
    Ok(Command::Inv {
        dev: device(arg(fields, 3))?,
        ev: event(arg(fields, 4))?,
    })
}

#[tactic(auto, unfolding(crate::specs::Commands::invall_of))]
fn invall_of(fields: &[&[u8]]) -> Result<Command, Kind>
    ensures { result ≡ spec.invall_of (map (λ f. f.now) fields.now) }
{
    Ok(Command::Invall {
        icid: collection(arg(fields, 3))?,
    })
}

#[tactic(auto, unfolding(crate::specs::Commands::sync_of))]
fn sync_of(fields: &[&[u8]]) -> Result<Command, Kind>
    ensures { result ≡ spec.sync_of (map (λ f. f.now) fields.now) }
{
    Ok(Command::Sync {
        target: rdbase(arg(fields, 3))?,
    })
}

/// The command of a line with such a word.
#[tactic(auto, unfolding(crate::specs::Commands::command_of))]
pub fn command_of(word: CommandWord, fields: &[&[u8]]) -> Result<Command, Kind>
    ensures { result ≡ spec.command_of word (map (λ f. f.now) fields.now) }
{
    match word {
        CommandWord::Mapd => mapd_of(fields),
        CommandWord::Unmapd => unmapd_of(fields),
        CommandWord::Mapc => mapc_of(fields),
        CommandWord::Unmapc => unmapc_of(fields),
        CommandWord::Mapti => mapti_of(fields),
        CommandWord::Mapi => mapi_of(fields),
        CommandWord::Movi => movi_of(fields),
        CommandWord::Movall => movall_of(fields),
        CommandWord::Int => int_of(fields),
        CommandWord::Clear => clear_of(fields),
        CommandWord::Discard => discard_of(fields),
        CommandWord::Inv => inv_of(fields),
        CommandWord::Invall => invall_of(fields),
        CommandWord::Sync => sync_of(fields),
    }
}
