//! What a command names.
ghost use Rattle.std.specs.Prelude.{◌≡◌};
ghost use Rattle.its_explain.specs.Refusals as spec;

use its_command::Command;
use its_types::{DeviceId, EventId, Icid};

/// Its device, or 0.
pub fn device_of(command: &Command) -> DeviceId
    ensures { result ≡ spec.device_named command.now }
{
    match *command {
        Command::Movi { dev, .. }
        | Command::Int { dev, .. }
        | Command::Clear { dev, .. }
        | Command::Mapd { dev, .. }
        | Command::Mapti { dev, .. }
        | Command::Mapi { dev, .. }
        | Command::Inv { dev, .. }
        | Command::Discard { dev, .. } => dev,
        _ => DeviceId(0),
    }
}

/// Its event, or 0.
pub fn event_of(command: &Command) -> EventId
    ensures { result ≡ spec.event_named command.now }
{
    match *command {
        Command::Movi { ev, .. }
        | Command::Int { ev, .. }
        | Command::Clear { ev, .. }
        | Command::Mapti { ev, .. }
        | Command::Mapi { ev, .. }
        | Command::Inv { ev, .. }
        | Command::Discard { ev, .. } => ev,
        _ => EventId(0),
    }
}

/// Its collection.
pub fn collection_of(command: &Command) -> Option<Icid>
    ensures { result ≡ spec.collection_named command.now }
{
    match *command {
        Command::Movi { icid, .. }
        | Command::Mapc { icid, .. }
        | Command::Mapti { icid, .. }
        | Command::Mapi { icid, .. }
        | Command::Invall { icid } => Some(icid),
        _ => None,
    }
}

/// The processor that isn't one of so many.
pub fn target_of(command: &Command, vcpus: u64) -> u64
    ensures { result ≡ spec.target_named vcpus command.now }
{
    match *command {
        Command::Mapc { target, .. } | Command::Sync { target } => target.get(),
        Command::Movall { from, to } => {
            if from.get() < vcpus {
                to.get()
            } else {
                from.get()
            }
        }
        _ => vcpus,
    }
}
