//! Which translations a call ends.
ghost use Rattle.std.specs.Prelude.{◌≡◌};
ghost use Rattle.its_steps.specs.Endings.{ending_in};
ghost use Rattle.cmd_engine.specs.Cached.{ending_by};

use its_command::Command;
use its_maps::Maps;
use its_types::{DeviceId, EventId};

/// The translations that a call ends, if it takes effect.
#[derive(Clone, Copy, Debug, PartialEq, Eq)]
pub(crate) enum Ending {
    /// None.
    Nothing,
    /// Those of one pair.
    Pair(DeviceId, EventId),
    /// It may be any of the translator's.
    All,
}

/// What a command ends.
pub(crate) fn ending_of(command: &Command, maps: &Maps) -> Ending
    ensures { ending_in maps.now.maps command.now ≡ ending_by result }
{
    match *command {
        Command::Movi { dev, ev, .. } | Command::Discard { dev, ev } => Ending::Pair(dev, ev),
        Command::Mapd { dev, .. } if maps.device(dev).is_some() => Ending::All,
        Command::Mapc { icid, .. } if maps.collection(icid).is_some() => Ending::All,
        _ => Ending::Nothing,
    }
}
