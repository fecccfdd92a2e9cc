//! What a step may add to the maps.
ghost use Rattle.std.specs.Prelude.{◌≡◌, ◌&&◌};
ghost use Rattle.cmd_engine.specs.Rules.{has_run};

use its_command::Command;
use its_maps::Maps;
use its_plain::CmdReply;

/// Which commands a step may take, by what is mapped.
pub trait MapRule {
    ghost use Rattle.std.specs.Prelude.{◌≡◌, Bool};
    ghost use Rattle.its_command.specs.declared.command.Command as command;
    ghost use Rattle.its_types.specs.Maps as maps;

    // it may not take this one where this is mapped, if it isn't refused
    ghost forbidden: { Self → maps.Maps → command.Command → Bool };

    /// Whether a step may not take the command, if it isn't refused.
    fn forbids(&self, maps: &Maps, command: &Command) -> bool
        ensures { result ≡ forbidden self.now maps.now.maps command.now };
}

/// It may take each.
#[derive(Clone, Copy, Debug)]
pub(crate) struct NoRule;

impl MapRule for NoRule {
    ghost use Rattle.std.specs.Prelude.{false};

    ghost forbidden = { λ _ _ _. false };

    fn forbids(&self, _maps: &Maps, _command: &Command) -> bool {
        false
    }
}

/// Whether a command that is answered so isn't refused, and a step may not take it.
pub(crate) fn is_forbidden<L: MapRule>(
    rule: &L,
    maps: &Maps,
    command: &Command,
    said: CmdReply,
) -> bool
    ensures { result ≡ has_run said && L.forbidden rule.now maps.now.maps command.now }
{
    match said {
        CmdReply::Ran(_) => rule.forbids(maps, command),
        CmdReply::Refused(..) => false,
    }
}
