//! What a step tells that was made.
ghost use Rattle.std.specs.Prelude.{◌≡◌, ◌⊎◌, ◌&&◌, ◌||◌, ℕ};
ghost use Rattle.owned_parts.specs.RedistSets.{is_in};
ghost use Rattle.owned_parts.specs.declared.redist_set.RedistSet.TheVariants.{Nothing};
ghost use Rattle.cmd_engine.specs.Concern.{untold_of};
ghost use Rattle.cmd_engine.specs.Rules.{has_run};

use crate::tried::Tried;
use cmd_exec::Needed;
use its_plain::{CmdReply, StepReply};
use its_types::Placed;
use owned_parts::RedistSet;

/// A step, and whom it concerned.
#[derive(Clone, Copy, Debug, PartialEq, Eq)]
pub struct Stepped {
    /// What became of it.
    pub reply: StepReply,
    /// The redistributors whose pending LPIs or configuration it read or changed: none where no
    /// command ran. Each other one is as it was.
    pub concerned: RedistSet,
}

/// Whom a command concerns that is answered so. It needs parts of one kind.
pub(crate) fn concerned_by(said: CmdReply, needed: Needed) -> RedistSet
    requires { (needed.confs ≡ Nothing) ⊎ (needed.pends ≡ Nothing) }
    ensures { (vcpu : ℕ) → is_in result vcpu
        ≡ (has_run said && (is_in needed.confs vcpu || is_in needed.pends vcpu)) }
{
    match said {
        CmdReply::Refused(..) => RedistSet::Nothing,
        CmdReply::Ran(_) if needed.confs == RedistSet::Nothing => needed.pends,
        CmdReply::Ran(_) => needed.confs,
    }
}

/// The reply alone.
pub(crate) fn untold(tried: Tried<Stepped>) -> Tried<StepReply>
    ensures { result ≡ untold_of tried }
{
    match tried {
        Tried::Done(placed) => Tried::Done(Placed {
            place: placed.place,
            reply: placed.reply.reply,
        }),
        Tried::Busy(busy) => Tried::Busy(busy),
        Tried::Raced(raced) => Tried::Raced(raced),
        Tried::Late => Tried::Late,
        Tried::Spent => Tried::Spent,
        Tried::NoMemory => Tried::NoMemory,
        Tried::Full => Tried::Full,
    }
}
