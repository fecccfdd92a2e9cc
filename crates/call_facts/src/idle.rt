//! Why a translator takes no command.
ghost use Rattle.std.specs.Prelude.{◌≡◌};
ghost use Rattle.call_facts.specs.Idle as spec;

use gits_regs::Regs;

/// Why a translator takes no command.
#[derive(Clone, Copy, Debug, PartialEq, Eq)]
pub enum IdleCause {
    /// It isn't enabled.
    NotEnabled,
    /// No command waits in its queue.
    Empty,
}

/// Why a translator takes no command, if it takes none.
pub fn idle_cause(regs: &Regs) -> Option<IdleCause>
    ensures { result ≡ spec.idle_cause regs.now }
{
    if !regs.enabled() {
        Some(IdleCause::NotEnabled)
    } else if regs.queue_is_empty() {
        Some(IdleCause::Empty)
    } else {
        None
    }
}
