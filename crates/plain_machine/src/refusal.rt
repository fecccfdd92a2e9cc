//! How a command ends that doesn't run.
ghost use Rattle.std.specs.Prelude.{◌≡◌, OnOk, IsTrue};
ghost use Rattle.its_plain.specs.Commands as commands;
ghost use Rattle.plain_machine.specs.declared.refusal.CommandError.TheVariants.{Memory, Refused};

use its_plain::Reason;
use std::alloc::AllocError;

/// Why a command left the state as it was, or, out of memory, in a state of which nothing is said.
#[derive(Clone, Copy, Debug, PartialEq, Eq)]
pub enum CommandError {
    Memory,
    Refused(Reason),
}

impl From<AllocError> for CommandError {
    ghost from_gives = { λ _ e. e ≡ Memory };

    fn from(_: AllocError) -> Self {
        CommandError::Memory
    }
}

impl From<Reason> for CommandError {
    ghost from_gives = { λ r e. e ≡ Refused r };

    fn from(reason: Reason) -> Self {
        CommandError::Refused(reason)
    }
}

/// The refusal, unless the test holds.
pub fn ensure(test: bool, reason: Reason) -> Result<(), Reason>
    ensures value { result ≡ commands.ensure test reason }
    ensures holds { OnOk result (IsTrue test) }
{
    if test { Ok(()) } else { Err(reason) }
}
