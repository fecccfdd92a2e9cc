//! A machine in the state that some calls leave.
ghost use Rattle.std.specs.Prelude.{◌≡◌, IfOk, OnOk};
ghost use Rattle.its_plain.specs.Described.{IsFirstState};
ghost use Rattle.its_plain.specs.Machine.{IsDescription};
ghost use Rattle.its_fit.specs.Replays as spec;

use event_script::Calls;
use its_plain::{Call, Desc, MakeError};
use owned_machine::Machine;
use std::alloc::{AllocError, Global};

/// A call, by its thread and its number there.
#[derive(Clone, Copy, Debug, PartialEq, Eq)]
pub struct Made {
    /// Counted from 0.
    pub thread: usize,
    /// Counted from 0 in each thread.
    pub call: usize,
}

/// The call of a thread, if there is one.
pub fn call_at(calls: &[Calls], made: Made) -> Option<Call>
    ensures { result ≡ spec.call_at calls.now made.thread made.call }
{
    let thread = calls.get(made.thread)?;
    thread.get(made.call)
}

/// The machine of a description that made one already. What was no fault then is none now, so that
/// only memory can run out.
pub fn remade(alloc: Global, desc: &Desc) -> Result<Machine, AllocError>
    requires { IsDescription desc.now }
    ensures { IfOk result (λ m. IsFirstState desc.now m) }
{
    match Machine::new(alloc, desc) {
        Ok(machine) => Ok(machine),
        Err(MakeError::NoMemory | MakeError::Fault(_)) => Err(AllocError),
    }
}

/// Makes calls one after another, and passes over one that isn't there.
pub fn replay(
    alloc: Global,
    machine: &mut Machine,
    calls: &[Calls],
    log: &[Made],
) -> Result<(), AllocError>
    ensures { OnOk result (machine.new ≡ spec.played calls.now machine.old log.now) }
{
    let mut rest = log;
    while let [made, later @ ..] = rest {
        if let Some(call) = call_at(calls, *made) {
            machine.answer(alloc, &call)?;
        }
        rest = later;
    }
    Ok(())
}
