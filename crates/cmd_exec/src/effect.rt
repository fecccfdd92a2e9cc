//! What a command does that isn't refused.
use its_command::Command;
use its_plain::{CmdReply, Reason, StepReply};
use its_types::{Device, DeviceId, Event, EventId, Icid, Intid, Vcpu};

/// What a command does that isn't refused.
#[derive(Clone, Copy)]
pub enum Effect {
    /// Of a SYNC, and of a MAPTI or MAPI of a mapped event.
    Nothing,
    /// It then has no event.
    MapDevice {
        dev: DeviceId,
        device: Device,
    },
    /// Its events go with it. Pending LPIs stay.
    UnmapDevice {
        dev: DeviceId,
    },
    /// Pending LPIs stay.
    MapCollection {
        icid: Icid,
        vcpu: Vcpu,
    },
    /// The pending LPIs of its events go with it.
    MoveCollection {
        icid: Icid,
        from: Vcpu,
        to: Vcpu,
    },
    /// Events and pending LPIs stay.
    UnmapCollection {
        icid: Icid,
    },
    /// The configuration of its LPI is read again.
    MapEvent {
        dev: DeviceId,
        ev: EventId,
        event: Event,
    },
    /// Its LPI goes with it, if it is pending.
    MoveEvent {
        dev: DeviceId,
        ev: EventId,
        intid: Intid,
        icid: Icid,
        from: Vcpu,
        to: Vcpu,
    },
    /// Its LPI is not pending at the target any more, if there is one.
    UnmapEvent {
        dev: DeviceId,
        ev: EventId,
        intid: Intid,
        target: Option<Vcpu>,
    },
    /// The LPI becomes pending.
    SetLpi {
        intid: Intid,
        vcpu: Vcpu,
    },
    /// The LPI is not pending any more.
    ClearLpi {
        intid: Intid,
        vcpu: Vcpu,
    },
    /// The LPI's configuration is read again.
    Reread {
        intid: Intid,
    },
    /// Those of the LPIs of all its events are.
    RereadCollection {
        icid: Icid,
    },
    /// All pending LPIs go to the other virtual processor.
    MoveAll {
        from: Vcpu,
        to: Vcpu,
    },
}

/// The outcome of a command on the parts that it was planned on: its effect, or the first reason to
/// refuse it (IHI 0069, section 5.3).
#[derive(Clone, Copy)]
pub struct Planned {
    /// The command itself.
    pub command: Command,
    pub(crate) outcome: Result<Effect, Reason>,
}

impl Planned {
    ghost use Rattle.std.specs.Prelude.{◌≡◌};
    ghost use Rattle.cmd_exec.specs.Executed.{planned_reply, as_step};

    /// What the command is answered.
    pub fn reply(&self) -> CmdReply
        ensures { result ≡ planned_reply self.now }
    {
        match self.outcome {
            Ok(_) => CmdReply::Ran(self.command.op()),
            Err(reason) => CmdReply::Refused(self.command.op(), reason),
        }
    }

    /// What a step is answered that met the command.
    pub fn step_reply(&self) -> StepReply
        ensures { result ≡ as_step (planned_reply self.now) }
    {
        match self.reply() {
            CmdReply::Ran(op) => StepReply::Ran(op),
            CmdReply::Refused(op, reason) => StepReply::Refused(op, reason),
        }
    }
}
