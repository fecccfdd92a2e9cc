//! What the next step reads of guest memory, before the configurations are known.
ghost use Rattle.std.specs.Prelude.{◌≡◌, ℕ, []};
ghost use Rattle.its_plain.specs.Plain.{Plain};
ghost use Rattle.its_shared.specs.Besides as spec;
ghost use Rattle.step_views.specs.Reads.{reads, still_reads};

use crate::besides::{Besides, read_besides};
use cmd_exec::{Met, meet};
use gits_regs::Regs;
use guest_windows::Memory;
use its_maps::Maps;
use its_plain::StepReply;
use its_types::{Addr, Shape};

/// What a step reads.
#[derive(Clone, Copy)]
pub struct StepReads {
    /// Where its command's 32 bytes are, or should be. None where it has no command to take.
    pub command: Option<Addr>,
    /// What the command reads besides.
    pub besides: Besides,
}

/// What the next step of a translator reads, as memory has its command now.
pub fn step_reads(regs: &Regs, maps: &Maps, memory: &Memory, shape: Shape) -> StepReads
    ensures { (u : Plain) (its : ℕ) → spec.HasParts u its shape regs.now maps.now.maps memory.now
        → reads u its ≡ spec.stretches shape u.redistributors result }
{
    match meet(regs, memory) {
        Met::Still(reply) => StepReads {
            command: missing(reply),
            besides: Besides::Nothing,
        },
        Met::Command(command) => StepReads {
            command: Some(regs.queue_place()),
            besides: read_besides(regs, maps, shape, &command),
        },
    }
}

// Where no command is met: where it should be, if there should be one.
fn missing(reply: StepReply) -> Option<Addr>
    ensures { spec.told_first result [] ≡ still_reads reply }
{
    match reply {
        StepReply::QueueFault(place) => Some(place),
        StepReply::Idle | StepReply::Ran(_) | StepReply::Refused(..) => None,
    }
}
