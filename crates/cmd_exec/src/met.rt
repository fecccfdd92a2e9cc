//! What a step meets in the queue.
ghost use Rattle.cmd_exec.specs.Met.{Meets};

use gits_regs::Regs;
use guest_windows::Memory;
use its_command::{Command as Taken, decode};
use its_plain::StepReply;

/// What a translator meets.
#[derive(Clone, Copy)]
pub enum Met {
    /// It takes no command: it is idle, or there is no memory where its next command should be.
    Still(StepReply),
    /// Its next command.
    Command(Taken),
}

/// What the translator meets next. A command has 32 bytes, at CREADR in the queue (IHI 0069,
/// section 5.3).
pub fn meet(regs: &Regs, memory: &Memory) -> Met
    ensures { Meets regs.now memory.now result }
{
    if !regs.enabled() || regs.queue_is_empty() {
        return Met::Still(StepReply::Idle);
    }
    let place = regs.queue_place();
    let mut bytes = [0; 32];
    if memory.read(place, &mut bytes).is_err() {
        return Met::Still(StepReply::QueueFault(place));
    }
    Met::Command(decode(&bytes))
}
