//! What the picture of a call shows.
ghost use Rattle.std.specs.Prelude.{◌≡◌};
ghost use Rattle.its_draw.specs.Marks as spec;

use its_command::Op;
use its_plain::{Ack, Call, Reply, Signal, StepReply};
use its_types::Vcpu;

/// What the picture of a call shows.
#[derive(Clone, Copy, Debug, PartialEq, Eq)]
pub enum Mark {
    /// A message that made an LPI pending at a virtual processor.
    Sent(Vcpu),
    /// A message that was dropped.
    Lost,
    /// A virtual processor took an LPI.
    Took(Vcpu),
    /// A virtual processor had none to take.
    NoneTaken(Vcpu),
    /// A command that had its effect.
    Ran(Op),
    /// A command that had none.
    Refused(Op),
    /// A step that took no command.
    Idle,
    /// All tables were written.
    Saved,
    /// A save that was refused, or bytes that don't lie in one window.
    Failed,
    /// Any other call.
    Other,
}

/// What the picture of a call shows that was answered so.
pub fn mark_of(call: &Call, reply: &Reply) -> Mark
    ensures { result ≡ spec.mark_of call.now reply.now }
{
    match *reply {
        Reply::Signal(signal) => signal_mark(signal),
        Reply::NoRequester => Mark::Lost,
        Reply::Step(step) => step_mark(step),
        Reply::Ack(ack) => ack_mark(call, ack),
        Reply::Saved => Mark::Saved,
        Reply::SaveFault(_) | Reply::Outside => Mark::Failed,
        Reply::Ok | Reply::Bytes(_) | Reply::Value(_) | Reply::Copied(_) => Mark::Other,
    }
}

fn signal_mark(signal: Signal) -> Mark
    ensures { result ≡ spec.signal_mark signal }
{
    match signal {
        Signal::Delivered { vcpu, .. } => Mark::Sent(vcpu),
        Signal::Dropped(_) => Mark::Lost,
    }
}

fn step_mark(step: StepReply) -> Mark
    ensures { result ≡ spec.step_mark step }
{
    match step {
        StepReply::Idle => Mark::Idle,
        StepReply::Ran(op) => Mark::Ran(op),
        StepReply::Refused(op, _) => Mark::Refused(op),
        StepReply::QueueFault(_) => Mark::Failed,
    }
}

/// A look at what would be taken takes nothing.
fn ack_mark(call: &Call, ack: Ack) -> Mark
    ensures { result ≡ spec.ack_mark call.now ack }
{
    match *call {
        Call::Take(vcpu) => taken_mark(vcpu, ack),
        Call::Claim { vcpu, .. } => taken_mark(vcpu, ack),
        _ => Mark::Other,
    }
}

fn taken_mark(vcpu: Vcpu, ack: Ack) -> Mark
    ensures { result ≡ spec.taken_mark vcpu ack }
{
    match ack {
        Ack::Some { .. } => Mark::Took(vcpu),
        Ack::None => Mark::NoneTaken(vcpu),
    }
}
