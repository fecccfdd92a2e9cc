//! Calls that may end a translation, and how often there was one.
ghost use Rattle.std.specs.Prelude.{◌≡◌};
ghost use Rattle.its_numbers.specs.Routes as spec;

use its_command::Op;
use its_plain::StepReply;

/// A step that was answered so left the maps.
pub fn step_leaves_maps(reply: &StepReply) -> bool
    ensures { result ≡ spec.step_leaves_maps reply.now }
{
    match *reply {
        StepReply::Ran(op) => leaves_maps(op),
        StepReply::Idle | StepReply::Refused(..) | StepReply::QueueFault(_) => true,
    }
}

fn leaves_maps(op: Op) -> bool
    ensures { result ≡ spec.leaves_maps op }
{
    match op {
        Op::Int | Op::Clear | Op::Sync | Op::Inv | Op::Invall | Op::Movall | Op::Unknown(_) => true,
        Op::Movi | Op::Mapd | Op::Mapc | Op::Mapti | Op::Mapi | Op::Discard => false,
    }
}

/// A register at this offset is neither GITS_BASER0 nor GITS_BASER1.
pub fn is_no_table(offset: u32) -> bool
    ensures { result ≡ spec.is_no_table offset }
{
    offset < 0x100 || offset >= 0x110
}

/// The next number. After the greatest one comes 0.
pub fn next_count(count: u64) -> u64
    ensures { result ≡ spec.next_count count }
{
    if count == u64::MAX { 0 } else { count + 1 }
}
