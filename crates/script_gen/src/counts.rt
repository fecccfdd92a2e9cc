//! How the calls of a run ended.
ghost use Rattle.std.specs.Prelude.{◌≡◌, ◌<◌, ◌^◌, length};
ghost use Rattle.its_history.specs.Merged.{list_lines, all_lines};
ghost use Rattle.script_gen.specs.Summary as spec;

use its_history::ThreadList;
use its_plain::{Call, Reply, Signal, StepReply};

/// How the calls of a run ended.
#[derive(Clone, Copy, Debug, PartialEq, Eq)]
pub struct Counts {
    /// How many signals were sent.
    pub signals: u64,
    /// How many of them made an LPI pending.
    pub delivered: u64,
    /// How many steps were made.
    pub commands: u64,
    /// How many of them ran a command.
    pub ran: u64,
}

impl Counts {
    /// No call was counted.
    pub const NONE: Counts = Counts {
        signals: 0,
        delivered: 0,
        commands: 0,
        ran: 0,
    };

    /// How the calls of all lists ended.
    pub fn of(lists: &[ThreadList]) -> Counts
        requires { length (all_lines lists.now) < 2 ^ 64 }
        ensures { result ≡ spec.with_lists lists.now spec.none }
    {
        let mut counts = Counts::NONE;
        for list in lists {
            counts.add_list(list);
        }
        counts
    }

    // Counts a thread's calls.
    fn add_list(&mut self, list: &ThreadList)
        requires { spec.HasRoomFor (length (list_lines list.now)) self.old }
        ensures { self.new ≡ spec.with_replies list.now.calls.now list.now.replies self.old }
    {
        for (call, placed) in list.calls.iter().zip(list.replies.as_slice()) {
            self.add(&call, &placed.reply);
        }
    }

    /// Counts one more call, with its reply.
    pub fn add(&mut self, call: &Call, reply: &Reply)
        requires { spec.HasRoomFor 1 self.old }
        ensures { self.new ≡ spec.with_call call.now reply.now self.old }
    {
        match call {
            Call::Signal { .. } => {
                self.signals += 1;
                self.delivered += u64::from(is_delivered(reply));
            }
            Call::Step { .. } => {
                self.commands += 1;
                self.ran += u64::from(has_run(reply));
            }
            _ => {}
        }
    }
}

fn is_delivered(reply: &Reply) -> bool
    ensures { result ≡ spec.is_delivered reply.now }
{
    matches!(reply, Reply::Signal(Signal::Delivered { .. }))
}

fn has_run(reply: &Reply) -> bool
    ensures { result ≡ spec.has_run reply.now }
{
    matches!(reply, Reply::Step(StepReply::Ran(_)))
}
