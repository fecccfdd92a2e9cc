//! A leg of a script whose threads take turns.
ghost use Rattle.std.specs.Prelude.{◌≡◌, ◌<◌, ◌≤◌, ◌+◌, ◌^◌, IfOk, length};
ghost use Rattle.std.specs.List.{AllByRecursion};
ghost use Rattle.its_plain.specs.Answer.{answer};
ghost use Rattle.trace_check.specs.Steps.{right_text};
ghost use Rattle.its_web.specs.Played.{IsPlayed, IsLine};

use crate::turns::{Next, Turns, choose, count};
use event_script::Phase;
use its_history::{EntryLine, answered_text};
use owned_machine::Machine;
use std::alloc::{AllocError, Global};

/// The entries of a leg by place, and whether a call had no place left.
#[derive(Drop)]
pub struct Played {
    /// Those of the calls that were made.
    pub lines: Vec<EntryLine>,
    /// Whether a call wasn't made since all places of the history were used.
    pub spent: bool,
}

/// Makes the calls of a leg, phase by phase, at places below `last`. Of the threads of a phase the
/// next turn says whose call comes.
pub fn play_leg(
    alloc: Global,
    machine: &mut Machine,
    turns: &mut Turns,
    last: u64,
    leg: &[Phase],
) -> Result<Played, AllocError>
    requires phases { length leg.now ≤ 256 }
    requires threads { AllByRecursion (λ threads. length threads ≤ 64) leg.now }
    ensures { IfOk result (λ p.
        IsPlayed last machine.old leg.now p.lines.items p.spent machine.new) }
{
    let mut lines = Vec::new(alloc);
    for (index, phase) in leg.iter().enumerate() {
        let threads = phase.as_slice();
        let mut made = vec![in alloc; 0; threads.len()]?;
        while let Some(next) = choose(threads, &made, turns) {
            let place = lines.len() as u64;
            if place >= last {
                return Ok(Played { lines, spent: true });
            }
            let line = make_call(alloc, machine, index, &next, place)?;
            lines.push(line)?;
            count(threads, made.as_mut_slice(), next.thread);
        }
    }
    Ok(Played {
        lines,
        spent: false,
    })
}

/// Makes a call of a phase, of which the first is 0, and tells it and its reply.
fn make_call(
    alloc: Global,
    machine: &mut Machine,
    phase: usize,
    next: &Next,
    place: u64,
) -> Result<EntryLine, AllocError>
    requires phase { phase < 256 }
    requires thread { next.now.thread < 64 }
    ensures line { IfOk result (λ line.
        IsLine place phase next.now (right_text machine.old next.now.call) line) }
    ensures left { IfOk result (λ _. machine.new ≡ (answer machine.old next.now.call).1) }
{
    let reply = machine.answer(alloc, &next.call)?;
    let text = answered_text(alloc, &next.call, &reply)?;
    Ok(EntryLine {
        place,
        phase: phase as u32 + 1,
        thread: next.thread as u32 + 1,
        text,
    })
}
