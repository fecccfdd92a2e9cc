//! A leg of a script on a machine that its threads share.
ghost use Rattle.std.specs.Prelude.{◌≤◌, IfOk, length};
ghost use Rattle.std.specs.List.{AllByRecursion};
ghost use Rattle.its_turns.specs.Machines.{setup, view};
ghost use Rattle.script_threads.specs.Asks.{MayRunLeg};
ghost use Rattle.its_top.specs.Played.{IsFresh, IsAtRest, IsPlayed};

use event_script::Phase;
use its_history::{EntryLine, merge_gives, merge_lines};
use its_turns::{Machine, Root};
use its_types::Gate;
use script_threads::{LegEnd, Stop, run_leg};
use std::alloc::{AllocError, Global};
use std::sync::Wait;
use std::thread::Threads;

/// The entries of a leg by place, and whether a call had no place left.
#[derive(Drop)]
pub struct Played {
    /// Those of the calls that were made.
    pub lines: Vec<EntryLine>,
    /// Whether a call wasn't made since all places of the history were used.
    pub spent: bool,
}

/// Runs the phases of a leg one after another, the threads of each beside each other.
pub fn play_leg<R: Threads + Wait + Sync, G: Gate + Sync>(
    rt: &R,
    alloc: Global,
    gate: &G,
    machine: &Machine,
    root: &mut Root,
    leg: &[Phase],
) -> Result<Played, AllocError>
    requires fresh { IsFresh machine.now root.old }
    requires phases { length leg.now ≤ 256 }
    requires threads { AllByRecursion (λ threads. length threads ≤ 64) leg.now }
    requires may { MayRunLeg machine.now leg.now }
    ensures rests { IfOk result (λ _. IsAtRest machine.now root.new) }
    ensures played { IfOk result (λ p.
        IsPlayed (setup machine.now) leg.now p.lines.items p.spent (view root.new).seen) }
{
    let LegEnd { lists, stop } = run_leg(rt, alloc, machine, root, gate, leg)?;
    let spent = match stop {
        None => false,
        Some(Stop::Spent) => true,
        Some(Stop::NoMemory) => return Err(AllocError),
    };
    merge_gives();
    let lines = merge_lines(alloc, lists)?;
    Ok(Played { lines, spent })
}
