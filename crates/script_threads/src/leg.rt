//! The phases of a leg, one after another.
ghost use Rattle.std.specs.Prelude.{◌≡◌, ◌≤◌, ◌++◌, [], length, vec_len, Any, IfOk, OnOk, OnErr};
ghost use Rattle.std.specs.List.{AllByRecursion};
ghost use Rattle.its_history.specs.Merged.{all_lines};
ghost use Rattle.its_plain.specs.History.{IsLegal};
ghost use Rattle.its_turns.specs.Machines.{setup, view, IsOf};
ghost use Rattle.script_threads.specs.Asks.{MayRunLeg};
ghost use Rattle.script_threads.specs.Legs.{RanLeg, StopsAtMemory, phase_lines};
ghost use Rattle.script_threads.specs.Phases.{IsCutAtMemory, SomeThread};
ghost use Rattle.script_threads.specs.Rests.{Rests};

use crate::phase::{PhaseEnd, run_phase, thread_at};
use crate::stop::Stop;
use event_script::{Phase, Thread};
use its_history::ThreadList;
use its_plain::Reply;
use its_turns::{Machine, Pass};
use its_types::{Gate, Listed, Placed};
use std::alloc::{AllocError, Global};
use std::sync::Wait;
use std::thread::Threads;

/// What the threads of a leg did.
#[derive(Drop)]
pub struct LegEnd<'a> {
    /// The lists of all threads that ran, phase by phase.
    pub lists: Vec<ThreadList<'a>>,
    /// Whether a thread of the last phase that ran was stopped.
    pub stop: Option<Stop>,
}

/// Adds the lists of a phase's threads.
fn add_lists<'a>(
    all: &mut Vec<ThreadList<'a>>,
    phase: u32,
    threads: &'a [Thread],
    lists: Vec<Listed<Placed<Reply>>>,
) -> Result<(), AllocError>
    requires few { length threads.now ≤ 64 }
    requires len { vec_len lists ≡ length threads.now }
    ensures lines { OnOk result
        (all_lines all.new.items
        ≡ all_lines all.old.items ++ phase_lines phase 1 threads.now lists.items) }
    ensures memory { OnOk result
        (SomeThread IsCutAtMemory threads.now lists.items → Any StopsAtMemory all.new.items) }
{
    let mut thread = 0u32;
    for replies in lists {
        let calls = thread_at(threads, thread as usize);
        thread += 1;
        all.push(ThreadList {
            phase,
            thread,
            calls,
            replies,
        })?;
    }
    Ok(())
}

/// Runs the phases of a leg one after another, up to the first in which a thread is stopped.
pub fn run_leg<'a, R: Threads + Wait + Sync, G: Gate + Sync>(
    rt: &R,
    alloc: Global,
    machine: &Machine,
    root: &mut Pass,
    gate: &G,
    phases: &'a [Phase],
) -> Result<LegEnd<'a>, AllocError>
    requires of { IsOf machine.now root.old }
    requires rests { Rests (view root.old) }
    requires made { (view root.old).root.made ≡ 1 }
    requires fresh { (view root.old).seen ≡ [] }
    requires phases { length phases.now ≤ 256 }
    requires threads { AllByRecursion (λ threads. length threads ≤ 64) phases.now }
    requires may { MayRunLeg machine.now phases.now }
    ensures of { IsOf machine.now root.new }
    ensures leg { IfOk result (λ e.
        RanLeg (setup machine.now) phases.now e.lists.items e.stop (view root.new)) }
    ensures rests { OnErr result (Rests (view root.new)) }
    ensures legal { OnErr result (IsLegal (setup machine.now).start (view root.new).seen) }
{
    let mut lists = Vec::new(alloc);
    let mut number = 0u32;
    for threads in phases {
        number += 1;
        let threads = threads.as_slice();
        let end = run_phase(rt, alloc, machine, root, gate, threads)?;
        add_lists(&mut lists, number, threads, end.lists)?;
        if end.stop.is_some() {
            return Ok(LegEnd {
                lists,
                stop: end.stop,
            });
        }
    }
    Ok(LegEnd { lists, stop: None })
}
