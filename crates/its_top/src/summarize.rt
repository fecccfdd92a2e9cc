//! A run of a script that is made for it, and how its calls ended.
ghost use Rattle.std.specs.Prelude.{◌≡◌, ◌≢◌, IfOk, length, map};
ghost use Rattle.std.specs.String.{string_bytes};
ghost use Rattle.its_plain.specs.Described.{IsFirstState};
ghost use Rattle.its_plain.specs.Runs.{IsLegRun};
ghost use Rattle.its_turns.specs.Machines.{setup, view};
ghost use Rattle.script_gen.specs.Generated.{first_leg};
ghost use Rattle.script_gen.specs.Summary.{counts_of};
ghost use Rattle.script_threads.specs.Scripts.{IsOfDesc};
ghost use Rattle.script_gen.specs.Laws.{IsAsked};
ghost use Rattle.its_top.specs.Played.{IsFresh, IsAtRest, IsReady};
ghost use Rattle.its_top.specs.Summarized as spec;

use crate::moves::Shared;
use event_script::Script;
use its_migrate::{migrate, pending, share};
use its_plain::{MakeError, SaveError, SaveFault};
use its_turns::{Machine, Root};
use its_types::{Gate, Intid, Listed};
use script_gen::{
    Counts, can_migrate, generate, has_room, is_never_refused, lists_tell_counts,
    lists_tell_length, summary_text,
};
use script_threads::{Stop, run_leg};
use std::alloc::{AllocError, Global};
use std::sync::Wait;
use std::thread::Threads;

/// Runs the script of 1 to 20000 signals from each of 1 to 63 threads on real threads, and sums up
/// its calls and what is pending after its migration.
pub fn summarize<R: Threads + Wait + Sync, G: Gate + Sync>(
    rt: &R,
    alloc: Global,
    gate: &G,
    signals: u32,
    threads: u32,
) -> Result<String, AllocError>
    requires { IsAsked signals threads }
    ensures { IfOk result (λ text. spec.IsSummary signals threads (string_bytes text)) }
{
    let script = generate(alloc, signals, threads)?;
    summarize_script(rt, alloc, gate, &script, signals, threads)
}

// The same of a script that was made.
fn summarize_script<R: Threads + Wait + Sync, G: Gate + Sync>(
    rt: &R,
    alloc: Global,
    gate: &G,
    script: &Script,
    signals: u32,
    threads: u32,
) -> Result<String, AllocError>
    requires { spec.IsMade signals threads script.now }
    ensures { IfOk result (λ text. spec.IsSummary signals threads (string_bytes text)) }
{
    let first = begin(alloc, script, signals, threads)?;
    let (counts, moved) = count_leg(rt, alloc, gate, script, first, signals, threads)?;
    let pending = count_pending(alloc, moved)?;
    summary_text(alloc, &counts, &pending)
}

// The machine of a script that was made, for its threads to share.
fn begin(alloc: Global, script: &Script, signals: u32, threads: u32) -> Result<Shared, AllocError>
    requires { spec.IsMade signals threads script.now }
    ensures ready { IfOk result (λ s. IsReady script.now s) }
    ensures first { IfOk result (λ s. IsFirstState script.now.desc (setup s.machine).start) }
{
    is_never_refused();
    match share(alloc, &script.desc) {
        Ok((machine, root)) => Ok(Shared { machine, root }),
        Err(MakeError::NoMemory) => Err(AllocError),
        Err(MakeError::Fault(_)) => unreachable!(),
    }
}

// Runs the leg of a script that was made, counts its calls, and migrates the machine.
fn count_leg<R: Threads + Wait + Sync, G: Gate + Sync>(
    rt: &R,
    alloc: Global,
    gate: &G,
    script: &Script,
    shared: Shared,
    signals: u32,
    threads: u32,
) -> Result<(Counts, Shared), AllocError>
    requires made { spec.IsMade signals threads script.now }
    requires ready { IsReady script.now shared }
    requires first { IsFirstState script.now.desc (setup shared.machine).start }
    ensures { IfOk result
        (λ r. spec.IsCounted signals threads (setup shared.machine).start r.0 r.1) }
{
    let Shared { machine, mut root } = shared;
    let counts = count_calls(
        rt, alloc, gate, script, &machine, &mut root, signals, threads,
    )?;
    can_migrate();
    match migrate(alloc, machine, root) {
        Ok((machine, root)) => Ok((counts, Shared { machine, root })),
        Err(kept) => Err(only_memory(kept.2)),
    }
}

// The error of a migration of a state that can be saved.
fn only_memory(error: SaveError) -> AllocError
    requires { (fault : SaveFault) → error ≢ SaveError.Fault fault }
{
    match error {
        SaveError::NoMemory => AllocError,
        SaveError::Fault(_) => unreachable!(),
    }
}

// Runs the leg of a script that was made, and counts its calls.
fn count_calls<R: Threads + Wait + Sync, G: Gate + Sync>(
    rt: &R,
    alloc: Global,
    gate: &G,
    script: &Script,
    machine: &Machine,
    root: &mut Root,
    signals: u32,
    threads: u32,
) -> Result<Counts, AllocError>
    requires made { spec.IsMade signals threads script.now }
    requires fresh { IsFresh machine.now root.old }
    requires limits { (setup machine.now).limits ≡ script.now.desc.limits }
    requires desc { IsOfDesc script.now.desc machine.now }
    requires first { IsFirstState script.now.desc (setup machine.now).start }
    ensures rests { IfOk result (λ _. IsAtRest machine.now root.new) }
    ensures run { IfOk result (λ _.
        IsLegRun (setup machine.now).start (first_leg signals threads) (view root.new).seen) }
    ensures counts { IfOk result (λ counts. counts ≡ counts_of (view root.new).seen) }
{
    let leg = script.legs.as_slice()[0].as_slice();
    let end = run_leg(rt, alloc, machine, root, gate, leg)?;
    has_room();
    match end.stop {
        None => {}
        Some(Stop::NoMemory) => return Err(AllocError),
        Some(Stop::Spent) => unreachable!(),
    }
    lists_tell_length();
    lists_tell_counts();
    Ok(Counts::of(end.lists.as_slice()))
}

// How many LPIs are pending at each virtual processor of a machine that no call was made on.
fn count_pending(alloc: Global, shared: Shared) -> Result<Vec<u64>, AllocError>
    requires { IsFresh shared.machine shared.root }
    ensures { IfOk result (λ counts.
        counts.items ≡ spec.pending_counts (setup shared.machine).start) }
{
    let Shared { machine, mut root } = shared;
    let lists = pending(alloc, &machine, &mut root)?;
    let counts = lengths(alloc, lists.as_slice())?;
    Ok(counts)
}

fn lengths(alloc: Global, lists: &[Listed<Intid>]) -> Result<Vec<u64>, AllocError>
    ensures { IfOk result (λ counts. counts.items ≡ map (λ lpis. length lpis) lists.now) }
{
    lists.iter().map(|lpis| lpis.len() as u64).collect(alloc)
}
