//! Scripts that are generated.
ghost use Rattle.std.specs.Prelude.{◌≡◌, ◌≤◌, IfOk};
ghost use Rattle.script_gen.specs.Laws.{IsAsked};
ghost use Rattle.script_gen.specs.Generated as spec;
ghost use Rattle.event_script.specs.Limits.{IsWithinLimits};

use crate::commands::{EVENTS, move_commands, setup_commands};
use crate::description::description;
use crate::queue::{push_commands, push_register_writes};
use event_script::{Leg, Move, Phase, Script, Thread};
use its_plain::Call;
use its_types::{DeviceId, EventId, Listed};
use std::alloc::{AllocError, Global};

/// The script of 1 to 20000 signals from each of 1 to 63 threads. One thread maps a device for each
/// of them; then they signal the events of their devices in turn, while one more thread moves
/// events to another collection; then the machine migrates, and nothing follows.
pub fn generate(alloc: Global, signals: u32, threads: u32) -> Result<Script, AllocError>
    requires { IsAsked signals threads }
    ensures script { IfOk result (λ s. s ≡ spec.generated signals threads) }
    ensures limits { IfOk result IsWithinLimits }
{
    let mut leg = Leg::new(alloc);
    leg.push(setup_phase(alloc, threads)?)?;
    leg.push(signal_phase(alloc, signals, threads)?)?;
    let mut legs = Listed::new(alloc);
    legs.push(leg)?;
    legs.push(Leg::new(alloc))?;
    let mut moves = Listed::new(alloc);
    moves.push(Move::Migrate)?;
    Ok(Script {
        desc: description(alloc)?,
        fill_lines: Listed::new(alloc),
        requester_lines: Listed::new(alloc),
        legs,
        moves,
    })
}

// One thread maps the devices of all.
#[tactic(auto, unfolding(crate::specs::Generated::setup_phase))]
fn setup_phase(alloc: Global, threads: u32) -> Result<Phase, AllocError>
    requires { threads ≤ 63 }
    ensures { IfOk result (λ p. p ≡ spec.setup_phase threads) }
{
    let mut phase = Phase::new(alloc);
    phase.push(setup_thread(alloc, threads)?)?;
    Ok(phase)
}

#[tactic(auto, using(crate::proofs::Lengths::setup_length), unfolding(crate::specs::Generated::setup_thread))]
fn setup_thread(alloc: Global, threads: u32) -> Result<Thread, AllocError>
    requires { threads ≤ 63 }
    ensures { IfOk result (λ calls. calls ≡ spec.setup_thread threads) }
{
    let commands = setup_commands(alloc, threads)?;
    let mut calls = Thread::new(alloc);
    push_register_writes(&mut calls)?;
    push_commands(&mut calls, 0, &commands)?;
    Ok(calls)
}

// The signalling threads, and the one that moves their events.
#[tactic(auto, unfolding(crate::specs::Generated::signal_phase))]
fn signal_phase(alloc: Global, signals: u32, threads: u32) -> Result<Phase, AllocError>
    requires { IsAsked signals threads }
    ensures { IfOk result (λ p. p ≡ spec.signal_phase signals threads) }
{
    let mut phase = Phase::new(alloc);
    for dev in 1..threads + 1 {
        phase.push(signal_thread(alloc, signals, dev)?)?;
    }
    phase.push(move_thread(alloc, signals, threads)?)?;
    Ok(phase)
}

#[tactic(auto, unfolding(crate::specs::Generated::signal_thread))]
fn signal_thread(alloc: Global, signals: u32, dev: u32) -> Result<Thread, AllocError>
    ensures { IfOk result (λ calls. calls ≡ spec.signal_thread signals dev) }
{
    let mut calls = Thread::new(alloc);
    for i in 0..signals {
        calls.push(signal_call(dev, i))?;
    }
    Ok(calls)
}

fn signal_call(dev: u32, i: u32) -> Call
    ensures { result ≡ spec.signal_call dev i }
{
    Call::Signal {
        its: 0,
        dev: DeviceId(dev),
        ev: EventId(i % EVENTS),
    }
}

#[tactic(auto, using(crate::proofs::Lengths::move_length), unfolding(crate::specs::Generated::move_thread))]
fn move_thread(alloc: Global, signals: u32, threads: u32) -> Result<Thread, AllocError>
    requires { IsAsked signals threads }
    ensures { IfOk result (λ calls. calls ≡ spec.move_thread signals threads) }
{
    let moves = move_commands(alloc, threads, signals / 10)?;
    let mut calls = Thread::new(alloc);
    push_commands(&mut calls, 4 + 65 * threads, &moves)?;
    Ok(calls)
}
