//! A trial: two threads that signal one virtual processor while it turns its LPIs off and on.
ghost use Rattle.std.specs.Prelude.{◌≡◌, IfOk, length};

use crate::asks::Ask;
use crate::shared::{CONFIG, Kind, PENDING, SINGLE, VCPUS};
use crate::signals::{DEVICES, map_devices};
use crate::stress::take_all;
use crate::trial::{Calls, Checked, trial};
use its_types::{EventId, Vcpu};
use std::alloc::{AllocError, Global};
use std::sync::Wait;
use std::thread::Threads;

// The first device's events go to this one.
const TARGET: Vcpu = Vcpu(0);

// How many turns a thread has for so many signals of both.
const SIGNALS_A_TURN: u32 = 100;

fn write(vcpu: Vcpu, off: u32, size: u8, value: u64) -> Ask {
    Ask::WriteGicr {
        vcpu,
        off,
        size,
        value,
    }
}

/// Turns a virtual processor's LPIs on or off.
pub fn turn(vcpu: Vcpu, on: bool) -> Ask {
    write(vcpu, 0x0, 4, u64::from(on))
}

/// Gives each of so many virtual processors its tables, and turns its LPIs on.
pub fn turn_on(asks: &mut Vec<Ask>, vcpus: u16) -> Result<(), AllocError> {
    for vcpu in 0..vcpus {
        let pending = PENDING + 0x1_0000 * u64::from(vcpu);
        asks.push(write(Vcpu(vcpu), 0x70, 8, CONFIG | 0xf))?;
        asks.push(write(Vcpu(vcpu), 0x78, 8, pending))?;
        asks.push(turn(Vcpu(vcpu), true))?;
    }
    Ok(())
}

// So many signals of the first device's events in turn.
fn sending(alloc: Global, count: u32) -> Result<Vec<Ask>, AllocError> {
    let mut asks = Vec::new(alloc);
    for n in 0..count {
        asks.push(Ask::Signal {
            its: 0,
            dev: DEVICES[0],
            ev: EventId(n % 16),
        })?;
    }
    Ok(asks)
}

// LPIs are turned off and on, so often. Each time some are acknowledged while they are off and
// while they are on.
fn turning(alloc: Global, turns: u32) -> Result<Vec<Ask>, AllocError> {
    let mut asks = Vec::new(alloc);
    for _ in 0..turns {
        asks.push(turn(TARGET, false))?;
        asks.push(Ask::Take(TARGET))?;
        asks.push(turn(TARGET, true))?;
        asks.push(Ask::Take(TARGET))?;
    }
    Ok(asks)
}

// Gives the processors their tables, and maps the devices.
fn mapping(alloc: Global) -> Result<Vec<Ask>, AllocError> {
    let mut asks = Vec::new(alloc);
    turn_on(&mut asks, VCPUS)?;
    let (others, _) = map_devices(alloc, 0)?;
    for ask in others.as_slice() {
        asks.push(*ask)?;
    }
    Ok(asks)
}

// Two threads that signal, and one that turns LPIs off and on.
fn beside(alloc: Global, signals: u32) -> Result<Vec<Vec<Ask>>, AllocError>
    ensures { IfOk result (λ v. length v.items ≡ 3) }
{
    let half = signals / 2;
    let mut beside = Vec::new(alloc);
    beside.push(sending(alloc, half)?)?;
    beside.push(sending(alloc, signals - half)?)?;
    beside.push(turning(alloc, signals / SIGNALS_A_TURN)?)?;
    Ok(beside)
}

// What is pending at each virtual processor.
fn taking(alloc: Global) -> Result<Vec<Ask>, AllocError> {
    let mut asks = Vec::new(alloc);
    take_all(&mut asks, 33)?;
    Ok(asks)
}

fn calls(alloc: Global, signals: u32) -> Result<Calls, AllocError>
    ensures { IfOk result (λ c. length c.beside.items ≡ 3) }
{
    Ok(Calls {
        first: mapping(alloc)?,
        beside: beside(alloc, signals)?,
        last: taking(alloc)?,
    })
}

/// Makes so many signals, while the processor turns its LPIs off and on a hundredth as often, and
/// checks each reply.
pub fn stress_turning<R: Threads + Wait + Sync>(
    rt: &R,
    alloc: Global,
    signals: u32,
) -> Result<Checked, AllocError> {
    let kind = Kind {
        programmed: true,
        ..SINGLE
    };
    trial(rt, alloc, kind, calls(alloc, signals)?)
}
