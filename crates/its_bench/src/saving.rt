//! A trial: two threads that signal while another saves.
ghost use Rattle.std.specs.Prelude.{◌≡◌, IfOk, length};

use crate::asks::Ask;
use crate::chance::Chance;
use crate::shared::{MEMORY, SINGLE};
use crate::signals::map_devices;
use crate::stress::take_all;
use crate::trial::{Calls, Checked, trial};
use its_types::Addr;
use std::alloc::{AllocError, Global};
use std::sync::Wait;
use std::thread::Threads;

// How many signals of both threads there are for a save.
const SIGNALS_A_SAVE: u32 = 1000;

// How many pieces of 64 bytes guest memory has up to where the last table ends.
const PIECES: u32 = 0xd_0000 / 64;

// So many saves, and one at least.
fn saving(alloc: Global, count: u32) -> Result<Vec<Ask>, AllocError> {
    let mut asks = Vec::new(alloc);
    for _ in 0..count.max(1) {
        asks.push(Ask::Save)?;
    }
    Ok(asks)
}

// What the tables have, and what is pending at each virtual processor.
fn reading(alloc: Global) -> Result<Vec<Ask>, AllocError> {
    let mut asks = Vec::new(alloc);
    for piece in 0..PIECES {
        let addr = Addr(MEMORY + 64 * u64::from(piece));
        asks.push(Ask::Peek { addr, count: 64 })?;
    }
    take_all(&mut asks, 33)?;
    Ok(asks)
}

fn calls(alloc: Global, signals: u32) -> Result<Calls, AllocError>
    ensures { IfOk result (λ c. length c.beside.items ≡ 3) }
{
    let mut chance = Chance::new(4);
    let (first, _) = map_devices(alloc, 0)?;
    let half = signals / 2;
    let mut beside = Vec::new(alloc);
    beside.push(chance.signals(alloc, 0, half)?)?;
    beside.push(chance.signals(alloc, 0, signals - half)?)?;
    beside.push(saving(alloc, signals / SIGNALS_A_SAVE)?)?;
    Ok(Calls {
        first,
        beside,
        last: reading(alloc)?,
    })
}

/// Makes so many signals, with a save for every thousand, and checks each reply, and what the
/// tables have after them.
pub fn stress_saving<R: Threads + Wait + Sync>(
    rt: &R,
    alloc: Global,
    signals: u32,
) -> Result<Checked, AllocError> {
    trial(rt, alloc, SINGLE, calls(alloc, signals)?)
}
