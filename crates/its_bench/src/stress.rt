//! Trials: threads that signal through the cache while another rewrites the maps, of one translator
//! or of two.
ghost use Rattle.std.specs.Prelude.{◌≡◌, IfOk, length};

use crate::asks::Ask;
use crate::chance::Chance;
use crate::guest::{Queue, enable};
use crate::shared::{Kind, SINGLE, VCPUS};
use crate::signals::{DEVICES, map_devices};
use crate::trial::{Calls, Checked, trial};
use its_types::{EventId, Vcpu};
use std::alloc::{AllocError, Global};
use std::sync::Wait;
use std::thread::Threads;

// The last stamp before one is renewed: a low one, so that many are.
const STAMP_LAST: u32 = 40;

// Runs a random command of a translator. After every 16 that is turned off and on, and now and then
// a virtual processor acknowledges an LPI.
fn rewrite(
    asks: &mut Vec<Ask>,
    chance: &mut Chance,
    queue: &mut Queue,
    n: u32,
) -> Result<(), AllocError> {
    let its = queue.its();
    queue.run(asks, &chance.command())?;
    if n % 4 == 0 {
        asks.push(Ask::Take(chance.vcpu()))?;
    }
    if n % 16 == 15 {
        enable(asks, its, false)?;
        enable(asks, its, true)?;
    }
    Ok(())
}

/// Acknowledges what is pending at each virtual processor, so many LPIs at most.
pub fn take_all(asks: &mut Vec<Ask>, count: u8) -> Result<(), AllocError> {
    for vcpu in 0..VCPUS {
        for _ in 0..count {
            asks.push(Ask::Take(Vcpu(vcpu)))?;
        }
    }
    Ok(())
}

// Where each event of the first two devices goes.
fn send_each(asks: &mut Vec<Ask>, its: u8) -> Result<(), AllocError> {
    for number in 0..32u32 {
        let dev = DEVICES[(number / 16) as usize];
        let ev = EventId(number % 16);
        asks.push(Ask::Signal { its, dev, ev })?;
    }
    Ok(())
}

// What is pending at each virtual processor, and where each pair goes.
fn showing(alloc: Global, two: bool) -> Result<Vec<Ask>, AllocError> {
    let mut asks = Vec::new(alloc);
    take_all(&mut asks, 202)?;
    send_each(&mut asks, 0)?;
    take_all(&mut asks, 33)?;
    if two {
        send_each(&mut asks, 1)?;
        take_all(&mut asks, 33)?;
    }
    Ok(asks)
}

// Commands of one translator, while two threads signal.
fn single(alloc: Global, signals: u32) -> Result<Calls, AllocError>
    ensures { IfOk result (λ c. length c.beside.items ≡ 3) }
{
    let mut chance = Chance::new(1);
    let (first, mut queue) = map_devices(alloc, 0)?;
    let half = signals / 2;
    let mut beside = Vec::new(alloc);
    beside.push(chance.signals(alloc, 0, half)?)?;
    beside.push(chance.signals(alloc, 0, signals - half)?)?;
    let mut commands = Vec::new(alloc);
    for n in 0..signals / 8 {
        rewrite(&mut commands, &mut chance, &mut queue, n)?;
    }
    beside.push(commands)?;
    Ok(Calls {
        first,
        beside,
        last: showing(alloc, false)?,
    })
}

// The calls that map the devices of both translators, and the queues after them.
fn map_both(alloc: Global) -> Result<(Vec<Ask>, Queue, Queue), AllocError> {
    let (mut asks, first) = map_devices(alloc, 0)?;
    let (others, second) = map_devices(alloc, 1)?;
    for ask in others.as_slice() {
        asks.push(*ask)?;
    }
    Ok((asks, first, second))
}

// Commands of both translators in turn, so many of each.
fn rewriting_both(
    alloc: Global,
    chance: &mut Chance,
    first: &mut Queue,
    second: &mut Queue,
    count: u32,
) -> Result<Vec<Ask>, AllocError> {
    let mut asks = Vec::new(alloc);
    for n in 0..count {
        rewrite(&mut asks, chance, first, n)?;
        rewrite(&mut asks, chance, second, n)?;
    }
    Ok(asks)
}

// Two threads that signal to each translator, and one with its commands.
fn beside_two(
    alloc: Global,
    first: &mut Queue,
    second: &mut Queue,
    signals: u32,
) -> Result<Vec<Vec<Ask>>, AllocError>
    ensures { IfOk result (λ v. length v.items ≡ 5) }
{
    let mut chance = Chance::new(2);
    let quarter = signals / 4;
    let mut beside = Vec::new(alloc);
    beside.push(chance.signals(alloc, 0, quarter)?)?;
    beside.push(chance.signals(alloc, 0, quarter)?)?;
    beside.push(chance.signals(alloc, 1, quarter)?)?;
    beside.push(chance.signals(alloc, 1, quarter)?)?;
    beside.push(rewriting_both(alloc, &mut chance, first, second, signals / 16)?)?;
    Ok(beside)
}

// Commands of both translators, while two threads signal to each.
fn of_two(alloc: Global, signals: u32) -> Result<Calls, AllocError>
    ensures { IfOk result (λ c. length c.beside.items ≡ 5) }
{
    let (first, mut queue, mut second) = map_both(alloc)?;
    Ok(Calls {
        first,
        beside: beside_two(alloc, &mut queue, &mut second, signals)?,
        last: showing(alloc, true)?,
    })
}

/// Makes so many signals, and as many commands as an eighth of them, and checks each reply. The
/// signals and the commands are those of one translator.
pub fn stress<R: Threads + Wait + Sync>(
    rt: &R,
    alloc: Global,
    signals: u32,
) -> Result<Checked, AllocError> {
    let kind = Kind {
        stamp_last: STAMP_LAST,
        ..SINGLE
    };
    trial(rt, alloc, kind, single(alloc, signals)?)
}

/// The same where half of the signals and of the commands are those of a second translator.
pub fn stress_two<R: Threads + Wait + Sync>(
    rt: &R,
    alloc: Global,
    signals: u32,
) -> Result<Checked, AllocError> {
    let kind = Kind {
        stamp_last: STAMP_LAST,
        two: true,
        ..SINGLE
    };
    trial(rt, alloc, kind, of_two(alloc, signals)?)
}
