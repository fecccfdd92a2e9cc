//! A device with many events: signals by the maps, acknowledgements, steps, saves, migrations.
ghost use Rattle.std.specs.Prelude.{◌^◌, ◌<◌, ◌≤◌};
ghost use Rattle.its_turns.specs.Machines.{view};
ghost use Rattle.its_bench.specs.Ready.{IsReady, IsRoot};

use crate::actors::make_each;
use crate::asks::Ask;
use crate::guest::{Queue, begin, enable, mapc, mapd_wide, mapti};
use crate::measure::Lap;
use crate::shared::{SINGLE, shared, split};
use crate::signals::signals;
use cmd_engine::step;
use its_migrate::{migrate, save};
use its_plain::{Ack, StepReply};
use its_turns::{Machine, Pass, Root};
use its_types::{DeviceId, EventId, Intid, Open, Placed, Vcpu};
use redist_ack::take;
use std::alloc::{AllocError, Global};
use std::io;
use std::sync::Wait;
use std::time::{Clock, Instant};

const DEVICE: DeviceId = DeviceId(7);

const TARGET: Vcpu = Vcpu(0);

// How many LPIs there are.
const LPIS: u32 = 57_344;

// The most commands that are queued at once.
const BATCH: u32 = 1024;

// The calls that map a device whose EventIDs have so many bits, and none of its events; and the
// queue after them.
fn mapping(alloc: Global, bits: u8) -> Result<(Vec<Ask>, Queue), AllocError>
    requires least { 1 ≤ bits }
    requires most { bits ≤ 16 }
{
    let mut asks = Vec::new(alloc);
    let mut queue = Queue::new(0);
    begin(&mut asks, 0)?;
    queue.run(&mut asks, &mapc(1, TARGET))?;
    queue.run(&mut asks, &mapd_wide(DEVICE, bits))?;
    Ok((asks, queue))
}

// Maps that device, and answers the queue after it.
fn map_device<R: Wait>(
    rt: &R,
    alloc: Global,
    machine: &Machine,
    pass: &mut Pass,
    bits: u8,
) -> Result<Queue, AllocError>
    requires ready { IsReady machine.now pass.old }
    requires least { 1 ≤ bits }
    requires most { bits ≤ 16 }
    ensures { IsReady machine.now pass.new }
{
    let (asks, queue) = mapping(alloc, bits)?;
    make_each(rt, alloc, machine, pass, asks.as_slice());
    Ok(queue)
}

// Steps, so many. Answers how many commands ran.
fn steps<R: Wait>(rt: &R, machine: &Machine, pass: &mut Pass, count: u32) -> u64
    requires { IsReady machine.now pass.old }
    ensures { IsReady machine.now pass.new }
{
    let mut ran = 0u64;
    for _ in 0..count {
        if let Ok(
            Placed {
                reply: StepReply::Ran(_),
                ..
            },
        ) = step(rt, machine, pass, &Open)
        {
            ran = ran.wrapping_add(1);
        }
    }
    ran
}

// Maps so many events, from the first on, and answers how long the steps took.
fn map_events<R: Clock + Wait>(
    rt: &R,
    alloc: Global,
    machine: &Machine,
    pass: &mut Pass,
    mut queue: Queue,
    events: u32,
) -> io::Result<Lap>
    requires { IsReady machine.now pass.old }
    ensures { IsReady machine.now pass.new }
{
    let mut lap = Lap::new();
    let mut asks = Vec::new(alloc);
    let mut queued = 0u32;
    for ev in 0..events {
        let intid = Intid(8192 + ev % LPIS);
        queue.write(&mut asks, &mapti(DEVICE, EventId(ev), intid, 1))?;
        queued = queued.wrapping_add(1);
        if queued == BATCH || ev == events - 1 {
            queue.tell(&mut asks)?;
            make_each(rt, alloc, machine, pass, asks.as_slice());
            asks.clear();
            add_steps(rt, machine, pass, queued, &mut lap)?;
            queued = 0;
        }
    }
    Ok(lap)
}

// Steps, so many, with the time that they took.
fn add_steps<R: Clock + Wait>(
    rt: &R,
    machine: &Machine,
    pass: &mut Pass,
    count: u32,
    lap: &mut Lap,
) -> io::Result<()>
    requires { IsReady machine.now pass.old }
    ensures { IsReady machine.now pass.new }
{
    let since = Instant::now(rt)?;
    let ran = steps(rt, machine, pass, count);
    lap.add(rt, &since, ran)
}

/// Maps a device with so many EventID bits and as many events as these allow, and answers how long
/// the steps took that mapped the events.
pub fn time_steps<R: Clock + Wait>(
    rt: &R,
    alloc: Global,
    machine: &Machine,
    pass: &mut Pass,
    bits: u8,
) -> io::Result<Lap>
    requires ready { IsReady machine.now pass.old }
    requires least { 1 ≤ bits }
    requires most { bits ≤ 16 }
    ensures { IsReady machine.now pass.new }
{
    let queue = map_device(rt, alloc, machine, pass, bits)?;
    map_events(rt, alloc, machine, pass, queue, 1 << bits)
}

/// So many saves, after one that isn't timed, with as many events mapped as so many bits allow.
pub fn time_saves<R: Clock + Wait>(
    rt: &R,
    alloc: Global,
    machine: &Machine,
    pass: &mut Pass,
    bits: u8,
    count: u32,
) -> io::Result<Lap>
    requires ready { IsReady machine.now pass.old }
    requires least { 1 ≤ bits }
    requires most { bits ≤ 16 }
{
    time_steps(rt, alloc, machine, pass, bits)?;
    lap_of_saves(rt, alloc, machine, pass, count)
}

fn lap_of_saves<R: Clock + Wait>(
    rt: &R,
    alloc: Global,
    machine: &Machine,
    pass: &mut Pass,
    count: u32,
) -> io::Result<Lap>
    requires { IsReady machine.now pass.old }
{
    saves(rt, alloc, machine, pass, 1);
    let since = Instant::now(rt)?;
    let saved = saves(rt, alloc, machine, pass, count);
    Lap::since(rt, &since, saved)
}

// So many saves. Answers how many were made.
fn saves<R: Wait>(rt: &R, alloc: Global, machine: &Machine, pass: &mut Pass, count: u32) -> u64
    requires ready { IsReady machine.now pass.old }
    ensures { IsReady machine.now pass.new }
{
    let mut saved = 0u64;
    for _ in 0..count {
        if let Ok(Placed { reply: Ok(()), .. }) = save(rt, alloc, machine, pass, &Open) {
            saved = saved.wrapping_add(1);
        }
    }
    saved
}

/// A migration, with as many events mapped as so many bits allow. It is made on a machine of its
/// own, also where not all are mapped, and then isn't told.
pub fn time_migration<R: Clock + Wait>(rt: &R, alloc: Global, bits: u8) -> io::Result<Lap>
    requires least { 1 ≤ bits }
    requires most { bits ≤ 16 }
{
    let (machine, mut root) = shared(alloc, SINGLE)?;
    let since = mapped_at(rt, alloc, &machine, &mut root, bits);
    let calls = migrated(alloc, machine, root);
    Lap::since(rt, &since?, calls)
}

// Maps as many events as so many bits allow, by a pass that is joined, and answers when it was.
fn mapped_at<R: Clock + Wait>(
    rt: &R,
    alloc: Global,
    machine: &Machine,
    root: &mut Root,
    bits: u8,
) -> io::Result<Instant>
    requires root { IsRoot machine.now root.old }
    requires few { (view root.old).root.made < 2 ^ 32 }
    requires least { 1 ≤ bits }
    requires most { bits ≤ 16 }
    ensures { IsRoot machine.now root.new }
{
    let mut pass = split(machine, root);
    let mapped = time_steps(rt, alloc, machine, &mut pass, bits);
    root.join(machine, pass);
    mapped?;
    Instant::now(rt)
}

// How many migrations were made: one or none.
fn migrated(alloc: Global, machine: Machine, root: Root) -> u64
    requires root { IsRoot machine root }
{
    if root.out() != 0 {
        return 0;
    }
    u64::from(migrate(alloc, machine, root).is_ok())
}

/// Signals by the maps: every event in turn, and again each time the translator was turned off and
/// on, so that no translation is current. At least so many.
pub fn time_misses<R: Clock + Wait>(
    rt: &R,
    alloc: Global,
    machine: &Machine,
    pass: &mut Pass,
    bits: u8,
    count: u32,
) -> io::Result<Lap>
    requires ready { IsReady machine.now pass.old }
    requires least { 1 ≤ bits }
    requires most { bits ≤ 16 }
{
    time_steps(rt, alloc, machine, pass, bits)?;
    lap_of_misses(rt, alloc, machine, pass, 1 << bits, count)
}

fn lap_of_misses<R: Clock + Wait>(
    rt: &R,
    alloc: Global,
    machine: &Machine,
    pass: &mut Pass,
    events: u32,
    count: u32,
) -> io::Result<Lap>
    requires ready { IsReady machine.now pass.old }
    requires some { 0 < events }
{
    let mut asks = Vec::new(alloc);
    enable(&mut asks, 0, false)?;
    enable(&mut asks, 0, true)?;
    let mut lap = Lap::new();
    for _ in 0..count.div_ceil(events) {
        make_each(rt, alloc, machine, pass, asks.as_slice());
        let since = Instant::now(rt)?;
        let delivered = signals(rt, machine, pass, 0, DEVICE, events, events);
        lap.add(rt, &since, delivered)?;
    }
    Ok(lap)
}

/// Acknowledgements of all events' LPIs, each time they were signalled. At least so many.
pub fn time_takes<R: Clock + Wait>(
    rt: &R,
    alloc: Global,
    machine: &Machine,
    pass: &mut Pass,
    bits: u8,
    count: u32,
) -> io::Result<Lap>
    requires ready { IsReady machine.now pass.old }
    requires least { 1 ≤ bits }
    requires most { bits ≤ 15 }
{
    time_steps(rt, alloc, machine, pass, bits)?;
    lap_of_takes(rt, machine, pass, 1 << bits, count)
}

fn lap_of_takes<R: Clock + Wait>(
    rt: &R,
    machine: &Machine,
    pass: &mut Pass,
    events: u32,
    count: u32,
) -> io::Result<Lap>
    requires ready { IsReady machine.now pass.old }
    requires some { 0 < events }
{
    let mut lap = Lap::new();
    for _ in 0..count.div_ceil(events) {
        signals(rt, machine, pass, 0, DEVICE, events, events);
        let since = Instant::now(rt)?;
        let taken = takes(rt, machine, pass, events);
        lap.add(rt, &since, taken)?;
    }
    Ok(lap)
}

// So many acknowledgements. Answers how many found an LPI.
fn takes<R: Wait>(rt: &R, machine: &Machine, pass: &mut Pass, count: u32) -> u64
    requires { IsReady machine.now pass.old }
    ensures { IsReady machine.now pass.new }
{
    let mut taken = 0u64;
    if TARGET.0 >= machine.vcpus() {
        return taken;
    }
    for _ in 0..count {
        if let Ok(
            Placed {
                reply: Ack::Some { .. },
                ..
            },
        ) = take(rt, machine, pass, &Open, TARGET)
        {
            taken = taken.wrapping_add(1);
        }
    }
    taken
}
