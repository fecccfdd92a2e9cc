//! Signals, by one thread and by several.
ghost use Rattle.std.specs.Prelude.{◌≡◌, ◌<◌, ◌≤◌, IfOk, length};
ghost use Rattle.std.specs.List.{AllByRecursion};
ghost use Rattle.its_turns.specs.Machines.{view};
ghost use Rattle.its_bench.specs.Ready.{IsReady, IsRoot};

use crate::actors::make_each;
use crate::asks::Ask;
use crate::guest::{Queue, begin, mapc, mapd, mapti};
use crate::measure::Lap;
use crate::shared::{VCPUS, split};
use device_port::{Now, signal_at, try_signal, try_signal_at};
use its_plain::Signal;
use its_turns::{Machine, Pass, Root};
use its_types::{DeviceId, EventId, Intid, Open, Placed, Vcpu};
use std::alloc::{AllocError, Global};
use std::sync::Wait;
use std::thread::Threads;
use std::time::{Clock, Instant};
use std::{io, thread};

/// The devices: each has 16 events, which go to a virtual processor of its own, and whose
/// translations stand in 16 shards that no other device has.
pub const DEVICES: [DeviceId; 4] = [FIRST, SECOND, DeviceId(48), DeviceId(64)];

/// The first of them.
pub const FIRST: DeviceId = DeviceId(16);

/// The second of them.
pub const SECOND: DeviceId = DeviceId(32);

/// How many events each has.
pub const EVENTS: u32 = 16;

/// The calls that map the devices of a translator.
pub fn map_devices(alloc: Global, its: u8) -> Result<(Vec<Ask>, Queue), AllocError> {
    let mut asks = Vec::new(alloc);
    let mut queue = Queue::new(its);
    begin(&mut asks, its)?;
    for vcpu in 0..VCPUS {
        queue.run(&mut asks, &mapc(vcpu, Vcpu(vcpu)))?;
    }
    let mut number = 0u16;
    for dev in DEVICES {
        map_device(&mut asks, &mut queue, its, dev, number % VCPUS)?;
        number = number.wrapping_add(1);
    }
    Ok((asks, queue))
}

/// A device's events, in the collection of its number.
pub fn map_device(
    asks: &mut Vec<Ask>,
    queue: &mut Queue,
    its: u8,
    dev: DeviceId,
    number: u16,
) -> Result<(), AllocError>
    requires { number < 8 }
{
    queue.run(asks, &mapd(its, dev, number))?;
    for ev in 0..EVENTS {
        let intid = Intid(8192 + 64 * u32::from(number) + ev);
        queue.run(asks, &mapti(dev, EventId(ev), intid, number))?;
    }
    Ok(())
}

/// So many signals of a device's events in turn, by the cache alone. Answers how many were
/// delivered.
fn hits(machine: &Machine, pass: &mut Pass, dev: DeviceId, count: u32) -> u64
    requires { IsReady machine.now pass.old }
    ensures { IsReady machine.now pass.new }
{
    let mut delivered = 0u64;
    for n in 0..count {
        if let Now::Done(_) = try_signal(machine, pass, &Open, dev, EventId(n % EVENTS)) {
            delivered = delivered.wrapping_add(1);
        }
    }
    delivered
}

// The same to a translator, none where the machine doesn't have it.
fn hits_at(machine: &Machine, pass: &mut Pass, its: u8, dev: DeviceId, count: u32) -> u64
    requires { IsReady machine.now pass.old }
    ensures { IsReady machine.now pass.new }
{
    let mut delivered = 0u64;
    if its >= machine.translators() {
        return delivered;
    }
    for n in 0..count {
        let ev = EventId(n % EVENTS);
        if let Now::Done(_) = try_signal_at(machine, pass, &Open, its, dev, ev) {
            delivered = delivered.wrapping_add(1);
        }
    }
    delivered
}

/// So many signals of a device's first events in turn to a translator, none where the machine
/// doesn't have it. Answers how many were delivered.
pub fn signals<R: Wait>(
    rt: &R,
    machine: &Machine,
    pass: &mut Pass,
    its: u8,
    dev: DeviceId,
    events: u32,
    count: u32,
) -> u64
    requires ready { IsReady machine.now pass.old }
    requires some { 0 < events }
    ensures { IsReady machine.now pass.new }
{
    let mut delivered = 0u64;
    if its >= machine.translators() {
        return delivered;
    }
    for n in 0..count {
        if let Ok(
            Placed {
                reply: Signal::Delivered { .. },
                ..
            },
        ) = signal_at(rt, machine, pass, &Open, its, dev, EventId(n % events))
        {
            delivered = delivered.wrapping_add(1);
        }
    }
    delivered
}

// The calls that map the devices of one translator, or of two.
fn mapping(alloc: Global, two: bool) -> Result<Vec<Ask>, AllocError> {
    let (mut asks, _) = map_devices(alloc, 0)?;
    if two {
        let (others, _) = map_devices(alloc, 1)?;
        for ask in others.as_slice() {
            asks.push(*ask)?;
        }
    }
    Ok(asks)
}

// Has the events of a translator's devices in the cache.
fn warm<R: Wait>(rt: &R, machine: &Machine, pass: &mut Pass, its: u8)
    requires { IsReady machine.now pass.old }
    ensures { IsReady machine.now pass.new }
{
    for dev in DEVICES {
        signals(rt, machine, pass, its, dev, EVENTS, EVENTS);
    }
}

// Maps the devices of one translator, or of two, and has these in the cache.
fn map_cached<R: Wait>(
    rt: &R,
    alloc: Global,
    machine: &Machine,
    pass: &mut Pass,
    two: bool,
) -> Result<(), AllocError>
    requires { IsReady machine.now pass.old }
    ensures { IfOk result (λ _. IsReady machine.now pass.new) }
{
    let asks = mapping(alloc, two)?;
    make_each(rt, alloc, machine, pass, asks.as_slice());
    warm(rt, machine, pass, 0);
    warm(rt, machine, pass, 1);
    Ok(())
}

/// Hits of one thread, to the only translator or to the second of two.
pub fn time_hits<R: Clock + Wait>(
    rt: &R,
    alloc: Global,
    machine: &Machine,
    pass: &mut Pass,
    two: bool,
    count: u32,
) -> io::Result<Lap>
    requires { IsReady machine.now pass.old }
{
    map_cached(rt, alloc, machine, pass, two)?;
    lap_of_hits(rt, machine, pass, two, count)
}

fn lap_of_hits<R: Clock>(
    rt: &R,
    machine: &Machine,
    pass: &mut Pass,
    two: bool,
    count: u32,
) -> io::Result<Lap>
    requires { IsReady machine.now pass.old }
{
    let since = Instant::now(rt)?;
    let calls = if two {
        hits_at(machine, pass, 1, DEVICES[0], count)
    } else {
        hits(machine, pass, DEVICES[0], count)
    };
    Lap::since(rt, &since, calls)
}

// What one of several threads has to do.
#[derive(Drop)]
struct Lane {
    pass: Pass,
    its: u8,
    dev: DeviceId,
    delivered: u64,
}

fn drive<R: Wait>(rt: &R, machine: &Machine, lane: &mut Lane, count: u32)
    requires { IsReady machine.now lane.old.pass }
{
    lane.delivered = signals(
        rt,
        machine,
        &mut lane.pass,
        lane.its,
        lane.dev,
        EVENTS,
        count,
    );
}

fn drive_all<R: Threads + Wait + Sync>(rt: &R, machine: &Machine, lanes: &mut [Lane], count: u32)
    requires { AllByRecursion (λ l. IsReady machine.now l.pass) lanes.old }
{
    let threads = lanes.len().max(1);
    thread::for_each_mut(
        rt,
        lanes,
        threads,
        &|_, lane| { drive(rt, machine, lane, count) },
    );
}

// A lane for each device, to the first translator, or each to a translator of its own.
fn lanes(
    alloc: Global,
    machine: &Machine,
    root: &mut Root,
    devices: &[DeviceId],
    apart: bool,
) -> Result<Vec<Lane>, AllocError>
    requires root { IsRoot machine.now root.old }
    requires made { (view root.old).root.made ≡ 2 }
    requires few { length devices.now ≤ 64 }
    ensures { IfOk result (λ v. AllByRecursion (λ l. IsReady machine.now l.pass) v.items) }
{
    let mut lanes = Vec::new(alloc);
    let mut its = 0u8;
    for dev in devices {
        let pass = split(machine, root);
        lanes.push(Lane {
            pass,
            its,
            dev: *dev,
            delivered: 0,
        })?;
        its = its.wrapping_add(u8::from(apart));
    }
    Ok(lanes)
}

/// Signals of as many threads as there are devices, each so many of one device: to the only
/// translator, or of two threads each to a translator of its own.
pub fn time_signals<R: Clock + Threads + Wait + Sync>(
    rt: &R,
    alloc: Global,
    machine: &Machine,
    root: &mut Root,
    pass: &mut Pass,
    devices: &[DeviceId],
    two: bool,
    count: u32,
) -> io::Result<Lap>
    requires root { IsRoot machine.now root.old }
    requires made { (view root.old).root.made ≡ 2 }
    requires pass { IsReady machine.now pass.old }
    requires few { length devices.now ≤ 64 }
{
    map_cached(rt, alloc, machine, pass, two)?;
    let mut lanes = lanes(alloc, machine, root, devices, two)?;
    lap_of_lanes(rt, machine, &mut lanes, count)
}

fn lap_of_lanes<R: Clock + Threads + Wait + Sync>(
    rt: &R,
    machine: &Machine,
    lanes: &mut [Lane],
    count: u32,
) -> io::Result<Lap>
    requires { AllByRecursion (λ l. IsReady machine.now l.pass) lanes.old }
{
    let since = Instant::now(rt)?;
    drive_all(rt, machine, lanes, count);
    let mut calls = 0u64;
    for lane in lanes.iter() {
        calls = calls.wrapping_add(lane.delivered);
    }
    Lap::since(rt, &since, calls)
}
