//! Calls of a machine that threads share, by their ports.
ghost use Rattle.its_bench.specs.Ready.{IsReady};

use cmd_engine::{read_at, step_at, write_at};
use device_port::{Now, signal_at, try_signal_at};
use gicr_lpi::{read_gicr, write_gicr};
use guest_port::{copy, peek, poke};
use its_migrate::save;
use its_plain::{Bytes64, Call, Reply};
use its_turns::{Machine, Pass};
use its_types::{Addr, DeviceId, EventId, Intid, Open, Placed, Vcpu};
use redist_ack::{best, claim, take};
use std::alloc::Global;
use std::sync::Wait;

/// What a thread asks of the machine.
#[derive(Clone, Copy)]
pub enum Ask {
    Signal {
        its: u8,
        dev: DeviceId,
        ev: EventId,
    },
    Take(Vcpu),
    Best {
        vcpu: Vcpu,
        mask: u8,
    },
    Claim {
        vcpu: Vcpu,
        intid: Intid,
    },
    Poke {
        addr: Addr,
        bytes: Bytes64,
    },
    Peek {
        addr: Addr,
        count: u8,
    },
    Read {
        its: u8,
        off: u32,
        size: u8,
    },
    ReadGicr {
        vcpu: Vcpu,
        off: u32,
        size: u8,
    },
    Write {
        its: u8,
        off: u32,
        size: u8,
        value: u64,
    },
    WriteGicr {
        vcpu: Vcpu,
        off: u32,
        size: u8,
        value: u64,
    },
    Step {
        its: u8,
    },
    Save,
    Copy,
}

impl Ask {
    /// The call that it is.
    pub fn call(&self) -> Call {
        match *self {
            Ask::Signal { its, dev, ev } => Call::Signal { its, dev, ev },
            Ask::Take(vcpu) => Call::Take(vcpu),
            Ask::Best { vcpu, mask } => Call::Best { vcpu, mask },
            Ask::Claim { vcpu, intid } => Call::Claim { vcpu, intid },
            Ask::Poke { addr, bytes } => Call::Poke { addr, bytes },
            Ask::Peek { addr, count } => Call::Peek { addr, count },
            Ask::Read { its, off, size } => Call::ReadReg { its, off, size },
            Ask::ReadGicr { vcpu, off, size } => Call::ReadGicr { vcpu, off, size },
            Ask::Write {
                its,
                off,
                size,
                value,
            } => Call::WriteReg {
                its,
                off,
                size,
                value,
            },
            Ask::WriteGicr {
                vcpu,
                off,
                size,
                value,
            } => Call::WriteGicr {
                vcpu,
                off,
                size,
                value,
            },
            Ask::Step { its } => Call::Step { its },
            Ask::Save => Call::Save,
            Ask::Copy => Call::Copy,
        }
    }
}

/// A call that was made.
#[derive(Clone, Copy)]
pub struct Made {
    pub placed: Placed<Reply>,
    /// Whether it is a signal that the cache alone translated.
    pub hit: bool,
}

/// Makes a call, for which it waits. `None` where it wasn't made: it isn't one of this machine, or
/// there is no place or no memory for it.
pub fn make<R: Wait>(
    rt: &R,
    alloc: Global,
    machine: &Machine,
    pass: &mut Pass,
    ask: &Ask,
) -> Option<Made>
    requires { IsReady machine.now pass.old }
    ensures { IsReady machine.now pass.new }
{
    match *ask {
        Ask::Signal { its, dev, ev } => send(rt, machine, pass, its, dev, ev),
        Ask::Take(vcpu) => take_once(rt, machine, pass, vcpu),
        Ask::Best { vcpu, mask } => best_once(rt, machine, pass, vcpu, mask),
        Ask::Claim { vcpu, intid } => claim_once(rt, machine, pass, vcpu, intid),
        Ask::Poke { addr, bytes } => poke_once(rt, machine, pass, addr, &bytes),
        Ask::Peek { addr, count } => peek_once(rt, machine, pass, addr, count),
        Ask::Read { its, off, size } => read_once(rt, machine, pass, its, off, size),
        Ask::ReadGicr { vcpu, off, size } => read_gicr_once(rt, machine, pass, vcpu, off, size),
        Ask::Write {
            its,
            off,
            size,
            value,
        } => write_once(rt, machine, pass, its, off, size, value),
        Ask::WriteGicr {
            vcpu,
            off,
            size,
            value,
        } => write_gicr_once(rt, machine, pass, vcpu, off, size, value),
        Ask::Step { its } => step_once(rt, machine, pass, its),
        Ask::Save => save_once(rt, alloc, machine, pass),
        Ask::Copy => copy_once(rt, machine, pass),
    }
}

fn placed(place: u64, reply: Reply) -> Option<Made> {
    Some(Made {
        placed: Placed { place, reply },
        hit: false,
    })
}

// By the cache alone, if it has the pair and the turns are free.
fn send<R: Wait>(
    rt: &R,
    machine: &Machine,
    pass: &mut Pass,
    its: u8,
    dev: DeviceId,
    ev: EventId,
) -> Option<Made>
    requires { IsReady machine.now pass.old }
    ensures { IsReady machine.now pass.new }
{
    if its >= machine.translators() {
        return None;
    }
    if let Now::Done(Placed { place, reply }) = try_signal_at(machine, pass, &Open, its, dev, ev) {
        return Some(Made {
            placed: Placed {
                place,
                reply: Reply::Signal(reply),
            },
            hit: true,
        });
    }
    match signal_at(rt, machine, pass, &Open, its, dev, ev) {
        Ok(Placed { place, reply }) => placed(place, Reply::Signal(reply)),
        Err(_) => None,
    }
}

fn take_once<R: Wait>(rt: &R, machine: &Machine, pass: &mut Pass, vcpu: Vcpu) -> Option<Made>
    requires { IsReady machine.now pass.old }
    ensures { IsReady machine.now pass.new }
{
    if vcpu.0 >= machine.vcpus() {
        return None;
    }
    match take(rt, machine, pass, &Open, vcpu) {
        Ok(Placed { place, reply }) => placed(place, Reply::Ack(reply)),
        Err(_) => None,
    }
}

fn best_once<R: Wait>(
    rt: &R,
    machine: &Machine,
    pass: &mut Pass,
    vcpu: Vcpu,
    mask: u8,
) -> Option<Made>
    requires { IsReady machine.now pass.old }
    ensures { IsReady machine.now pass.new }
{
    if vcpu.0 >= machine.vcpus() {
        return None;
    }
    match best(rt, machine, pass, &Open, vcpu, mask) {
        Ok(Placed { place, reply }) => placed(place, Reply::Ack(reply)),
        Err(_) => None,
    }
}

fn claim_once<R: Wait>(
    rt: &R,
    machine: &Machine,
    pass: &mut Pass,
    vcpu: Vcpu,
    intid: Intid,
) -> Option<Made>
    requires { IsReady machine.now pass.old }
    ensures { IsReady machine.now pass.new }
{
    if vcpu.0 >= machine.vcpus() {
        return None;
    }
    match claim(rt, machine, pass, &Open, vcpu, intid) {
        Ok(Placed { place, reply }) => placed(place, Reply::Ack(reply)),
        Err(_) => None,
    }
}

fn poke_once<R: Wait>(
    rt: &R,
    machine: &Machine,
    pass: &mut Pass,
    addr: Addr,
    bytes: &Bytes64,
) -> Option<Made>
    requires { IsReady machine.now pass.old }
    ensures { IsReady machine.now pass.new }
{
    match poke(rt, machine, pass, &Open, addr, bytes) {
        Ok(Placed { place, reply }) => placed(place, reply),
        Err(_) => None,
    }
}

fn peek_once<R: Wait>(
    rt: &R,
    machine: &Machine,
    pass: &mut Pass,
    addr: Addr,
    count: u8,
) -> Option<Made>
    requires { IsReady machine.now pass.old }
    ensures { IsReady machine.now pass.new }
{
    match peek(rt, machine, pass, &Open, addr, count) {
        Ok(Placed { place, reply }) => placed(place, reply),
        Err(_) => None,
    }
}

fn read_once<R: Wait>(
    rt: &R,
    machine: &Machine,
    pass: &mut Pass,
    its: u8,
    off: u32,
    size: u8,
) -> Option<Made>
    requires { IsReady machine.now pass.old }
    ensures { IsReady machine.now pass.new }
{
    if its >= machine.translators() {
        return None;
    }
    match read_at(rt, machine, pass, &Open, its, off, size) {
        Ok(Placed { place, reply }) => placed(place, Reply::Value(reply)),
        Err(_) => None,
    }
}

fn read_gicr_once<R: Wait>(
    rt: &R,
    machine: &Machine,
    pass: &mut Pass,
    vcpu: Vcpu,
    off: u32,
    size: u8,
) -> Option<Made>
    requires { IsReady machine.now pass.old }
    ensures { IsReady machine.now pass.new }
{
    if vcpu.0 >= machine.vcpus() {
        return None;
    }
    match read_gicr(rt, machine, pass, &Open, vcpu, off, size) {
        Ok(Placed { place, reply }) => placed(place, Reply::Value(reply)),
        Err(_) => None,
    }
}

fn write_once<R: Wait>(
    rt: &R,
    machine: &Machine,
    pass: &mut Pass,
    its: u8,
    off: u32,
    size: u8,
    value: u64,
) -> Option<Made>
    requires { IsReady machine.now pass.old }
    ensures { IsReady machine.now pass.new }
{
    if its >= machine.translators() {
        return None;
    }
    match write_at(rt, machine, pass, &Open, its, off, size, value) {
        Ok(Placed { place, reply: () }) => placed(place, Reply::Ok),
        Err(_) => None,
    }
}

fn write_gicr_once<R: Wait>(
    rt: &R,
    machine: &Machine,
    pass: &mut Pass,
    vcpu: Vcpu,
    off: u32,
    size: u8,
    value: u64,
) -> Option<Made>
    requires { IsReady machine.now pass.old }
    ensures { IsReady machine.now pass.new }
{
    if vcpu.0 >= machine.vcpus() {
        return None;
    }
    match write_gicr(rt, machine, pass, &Open, vcpu, off, size, value) {
        Ok(Placed { place, reply: () }) => placed(place, Reply::Ok),
        Err(_) => None,
    }
}

fn step_once<R: Wait>(rt: &R, machine: &Machine, pass: &mut Pass, its: u8) -> Option<Made>
    requires { IsReady machine.now pass.old }
    ensures { IsReady machine.now pass.new }
{
    if its >= machine.translators() {
        return None;
    }
    match step_at(rt, machine, pass, &Open, its) {
        Ok(Placed { place, reply }) => placed(place, Reply::Step(reply)),
        Err(_) => None,
    }
}

fn save_once<R: Wait>(rt: &R, alloc: Global, machine: &Machine, pass: &mut Pass) -> Option<Made>
    requires { IsReady machine.now pass.old }
    ensures { IsReady machine.now pass.new }
{
    let Ok(Placed { place, reply }) = save(rt, alloc, machine, pass, &Open) else {
        return None;
    };
    match reply {
        Ok(()) => placed(place, Reply::Saved),
        Err(fault) => placed(place, Reply::SaveFault(fault)),
    }
}

fn copy_once<R: Wait>(rt: &R, machine: &Machine, pass: &mut Pass) -> Option<Made>
    requires { IsReady machine.now pass.old }
    ensures { IsReady machine.now pass.new }
{
    match copy(rt, machine, pass, &Open) {
        Ok(Placed { place, reply }) => placed(place, Reply::Copied(reply)),
        Err(_) => None,
    }
}
