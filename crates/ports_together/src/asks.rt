//! What a row of a table asks of a machine by its ports, and what it is answered. Each device is
//! number 16.
ghost use Rattle.std.specs.Prelude.{◌≡◌, ◌+◌, ◌^◌, ◌<◌};
ghost use Rattle.its_turns.specs.Machines.{view};
ghost use Rattle.ports_together.specs.Ready.{IsReady, IsRoot};

use crate::given::{Given, command};
use cmd_engine::{read_reg, step, write_reg};
use device_port::{Now, signal, try_signal};
use gicr_lpi::{read_gicr, write_gicr};
use guest_port::{peek, poke};
use its_command::{Op, encode};
use its_migrate::save;
use its_plain::{Ack, Bytes64, Cause, Reason, Reply, Signal, StepReply};
use its_turns::{Busy, Machine, Pass, Raced, Root, look};
use its_types::{Addr, DeviceId, EventId, Gate, Intid, Open, Placed, Vcpu, Word};
use redist_ack::{best, claim, show, take};
use std::alloc::Global;
use std::sync::Wait;

pub const DEVICE: DeviceId = DeviceId(16);

/// What is asked.
#[derive(Clone, Copy)]
pub enum Ask {
    /// A signal of this event, by the cache alone.
    Hit(u32),
    /// A signal of this event.
    Send(u32),
    Take(u16),
    Show(u16),
    /// The first by priority below a mask.
    Best(u16, u8),
    Claim(u16, u32),
    /// A write of one byte of memory.
    Poke(u64, u8),
    /// A read of so many bytes of memory.
    Peek(u64, u8),
    /// A read of a register of so many bytes.
    Read(u32, u8),
    Write(u32, u8, u64),
    /// A read of a processor's LPI register of so many bytes.
    ReadGicr(u16, u32, u8),
    WriteGicr(u16, u32, u8, u64),
    /// A command at this place of the queue, counted from 0: it is poked, CWRITER is moved past it,
    /// and the translator steps. These are three calls, and the last one answers.
    Run(u8, Given),
    Save,
    /// The word: the stamp, and how many calls were made.
    Look,
}

/// What is answered, the place of the call first.
#[derive(Clone, Copy, PartialEq, Eq)]
pub enum Said {
    At(u64, Reply),
    /// A processor and its LPI.
    Sent(u64, u16, u32),
    Dropped(u64, Cause),
    /// An LPI and its priority.
    Lpi(u64, u32, u8),
    NoLpi(u64),
    Byte(u64, u8),
    /// Eight bytes, as one number.
    Word(u64, u64),
    Ran(u64, Op),
    Refused(u64, Op, Reason),
    /// Of the word: the stamp, and the place of the next call.
    Stamp(u32, u64),
    // No call was made.
    Miss,
    Busy(Busy),
    Raced(Raced),
    Nothing,
}

pub fn at(place: u64, reply: Reply) -> Said {
    Said::At(place, reply)
}

/// The same, as the reply.
pub fn meant(said: Said) -> Said {
    match said {
        Said::Sent(place, vcpu, intid) => at(place, sent(vcpu, intid)),
        Said::Dropped(place, cause) => at(place, Reply::Signal(Signal::Dropped(cause))),
        Said::Lpi(place, intid, priority) => at(place, lpi(intid, priority)),
        Said::NoLpi(place) => at(place, Reply::Ack(Ack::None)),
        Said::Byte(place, byte) => at(place, Reply::Bytes(Bytes64::new(&[byte]))),
        Said::Word(place, word) => at(place, Reply::Bytes(Bytes64::new(&word.to_le_bytes()))),
        Said::Ran(place, op) => at(place, Reply::Step(StepReply::Ran(op))),
        Said::Refused(place, op, why) => at(place, Reply::Step(StepReply::Refused(op, why))),
        other => other,
    }
}

fn sent(vcpu: u16, intid: u32) -> Reply {
    Reply::Signal(Signal::Delivered {
        vcpu: Vcpu(vcpu),
        intid: Intid(intid),
    })
}

fn lpi(intid: u32, priority: u8) -> Reply {
    Reply::Ack(Ack::Some {
        intid: Intid(intid),
        priority,
    })
}

pub fn hit<G: Gate>(machine: &Machine, pass: &mut Pass, gate: &G, ev: u32) -> Said
    requires { IsReady machine.now pass.old }
    ensures { IsReady machine.now pass.new }
{
    match try_signal(machine, pass, gate, DEVICE, EventId(ev)) {
        Now::Done(Placed { place, reply }) => at(place, Reply::Signal(reply)),
        Now::Miss => Said::Miss,
        Now::Busy(busy) => Said::Busy(busy),
        Now::Raced(raced) => Said::Raced(raced),
        Now::Spent => Said::Nothing,
    }
}

pub fn send<R: Wait>(rt: &R, machine: &Machine, pass: &mut Pass, ev: u32) -> Said
    requires { IsReady machine.now pass.old }
    ensures { IsReady machine.now pass.new }
{
    match signal(rt, machine, pass, &Open, DEVICE, EventId(ev)) {
        Ok(Placed { place, reply }) => at(place, Reply::Signal(reply)),
        Err(_) => Said::Nothing,
    }
}

pub fn taken<R: Wait>(rt: &R, machine: &Machine, pass: &mut Pass, vcpu: u16) -> Said
    requires { IsReady machine.now pass.old }
    ensures { IsReady machine.now pass.new }
{
    if vcpu >= machine.vcpus() {
        return Said::Nothing;
    }
    match take(rt, machine, pass, &Open, Vcpu(vcpu)) {
        Ok(Placed { place, reply }) => at(place, Reply::Ack(reply)),
        Err(_) => Said::Nothing,
    }
}

fn shown<R: Wait>(rt: &R, machine: &Machine, pass: &mut Pass, vcpu: u16) -> Said
    requires { IsReady machine.now pass.old }
    ensures { IsReady machine.now pass.new }
{
    if vcpu >= machine.vcpus() {
        return Said::Nothing;
    }
    match show(rt, machine, pass, &Open, Vcpu(vcpu)) {
        Ok(Placed { place, reply }) => at(place, Reply::Ack(reply)),
        Err(_) => Said::Nothing,
    }
}

fn best_of<R: Wait>(rt: &R, machine: &Machine, pass: &mut Pass, vcpu: u16, mask: u8) -> Said
    requires { IsReady machine.now pass.old }
    ensures { IsReady machine.now pass.new }
{
    if vcpu >= machine.vcpus() {
        return Said::Nothing;
    }
    match best(rt, machine, pass, &Open, Vcpu(vcpu), mask) {
        Ok(Placed { place, reply }) => at(place, Reply::Ack(reply)),
        Err(_) => Said::Nothing,
    }
}

fn claimed<R: Wait>(rt: &R, machine: &Machine, pass: &mut Pass, vcpu: u16, intid: u32) -> Said
    requires { IsReady machine.now pass.old }
    ensures { IsReady machine.now pass.new }
{
    if vcpu >= machine.vcpus() {
        return Said::Nothing;
    }
    match claim(rt, machine, pass, &Open, Vcpu(vcpu), Intid(intid)) {
        Ok(Placed { place, reply }) => at(place, Reply::Ack(reply)),
        Err(_) => Said::Nothing,
    }
}

pub fn poked<R: Wait>(
    rt: &R,
    machine: &Machine,
    pass: &mut Pass,
    addr: u64,
    bytes: &Bytes64,
) -> Said
    requires { IsReady machine.now pass.old }
    ensures { IsReady machine.now pass.new }
{
    match poke(rt, machine, pass, &Open, Addr(addr), bytes) {
        Ok(Placed { place, reply }) => at(place, reply),
        Err(_) => Said::Nothing,
    }
}

fn peeked<R: Wait>(rt: &R, machine: &Machine, pass: &mut Pass, addr: u64, count: u8) -> Said
    requires { IsReady machine.now pass.old }
    ensures { IsReady machine.now pass.new }
{
    match peek(rt, machine, pass, &Open, Addr(addr), count) {
        Ok(Placed { place, reply }) => at(place, reply),
        Err(_) => Said::Nothing,
    }
}

fn read<R: Wait>(rt: &R, machine: &Machine, pass: &mut Pass, off: u32, size: u8) -> Said
    requires { IsReady machine.now pass.old }
    ensures { IsReady machine.now pass.new }
{
    match read_reg(rt, machine, pass, &Open, off, size) {
        Ok(Placed { place, reply }) => at(place, Reply::Value(reply)),
        Err(_) => Said::Nothing,
    }
}

fn written<R: Wait>(
    rt: &R,
    machine: &Machine,
    pass: &mut Pass,
    off: u32,
    size: u8,
    value: u64,
) -> Said
    requires { IsReady machine.now pass.old }
    ensures { IsReady machine.now pass.new }
{
    match write_reg(rt, machine, pass, &Open, off, size, value) {
        Ok(Placed { place, reply: () }) => at(place, Reply::Ok),
        Err(_) => Said::Nothing,
    }
}

fn read_lpi<R: Wait>(
    rt: &R,
    machine: &Machine,
    pass: &mut Pass,
    vcpu: u16,
    off: u32,
    size: u8,
) -> Said
    requires { IsReady machine.now pass.old }
    ensures { IsReady machine.now pass.new }
{
    if vcpu >= machine.vcpus() {
        return Said::Nothing;
    }
    match read_gicr(rt, machine, pass, &Open, Vcpu(vcpu), off, size) {
        Ok(Placed { place, reply }) => at(place, Reply::Value(reply)),
        Err(_) => Said::Nothing,
    }
}

fn written_lpi<R: Wait>(
    rt: &R,
    machine: &Machine,
    pass: &mut Pass,
    vcpu: u16,
    off: u32,
    size: u8,
    value: u64,
) -> Said
    requires { IsReady machine.now pass.old }
    ensures { IsReady machine.now pass.new }
{
    if vcpu >= machine.vcpus() {
        return Said::Nothing;
    }
    match write_gicr(rt, machine, pass, &Open, Vcpu(vcpu), off, size, value) {
        Ok(Placed { place, reply: () }) => at(place, Reply::Ok),
        Err(_) => Said::Nothing,
    }
}

/// The translator takes its next command.
pub fn stepped<R: Wait, G: Gate>(rt: &R, machine: &Machine, pass: &mut Pass, gate: &G) -> Said
    requires { IsReady machine.now pass.old }
    ensures { IsReady machine.now pass.new }
{
    match step(rt, machine, pass, gate) {
        Ok(Placed { place, reply }) => at(place, Reply::Step(reply)),
        Err(_) => Said::Nothing,
    }
}

/// Puts a command into the queue, at this place, and moves CWRITER past it.
pub fn queue<R: Wait>(rt: &R, machine: &Machine, pass: &mut Pass, place: u8, given: Given)
    requires { IsReady machine.now pass.old }
    ensures { IsReady machine.now pass.new }
{
    let offset = 32 * u64::from(place);
    let bytes = Bytes64::new(&encode(&command(given)));
    poked(rt, machine, pass, 0x8002_0000 + offset, &bytes);
    written(rt, machine, pass, 0x88, 8, offset + 32);
}

fn saved<R: Wait>(rt: &R, alloc: Global, machine: &Machine, pass: &mut Pass) -> Said
    requires { IsReady machine.now pass.old }
    ensures { IsReady machine.now pass.new }
{
    match save(rt, alloc, machine, pass, &Open) {
        Ok(
            Placed {
                place,
                reply: Ok(()),
            },
        ) => at(place, Reply::Saved),
        Ok(
            Placed {
                place,
                reply: Err(fault),
            },
        ) => at(place, Reply::SaveFault(fault)),
        Err(_) => Said::Nothing,
    }
}

/// The word as it is.
pub fn looked(machine: &Machine, pass: &mut Pass) -> Said
    requires { IsReady machine.now pass.old }
    ensures { IsReady machine.now pass.new }
{
    let Word { stamp, place } = look(machine, pass);
    Said::Stamp(stamp, place)
}

pub fn asked<R: Wait>(rt: &R, alloc: Global, machine: &Machine, pass: &mut Pass, ask: Ask) -> Said
    requires { IsReady machine.now pass.old }
    ensures { IsReady machine.now pass.new }
{
    match ask {
        Ask::Hit(ev) => hit(machine, pass, &Open, ev),
        Ask::Send(ev) => send(rt, machine, pass, ev),
        Ask::Take(vcpu) => taken(rt, machine, pass, vcpu),
        Ask::Show(vcpu) => shown(rt, machine, pass, vcpu),
        Ask::Best(vcpu, mask) => best_of(rt, machine, pass, vcpu, mask),
        Ask::Claim(vcpu, intid) => claimed(rt, machine, pass, vcpu, intid),
        Ask::Poke(addr, byte) => poked(rt, machine, pass, addr, &Bytes64::new(&[byte])),
        Ask::Peek(addr, count) => peeked(rt, machine, pass, addr, count),
        Ask::Read(off, size) => read(rt, machine, pass, off, size),
        Ask::Write(off, size, value) => written(rt, machine, pass, off, size, value),
        Ask::ReadGicr(vcpu, off, size) => read_lpi(rt, machine, pass, vcpu, off, size),
        Ask::WriteGicr(vcpu, off, size, value) => {
            written_lpi(rt, machine, pass, vcpu, off, size, value)
        }
        Ask::Run(place, given) => {
            queue(rt, machine, pass, place, given);
            stepped(rt, machine, pass, &Open)
        }
        Ask::Save => saved(rt, alloc, machine, pass),
        Ask::Look => looked(machine, pass),
    }
}

/// How many of the rows hold, up to the first that doesn't.
pub fn play<R: Wait>(
    rt: &R,
    alloc: Global,
    machine: &Machine,
    pass: &mut Pass,
    rows: &[(Ask, Said)],
) -> usize
    requires { IsReady machine.now pass.old }
    ensures { IsReady machine.now pass.new }
{
    for (row, &(ask, expected)) in rows.iter().enumerate() {
        if asked(rt, alloc, machine, pass, ask) != meant(expected) {
            return row;
        }
    }
    rows.len()
}

// ---- passes

pub fn split(machine: &Machine, root: &mut Root) -> Pass
    requires root { IsRoot machine.now root.old }
    requires few { (view root.old).root.made < 2 ^ 32 }
    ensures root { IsRoot machine.now root.new }
    ensures made { (view root.new).root.made ≡ (view root.old).root.made + 1 }
    ensures pass { IsReady machine.now result }
{
    root.split(machine)
}

pub fn joined(machine: &Machine, root: &mut Root, pass: Pass)
    requires root { IsRoot machine.now root.old }
    requires pass { IsReady machine.now pass }
    ensures { IsRoot machine.now root.new }
{
    root.join(machine, pass);
}
