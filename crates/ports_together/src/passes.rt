//! Passes over one machine, call by call in one thread, and on threads.
ghost use Rattle.std.specs.Prelude.{◌≡◌, ◌+◌, ◌^◌, ◌<◌, length};
ghost use Rattle.its_turns.specs.Machines.{view};
ghost use Rattle.ports_together.specs.Ready.{IsReady, IsRoot};

use crate::asks::{Ask, DEVICE, Said, hit, joined, play, send, split, taken};
use crate::given::Given;
use crate::made::made;
use its_command::Op;
use its_plain::{MakeError, Reply, Signal};
use its_turns::{
    Busy, Machine, Pass, Root, Value, close, look, put, try_take_conf, try_take_pend,
    try_take_shard,
};
use its_types::{EventId, Icid, Intid, Open, Part, Vcpu};
use std::alloc::Global;
use std::sync::Wait;
use std::test::Fail;
use std::thread::{Threads, join};

const TARGET: Vcpu = Vcpu(2);

// Device 16 has events 3 and 7, with interrupts 8200 and 8201 at virtual processor 2. The first is
// enabled, with priority 0xa0.
const WORDS: [(u64, u64); 5] = [
    (0x8003_0008, 0xa1),
    (0x8001_0000, 0x8000_0000_0002_0001),
    (0x8000_0080, 0x8000_0000_1001_8004),
    (0x800c_0018, 0x0004_0000_2008_0001),
    (0x800c_0038, 0x0000_0000_2009_0001),
];

// How many calls were made.
fn count(machine: &Machine, root: &mut Root) -> u64
    requires { IsRoot machine.now root.old }
    ensures root { IsRoot machine.now root.new }
    ensures count { length (view root.new).seen ≡ result }
{
    look(machine, root).place
}

// The collection's target in the parts that are left, where no pass is out.
fn closed(machine: Machine, root: Root) -> Option<Vcpu>
    requires { IsRoot machine root }
{
    if root.out() != 0 {
        drop((machine, root));
        return None;
    }
    let parts = close(machine, root);
    let target = parts.first.maps.collection(Icid(1));
    drop(parts);
    target
}

// ---- one thread

const ROWS: [(Ask, Said); 8] = [
    (Ask::Hit(3), Said::Miss),
    (Ask::Send(3), Said::Sent(0, 2, 8200)),
    (Ask::Hit(3), Said::Sent(1, 2, 8200)),
    (Ask::Take(2), Said::Lpi(2, 8200, 0xa0)),
    (Ask::Send(7), Said::Sent(3, 2, 8201)),
    (Ask::Show(2), Said::NoLpi(4)),
    (Ask::Poke(0x801c_0000, 7), Said::At(5, Reply::Ok)),
    (Ask::Peek(0x9000_0000, 1), Said::At(6, Reply::Outside)),
];

// What a pass is answered for a signal of event 3, while the root has the pair's shard.
fn hindered(machine: &Machine, root: &mut Root, pass: &mut Pass) -> Said
    requires root { IsRoot machine.now root.old }
    requires pass { IsReady machine.now pass.old }
    ensures root { IsRoot machine.now root.new }
    ensures pass { IsReady machine.now pass.new }
{
    let number = machine.shard_of(DEVICE, EventId(3));
    let Ok(shard) = try_take_shard(machine, root, 0, number) else {
        return Said::Nothing;
    };
    let said = hit(machine, pass, &Open, 3);
    put(machine, root, Part::Shard(0, number), Value::Shard(shard));
    said
}

// What it is answered while the root has the target's configuration, of which a signal needs
// nothing.
fn unhindered(machine: &Machine, root: &mut Root, pass: &mut Pass) -> Said
    requires root { IsRoot machine.now root.old }
    requires pass { IsReady machine.now pass.old }
    ensures root { IsRoot machine.now root.new }
    ensures pass { IsReady machine.now pass.new }
{
    if TARGET.0 >= machine.vcpus() {
        return Said::Nothing;
    }
    let Ok(conf) = try_take_conf(machine, root, TARGET) else {
        return Said::Nothing;
    };
    let said = hit(machine, pass, &Open, 3);
    put(machine, root, Part::Conf(TARGET), Value::Conf(conf));
    said
}

const SENT: Said = Said::At(
    7,
    Reply::Signal(Signal::Delivered {
        vcpu: TARGET,
        intid: Intid(8200),
    }),
);

const LAST: [(Ask, Said); 1] = [(Ask::Hit(3), Said::Sent(8, 2, 8200))];

// How many rows hold, whether a hindered signal is told of the root, whether another is sent, and
// how many rows hold after it.
fn by_hand<R: Wait>(
    rt: &R,
    alloc: Global,
    machine: &Machine,
    root: &mut Root,
) -> (usize, bool, bool, usize)
    requires root { IsRoot machine.now root.old }
    requires made { (view root.old).root.made ≡ 1 }
    ensures { IsRoot machine.now root.new }
{
    let mut pass = split(machine, root);
    let first = play(rt, alloc, machine, &mut pass, &ROWS);
    let part = Part::Shard(0, machine.shard_of(DEVICE, EventId(3)));
    let busy = Said::Busy(Busy { part, holder: 0 });
    let is_told = hindered(machine, root, &mut pass) == busy;
    let is_sent = unhindered(machine, root, &mut pass) == SENT;
    let last = play(rt, alloc, machine, &mut pass, &LAST);
    joined(machine, root, pass);
    (first, is_told, is_sent, last)
}

// The same on a machine that is made for it, and the collection's target in its parts.
fn one_pass<R: Wait>(
    rt: &R,
    alloc: Global,
) -> Result<((usize, bool, bool, usize), Option<Vcpu>), MakeError> {
    let (machine, mut root) = made(alloc, &WORDS)?;
    let held = by_hand(rt, alloc, &machine, &mut root);
    Ok((held, closed(machine, root)))
}

#[test]
fn one_pass_by_hand(rt: HostRuntime) -> Result<(), Fail> {
    let held = one_pass(&rt, rt.alloc())?;
    assert_eq!(rt; held, ((8, true, true, 1), Some(TARGET)));
    Ok(())
}

// ---- one part of a redistributor alone

const CACHED: [(Ask, Said); 1] = [(Ask::Send(3), Said::Sent(0, 2, 8200))];

const CONFIGURED: [(Ask, Said); 1] = [(Ask::Run(0, Given::Inv(3)), Said::Ran(3, Op::Inv))];

const SIGNALLED: [(Ask, Said); 1] = [(Ask::Hit(3), Said::Sent(4, 2, 8200))];

// While the root has what is pending at the target: how many rows hold that read a configuration
// again, and what a signal is answered.
fn beside_pending<R: Wait>(
    rt: &R,
    alloc: Global,
    machine: &Machine,
    root: &mut Root,
    pass: &mut Pass,
) -> (usize, Said)
    requires root { IsRoot machine.now root.old }
    requires pass { IsReady machine.now pass.old }
    ensures root { IsRoot machine.now root.new }
    ensures pass { IsReady machine.now pass.new }
{
    if TARGET.0 >= machine.vcpus() {
        return (0, Said::Nothing);
    }
    let Ok(pend) = try_take_pend(machine, root, TARGET) else {
        return (0, Said::Nothing);
    };
    let configured = play(rt, alloc, machine, pass, &CONFIGURED);
    let said = hit(machine, pass, &Open, 3);
    put(machine, root, Part::Pend(TARGET), Value::Pend(pend));
    (configured, said)
}

// While it has the configuration there: how many rows hold that signal.
fn beside_configuration<R: Wait>(
    rt: &R,
    alloc: Global,
    machine: &Machine,
    root: &mut Root,
    pass: &mut Pass,
) -> usize
    requires root { IsRoot machine.now root.old }
    requires pass { IsReady machine.now pass.old }
    ensures root { IsRoot machine.now root.new }
    ensures pass { IsReady machine.now pass.new }
{
    if TARGET.0 >= machine.vcpus() {
        return 0;
    }
    let Ok(conf) = try_take_conf(machine, root, TARGET) else {
        return 0;
    };
    let signalled = play(rt, alloc, machine, pass, &SIGNALLED);
    put(machine, root, Part::Conf(TARGET), Value::Conf(conf));
    signalled
}

// How many rows hold of each table, and whether a hindered signal is told of the root.
fn by_parts<R: Wait>(
    rt: &R,
    alloc: Global,
    machine: &Machine,
    root: &mut Root,
) -> (usize, usize, bool, usize)
    requires root { IsRoot machine.now root.old }
    requires made { (view root.old).root.made ≡ 1 }
    ensures { IsRoot machine.now root.new }
{
    let mut pass = split(machine, root);
    let cached = play(rt, alloc, machine, &mut pass, &CACHED);
    let (configured, said) = beside_pending(rt, alloc, machine, root, &mut pass);
    let busy = Said::Busy(Busy {
        part: Part::Pend(TARGET),
        holder: 0,
    });
    let signalled = beside_configuration(rt, alloc, machine, root, &mut pass);
    joined(machine, root, pass);
    (cached, configured, said == busy, signalled)
}

// The same on a machine that is made for it, and the collection's target in its parts.
fn two_parts<R: Wait>(
    rt: &R,
    alloc: Global,
) -> Result<((usize, usize, bool, usize), Option<Vcpu>), MakeError> {
    let (machine, mut root) = made(alloc, &WORDS)?;
    let held = by_parts(rt, alloc, &machine, &mut root);
    Ok((held, closed(machine, root)))
}

#[test]
fn configurations_and_signals_apart(rt: HostRuntime) -> Result<(), Fail> {
    let held = two_parts(&rt, rt.alloc())?;
    assert_eq!(rt; held, ((1, 1, true, 1), Some(TARGET)));
    Ok(())
}

// ---- two threads

fn sends_all<R: Wait>(rt: &R, machine: &Machine, mut pass: Pass) -> Pass
    requires { IsReady machine.now pass }
    ensures { IsReady machine.now result }
{
    for _ in 0..100u8 {
        send(rt, machine, &mut pass, 3);
    }
    pass
}

fn takes_all<R: Wait>(rt: &R, machine: &Machine, mut pass: Pass) -> Pass
    requires { IsReady machine.now pass }
    ensures { IsReady machine.now result }
{
    for _ in 0..100u8 {
        taken(rt, machine, &mut pass, 2);
    }
    pass
}

// One thread signals event 3, and another takes from its target.
fn both<R: Threads + Wait + Sync>(rt: &R, machine: &Machine, root: &mut Root)
    requires root { IsRoot machine.now root.old }
    requires made { (view root.old).root.made ≡ 1 }
    ensures { IsRoot machine.now root.new }
{
    let sender = split(machine, root);
    let taker = split(machine, root);
    let (sender, taker) = join(
        rt,
        || sends_all(rt, machine, sender),
        || takes_all(rt, machine, taker),
    );
    joined(machine, root, sender);
    joined(machine, root, taker);
}

// How many calls two threads made, and the collection's target in the parts that are left.
fn after_both<R: Threads + Wait + Sync>(
    rt: &R,
    alloc: Global,
) -> Result<(u64, Option<Vcpu>), MakeError> {
    let (machine, mut root) = made(alloc, &WORDS)?;
    both(rt, &machine, &mut root);
    let calls = count(&machine, &mut root);
    Ok((calls, closed(machine, root)))
}

#[test]
fn two_threads(rt: HostRuntime) -> Result<(), Fail> {
    let after = after_both(&rt, rt.alloc())?;
    assert_eq!(rt; after, (200, Some(TARGET)));
    Ok(())
}
