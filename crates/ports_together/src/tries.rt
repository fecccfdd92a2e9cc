//! Calls that wait for nobody, beside a pass that has guest memory, and alone.
ghost use Rattle.std.specs.Prelude.{◌≡◌};
ghost use Rattle.its_turns.specs.Machines.{view};
ghost use Rattle.ports_together.specs.Ready.{IsReady, IsRoot};

use crate::asks::{joined, split};
use crate::made::made_with;
use crate::pairs::are_low;
use cmd_engine::{Tried, try_step, try_write_reg};
use device_port::{Dma, try_dma};
use gicr_lpi::try_write_gicr;
use its_migrate::try_save;
use its_plain::{Bytes64, MakeError, SaveFault, StepReply};
use its_turns::{Attempt, Busy, Machine, Pass, Root, Value, put, try_take_memory};
use its_types::{Addr, Open, Part, Placed, Vcpu};
use std::alloc::Global;
use std::test::Fail;

// What a write by address, writes of GICR_CTLR and GITS_CTLR, a step and a save were answered, at
// which place, or whose turn was another pass's.
#[derive(Clone, Copy, Debug, PartialEq, Eq)]
enum Told {
    Wrote(u64, Dma),
    TurnedOn(u64),
    TurnedOff(u64),
    Stepped(u64, StepReply),
    Saved(u64, Result<(), SaveFault>),
    Taken(Busy),
    Nothing,
}

// A write of memory by requester 0.
fn wrote(machine: &Machine, pass: &mut Pass) -> Told
    requires { IsReady machine.now pass.old }
    ensures { IsReady machine.now pass.new }
{
    if !are_low(machine.desc().requesters.as_slice()) {
        return Told::Nothing;
    }
    let bytes = Bytes64::new(&[1, 0, 0, 0]);
    match try_dma(machine, pass, &Open, 0, Addr(0x801c_0000), &bytes) {
        Ok(Attempt::Done(Placed { place, reply })) => Told::Wrote(place, reply),
        Ok(Attempt::Busy(busy)) => Told::Taken(busy),
        Ok(Attempt::Raced(_)) => Told::Nothing,
        Ok(Attempt::Spent) => Told::Nothing,
        Err(_) => Told::Nothing,
    }
}

// LPIs go on at virtual processor 2.
fn turned_on(machine: &Machine, pass: &mut Pass) -> Told
    requires { IsReady machine.now pass.old }
    ensures { IsReady machine.now pass.new }
{
    if machine.vcpus() <= 2 {
        return Told::Nothing;
    }
    match try_write_gicr(machine, pass, &Open, Vcpu(2), 0x0, 4, 1) {
        Ok(Attempt::Done(Placed { place, .. })) => Told::TurnedOn(place),
        Ok(Attempt::Busy(busy)) => Told::Taken(busy),
        Ok(Attempt::Raced(_)) => Told::Nothing,
        Ok(Attempt::Spent) => Told::Nothing,
        Err(_) => Told::Nothing,
    }
}

// The translator goes off.
fn turned_off(machine: &Machine, pass: &mut Pass) -> Told
    requires { IsReady machine.now pass.old }
    ensures { IsReady machine.now pass.new }
{
    match try_write_reg(machine, pass, &Open, 0x0, 4, 0) {
        Tried::Done(Placed { place, .. }) => Told::TurnedOff(place),
        Tried::Busy(busy) => Told::Taken(busy),
        _ => Told::Nothing,
    }
}

fn stepped(machine: &Machine, pass: &mut Pass) -> Told
    requires { IsReady machine.now pass.old }
    ensures { IsReady machine.now pass.new }
{
    match try_step(machine, pass, &Open) {
        Tried::Done(Placed { place, reply }) => Told::Stepped(place, reply),
        Tried::Busy(busy) => Told::Taken(busy),
        _ => Told::Nothing,
    }
}

fn saved(alloc: Global, machine: &Machine, pass: &mut Pass) -> Told
    requires { IsReady machine.now pass.old }
    ensures { IsReady machine.now pass.new }
{
    match try_save(alloc, machine, pass, &Open) {
        Ok(Attempt::Done(Placed { place, reply })) => Told::Saved(place, reply),
        Ok(Attempt::Busy(busy)) => Told::Taken(busy),
        Ok(Attempt::Raced(_)) => Told::Nothing,
        Ok(Attempt::Spent) => Told::Nothing,
        Err(_) => Told::Nothing,
    }
}

fn all(alloc: Global, machine: &Machine, pass: &mut Pass) -> [Told; 5]
    requires { IsReady machine.now pass.old }
    ensures { IsReady machine.now pass.new }
{
    let wrote = wrote(machine, pass);
    let turned_on = turned_on(machine, pass);
    let turned_off = turned_off(machine, pass);
    let stepped = stepped(machine, pass);
    let saved = saved(alloc, machine, pass);
    [wrote, turned_on, turned_off, stepped, saved]
}

// While the root has memory.
fn hindered(alloc: Global, machine: &Machine, root: &mut Root, pass: &mut Pass) -> [Told; 5]
    requires root { IsRoot machine.now root.old }
    requires pass { IsReady machine.now pass.old }
    ensures root { IsRoot machine.now root.new }
    ensures pass { IsReady machine.now pass.new }
{
    let Ok(memory) = try_take_memory(machine, root) else {
        return [Told::Nothing; 5];
    };
    let told = all(alloc, machine, pass);
    put(machine, root, Part::Mem, Value::Mem(memory));
    told
}

fn hindered_and_not(alloc: Global, machine: &Machine, root: &mut Root) -> ([Told; 5], [Told; 5])
    requires root { IsRoot machine.now root.old }
    requires made { (view root.old).root.made ≡ 1 }
    ensures { IsRoot machine.now root.new }
{
    let mut pass = split(machine, root);
    let first = hindered(alloc, machine, root, &mut pass);
    let last = all(alloc, machine, &mut pass);
    joined(machine, root, pass);
    (first, last)
}

// The same on a machine that is made for it.
fn told_in_both(alloc: Global) -> Result<([Told; 5], [Told; 5]), MakeError> {
    let (machine, mut root) = made_with(alloc, &[], 16_777_215, true, false)?;
    let told = hindered_and_not(alloc, &machine, &mut root);
    drop((machine, root));
    Ok(told)
}

// The pass that has memory is named, and no place is used, but by the write that wants none; then
// each call is made, one after the other.
#[test]
fn tries_beside_memory_and_alone(rt: HostRuntime) -> Result<(), Fail> {
    let busy = Told::Taken(Busy {
        part: Part::Mem,
        holder: 0,
    });
    let (first, last) = told_in_both(rt.alloc())?;
    assert_eq!(rt; first, [busy, busy, Told::TurnedOff(0), busy, busy]);
    let wanted = [
        Told::Wrote(1, Dma::Ok),
        Told::TurnedOn(2),
        Told::TurnedOff(3),
        Told::Stepped(4, StepReply::Idle),
        Told::Saved(5, Ok(())),
    ];
    assert_eq!(rt; last, wanted);
    Ok(())
}
