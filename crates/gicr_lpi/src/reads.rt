//! Reads of the LPI registers.
ghost use Rattle.std.specs.Prelude.{◌≡◌, ◌<◌, []};
ghost use Rattle.its_types.specs.declared.machine.Part.TheVariants as part;
ghost use Rattle.its_plain.specs.declared.call.Call.TheVariants as call;
ghost use Rattle.its_plain.specs.declared.call.Reply.TheVariants as reply;
ghost use Rattle.its_steps.specs.Parts.{vcpu_count};
ghost use Rattle.its_turns.specs.Calls.{TriesPart, AsksPart};
ghost use Rattle.its_turns.specs.Machines.{setup, view, IsOf};

use crate::access::read_from;
use its_plain::{Call, Reply};
use its_steps::ShardChange;
use its_turns::{
    Attempt, Machine, Pass, Spent, Value, give_way, pause, put, try_commit, try_take_conf,
};
use its_types::{Gate, Part, Placed, Vcpu};
use std::sync::Wait;

/// Reads `size` bytes, 4 or 8, at an offset of a virtual processor's LPI registers. Zero where the
/// guest doesn't program the LPI tables. Waits for nobody.
pub fn try_read_gicr<G: Gate>(
    machine: &Machine,
    pass: &mut Pass,
    gate: &G,
    vcpu: Vcpu,
    off: u32,
    size: u8,
) -> Attempt<u64>
    requires of { IsOf machine.now pass.old }
    requires free { (view pass.old).held ≡ [] }
    requires vcpu { vcpu.0 < vcpu_count (setup machine.now) }
    ensures of { IsOf machine.now pass.new }
    ensures answer { TriesPart (view pass.old) (part.Conf vcpu) (call.ReadGicr vcpu off size)
        reply.Value (view pass.new) result }
{
    let conf = match try_take_conf(machine, pass, vcpu) {
        Ok(conf) => conf,
        Err(busy) => return Attempt::Busy(busy),
    };
    let desc = machine.desc();
    let programmed = desc.tables.are_programmed();
    let value = read_from(desc.shape.linux, &conf, programmed, off, size);
    let call = Call::ReadGicr { vcpu, off, size };
    let made = try_commit(
        machine,
        pass,
        gate,
        &call,
        &Reply::Value(value),
        ShardChange::Keep,
    );
    match made {
        Ok(word) => {
            put(machine, pass, Part::Conf(vcpu), Value::Conf(conf));
            Attempt::Done(Placed {
                place: word.place,
                reply: value,
            })
        }
        Err(lost) => {
            put(machine, pass, Part::Conf(vcpu), Value::Conf(conf));
            lost.attempt()
        }
    }
}

/// Reads `size` bytes, 4 or 8, at an offset of a virtual processor's LPI registers. Zero where the
/// guest doesn't program the LPI tables.
///
/// ```
/// // GICR_CTLR, bit 0: EnableLPIs.
/// let on = read_gicr(rt, machine, pass, &Open, Vcpu(2), 0x0, 4)?.reply & 1 == 1;
/// ```
pub fn read_gicr<R: Wait, G: Gate>(
    rt: &R,
    machine: &Machine,
    pass: &mut Pass,
    gate: &G,
    vcpu: Vcpu,
    off: u32,
    size: u8,
) -> Result<Placed<u64>, Spent>
    requires of { IsOf machine.now pass.old }
    requires free { (view pass.old).held ≡ [] }
    requires vcpu { vcpu.0 < vcpu_count (setup machine.now) }
    ensures of { IsOf machine.now pass.new }
    ensures answer { AsksPart (view pass.old) (part.Conf vcpu) (call.ReadGicr vcpu off size)
        reply.Value (view pass.new) result }
{
    let mut attempt = 0u8;
    for _ in rt.forever() {
        attempt = attempt.saturating_add(1);
        match try_read_gicr(machine, pass, gate, vcpu, off, size) {
            Attempt::Done(placed) => return Ok(placed),
            Attempt::Spent => return Err(Spent),
            Attempt::Busy(_) => give_way(attempt),
            Attempt::Raced(_) => pause(attempt),
        }
    }
    unreachable!()
}
