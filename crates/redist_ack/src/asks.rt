//! Acknowledgements that wait for their redistributor.
ghost use Rattle.std.specs.Prelude.{◌≡◌, ◌<◌, []};
ghost use Rattle.its_plain.specs.declared.call.Call.TheVariants as call;
ghost use Rattle.its_steps.specs.Parts.{vcpu_count};
ghost use Rattle.its_turns.specs.Machines.{setup, view, IsOf};
ghost use Rattle.redist_ack.specs.Both.{AsksAck};
ghost use Rattle.redist_ack.specs.Offers.{call_of};

use crate::acks::try_ask;
use crate::asked::Asked;
use its_plain::Ack;
use its_turns::{Attempt, Machine, Pass, Spent, give_way, pause};
use its_types::{Gate, Intid, Placed, Vcpu};
use std::sync::Wait;

/// Acknowledges the lowest LPI that is pending and enabled at a virtual processor.
///
/// ```
/// let lpi = match take(rt, machine, pass, &Open, Vcpu(2))?.reply {
///     Ack::Some { intid, .. } => Some(intid),
///     Ack::None => None,
/// };
/// ```
pub fn take<R: Wait, G: Gate>(
    rt: &R,
    machine: &Machine,
    pass: &mut Pass,
    gate: &G,
    vcpu: Vcpu,
) -> Result<Placed<Ack>, Spent>
    requires of { IsOf machine.now pass.old }
    requires free { (view pass.old).held ≡ [] }
    requires vcpu { vcpu.0 < vcpu_count (setup machine.now) }
    ensures of { IsOf machine.now pass.new }
    ensures answer { AsksAck (view pass.old) vcpu (call.Take vcpu) (view pass.new)
        result }
{
    ask(rt, machine, pass, gate, vcpu, Asked::Take)
}

/// Shows the LPI that the virtual processor would acknowledge.
///
/// ```
/// let waits = show(rt, machine, pass, &Open, Vcpu(2))?.reply != Ack::None;
/// ```
pub fn show<R: Wait, G: Gate>(
    rt: &R,
    machine: &Machine,
    pass: &mut Pass,
    gate: &G,
    vcpu: Vcpu,
) -> Result<Placed<Ack>, Spent>
    requires of { IsOf machine.now pass.old }
    requires free { (view pass.old).held ≡ [] }
    requires vcpu { vcpu.0 < vcpu_count (setup machine.now) }
    ensures of { IsOf machine.now pass.new }
    ensures answer { AsksAck (view pass.old) vcpu (call.Show vcpu) (view pass.new)
        result }
{
    ask(rt, machine, pass, gate, vcpu, Asked::Show)
}

/// Shows the LPI that comes first by priority, of those that are pending and enabled at a virtual
/// processor and whose priority is below the mask.
///
/// ```
/// let signalled = best(rt, machine, pass, &Open, Vcpu(2), running)?.reply != Ack::None;
/// ```
pub fn best<R: Wait, G: Gate>(
    rt: &R,
    machine: &Machine,
    pass: &mut Pass,
    gate: &G,
    vcpu: Vcpu,
    mask: u8,
) -> Result<Placed<Ack>, Spent>
    requires of { IsOf machine.now pass.old }
    requires free { (view pass.old).held ≡ [] }
    requires vcpu { vcpu.0 < vcpu_count (setup machine.now) }
    ensures of { IsOf machine.now pass.new }
    ensures answer { AsksAck (view pass.old) vcpu (call.Best vcpu mask) (view pass.new)
        result }
{
    ask(rt, machine, pass, gate, vcpu, Asked::Best(mask))
}

/// Acknowledges this LPI, if it is pending and enabled at a virtual processor.
///
/// ```
/// if let Ack::Some { intid, .. } = best(rt, machine, pass, &Open, Vcpu(2), running)?.reply {
///     let taken = claim(rt, machine, pass, &Open, Vcpu(2), intid)?.reply != Ack::None;
/// }
/// ```
pub fn claim<R: Wait, G: Gate>(
    rt: &R,
    machine: &Machine,
    pass: &mut Pass,
    gate: &G,
    vcpu: Vcpu,
    intid: Intid,
) -> Result<Placed<Ack>, Spent>
    requires of { IsOf machine.now pass.old }
    requires free { (view pass.old).held ≡ [] }
    requires vcpu { vcpu.0 < vcpu_count (setup machine.now) }
    ensures of { IsOf machine.now pass.new }
    ensures answer { AsksAck (view pass.old) vcpu (call.Claim vcpu intid) (view pass.new)
        result }
{
    ask(rt, machine, pass, gate, vcpu, Asked::Claim(intid))
}

// Any of the four.
fn ask<R: Wait, G: Gate>(
    rt: &R,
    machine: &Machine,
    pass: &mut Pass,
    gate: &G,
    vcpu: Vcpu,
    asked: Asked,
) -> Result<Placed<Ack>, Spent>
    requires of { IsOf machine.now pass.old }
    requires free { (view pass.old).held ≡ [] }
    requires vcpu { vcpu.0 < vcpu_count (setup machine.now) }
    ensures of { IsOf machine.now pass.new }
    ensures answer { AsksAck (view pass.old) vcpu (call_of vcpu asked) (view pass.new)
        result }
{
    let mut attempt = 0u8;
    for _ in rt.forever() {
        attempt = attempt.saturating_add(1);
        match try_ask(machine, pass, gate, vcpu, asked) {
            Attempt::Done(placed) => return Ok(placed),
            Attempt::Spent => return Err(Spent),
            Attempt::Busy(_) => give_way(attempt),
            Attempt::Raced(_) => pause(attempt),
        }
    }
    unreachable!()
}
