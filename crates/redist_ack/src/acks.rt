//! Acknowledgements that wait for nobody.
ghost use Rattle.std.specs.Prelude.{◌≡◌, ◌<◌, []};
ghost use Rattle.its_plain.specs.declared.call.Call.TheVariants as call;
ghost use Rattle.its_steps.specs.Parts.{vcpu_count};
ghost use Rattle.its_turns.specs.Machines.{setup, view, IsOf};
ghost use Rattle.redist_ack.specs.Both.{TriesAck};
ghost use Rattle.redist_ack.specs.Offers.{call_of};

use crate::asked::Asked;
use crate::both::{put_both, try_take_both};
use its_plain::{Ack, Reply};
use its_steps::ShardChange;
use its_turns::{Attempt, Machine, Pass, try_commit};
use its_types::{Gate, Intid, Placed, Vcpu};

/// Acknowledges the lowest LPI that is pending and enabled at a virtual processor.
pub fn try_take<G: Gate>(machine: &Machine, pass: &mut Pass, gate: &G, vcpu: Vcpu) -> Attempt<Ack>
    requires of { IsOf machine.now pass.old }
    requires free { (view pass.old).held ≡ [] }
    requires vcpu { vcpu.0 < vcpu_count (setup machine.now) }
    ensures of { IsOf machine.now pass.new }
    ensures answer { TriesAck (view pass.old) vcpu (call.Take vcpu) (view pass.new)
        result }
{
    try_ask(machine, pass, gate, vcpu, Asked::Take)
}

/// Shows the LPI that the virtual processor would acknowledge.
pub fn try_show<G: Gate>(machine: &Machine, pass: &mut Pass, gate: &G, vcpu: Vcpu) -> Attempt<Ack>
    requires of { IsOf machine.now pass.old }
    requires free { (view pass.old).held ≡ [] }
    requires vcpu { vcpu.0 < vcpu_count (setup machine.now) }
    ensures of { IsOf machine.now pass.new }
    ensures answer { TriesAck (view pass.old) vcpu (call.Show vcpu) (view pass.new)
        result }
{
    try_ask(machine, pass, gate, vcpu, Asked::Show)
}

/// Shows the LPI that comes first by priority, of those that are pending and enabled at a virtual
/// processor and whose priority is below the mask.
pub fn try_best<G: Gate>(
    machine: &Machine,
    pass: &mut Pass,
    gate: &G,
    vcpu: Vcpu,
    mask: u8,
) -> Attempt<Ack>
    requires of { IsOf machine.now pass.old }
    requires free { (view pass.old).held ≡ [] }
    requires vcpu { vcpu.0 < vcpu_count (setup machine.now) }
    ensures of { IsOf machine.now pass.new }
    ensures answer { TriesAck (view pass.old) vcpu (call.Best vcpu mask) (view pass.new)
        result }
{
    try_ask(machine, pass, gate, vcpu, Asked::Best(mask))
}

/// Acknowledges this LPI, if it is pending and enabled at a virtual processor.
pub fn try_claim<G: Gate>(
    machine: &Machine,
    pass: &mut Pass,
    gate: &G,
    vcpu: Vcpu,
    intid: Intid,
) -> Attempt<Ack>
    requires of { IsOf machine.now pass.old }
    requires free { (view pass.old).held ≡ [] }
    requires vcpu { vcpu.0 < vcpu_count (setup machine.now) }
    ensures of { IsOf machine.now pass.new }
    ensures answer { TriesAck (view pass.old) vcpu (call.Claim vcpu intid) (view pass.new)
        result }
{
    try_ask(machine, pass, gate, vcpu, Asked::Claim(intid))
}

/// Any of the four.
pub fn try_ask<G: Gate>(
    machine: &Machine,
    pass: &mut Pass,
    gate: &G,
    vcpu: Vcpu,
    asked: Asked,
) -> Attempt<Ack>
    requires of { IsOf machine.now pass.old }
    requires free { (view pass.old).held ≡ [] }
    requires vcpu { vcpu.0 < vcpu_count (setup machine.now) }
    ensures of { IsOf machine.now pass.new }
    ensures answer { TriesAck (view pass.old) vcpu (call_of vcpu asked) (view pass.new)
        result }
{
    let (conf, mut pend) = match try_take_both(machine, pass, vcpu) {
        Ok(both) => both,
        Err(busy) => return Attempt::Busy(busy),
    };
    let ack = asked.answer(&conf, &pend);
    let call = asked.call(vcpu);
    match try_commit(
        machine,
        pass,
        gate,
        &call,
        &Reply::Ack(ack),
        ShardChange::Keep,
    ) {
        Ok(word) => {
            asked.apply(&mut pend, ack);
            put_both(machine, pass, vcpu, conf, pend);
            Attempt::Done(Placed {
                place: word.place,
                reply: ack,
            })
        }
        Err(lost) => {
            put_both(machine, pass, vcpu, conf, pend);
            lost.attempt()
        }
    }
}
