//! Acknowledgements (IHI 0069, section 5.1).
ghost use Rattle.std.specs.Prelude.{◌≡◌, true};
ghost use Rattle.its_types.specs.Ranges.{is_lpi};
ghost use Rattle.its_plain.specs.Plain as plain;
ghost use Rattle.its_plain.specs.Answer as answers;
ghost use Rattle.owned_parts.specs.Owned.{redistributor_of};
ghost use Rattle.cmd_exec.specs.InHand.{pend_changed, with_cleared, takes_lpi};
ghost use Rattle.owned_parts.specs.Owned.{state_of_parts};
ghost use Rattle.owned_machine.specs.Acks.{chosen, ack_at, left_at};
ghost use Rattle.owned_machine.specs.Whole.{IsMachine, GoesOn, IfAcked};
ghost use Rattle.owned_machine.specs.declared.asked.Asked.TheVariants as asks;

use crate::asked::Asked;
use its_plain::Ack;
use its_types::{Intid, Vcpu};
use lpi_config::Conf;
use lpi_pending::{Pend, Redists};
use owned_parts::Parts;

/// The LPI that is asked for. Nothing is pending at a virtual processor that there isn't.
pub fn look(parts: &Parts, vcpu: Vcpu, asked: Asked) -> Ack
    requires { IsMachine parts.now }
    ensures ack { result ≡ ack_at (state_of_parts parts.now) vcpu.0 asked }
    ensures takes { IfAcked result (λ intid. takes_lpi parts.now.redists vcpu.0 intid ≡ true) }
{
    if vcpu.0 >= parts.layout.shape.vcpus {
        return Ack::None;
    }
    let redists = &parts.redists;
    look_in(redists.conf(vcpu), redists.pend(vcpu), asked)
}

/// A virtual processor acknowledges the lowest LPI that is pending and enabled.
pub fn take(parts: &mut Parts, vcpu: Vcpu) -> Ack
    requires { IsMachine parts.old }
    ensures ack { result ≡ ack_at (state_of_parts parts.old) vcpu.0 asks.Lowest }
    ensures left { GoesOn parts.new (left_at (state_of_parts parts.old) vcpu.0 asks.Lowest) }
{
    let ack = look(parts, vcpu, Asked::Lowest);
    if let Ack::Some { intid, .. } = ack {
        clear_lpi(&mut parts.redists, vcpu, intid);
    }
    ack
}

/// A virtual processor acknowledges this LPI, if it is pending and enabled.
pub fn claim(parts: &mut Parts, vcpu: Vcpu, intid: Intid) -> Ack
    requires { IsMachine parts.old }
    ensures ack { result ≡ ack_at (state_of_parts parts.old) vcpu.0 (asks.This intid) }
    ensures left { GoesOn parts.new (left_at (state_of_parts parts.old) vcpu.0 (asks.This intid)) }
{
    let ack = look(parts, vcpu, Asked::This(intid));
    if let Ack::Some { intid, .. } = ack {
        clear_lpi(&mut parts.redists, vcpu, intid);
    }
    ack
}

// The LPI that is asked for, with its priority.
fn look_in(conf: &Conf, pend: &Pend, asked: Asked) -> Ack
    requires { pend.now.pending.lpi_bits ≡ conf.now.config.lpi_bits }
    ensures ack { result
        ≡ answers.ack_of (redistributor_of conf.now pend.now)
        (chosen (redistributor_of conf.now pend.now) asked) }
    ensures lpi { IfAcked result (λ intid. is_lpi pend.now.pending.lpi_bits intid ≡ true) }
{
    let found = match asked {
        Asked::Lowest => pend.first_enabled(conf),
        Asked::Best(mask) => pend.first_by_priority(conf, mask),
        Asked::This(intid) => pend.claimable(conf, intid),
    };
    match found {
        Some(intid) => Ack::Some {
            intid,
            priority: conf.byte(intid) & 0xfc,
        },
        None => Ack::None,
    }
}

#[tactic(auto, unfolding(cmd_exec::specs::InHand::pend_changed))]
fn clear_lpi(redists: &mut Redists, vcpu: Vcpu, intid: Intid)
    requires { takes_lpi redists.old vcpu.0 intid.0 ≡ true }
    ensures { redists.new ≡ pend_changed vcpu.0 (with_cleared intid.0) redists.old }
{
    let pend = redists.pend_mut(vcpu);
    pend.clear(intid);
}
