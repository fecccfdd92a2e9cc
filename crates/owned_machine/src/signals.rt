//! Where a message goes (IHI 0069, sections 5.1 and 5.2).
ghost use Rattle.std.specs.Prelude.{◌≡◌, true, IfOk};
ghost use Rattle.its_plain.specs.Translation as translation;
ghost use Rattle.its_plain.specs.Answer as plain;
ghost use Rattle.its_plain.specs.Plain as states;
ghost use Rattle.cmd_exec.specs.InHand.{pend_changed, with_set, takes_lpi, is_on_in};
ghost use Rattle.owned_parts.specs.Owned.{state_of_parts};
ghost use Rattle.owned_machine.specs.Whole.{IsMachine, GoesOn};

use its_plain::{Cause, Signal};
use its_types::{DeviceId, EventId, Intid, Target, Vcpu};
use lpi_pending::Redists;
use owned_parts::{Parts, locate};

/// A device's message.
pub fn signal(parts: &mut Parts, its: u8, dev: DeviceId, ev: EventId) -> Signal
    requires { IsMachine parts.old }
    ensures reply { result
        ≡ plain.signal_reply (translation.translated (state_of_parts parts.old) its dev.0 ev.0) }
    ensures left { GoesOn parts.new (plain.signal_left (state_of_parts parts.old) result) }
{
    match translate(parts, its, dev, ev) {
        Ok(Target { vcpu, intid }) => {
            set_lpi(&mut parts.redists, vcpu, intid);
            Signal::Delivered { vcpu, intid }
        }
        Err(cause) => Signal::Dropped(cause),
    }
}

// The target whose LPIs are on.
#[tactic(auto, unfolding(its_plain::specs::Translation::translated))]
fn translate(parts: &Parts, its: u8, dev: DeviceId, ev: EventId) -> Result<Target, Cause>
    requires { IsMachine parts.now }
    ensures target { result ≡ translation.translated (state_of_parts parts.now) its dev.0 ev.0 }
    ensures takes { IfOk result (λ t. takes_lpi parts.now.redists t.vcpu.0 t.intid.0 ≡ true) }
    ensures on { IfOk result (λ t. is_on_in parts.now.redists t.vcpu.0 ≡ true) }
{
    let target = located(parts, its, dev, ev)?;
    if !parts.redists.pend(target.vcpu).accepts() {
        return Err(Cause::LpisOff);
    }
    Ok(target)
}

// Where a translator sends an event. One that there isn't is disabled.
fn located(parts: &Parts, its: u8, dev: DeviceId, ev: EventId) -> Result<Target, Cause>
    requires { IsMachine parts.now }
    ensures { result
        ≡ translation.located (states.translator (state_of_parts parts.now) its) dev.0 ev.0 }
{
    match parts.in_place().translator(its) {
        Some(translator) => locate(translator.regs, translator.maps, dev, ev),
        None => Err(Cause::Disabled),
    }
}

#[tactic(auto, unfolding(cmd_exec::specs::InHand::pend_changed))]
fn set_lpi(redists: &mut Redists, vcpu: Vcpu, intid: Intid)
    requires lpi { takes_lpi redists.old vcpu.0 intid.0 ≡ true }
    requires on { is_on_in redists.old vcpu.0 ≡ true }
    ensures { redists.new ≡ pend_changed vcpu.0 (with_set intid.0) redists.old }
{
    let pend = redists.pend_mut(vcpu);
    pend.set(intid);
}
