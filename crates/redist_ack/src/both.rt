//! Both parts of a redistributor, for a call that waits for nobody.
ghost use Rattle.std.specs.Prelude.{◌≡◌, ◌<◌, [], MatchResult};
ghost use Rattle.lpi_config.specs.Conf.{conf_state};
ghost use Rattle.lpi_pending.specs.InHand.{pend_state, HasLpisOfConf, HasLpisOfPend};
ghost use Rattle.its_steps.specs.Parts.{vcpu_count};
ghost use Rattle.its_turns.specs.Machines.{setup, view, IsOf};
ghost use Rattle.its_turns.specs.Told.{released};
ghost use Rattle.redist_ack.specs.Both.{TakesBoth, WasBusyAtEither, OwesBoth};

use its_turns::{Busy, Machine, Pass, Value, put, try_take_conf, try_take_pend};
use its_types::{Part, Vcpu};
use lpi_config::Conf;
use lpi_pending::Pend;

/// Takes the configuration, then what is pending. Where another pass has either, it holds neither.
pub fn try_take_both(
    machine: &Machine,
    pass: &mut Pass,
    vcpu: Vcpu,
) -> Result<(Box<Conf>, Box<Pend>), Busy>
    requires of { IsOf machine.now pass.old }
    requires free { (view pass.old).held ≡ [] }
    requires vcpu { vcpu.0 < vcpu_count (setup machine.now) }
    ensures of { IsOf machine.now pass.new }
    ensures result { MatchResult result
        (λ x. TakesBoth (view pass.old) vcpu (conf_state x.0.value) (pend_state x.1.value)
        (view pass.new) × HasLpisOfConf (setup machine.now).start.layout.shape x.0.value
        × HasLpisOfPend (setup machine.now).start.layout.shape x.1.value)
        (λ b. WasBusyAtEither (view pass.old) vcpu b (view pass.new)) }
{
    let conf = try_take_conf(machine, pass, vcpu)?;
    match try_take_pend(machine, pass, vcpu) {
        Ok(pend) => Ok((conf, pend)),
        Err(busy) => {
            put(machine, pass, Part::Conf(vcpu), Value::Conf(conf));
            Err(busy)
        }
    }
}

/// Puts both back, what is pending first.
pub fn put_both(machine: &Machine, pass: &mut Pass, vcpu: Vcpu, conf: Box<Conf>, pend: Box<Pend>)
    requires of { IsOf machine.now pass.old }
    requires vcpu { vcpu.0 < vcpu_count (setup machine.now) }
    requires owed { OwesBoth (view pass.old) vcpu (conf_state conf.value) (pend_state pend.value) }
    requires conf_lpis { HasLpisOfConf (setup machine.now).start.layout.shape conf.value }
    requires pend_lpis { HasLpisOfPend (setup machine.now).start.layout.shape pend.value }
    ensures of { IsOf machine.now pass.new }
    ensures view { view pass.new ≡ released (released (view pass.old)) }
{
    put(machine, pass, Part::Pend(vcpu), Value::Pend(pend));
    put(machine, pass, Part::Conf(vcpu), Value::Conf(conf));
}
