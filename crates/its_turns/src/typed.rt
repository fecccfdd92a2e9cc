//! Parts taken as what they are, each after all that the pass holds.
ghost use Rattle.std.specs.Prelude.{◌≡◌, ◌<◌, MatchResult};
ghost use Rattle.its_types.specs.declared.machine.Part.TheVariants as part;
ghost use Rattle.lpi_config.specs.Conf.{conf_state};
ghost use Rattle.lpi_pending.specs.InHand.{pend_state, AreEmpty, HasLpisOfConf, HasLpisOfPend};
ghost use Rattle.owned_parts.specs.Owned.{translator_of};
ghost use Rattle.its_steps.specs.Parts.{Stands, translator_count, vcpu_count};
ghost use Rattle.its_steps.specs.Contents as content;
ghost use Rattle.its_turns.specs.Machines.{setup, view, IsOf};
ghost use Rattle.its_turns.specs.Order.{IsInOrder};
ghost use Rattle.its_turns.specs.Steps.{TakesPart, IsBusy};

use crate::machine::{Machine, Pass};
use crate::turns::{Busy, try_take};
use crate::value::{GuestMemory, Value};
use its_types::{Part, Vcpu};
use lpi_config::Conf;
use lpi_pending::Pend;
use owned_parts::Translator;
use xlate_cache::Shard;

/// Tries the turn of a translator's maps once, and takes registers and maps out.
pub fn try_take_maps(machine: &Machine, pass: &mut Pass, its: u8) -> Result<Box<Translator>, Busy>
    requires of { IsOf machine.now pass.old }
    requires stands { its < translator_count (setup machine.now) }
    requires order { IsInOrder (part.Maps its) (view pass.old).held }
    ensures of { IsOf machine.now pass.new }
    ensures result { MatchResult result
        (λ x. TakesPart (view pass.old) (part.Maps its) (content.Maps (translator_of x.value))
        (view pass.new))
        (λ b. IsBusy (view pass.old) (part.Maps its) b (view pass.new)) }
{
    match try_take(machine, pass, Part::Maps(its)) {
        Ok(Value::Maps(translator)) => Ok(translator),
        Ok(_) => unreachable!(),
        Err(busy) => Err(busy),
    }
}

/// Tries the turn of guest memory once, and takes it out with the places for redistributors.
pub fn try_take_memory(machine: &Machine, pass: &mut Pass) -> Result<Box<GuestMemory>, Busy>
    requires of { IsOf machine.now pass.old }
    requires order { IsInOrder part.Mem (view pass.old).held }
    ensures of { IsOf machine.now pass.new }
    ensures result { MatchResult result
        (λ x. TakesPart (view pass.old) part.Mem (content.Mem x.value.memory x.value.track)
        (view pass.new) × AreEmpty (vcpu_count (setup machine.now)) x.value.redists)
        (λ b. IsBusy (view pass.old) part.Mem b (view pass.new)) }
{
    match try_take(machine, pass, Part::Mem) {
        Ok(Value::Mem(memory)) => Ok(memory),
        Ok(_) => unreachable!(),
        Err(busy) => Err(busy),
    }
}

/// Tries the turn of a shard once, and takes it out.
pub fn try_take_shard(
    machine: &Machine,
    pass: &mut Pass,
    its: u8,
    number: u32,
) -> Result<Shard, Busy>
    requires of { IsOf machine.now pass.old }
    requires stands { Stands (setup machine.now) (part.Shard its number) }
    requires order { IsInOrder (part.Shard its number) (view pass.old).held }
    ensures of { IsOf machine.now pass.new }
    ensures result { MatchResult result
        (λ x. TakesPart (view pass.old) (part.Shard its number) (content.Shard x) (view pass.new))
        (λ b. IsBusy (view pass.old) (part.Shard its number) b (view pass.new)) }
{
    match try_take(machine, pass, Part::Shard(its, number)) {
        Ok(Value::Shard(shard)) => Ok(shard),
        Ok(_) => unreachable!(),
        Err(busy) => Err(busy),
    }
}

/// Tries the turn of a redistributor's configuration once, and takes it out with its LPI registers.
pub fn try_take_conf(machine: &Machine, pass: &mut Pass, vcpu: Vcpu) -> Result<Box<Conf>, Busy>
    requires of { IsOf machine.now pass.old }
    requires stands { vcpu.0 < vcpu_count (setup machine.now) }
    requires order { IsInOrder (part.Conf vcpu) (view pass.old).held }
    ensures of { IsOf machine.now pass.new }
    ensures result { MatchResult result
        (λ x. TakesPart (view pass.old) (part.Conf vcpu) (content.Conf (conf_state x.value))
        (view pass.new) × HasLpisOfConf (setup machine.now).start.layout.shape x.value)
        (λ b. IsBusy (view pass.old) (part.Conf vcpu) b (view pass.new)) }
{
    match try_take(machine, pass, Part::Conf(vcpu)) {
        Ok(Value::Conf(conf)) => Ok(conf),
        Ok(_) => unreachable!(),
        Err(busy) => Err(busy),
    }
}

/// Tries the turn of what is pending at a redistributor once, and takes it out.
pub fn try_take_pend(machine: &Machine, pass: &mut Pass, vcpu: Vcpu) -> Result<Box<Pend>, Busy>
    requires of { IsOf machine.now pass.old }
    requires stands { vcpu.0 < vcpu_count (setup machine.now) }
    requires order { IsInOrder (part.Pend vcpu) (view pass.old).held }
    ensures of { IsOf machine.now pass.new }
    ensures result { MatchResult result
        (λ x. TakesPart (view pass.old) (part.Pend vcpu) (content.Pend (pend_state x.value))
        (view pass.new) × HasLpisOfPend (setup machine.now).start.layout.shape x.value)
        (λ b. IsBusy (view pass.old) (part.Pend vcpu) b (view pass.new)) }
{
    match try_take(machine, pass, Part::Pend(vcpu)) {
        Ok(Value::Pend(pend)) => Ok(pend),
        Ok(_) => unreachable!(),
        Err(busy) => Err(busy),
    }
}
