//! Parts taken as what they are.
ghost use Rattle.std.specs.Prelude.{◌≡◌, ◌<◌};
ghost use Rattle.its_types.specs.declared.machine.Part.TheVariants as part;
ghost use Rattle.lpi_config.specs.Conf.{conf_state};
ghost use Rattle.lpi_pending.specs.InHand.{pend_state, AreEmpty, HasLpisOfConf, HasLpisOfPend};
ghost use Rattle.owned_parts.specs.Owned.{translator_of};
ghost use Rattle.its_steps.specs.Parts.{Stands, translator_count, vcpu_count};
ghost use Rattle.its_steps.specs.Contents as content;
ghost use Rattle.its_turns.specs.Machines.{setup, view, IsOf};
ghost use Rattle.its_turns.specs.Order.{IsInOrder};
ghost use Rattle.held_parts.specs.Taking.{TakesInTime};

use crate::turns::Turns;
use its_turns::{GuestMemory, Machine, Pass, Value};
use its_types::{Part, Vcpu};
use lpi_config::Conf;
use lpi_pending::Pend;
use owned_parts::Translator;
use xlate_cache::Shard;

/// Takes a translator's registers and maps out.
#[inline(always)]
pub fn take_maps<T: Turns>(how: &T, machine: &Machine, pass: &mut Pass, its: u8) -> Box<Translator>
    requires of { IsOf machine.now pass.old }
    requires stands { its < translator_count (setup machine.now) }
    requires order { IsInOrder (part.Maps its) (view pass.old).held }
    requires allowed { T.allowed (view pass.old) }
    ensures of { IsOf machine.now pass.new }
    ensures takes { TakesInTime (view pass.old) (part.Maps its)
        (content.Maps (translator_of result.value)) (view pass.new) }
    ensures allowed { T.allowed (view pass.new) }
{
    match how.turn(machine, pass, Part::Maps(its)) {
        Value::Maps(translator) => translator,
        _ => unreachable!(),
    }
}

/// Takes guest memory out, with empty places for redistributors.
#[inline(always)]
pub fn take_memory<T: Turns>(how: &T, machine: &Machine, pass: &mut Pass) -> Box<GuestMemory>
    requires of { IsOf machine.now pass.old }
    requires order { IsInOrder part.Mem (view pass.old).held }
    requires allowed { T.allowed (view pass.old) }
    ensures of { IsOf machine.now pass.new }
    ensures takes { TakesInTime (view pass.old) part.Mem
        (content.Mem result.value.memory result.value.track) (view pass.new) }
    ensures room { AreEmpty (vcpu_count (setup machine.now)) result.value.redists }
    ensures allowed { T.allowed (view pass.new) }
{
    match how.turn(machine, pass, Part::Mem) {
        Value::Mem(memory) => memory,
        _ => unreachable!(),
    }
}

/// Takes a shard out.
pub fn take_shard<T: Turns>(
    how: &T,
    machine: &Machine,
    pass: &mut Pass,
    its: u8,
    number: u32,
) -> Shard
    requires of { IsOf machine.now pass.old }
    requires stands { Stands (setup machine.now) (part.Shard its number) }
    requires order { IsInOrder (part.Shard its number) (view pass.old).held }
    requires allowed { T.allowed (view pass.old) }
    ensures of { IsOf machine.now pass.new }
    ensures takes { TakesInTime (view pass.old) (part.Shard its number) (content.Shard result)
        (view pass.new) }
    ensures allowed { T.allowed (view pass.new) }
{
    match how.turn(machine, pass, Part::Shard(its, number)) {
        Value::Shard(shard) => shard,
        _ => unreachable!(),
    }
}

/// Takes the configuration of a redistributor out, with its LPI registers.
#[inline(always)]
pub fn take_conf<T: Turns>(how: &T, machine: &Machine, pass: &mut Pass, vcpu: Vcpu) -> Box<Conf>
    requires of { IsOf machine.now pass.old }
    requires stands { vcpu.0 < vcpu_count (setup machine.now) }
    requires order { IsInOrder (part.Conf vcpu) (view pass.old).held }
    requires allowed { T.allowed (view pass.old) }
    ensures of { IsOf machine.now pass.new }
    ensures takes { TakesInTime (view pass.old) (part.Conf vcpu)
        (content.Conf (conf_state result.value)) (view pass.new) }
    ensures lpis { HasLpisOfConf (setup machine.now).start.layout.shape result.value }
    ensures allowed { T.allowed (view pass.new) }
{
    match how.turn(machine, pass, Part::Conf(vcpu)) {
        Value::Conf(conf) => conf,
        _ => unreachable!(),
    }
}

/// Takes what is pending at a redistributor out.
#[inline(always)]
pub fn take_pend<T: Turns>(how: &T, machine: &Machine, pass: &mut Pass, vcpu: Vcpu) -> Box<Pend>
    requires of { IsOf machine.now pass.old }
    requires stands { vcpu.0 < vcpu_count (setup machine.now) }
    requires order { IsInOrder (part.Pend vcpu) (view pass.old).held }
    requires allowed { T.allowed (view pass.old) }
    ensures of { IsOf machine.now pass.new }
    ensures takes { TakesInTime (view pass.old) (part.Pend vcpu)
        (content.Pend (pend_state result.value)) (view pass.new) }
    ensures lpis { HasLpisOfPend (setup machine.now).start.layout.shape result.value }
    ensures allowed { T.allowed (view pass.new) }
{
    match how.turn(machine, pass, Part::Pend(vcpu)) {
        Value::Pend(pend) => pend,
        _ => unreachable!(),
    }
}
