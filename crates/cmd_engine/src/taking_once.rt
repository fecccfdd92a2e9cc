//! What a call needs besides its translator's maps and memory, where it waits for nobody.
ghost use Rattle.std.specs.Prelude.{◌≡◌, ◌<◌, true, is_some, IfOk, MatchResult};
ghost use Rattle.its_types.specs.declared.machine.Part.TheVariants as part;
ghost use Rattle.its_steps.specs.Contents as content;
ghost use Rattle.its_steps.specs.Endings.{ending_in, Pair, All};
ghost use Rattle.its_steps.specs.Parts.{translator_count, vcpu_count};
ghost use Rattle.owned_parts.specs.Owned.{translator_of};
ghost use Rattle.its_turns.specs.Machines.{setup, view, IsOf};
ghost use Rattle.its_turns.specs.Told.{HasStood};
ghost use Rattle.held_parts.specs.Once.{TakesAtOnce, FindsBusy};
ghost use Rattle.held_parts.specs.Redists.{AreNoRedists, AreRedistsOf};
ghost use Rattle.held_parts.specs.Redists.{AreBeforeConfs, AreBeforePends, IsRedistIn};
ghost use Rattle.held_parts.specs.Shards.{AreBeforeShards};
ghost use Rattle.cmd_engine.specs.Cached.{ending_as, ending_by};
ghost use Rattle.cmd_engine.specs.Hands.{HasInHand, HasNeeded, IsBase, IsOfStep, IsSameButNeeded};
ghost use Rattle.cmd_engine.specs.Hands.{redists_held, redists_of, with_redists};
ghost use Rattle.cmd_engine.specs.Tries.{GetsNeeded, GetsShards, GivesUp, LacksShards};
ghost use Rattle.cmd_engine.specs.declared.cached.Cached.TheVariants as shards;

use crate::cached::Cached;
use crate::endings::{Ending, ending_of};
use crate::hands::Hands;
use cmd_exec::{Needed, needs};
use held_parts::{Shards, once_redists, once_shards};
use its_command::Command;
use its_turns::{Busy, GuestMemory, Machine, Pass, look, try_take_shard};
use its_types::{DeviceId, EventId};

/// Tries what a command needs: the shards that it may change, then configurations, then what is
/// pending, of both the lowest first. Where one of these parts of redistributors is another pass's,
/// none of them is in hand.
pub(crate) fn once_needed(
    machine: &Machine,
    pass: &mut Pass,
    command: &Command,
    hands: &mut Hands,
) -> Result<(), Busy>
    requires of { IsOf machine.now pass.old }
    requires hands { HasInHand (setup machine.now) (view pass.old) hands.old }
    requires base { IsBase hands.old }
    requires stood { HasStood (setup machine.now) (part.Maps hands.old.its)
        (content.Maps (translator_of hands.old.translator.value)) }
    ensures of { IsOf machine.now pass.new }
    ensures hands { HasInHand (setup machine.now) (view pass.new) hands.new }
    ensures same { IsSameButNeeded hands.old hands.new }
    ensures ends { IfOk result (λ _. ending_in hands.new.translator.value.maps.maps command.now
        ≡ ending_as hands.new.cached) }
    ensures needed { IfOk result (λ _. HasNeeded (setup machine.now) command.now hands.new) }
    ensures result { MatchResult result
        (λ _. GetsNeeded hands.new (view pass.old) (view pass.new))
        (λ b. GivesUp (IsOfStep hands.old.its) (view pass.old) b (view pass.new)) }
{
    let ends = ending_of(command, &hands.translator.maps);
    let needed = needs(
        command,
        &hands.translator.regs,
        &hands.translator.maps,
        &machine.desc().shape,
    );
    match once_cached(machine, pass, hands.its, ends, &mut hands.cached) {
        Ok(()) => {}
        Err(busy) => return Err(busy),
    }
    match once_parts(machine, pass, needed, &mut hands.memory) {
        Ok(()) => {
            hands.needed = needed;
            Ok(())
        }
        Err(busy) => Err(busy),
    }
}

// The parts of redistributors, with memory, in whose places they are.
fn once_parts(
    machine: &Machine,
    pass: &mut Pass,
    needed: Needed,
    memory: &mut Option<Box<GuestMemory>>,
) -> Result<(), Busy>
    requires of { IsOf machine.now pass.old }
    requires some { is_some memory.old ≡ true }
    requires empty { AreNoRedists (setup machine.now) (redists_of memory.old) }
    requires before_confs { AreBeforeConfs (view pass.old).held }
    requires before_pends { AreBeforePends (view pass.old).held }
    ensures of { IsOf machine.now pass.new }
    ensures same { memory.new ≡ with_redists memory.old (redists_of memory.new) }
    ensures result { MatchResult result
        (λ _. TakesAtOnce (IsRedistIn needed.confs needed.pends) (view pass.old) (view pass.new) ×
        ((view pass.new).held ≡ redists_held (vcpu_count (setup machine.now))
        (redists_of memory.new) (view pass.old).held) ×
        AreRedistsOf (setup machine.now) needed.confs needed.pends (redists_of memory.new))
        (λ b. FindsBusy (IsRedistIn needed.confs needed.pends) (view pass.old) b (view pass.new)
        × AreNoRedists (setup machine.now) (redists_of memory.new)) }
{
    match memory {
        Some(memory) => {
            let redists = &mut memory.redists;
            once_redists(machine, pass, needed.confs, needed.pends, redists)
        }
        None => unreachable!(),
    }
}

/// Tries the shards that a call may change: that of a pair that it ends, and every one where it may
/// end all translations and the translator's stamp is the last one. None is in hand where one of
/// them is another pass's.
pub(crate) fn once_cached(
    machine: &Machine,
    pass: &mut Pass,
    its: u8,
    ends: Ending,
    cached: &mut Cached,
) -> Result<(), Busy>
    requires of { IsOf machine.now pass.old }
    requires its { its < translator_count (setup machine.now) }
    requires order { AreBeforeShards its (view pass.old).held }
    requires nothing { cached.old ≡ shards.Nothing }
    ensures of { IsOf machine.now pass.new }
    ensures result { MatchResult result
        (λ _. GetsShards (setup machine.now) its (ending_by ends) cached.new (view pass.old)
        (view pass.new))
        (λ b. LacksShards its cached.new (view pass.old) b (view pass.new)) }
{
    match ends {
        Ending::Nothing => Ok(()),
        Ending::Pair(dev, ev) => once_pair(machine, pass, its, dev, ev, cached),
        Ending::All => once_any(machine, pass, its, cached),
    }
}

// The shard of one pair.
fn once_pair(
    machine: &Machine,
    pass: &mut Pass,
    its: u8,
    dev: DeviceId,
    ev: EventId,
    cached: &mut Cached,
) -> Result<(), Busy>
    requires of { IsOf machine.now pass.old }
    requires its { its < translator_count (setup machine.now) }
    requires order { AreBeforeShards its (view pass.old).held }
    requires nothing { cached.old ≡ shards.Nothing }
    ensures of { IsOf machine.now pass.new }
    ensures result { MatchResult result
        (λ _. GetsShards (setup machine.now) its (Pair dev.0 ev.0) cached.new (view pass.old)
        (view pass.new))
        (λ b. LacksShards its cached.new (view pass.old) b (view pass.new)) }
{
    let number = machine.shard_of(dev, ev);
    match try_take_shard(machine, pass, its, number) {
        Ok(shard) => {
            *cached = Cached::Pair(dev, ev, shard);
            Ok(())
        }
        Err(busy) => Err(busy),
    }
}

// Every shard where the stamp is the last one, and none where it can rise.
fn once_any(machine: &Machine, pass: &mut Pass, its: u8, cached: &mut Cached) -> Result<(), Busy>
    requires of { IsOf machine.now pass.old }
    requires its { its < translator_count (setup machine.now) }
    requires order { AreBeforeShards its (view pass.old).held }
    requires nothing { cached.old ≡ shards.Nothing }
    ensures of { IsOf machine.now pass.new }
    ensures result { MatchResult result
        (λ _. GetsShards (setup machine.now) its All cached.new (view pass.old) (view pass.new))
        (λ b. LacksShards its cached.new (view pass.old) b (view pass.new)) }
{
    let word = look(machine, pass);
    if machine.stamp_of(word, its) < machine.stamp_last() {
        *cached = Cached::Any;
        return Ok(());
    }
    let mut shards = Shards::new();
    match once_shards(machine, pass, its, &mut shards) {
        Ok(()) => {
            *cached = Cached::Every(shards);
            Ok(())
        }
        Err(busy) => Err(busy),
    }
}
