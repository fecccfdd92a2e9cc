//! How a call gets what it needs besides its translator's maps and memory.
ghost use Rattle.std.specs.Prelude.{◌≡◌, ◌<◌, ℕ};
ghost use Rattle.its_types.specs.declared.machine.Part.TheVariants as part;
ghost use Rattle.its_steps.specs.Contents as content;
ghost use Rattle.its_steps.specs.Endings.{ending_in, Pair, All};
ghost use Rattle.its_steps.specs.Parts.{translator_count, vcpu_count};
ghost use Rattle.owned_parts.specs.Owned.{translator_of};
ghost use Rattle.its_turns.specs.Machines.{setup, view, IsOf};
ghost use Rattle.its_turns.specs.Told.{HasStood};
ghost use Rattle.held_parts.specs.Shards.{AreBeforeShards};
ghost use Rattle.held_parts.specs.Redists.{AreConfsOfSet, ArePendsOfSet};
ghost use Rattle.held_parts.specs.Redists.{AreNoConfs, AreNoPends};
ghost use Rattle.held_parts.specs.Redists.{AreBeforeConfs, AreBeforePends};
ghost use Rattle.held_parts.specs.Taking.{Goes, TakesOnly};
ghost use Rattle.cmd_engine.specs.Cached.{ending_as, ending_by, cached_held, AreWhole, IsAny};
ghost use Rattle.cmd_engine.specs.Hands.{HasInHand, HasNeeded, HavePlaces, IsBase};
ghost use Rattle.cmd_engine.specs.Hands.{IsSameButNeeded, redists_held};
ghost use Rattle.cmd_engine.specs.Hands.{IsOfTranslator, IsOfStep};
ghost use Rattle.cmd_engine.specs.Telling.{ReadLow};
ghost use Rattle.cmd_engine.specs.declared.cached.Cached.TheVariants as shards;

use crate::cached::Cached;
use crate::endings::{Ending, ending_of};
use crate::hands::Hands;
use cmd_exec::{Needed, needs};
use held_parts::{Shards, Waiting, take_confs, take_pends, take_shard, take_shards};
use its_command::Command;
use its_turns::{Machine, Pass, look};
use its_types::{DeviceId, EventId};
use lpi_pending::Redists;
use std::sync::Wait;

/// Takes what a command needs: the shards that it may change, then configurations, then what is
/// pending, of both the lowest first.
pub(crate) fn take_needed<R: Wait>(
    rt: &R,
    machine: &Machine,
    pass: &mut Pass,
    command: &Command,
    hands: &mut Hands,
)
    requires of { IsOf machine.now pass.old }
    requires hands { HasInHand (setup machine.now) (view pass.old) hands.old }
    requires base { IsBase hands.old }
    requires stood { HasStood (setup machine.now) (part.Maps hands.old.its)
        (content.Maps (translator_of hands.old.translator.value)) }
    ensures of { IsOf machine.now pass.new }
    ensures hands { HasInHand (setup machine.now) (view pass.new) hands.new }
    ensures same { IsSameButNeeded hands.old hands.new }
    ensures ends { ending_in hands.new.translator.value.maps.maps command.now
        ≡ ending_as hands.new.cached }
    ensures needed { HasNeeded (setup machine.now) command.now hands.new }
    ensures goes { Goes (IsOfStep hands.old.its) (view pass.old) (view pass.new) }
    ensures low { IsAny hands.new.cached → ReadLow (view pass.old) hands.old.its (view pass.new) }
{
    let ends = ending_of(command, &hands.translator.maps);
    hands.needed = needs(
        command,
        &hands.translator.regs,
        &hands.translator.maps,
        &machine.desc().shape,
    );
    take_cached(rt, machine, pass, hands.its, ends, &mut hands.cached);
    match &mut hands.memory {
        Some(memory) => take_redists(rt, machine, pass, hands.needed, &mut memory.redists),
        None => unreachable!(),
    }
}

// Takes these configurations, and then what is pending, and puts both in their empty places.
fn take_redists<R: Wait>(
    rt: &R,
    machine: &Machine,
    pass: &mut Pass,
    needed: Needed,
    redists: &mut Redists,
)
    requires of { IsOf machine.now pass.old }
    requires empty { AreNoConfs redists.old × AreNoPends redists.old }
    requires room { HavePlaces (setup machine.now) redists.old }
    requires order { AreBeforeConfs (view pass.old).held × AreBeforePends (view pass.old).held }
    ensures of { IsOf machine.now pass.new }
    ensures takes { (its : ℕ) → TakesOnly (IsOfStep its) (view pass.old) (view pass.new) }
    ensures held { (view pass.new).held
        ≡ redists_held (vcpu_count (setup machine.now)) redists.new (view pass.old).held }
    ensures confs { AreConfsOfSet (setup machine.now) needed.confs redists.new }
    ensures pends { ArePendsOfSet (setup machine.now) needed.pends redists.new }
    ensures room { HavePlaces (setup machine.now) redists.new }
{
    let how = Waiting { rt };
    take_confs(&how, machine, pass, needed.confs, redists);
    take_pends(&how, machine, pass, needed.pends, redists);
}

/// Takes the shards that a call may change: that of a pair that it ends, and every one where it may
/// end all translations and the translator's stamp is the last one.
pub(crate) fn take_cached<R: Wait>(
    rt: &R,
    machine: &Machine,
    pass: &mut Pass,
    its: u8,
    ends: Ending,
    cached: &mut Cached,
)
    requires of { IsOf machine.now pass.old }
    requires its { its < translator_count (setup machine.now) }
    requires order { AreBeforeShards its (view pass.old).held }
    requires nothing { cached.old ≡ shards.Nothing }
    ensures of { IsOf machine.now pass.new }
    ensures goes { Goes (IsOfTranslator its) (view pass.old) (view pass.new) }
    ensures held { (view pass.new).held ≡ cached_held its (setup machine.now).shards cached.new
        (view pass.old).held }
    ensures whole { AreWhole (setup machine.now) its cached.new }
    ensures ends { ending_as cached.new ≡ ending_by ends }
    ensures low { IsAny cached.new → ReadLow (view pass.old) its (view pass.new) }
{
    // `Cached` has room for every shard, and most calls want none: each that does has that room in
    // a function of its own.
    match ends {
        Ending::Nothing => {}
        Ending::Pair(dev, ev) => take_pair(rt, machine, pass, its, dev, ev, cached),
        Ending::All => take_any(rt, machine, pass, its, cached),
    }
}

// The shard of one pair.
fn take_pair<R: Wait>(
    rt: &R,
    machine: &Machine,
    pass: &mut Pass,
    its: u8,
    dev: DeviceId,
    ev: EventId,
    cached: &mut Cached,
)
    requires of { IsOf machine.now pass.old }
    requires its { its < translator_count (setup machine.now) }
    requires order { AreBeforeShards its (view pass.old).held }
    ensures of { IsOf machine.now pass.new }
    ensures goes { Goes (IsOfTranslator its) (view pass.old) (view pass.new) }
    ensures held { (view pass.new).held ≡ cached_held its (setup machine.now).shards cached.new
        (view pass.old).held }
    ensures whole { AreWhole (setup machine.now) its cached.new }
    ensures ends { ending_as cached.new ≡ Pair dev.0 ev.0 }
    ensures some { ¬ IsAny cached.new }
{
    let number = machine.shard_of(dev, ev);
    let shard = take_shard(&Waiting { rt }, machine, pass, its, number);
    *cached = Cached::Pair(dev, ev, shard);
}

// Every shard where the stamp is the last one, and none where it can rise.
fn take_any<R: Wait>(rt: &R, machine: &Machine, pass: &mut Pass, its: u8, cached: &mut Cached)
    requires of { IsOf machine.now pass.old }
    requires its { its < translator_count (setup machine.now) }
    requires order { AreBeforeShards its (view pass.old).held }
    ensures of { IsOf machine.now pass.new }
    ensures goes { Goes (IsOfTranslator its) (view pass.old) (view pass.new) }
    ensures held { (view pass.new).held ≡ cached_held its (setup machine.now).shards cached.new
        (view pass.old).held }
    ensures whole { AreWhole (setup machine.now) its cached.new }
    ensures ends { ending_as cached.new ≡ All }
    ensures low { IsAny cached.new → ReadLow (view pass.old) its (view pass.new) }
{
    let word = look(machine, pass);
    if machine.stamp_of(word, its) < machine.stamp_last() {
        *cached = Cached::Any;
        return;
    }
    let mut shards = Shards::new();
    take_shards(&Waiting { rt }, machine, pass, its, &mut shards);
    *cached = Cached::Every(shards);
}
