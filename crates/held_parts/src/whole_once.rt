//! All parts of a machine but shards, for a call that waits for nobody.
ghost use Rattle.std.specs.Prelude.{◌≡◌, ◌∷◌, [], List, ◌==◌, is_some, IfOk, MatchResult};
ghost use Rattle.std.specs.Option.{option_map};
ghost use Rattle.its_types.specs.declared.machine.Part.TheVariants as part;
ghost use Rattle.its_steps.specs.Contents.{Held, Mem};
ghost use Rattle.its_steps.specs.Parts.{translator_count, vcpu_count};
ghost use Rattle.its_steps.specs.World.{out};
ghost use Rattle.its_turns.specs.Machines.{setup, view, IsOf};
ghost use Rattle.its_turns.specs.Order.{IsInOrder};
ghost use Rattle.held_parts.specs.Once.{TakesAtOnce, FindsBusy};
ghost use Rattle.held_parts.specs.Redists.{redists_held, AreRedistsOf};
ghost use Rattle.held_parts.specs.Redists.{AreBeforeConfs, AreBeforePends};
ghost use Rattle.held_parts.specs.Taking.{LostNone, holding};
ghost use Rattle.held_parts.specs.Wholes.{IsNoShard, TakesWhole, maps_held, second_held};

use crate::redists::once_redists;
use crate::wanted::all_of;
use crate::whole::{Whole, put_second};
use its_turns::{
    Busy, GuestMemory, Machine, Pass, Value, look, put, try_take_maps, try_take_memory,
};
use its_types::{Gate, Part, Point};
use owned_parts::{RedistSet, Translator};

/// Tries each of them once, in the order in which `take_whole` takes them, and then loads the word.
/// Where another pass has one, the pass holds nothing, as before.
pub fn once_whole<G: Gate>(machine: &Machine, pass: &mut Pass, gate: &G) -> Result<Whole, Busy>
    requires of { IsOf machine.now pass.old }
    requires free { (view pass.old).held ≡ [] }
    ensures of { IsOf machine.now pass.new }
    ensures result { MatchResult result
        (λ x. TakesWhole (setup machine.now) (view pass.old) x (view pass.new)
        × LostNone (view pass.old) (view pass.new))
        (λ b. FindsBusy IsNoShard (view pass.old) b (view pass.new)) }
{
    let (first, second) = match once_maps(machine, pass) {
        Ok(maps) => maps,
        Err(busy) => return Err(busy),
    };
    gate.at(pass.number(), Point::MapsTaken);
    match once_memory(machine, pass, all_of(machine.vcpus())) {
        Ok(memory) => {
            look(machine, pass);
            Ok(Whole {
                first,
                second,
                memory,
            })
        }
        Err(busy) => {
            put_maps(machine, pass, first, second);
            Err(busy)
        }
    }
}

// The maps of all translators.
fn once_maps(
    machine: &Machine,
    pass: &mut Pass,
) -> Result<(Box<Translator>, Option<Box<Translator>>), Busy>
    requires of { IsOf machine.now pass.old }
    requires free { (view pass.old).held ≡ [] }
    ensures of { IsOf machine.now pass.new }
    ensures result { MatchResult result
        (λ x. TakesAtOnce IsNoShard (view pass.old) (view pass.new) × ((view pass.new).held
        ≡ second_held (option_map (λ b. b.value) x.1) (maps_held 0 x.0.value ∷ [])))
        (λ b. FindsBusy IsNoShard (view pass.old) b (view pass.new)) }
    ensures all { IfOk result (λ x. is_some x.1 ≡ (translator_count (setup machine.now) == 2)) }
{
    let first = match try_take_maps(machine, pass, 0) {
        Ok(first) => first,
        Err(busy) => return Err(busy),
    };
    match once_second(machine, pass) {
        Ok(second) => Ok((first, second)),
        Err(busy) => {
            put(machine, pass, Part::Maps(0), Value::Maps(first));
            Err(busy)
        }
    }
}

fn once_second(machine: &Machine, pass: &mut Pass) -> Result<Option<Box<Translator>>, Busy>
    requires of { IsOf machine.now pass.old }
    requires order { IsInOrder (part.Maps 1) (view pass.old).held }
    ensures of { IsOf machine.now pass.new }
    ensures result { MatchResult result
        (λ x. TakesAtOnce IsNoShard (view pass.old) (view pass.new) × ((view pass.new).held
        ≡ second_held (option_map (λ b. b.value) x) (view pass.old).held))
        (λ b. FindsBusy IsNoShard (view pass.old) b (view pass.new)) }
    ensures all { IfOk result (λ x. is_some x ≡ (translator_count (setup machine.now) == 2)) }
{
    if machine.translators() != 2 {
        return Ok(None);
    }
    match try_take_maps(machine, pass, 1) {
        Ok(second) => Ok(Some(second)),
        Err(busy) => Err(busy),
    }
}

// Puts them back.
fn put_maps(
    machine: &Machine,
    pass: &mut Pass,
    first: Box<Translator>,
    second: Option<Box<Translator>>,
)
    requires of { IsOf machine.now pass.old }
    requires all { is_some second ≡ (translator_count (setup machine.now) == 2) }
    requires held { (view pass.old).held
        ≡ second_held (option_map (λ b. b.value) second) (maps_held 0 first.value ∷ []) }
    ensures of { IsOf machine.now pass.new }
    ensures home { view pass.new ≡ holding (view pass.old) [] }
{
    put_second(machine, pass, second);
    put(machine, pass, Part::Maps(0), Value::Maps(first));
}

// Memory, and in its places both parts of the redistributors of a set.
fn once_memory(machine: &Machine, pass: &mut Pass, all: RedistSet) -> Result<Box<GuestMemory>, Busy>
    requires of { IsOf machine.now pass.old }
    requires order { IsInOrder part.Mem (view pass.old).held }
    requires before_confs { AreBeforeConfs (view pass.old).held }
    requires before_pends { AreBeforePends (view pass.old).held }
    ensures of { IsOf machine.now pass.new }
    ensures result { MatchResult result
        (λ x. TakesAtOnce IsNoShard (view pass.old) (view pass.new) × ((view pass.new).held
        ≡ redists_held x.value.redists (vcpu_count (setup machine.now))
        (out part.Mem (Mem x.value.memory x.value.track) ∷ (view pass.old).held))
        × AreRedistsOf (setup machine.now) all all x.value.redists)
        (λ b. FindsBusy IsNoShard (view pass.old) b (view pass.new)) }
{
    let mut memory = match try_take_memory(machine, pass) {
        Ok(memory) => memory,
        Err(busy) => return Err(busy),
    };
    let redists = &mut memory.redists;
    match once_redists(machine, pass, all, all, redists) {
        Ok(()) => Ok(memory),
        Err(busy) => {
            put(machine, pass, Part::Mem, Value::Mem(memory));
            Err(busy)
        }
    }
}
