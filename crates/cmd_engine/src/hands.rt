//! What a call has in hand, and how it goes home.
ghost use Rattle.std.specs.Prelude.{◌≡◌, ◌∷◌, [], List};
ghost use Rattle.its_types.specs.declared.machine.Part.TheVariants as part;
ghost use Rattle.owned_parts.specs.Owned.{translator_of};
ghost use Rattle.its_steps.specs.Contents.{Held};
ghost use Rattle.its_steps.specs.Contents as content;
ghost use Rattle.its_steps.specs.World.{out};
ghost use Rattle.its_steps.specs.Parts.{vcpu_count};
ghost use Rattle.its_turns.specs.Machines.{setup, view, IsOf};
ghost use Rattle.held_parts.specs.Redists.{AreConfsOfSet, ArePendsOfSet};
ghost use Rattle.held_parts.specs.Taking.{holding};
ghost use Rattle.cmd_engine.specs.Cached.{cached_held, AreWhole};
ghost use Rattle.cmd_engine.specs.Hands.{HasInHand, HasRoom, IsVacant};
ghost use Rattle.cmd_engine.specs.Hands.{memory_held, redists_held, redists_of};

use crate::cached::Cached;
use cmd_exec::Needed;
use held_parts::{put_confs, put_pends, put_shards};
use its_turns::{GuestMemory, Machine, Pass, Value, put};
use its_types::Part;
use owned_parts::{RedistSet, Translator};
use std::mem::replace;

/// What a call of a translator has in hand.
#[derive(Drop)]
pub(crate) struct Hands {
    /// The number of the translator.
    pub its: u8,
    /// Its registers and maps.
    pub translator: Box<Translator>,
    /// Guest memory, of a step, with the parts of redistributors that are in hand in its places.
    pub memory: Option<Box<GuestMemory>>,
    /// Shards of its cache.
    pub cached: Cached,
    /// The parts of redistributors that are wanted: those of them that the machine has are in hand.
    pub needed: Needed,
}

impl Hands {
    ghost use Rattle.std.specs.Prelude.{◌≡◌, ℕ, false};
    ghost use Rattle.owned_parts.specs.RedistSets.{is_in};
    ghost use Rattle.cmd_engine.specs.declared.cached.Cached.TheVariants as cached;

    /// No shard, and nothing of a redistributor.
    pub fn new(its: u8, translator: Box<Translator>, memory: Option<Box<GuestMemory>>) -> Hands
        ensures its { result.its ≡ its }
        ensures translator { result.translator ≡ translator }
        ensures memory { result.memory ≡ memory }
        ensures cached { result.cached ≡ cached.Nothing }
        ensures needs_no_conf { (v : ℕ) → is_in result.needed.confs v ≡ false }
        ensures needs_no_pend { (v : ℕ) → is_in result.needed.pends v ≡ false }
    {
        Hands {
            its,
            translator,
            memory,
            cached: Cached::Nothing,
            needed: Needed {
                confs: RedistSet::Nothing,
                pends: RedistSet::Nothing,
            },
        }
    }
}

/// Puts all of it back but the maps.
pub(crate) fn put_taken(machine: &Machine, pass: &mut Pass, hands: &mut Hands)
    requires of { IsOf machine.now pass.old }
    requires hands { HasInHand (setup machine.now) (view pass.old) hands.old }
    ensures of { IsOf machine.now pass.new }
    ensures its { hands.new.its ≡ hands.old.its }
    ensures translator { hands.new.translator ≡ hands.old.translator }
    ensures home { view pass.new ≡ holding (view pass.old)
        (out (part.Maps hands.old.its)
        (content.Maps (translator_of hands.old.translator.value)) ∷ []) }
{
    put_redists(machine, pass, hands.needed, &mut hands.memory);
    put_cached(machine, pass, hands.its, &mut hands.cached);
    put_memory(machine, pass, hands.memory.take());
}

// Puts the parts of redistributors back, if there is memory, which they stand with.
fn put_redists(
    machine: &Machine,
    pass: &mut Pass,
    needed: Needed,
    memory: &mut Option<Box<GuestMemory>>,
)
    requires of { IsOf machine.now pass.old }
    requires confs { AreConfsOfSet (setup machine.now) needed.confs (redists_of memory.old) }
    requires pends { ArePendsOfSet (setup machine.now) needed.pends (redists_of memory.old) }
    requires room { HasRoom (setup machine.now) memory.old }
    requires held { (others : List Held) × ((view pass.old).held
        ≡ redists_held (vcpu_count (setup machine.now)) (redists_of memory.old) others) }
    ensures of { IsOf machine.now pass.new }
    ensures same { (others : List Held) →
        memory_held memory.new others ≡ memory_held memory.old others }
    ensures vacant { IsVacant (setup machine.now) memory.new }
    ensures home { (others : List Held) → (view pass.old).held
        ≡ redists_held (vcpu_count (setup machine.now)) (redists_of memory.old) others →
        view pass.new ≡ holding (view pass.old) others }
{
    if let Some(memory) = memory {
        let redists = &mut memory.redists;
        put_pends(machine, pass, needed.pends, redists);
        put_confs(machine, pass, needed.confs, redists);
    }
}

fn put_cached(machine: &Machine, pass: &mut Pass, its: u8, cached: &mut Cached)
    requires of { IsOf machine.now pass.old }
    requires whole { AreWhole (setup machine.now) its cached.old }
    requires held { (others : List Held) × ((view pass.old).held
        ≡ cached_held its (setup machine.now).shards cached.old others) }
    ensures of { IsOf machine.now pass.new }
    ensures home { (others : List Held) →
        (view pass.old).held ≡ cached_held its (setup machine.now).shards cached.old others →
        view pass.new ≡ holding (view pass.old) others }
{
    match cached {
        Cached::Nothing | Cached::Any => {}
        Cached::Pair(..) | Cached::Every(_) => put_some(machine, pass, its, cached),
    }
}

// Some shard is in hand. The room of every one is taken for this call alone.
fn put_some(machine: &Machine, pass: &mut Pass, its: u8, cached: &mut Cached)
    requires of { IsOf machine.now pass.old }
    requires whole { AreWhole (setup machine.now) its cached.old }
    requires held { (others : List Held) × ((view pass.old).held
        ≡ cached_held its (setup machine.now).shards cached.old others) }
    ensures of { IsOf machine.now pass.new }
    ensures home { (others : List Held) →
        (view pass.old).held ≡ cached_held its (setup machine.now).shards cached.old others →
        view pass.new ≡ holding (view pass.old) others }
{
    match replace(cached, Cached::Nothing) {
        Cached::Nothing | Cached::Any => {}
        Cached::Pair(dev, ev, shard) => {
            let number = machine.shard_of(dev, ev);
            put(machine, pass, Part::Shard(its, number), Value::Shard(shard));
        }
        Cached::Every(mut shards) => put_shards(machine, pass, its, &mut shards),
    }
}

fn put_memory(machine: &Machine, pass: &mut Pass, memory: Option<Box<GuestMemory>>)
    requires of { IsOf machine.now pass.old }
    requires vacant { IsVacant (setup machine.now) memory }
    requires held { (others : List Held) × ((view pass.old).held
        ≡ memory_held memory others) }
    ensures of { IsOf machine.now pass.new }
    ensures home { (others : List Held) →
        (view pass.old).held ≡ memory_held memory others →
        view pass.new ≡ holding (view pass.old) others }
{
    if let Some(memory) = memory {
        put(machine, pass, Part::Mem, Value::Mem(memory));
    }
}
