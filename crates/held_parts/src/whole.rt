//! All parts of a machine but the shards of its caches, in the hands of one pass.
ghost use Rattle.std.specs.Prelude.{◌≡◌, ◌≤◌, [], List, ◌==◌, is_some};
ghost use Rattle.std.specs.Option.{option_map};
ghost use Rattle.its_types.specs.declared.machine.Part.TheVariants as part;
ghost use Rattle.its_steps.specs.Contents.{Held};
ghost use Rattle.its_steps.specs.Parts.{translator_count};
ghost use Rattle.its_turns.specs.Machines.{setup, view, IsOf};
ghost use Rattle.its_turns.specs.Order.{IsInOrder};
ghost use Rattle.held_parts.specs.Taking.{TakesOnly, holding};
ghost use Rattle.held_parts.specs.Wholes.{IsWholeOf, IsNoShard, TakesWhole};
ghost use Rattle.held_parts.specs.Wholes.{held_whole, second_held};

use crate::confs::{put_confs, take_confs};
use crate::getting::{take_maps, take_memory};
use crate::pends::{put_pends, take_pends};
use crate::turns::Turns;
use crate::wanted::all_of;
use its_plain::Layout;
use its_turns::{GuestMemory, Machine, Pass, Value, look, put};
use its_types::{Gate, Part, Point};
use owned_parts::{InPlace, Translator};

/// The registers and maps of all translators, guest memory, and of the redistributors of all
/// virtual processors the configurations and what is pending.
#[derive(Drop)]
pub struct Whole {
    /// Translator 0.
    pub first: Box<Translator>,
    /// Translator 1, if there is one.
    pub second: Option<Box<Translator>>,
    /// Guest memory, with the redistributors of all virtual processors in their places.
    pub memory: Box<GuestMemory>,
}

impl Whole {
    ghost use Rattle.std.specs.Prelude.{◌≡◌};
    ghost use Rattle.owned_parts.specs.Owned.{state_in_place};
    ghost use Rattle.held_parts.specs.Wholes.{state_of_whole};

    /// The parts where they stand.
    pub fn in_place<'a>(&'a self, layout: &'a Layout) -> InPlace<'a>
        ensures state { state_in_place result ≡ state_of_whole layout.now self.now }
        ensures layout { result.layout.now ≡ layout.now }
        ensures memory { result.memory.now ≡ self.now.memory.value.memory }
        ensures redists { result.redists.now ≡ self.now.memory.value.redists }
    {
        InPlace {
            layout,
            first: self.first.in_place(),
            second: match &self.second {
                Some(second) => Some(second.in_place()),
                None => None,
            },
            memory: &self.memory.memory,
            track: self.memory.track.as_ref(),
            redists: &self.memory.redists,
        }
    }
}

/// Takes all of them out: the maps of the first translator and then of the second, memory, the
/// configurations of the redistributors, lowest first, and what is pending there, lowest first. The
/// pass held nothing. Then it loads the word, so that it has seen the history that they stand for.
pub fn take_whole<T: Turns, G: Gate>(how: &T, machine: &Machine, pass: &mut Pass, gate: &G) -> Whole
    requires of { IsOf machine.now pass.old }
    requires free { (view pass.old).held ≡ [] }
    requires allowed { T.allowed (view pass.old) }
    ensures of { IsOf machine.now pass.new }
    ensures takes { TakesWhole (setup machine.now) (view pass.old) result (view pass.new) }
{
    let first = take_maps(how, machine, pass, 0);
    let second = take_second(how, machine, pass);
    gate.at(pass.number(), Point::MapsTaken);
    let mut memory = take_memory(how, machine, pass);
    let all = all_of(machine.vcpus());
    let redists = &mut memory.redists;
    take_confs(how, machine, pass, all, redists);
    take_pends(how, machine, pass, all, redists);
    look(machine, pass);
    Whole {
        first,
        second,
        memory,
    }
}

fn take_second<T: Turns>(how: &T, machine: &Machine, pass: &mut Pass) -> Option<Box<Translator>>
    requires of { IsOf machine.now pass.old }
    requires order { IsInOrder (part.Maps 1) (view pass.old).held }
    requires allowed { T.allowed (view pass.old) }
    ensures of { IsOf machine.now pass.new }
    ensures takes { TakesOnly IsNoShard (view pass.old) (view pass.new) }
    ensures held { (view pass.new).held ≡ second_held (option_map (λ b. b.value) result)
        (view pass.old).held }
    ensures all { is_some result ≡ (translator_count (setup machine.now) == 2) }
    ensures allowed { T.allowed (view pass.new) }
{
    if machine.translators() == 2 {
        Some(take_maps(how, machine, pass, 1))
    } else {
        None
    }
}

/// Puts all of them back, what was taken last first.
pub fn put_whole(machine: &Machine, pass: &mut Pass, whole: Whole)
    requires of { IsOf machine.now pass.old }
    requires held { (view pass.old).held ≡ held_whole (setup machine.now) whole }
    requires whole { IsWholeOf (setup machine.now) whole }
    ensures of { IsOf machine.now pass.new }
    ensures home { view pass.new ≡ holding (view pass.old) [] }
{
    let Whole {
        first,
        second,
        mut memory,
    } = whole;
    let all = all_of(machine.vcpus());
    let redists = &mut memory.redists;
    put_pends(machine, pass, all, redists);
    put_confs(machine, pass, all, redists);
    put(machine, pass, Part::Mem, Value::Mem(memory));
    put_second(machine, pass, second);
    put(machine, pass, Part::Maps(0), Value::Maps(first));
}

pub(crate) fn put_second(machine: &Machine, pass: &mut Pass, second: Option<Box<Translator>>)
    requires of { IsOf machine.now pass.old }
    requires all { is_some second ≡ (translator_count (setup machine.now) == 2) }
    requires held { (before : List Held) × ((view pass.old).held
        ≡ second_held (option_map (λ b. b.value) second) before) }
    ensures of { IsOf machine.now pass.new }
    ensures home { (before : List Held) →
        (view pass.old).held ≡ second_held (option_map (λ b. b.value) second) before →
        view pass.new ≡ holding (view pass.old) before }
{
    if let Some(second) = second {
        put(machine, pass, Part::Maps(1), Value::Maps(second));
    }
}
