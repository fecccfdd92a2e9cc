//! A machine with its passes, which goes on step by step.
ghost use Rattle.std.specs.Prelude.{◌≡◌, ◌≤◌, ℕ, IfOk, MatchOption};
ghost use Rattle.its_plain.specs.Sound.{IsSound};
ghost use Rattle.its_steps.specs.Steps as spec;
ghost use Rattle.its_steps.specs.World.{View};

use crate::joins::find_pass;
use crate::shared::Shared;
use its_plain::Entry;
use its_steps::Event;
use its_types::{Limits, Word};
use plain_machine::State;
use std::alloc::{AllocError, Global};
use std::marker::Model;

/// A machine that passes share, what each of them knows, and the history of their calls. Each world
/// is good: its history is the plain machine's, and each part is as that history leaves it.
#[derive(Drop)]
pub struct World {
    shared: Shared,
}

impl Model for World {
    ghost use Rattle.its_steps.specs.Steps.{Core, IsGoodCore};
    ghost use Rattle.std.specs.Coded.{codes};
    ghost use Rattle.gicr_regs.specs.Redistributors.{conf_code, pend_code};
    ghost use Rattle.its_plain.specs.Plain.{plain_code, translator_code};

    ghost Value = { Core };

    ghost coded = { Prim.hlevel (codes, plain_code, translator_code, conf_code, pend_code) };

    ghost use Rattle.std.specs.Prelude.{◌≤◌};
    ghost use Rattle.its_player.specs.Shared.{core_of};

    ghost view = { λ w. core_of w.shared };

    ghost invariant = { λ w. IsGoodCore (core_of w.shared) × (1 ≤ w.shared.shards) };
}

impl World {
    /// The world before any step: word (0, 0), no history, each part in its slot as the first state
    /// has it, empty shards, and the root alone. Each translator's cache has `shards` shards.
    pub fn new(
        alloc: Global,
        start: State,
        limits: Limits,
        shards: u32,
    ) -> Result<World, AllocError>
        requires sound { IsSound start }
        requires some { 1 ≤ shards }
        ensures { IfOk result (λ w.
            w ≡ spec.first_core (record { start = start; limits = limits; shards = shards })) }
    {
        Ok(World {
            shared: Shared::new(alloc, start, limits, shards)?,
        })
    }

    /// One event. One that isn't allowed leaves the world as it is. Out of memory, the world is
    /// dropped; so it is where a count of lost tries is at its end.
    pub fn step(self, alloc: Global, event: &Event) -> Result<World, AllocError>
        ensures steps { IfOk result (λ w. spec.IsStep self event.now w) }
        ensures good { IfOk result spec.IsGoodCore }
    {
        let shared = self.shared.step(alloc, event)?;
        Ok(World { shared })
    }

    /// One event after another.
    pub fn run(self, alloc: Global, events: &[Event]) -> Result<World, AllocError>
        ensures { IfOk result (λ w. spec.IsRun self events.now w) }
    {
        let mut world = self;
        for event in events {
            world = world.step(alloc, event)?;
        }
        Ok(world)
    }

    /// The calls that were made, in their order.
    pub fn history(&self) -> &[Entry]
        ensures history { result.now ≡ self.now.history }
        ensures good { spec.IsGoodCore self.now }
    {
        &self.shared.history
    }

    /// The word that commits exchange.
    pub fn word(&self) -> Word
        ensures { result ≡ self.now.world.word }
    {
        self.shared.word
    }

    /// The word that the pass of a number read last, if there is the pass.
    pub fn last(&self, pass: u32) -> Option<Word>
        ensures { MatchOption result ((i : ℕ) (v : View) → ¬ spec.IsAt self.now pass i v) (λ word.
            (i : ℕ) × (v : View) × spec.IsAt self.now pass i v × (v.last ≡ word)) }
    {
        let Some(at) = find_pass(&self.shared.views, pass) else {
            return None;
        };
        Some(self.shared.views[at].last)
    }
}
