//! Tries of a part's turn.
ghost use Rattle.std.specs.Prelude.{◌≡◌, ◌<◌, ◌≤◌, OnOk, length, slice_index, MatchOption};
ghost use Rattle.its_steps.specs.Parts.{Stands};
ghost use Rattle.its_player.specs.Shared.{core_of, setup_of, AtPass, IsDone, IsIndex, IsMove};
ghost use Rattle.its_player.specs.Shared.{IsWide};
ghost use Rattle.its_steps.specs.Steps.{Gets, set_view};
ghost use Rattle.its_steps.specs.World.{missed};

use crate::holding::holds;
use crate::shared::Shared;
use its_steps::Kind;
use its_types::Part;
use std::alloc::{AllocError, Global};

impl Shared {
    /// The number of a part's turn and of its slot, if there is the part.
    pub fn index(&self, part: Part) -> Option<usize>
        requires { IsWide self.now }
        ensures { MatchOption result (¬ Stands (setup_of self.now) part) (IsIndex self.now part) }
    {
        let translators = self.start.translators().len();
        let vcpus = usize::from(self.start.shape().vcpus);
        let shards = self.shards as usize;
        match part {
            Part::Maps(its) if usize::from(its) < translators => Some(usize::from(its)),
            Part::Mem => Some(translators),
            Part::Shard(its, number) if usize::from(its) < translators && number < self.shards => {
                Some(translators + 1 + (usize::from(its) * shards + number as usize))
            }
            Part::Conf(vcpu) if usize::from(vcpu.0) < vcpus => {
                Some(translators + 1 + translators * shards + usize::from(vcpu.0))
            }
            Part::Pend(vcpu) if usize::from(vcpu.0) < vcpus => {
                Some(translators + 1 + translators * shards + vcpus + usize::from(vcpu.0))
            }
            _ => None,
        }
    }

    /// The pass at an index tries the turn of a part.
    pub fn try_part(&mut self, alloc: Global, at: usize, part: Part) -> Result<(), AllocError>
        requires wide { IsWide self.old }
        requires at { at < length self.old.views.items }
        ensures moves { OnOk result
            (IsMove (core_of self.old) at (Kind.Try part) (core_of self.new)) }
        ensures shards { OnOk result (self.new.shards ≡ self.old.shards) }
    {
        let Some(index) = self.index(part) else {
            return Ok(());
        };
        if holds(&self.views[at].held, part) {
            return Ok(());
        }
        let turn = self.turns[index];
        if turn == 0 {
            self.get(alloc, at, part, index)
        } else {
            self.miss(at, part, turn - 1)
        }
    }

    // The pass finds the number of another.
    fn miss(&mut self, at: usize, part: Part, found: u64) -> Result<(), AllocError>
        requires { at < length self.old.views.items }
        ensures leaves { OnOk result (AtPass (core_of self.old) at (λ v.
            core_of self.new ≡ set_view (core_of self.old) at (missed v part found))) }
        ensures shards { OnOk result (self.new.shards ≡ self.old.shards) }
    {
        let view = &mut self.views[at];
        view.miss(part, found)?;
        Ok(())
    }

    // The pass gets a turn that is free, where the part is in its slot.
    fn get(&mut self, alloc: Global, at: usize, part: Part, index: usize) -> Result<(), AllocError>
        requires at { at < length self.old.views.items }
        requires index { IsIndex self.old part index }
        requires free { slice_index self.old.turns.items index ≡ 0 }
        ensures gets { OnOk result (AtPass (core_of self.old) at (λ v.
            IsDone (Gets (core_of self.old) at v part) (core_of self.old)
            (core_of self.new))) }
        ensures shards { OnOk result (self.new.shards ≡ self.old.shards) }
    {
        let Some(content) = &self.slots[index] else {
            return Ok(());
        };
        let owed = content.copy(alloc)?;
        let view = &mut self.views[at];
        self.turns[index] = u64::from(view.number) + 1;
        view.get(alloc, part, owed)?;
        Ok(())
    }
}
