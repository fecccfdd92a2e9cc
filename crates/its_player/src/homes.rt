//! Parts that are held: out of their slots, in them again, and given back.
ghost use Rattle.std.specs.Prelude.{◌≡◌, ◌<◌, OnOk, length};
ghost use Rattle.its_player.specs.Shared.{core_of, IsMove};
ghost use Rattle.its_steps.specs.Steps.{IsGoodCore};

use crate::holding::{find_kept, find_out};
use crate::shared::Shared;
use its_steps::Kind;
use its_types::Part;
use std::alloc::{AllocError, Global};

impl Shared {
    /// The pass at an index takes what a part has out of its slot.
    pub fn take_out(&mut self, at: usize, part: Part)
        requires good { IsGoodCore (core_of self.old) }
        requires at { at < length self.old.views.items }
        ensures moves { IsMove (core_of self.old) at (Kind.TakeOut part) (core_of self.new) }
        ensures shards { self.new.shards ≡ self.old.shards }
    {
        let Some(index) = self.index(part) else {
            return;
        };
        let Some(n) = find_kept(&self.views[at].held, part) else {
            return;
        };
        let view = &mut self.views[at];
        let held = &mut view.held[n];
        held.take_out();
        self.slots[index] = None;
    }

    /// The pass at an index puts what it owes into the slot of a part.
    pub fn put_home(&mut self, alloc: Global, at: usize, part: Part) -> Result<(), AllocError>
        requires good { IsGoodCore (core_of self.old) }
        requires at { at < length self.old.views.items }
        ensures moves { OnOk result
            (IsMove (core_of self.old) at (Kind.PutHome part) (core_of self.new)) }
        ensures shards { OnOk result (self.new.shards ≡ self.old.shards) }
    {
        let Some(index) = self.index(part) else {
            return Ok(());
        };
        let Some(n) = find_out(&self.views[at].held, part) else {
            return Ok(());
        };
        let view = &mut self.views[at];
        let held = &mut view.held[n];
        let content = held.owed().copy(alloc)?;
        held.put_home();
        self.slots[index] = Some(content);
        Ok(())
    }

    /// The pass at an index gives the turn of a part back.
    pub fn release(&mut self, at: usize, part: Part)
        requires good { IsGoodCore (core_of self.old) }
        requires at { at < length self.old.views.items }
        ensures moves { IsMove (core_of self.old) at (Kind.Release part) (core_of self.new) }
        ensures shards { self.new.shards ≡ self.old.shards }
    {
        let Some(index) = self.index(part) else {
            return;
        };
        let Some(n) = find_kept(&self.views[at].held, part) else {
            return;
        };
        let view = &mut self.views[at];
        let _ = view.held.remove(n);
        self.turns[index] = 0;
    }
}
