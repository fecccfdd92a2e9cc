//! Passes that the root splits off, and notes.
ghost use Rattle.std.specs.Prelude.{◌≡◌, ◌<◌, OnOk, length};
ghost use Rattle.its_player.specs.Shared.{core_of, IsMove};

use crate::shared::Shared;
use crate::view::View;
use its_steps::Kind;
use std::alloc::{AllocError, Global};

/// How many numbers there are for passes.
const NUMBERS: u64 = 4_294_967_296;

impl Shared {
    /// The pass at an index, if it is the root, splits a pass of the next number off.
    pub fn split(&mut self, alloc: Global, at: usize) -> Result<(), AllocError>
        requires { at < length self.old.views.items }
        ensures moves { OnOk result (IsMove (core_of self.old) at Kind.Split (core_of self.new)) }
        ensures shards { OnOk result (self.new.shards ≡ self.old.shards) }
    {
        if self.views[at].number != 0 {
            return Ok(());
        }
        let made = self.views[at].root.made;
        if made >= NUMBERS {
            return Ok(());
        }
        let seen = Vec::from_slice(alloc, &self.history)?;
        let seen_first = Vec::from_slice(alloc, &self.history)?;
        let view = &mut self.views[at];
        view.load(self.word, seen);
        view.root.made = made + 1;
        let new = View::fresh(alloc, made as u32, 0, seen_first, self.word);
        self.views.push(new)?;
        Ok(())
    }

    /// The pass at an index makes a note of what it has seen.
    pub fn note(&mut self, alloc: Global, at: usize) -> Result<(), AllocError>
        requires { at < length self.old.views.items }
        ensures moves { OnOk result (IsMove (core_of self.old) at Kind.Note (core_of self.new)) }
        ensures shards { OnOk result (self.new.shards ≡ self.old.shards) }
    {
        let seen = Vec::from_slice(alloc, &self.views[at].seen)?;
        self.notes.push(self.views.len())?;
        self.views.push(View::note(alloc, seen))?;
        Ok(())
    }
}
