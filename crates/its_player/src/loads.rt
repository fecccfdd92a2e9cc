//! Loads of the word.
ghost use Rattle.std.specs.Prelude.{◌≡◌, ◌<◌, OnOk, length};
ghost use Rattle.its_player.specs.Shared.{core_of, IsMove};

use crate::shared::Shared;
use its_steps::Kind;
use std::alloc::{AllocError, Global};

impl Shared {
    /// The pass at an index reads the word, and sees the history.
    pub fn load(&mut self, alloc: Global, at: usize) -> Result<(), AllocError>
        requires { at < length self.old.views.items }
        ensures moves { OnOk result (IsMove (core_of self.old) at Kind.Load (core_of self.new)) }
        ensures shards { OnOk result (self.new.shards ≡ self.old.shards) }
    {
        let seen = Vec::from_slice(alloc, &self.history)?;
        let view = &mut self.views[at];
        view.load(self.word, seen);
        Ok(())
    }
}
