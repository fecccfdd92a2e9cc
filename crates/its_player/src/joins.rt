//! Passes that the root takes back, and notes that are met.
ghost use Rattle.std.specs.Prelude.{◌≡◌, ◌<◌, OnOk, length, position};
ghost use Rattle.its_player.specs.Shared.{core_of, is_pass, IsMove};
ghost use Rattle.its_steps.specs.Steps.{IsGoodCore};

use crate::shared::Shared;
use crate::view::{View, is_note};
use its_steps::Kind;
use std::alloc::{AllocError, Global};
use std::mem;

/// At which index what the pass of a number knows stands.
pub fn find_pass(views: &[View], number: u32) -> Option<usize>
    ensures { result ≡ position (is_pass number) views.now }
{
    views.iter().position(|view| view.is_pass(number))
}

impl Shared {
    /// The pass at an index, if it is the root, takes back the pass of a number, if that holds
    /// nothing.
    pub fn join(&mut self, alloc: Global, at: usize, number: u32) -> Result<(), AllocError>
        requires good { IsGoodCore (core_of self.old) }
        requires at { at < length self.old.views.items }
        ensures moves { OnOk result
            (IsMove (core_of self.old) at (Kind.Join number) (core_of self.new)) }
        ensures shards { OnOk result (self.new.shards ≡ self.old.shards) }
    {
        if self.views[at].number != 0 {
            return Ok(());
        }
        if number == 0 {
            return Ok(());
        }
        let Some(index) = find_pass(&self.views, number) else {
            return Ok(());
        };
        if !self.views[index].held.is_empty() {
            return Ok(());
        }
        let seen = Vec::from_slice(alloc, &self.history)?;
        let taken = &mut self.views[index];
        let other = mem::replace(taken, View::spent(alloc));
        let view = &mut self.views[at];
        view.join(other)?;
        view.load(self.word, seen);
        Ok(())
    }

    /// The pass at an index meets the n-th note, if that was not met yet.
    pub fn meet(&mut self, alloc: Global, at: usize, n: u32) -> Result<(), AllocError>
        requires { at < length self.old.views.items }
        ensures moves { OnOk result
            (IsMove (core_of self.old) at (Kind.Meet n) (core_of self.new)) }
        ensures shards { OnOk result (self.new.shards ≡ self.old.shards) }
    {
        let n = n as usize;
        if n >= self.notes.len() {
            return Ok(());
        }
        let index = self.notes[n];
        if index >= self.views.len() {
            return Ok(());
        }
        if !is_note(self.views[index].standing) {
            return Ok(());
        }
        let seen = Vec::from_slice(alloc, &self.history)?;
        let met = &mut self.views[index];
        let note = mem::replace(met, View::spent(alloc));
        let view = &mut self.views[at];
        view.meet(note);
        view.load(self.word, seen);
        Ok(())
    }
}
