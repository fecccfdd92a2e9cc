//! What sentences are made from.
ghost use Rattle.std.specs.Prelude.{◌≡◌, ◌++◌, OnOk};
ghost use Rattle.std.specs.String.{string_bytes};
ghost use Rattle.its_explain.specs.Book.{changer};
ghost use Rattle.its_explain.specs.Numbers as spec;

use crate::book::Book;
use crate::facts::{Fact, Taken};
use crate::numbers::{push_by_line, push_since_line};
use crate::replayed::Replayed;
use call_facts::Key;
use std::alloc::AllocError;

/// What sentences on a call are made from.
#[derive(Clone, Copy)]
pub struct Sources<'a> {
    /// Which lines wrote and changed what, before the call.
    pub book: &'a Book,
    /// The machine after the call.
    pub machine: &'a Replayed,
    /// What came of the call.
    pub fact: Fact,
    /// The command that it took, if it is a step.
    pub taken: Option<Taken>,
}

impl<'a> Sources<'a> {
    /// Adds the line whose command mapped something.
    pub fn push_by(&self, out: &mut String, its: u8, key: Key) -> Result<(), AllocError>
        ensures { OnOk result (string_bytes out.new ≡ string_bytes out.old
            ++ spec.by_line (changer self.now.book.now its key)) }
    {
        push_by_line(out, self.book.changer(its, key))
    }

    /// Adds the line whose command unmapped something, if one did.
    pub fn push_since(&self, out: &mut String, its: u8, key: Key) -> Result<(), AllocError>
        ensures { OnOk result (string_bytes out.new ≡ string_bytes out.old
            ++ spec.since_line (changer self.now.book.now its key)) }
    {
        push_since_line(out, self.book.changer(its, key))
    }
}
