//! Traces: legs of entries, of what is pending at their ends, and of how they ended.
ghost use Rattle.std.specs.Prelude.{◌≡◌, IfOk};
ghost use Rattle.std.specs.Fmt.{decimal};
ghost use Rattle.its_history.specs.declared.trace.End.TheVariants as ends;

use crate::numbers::push_decimal;
use crate::text::Text;
use its_types::Listed;
use std::alloc::{AllocError, Global};

/// An entry of a history: where it stands, which thread of which phase made the call, and the text
/// of call and reply.
#[derive(Debug, Drop)]
pub struct EntryLine {
    /// Counted from 0 in each leg.
    pub place: u64,
    /// Counted from 1 in each leg.
    pub phase: u32,
    /// Counted from 1 in each phase.
    pub thread: u32,
    /// The call, ` -> ` and the reply.
    pub text: Text,
}

/// How a leg ended.
#[derive(Debug, Drop)]
pub enum End {
    /// The machine was migrated, and the next leg goes on.
    Migrated,
    /// The same, and pages were copied before: how many, as a report tells it.
    Copied(Text),
    /// It was the last leg.
    Done,
}

impl End {
    /// With a migration before which so many pages were copied.
    pub fn copied(alloc: Global, pages: u64) -> Result<End, AllocError>
        ensures { IfOk result (λ end. end ≡ ends.Copied (decimal pages)) }
    {
        let mut text = String::new(alloc);
        push_decimal(&mut text, pages)?;
        Ok(End::Copied(Text::new(text)))
    }
}

/// What happened from one migration to the next.
#[derive(Debug, Drop)]
pub struct Leg {
    /// By place.
    pub entries: Listed<EntryLine>,
    /// What is pending at each virtual processor at the end. A leg that was cut off has none.
    pub pending: Listed<Text>,
    /// A leg that was cut off has none.
    pub end: Option<End>,
}

/// What happened in a run, or in its first legs.
#[derive(Debug, Drop)]
pub struct Trace {
    /// In their order. A migration stands between each two.
    pub legs: Listed<Leg>,
}
