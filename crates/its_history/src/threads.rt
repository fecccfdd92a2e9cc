//! The entries of threads, put together by place.
ghost use Rattle.std.specs.Prelude.{◌≡◌, ◌++◌, ◌∷◌, [], IfOk, OnOk};
ghost use Rattle.std.specs.List.Sorted.{IsPermutation, IsNonDecreasingBy};
ghost use Rattle.its_history.specs.Report.{line_of};
ghost use Rattle.its_history.specs.Merged.{list_lines, all_lines, first_entries, open_leg};
ghost use Rattle.its_history.specs.Histories.{ThreadGives, MergeGives};

use crate::report::answered_text;
use crate::trace::{EntryLine, Leg, Trace};
use event_script::Calls;
use its_plain::Reply;
use its_types::{Listed, Placed};
use std::alloc::{AllocError, Global};

/// The entries of a thread: its first calls, each with its reply and its place. Calls without a
/// reply weren't made.
#[derive(Drop)]
pub struct ThreadList<'a> {
    /// Counted from 1 in each leg.
    pub phase: u32,
    /// Counted from 1 in each phase.
    pub thread: u32,
    /// All calls of the thread, made or not.
    pub calls: &'a Calls,
    /// At most as many as there are calls, in their order.
    pub replies: Listed<Placed<Reply>>,
}

/// A leg of the entries of all lists, by place. Nothing is pending in it, and it has no end.
pub fn merge(alloc: Global, lists: &[ThreadList]) -> Result<Trace, AllocError>
    ensures leg { IfOk result (λ t. t.legs ≡ open_leg (first_entries t.legs) ∷ []) }
    ensures same { IfOk result (λ t. IsPermutation (all_lines lists.now) (first_entries t.legs)) }
    ensures rises { IfOk result (λ t. IsNonDecreasingBy (λ l. l.place) (first_entries t.legs)) }
{
    let mut lines = Vec::with_capacity(alloc, count_replies(lists))?;
    for list in lists {
        push_list(alloc, &mut lines, list)?;
    }
    let lines = by_place(lines)?;
    let mut legs = Listed::new(alloc);
    legs.push(Leg {
        entries: Listed::from_vec(lines),
        pending: Listed::new(alloc),
        end: None,
    })?;
    Ok(Trace { legs })
}

/// The lines of the entries of all lists, by place. Each list goes once its lines stand.
pub fn merge_lines(alloc: Global, lists: Vec<ThreadList>) -> Result<Vec<EntryLine>, AllocError>
    ensures same { IfOk result (λ lines.
        IsPermutation (all_lines lists.entry.items) lines.items) }
    ensures rises { IfOk result (λ lines. IsNonDecreasingBy (λ l. l.place) lines.items) }
{
    let mut lines = Vec::with_capacity(alloc, count_replies(lists.as_slice()))?;
    for list in lists {
        push_list(alloc, &mut lines, &list)?;
    }
    by_place(lines)
}

fn by_place(mut lines: Vec<EntryLine>) -> Result<Vec<EntryLine>, AllocError>
    ensures same { IfOk result (λ sorted. IsPermutation lines.items sorted.items) }
    ensures rises { IfOk result (λ sorted. IsNonDecreasingBy (λ l. l.place) sorted.items) }
{
    lines.sort_by_key(|line| line.place)?;
    Ok(lines)
}

// How many entries there are at most, so that their list needs not grow.
fn count_replies(lists: &[ThreadList]) -> usize {
    let mut count = 0usize;
    for list in lists {
        count = count.saturating_add(list.replies.len());
    }
    count
}

fn push_list(alloc: Global, lines: &mut Vec<EntryLine>, list: &ThreadList) -> Result<(), AllocError>
    ensures { OnOk result (lines.new.items ≡ lines.old.items ++ list_lines list.now) }
{
    for (call, placed) in list.calls.iter().zip(list.replies.as_slice()) {
        lines.push(EntryLine {
            place: placed.place,
            phase: list.phase,
            thread: list.thread,
            text: answered_text(alloc, &call, &placed.reply)?,
        })?;
    }
    Ok(())
}

/// The lines of a thread whose calls and replies are those of a pass are the pass's.
pub fn thread_gives()
    ensures { ThreadGives }
{}

/// The lines of all passes of a history, put together by place, are the history's.
pub fn merge_gives()
    ensures { MergeGives }
{}
