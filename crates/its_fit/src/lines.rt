//! The report with places that an order makes.
ghost use Rattle.std.specs.Prelude.{◌≡◌, ◌∷◌, [], List, IfOk, IfSome};
ghost use Rattle.its_fit.specs.Explained.{Line, entries_from, report_of};
ghost use Rattle.its_fit.specs.Ordered.{AreLinesOf};

use crate::recording::told_at;
use crate::replay::Made;
use crate::told::{Answered, Told};
use its_history::{End, EntryLine, Leg, Text, Trace};
use its_types::Listed;
use std::alloc::{AllocError, Global};

/// The report in which the calls stand in this order.
pub fn trace_of(alloc: Global, told: &Told, calls: &[Made]) -> Result<Option<Trace>, AllocError>
    ensures { IfOk result (λ o. IfSome o (λ t. (lines : List Line) →
        AreLinesOf told.now.threads calls.now lines →
        t.legs ≡ report_of lines told.now.pending ∷ [])) }
{
    let Some(entries) = entries(alloc, told.threads.as_slice(), calls)? else {
        return Ok(None);
    };
    let pending = copies(alloc, told.pending.as_slice())?;
    let mut legs = Listed::new(alloc);
    legs.push(Leg {
        entries,
        pending,
        end: Some(End::Done),
    })?;
    Ok(Some(Trace { legs }))
}

/// The entries of these calls, if their threads' numbers are small.
fn entries(
    alloc: Global,
    told: &[Listed<Answered>],
    calls: &[Made],
) -> Result<Option<Listed<EntryLine>>, AllocError>
    ensures { IfOk result (λ o. IfSome o (λ entries. (lines : List Line) →
        AreLinesOf told.now calls.now lines → entries ≡ entries_from 0 lines)) }
{
    let mut lines = Vec::new(alloc);
    let mut rest = calls;
    while let [made, later @ ..] = rest {
        let place = lines.len() as u64;
        let Some(line) = entry(alloc, told, *made, place)? else {
            return Ok(None);
        };
        lines.push(line)?;
        rest = later;
    }
    Ok(Some(Listed::from_vec(lines)))
}

/// The entry of a call, if its thread's number is small.
fn entry(
    alloc: Global,
    told: &[Listed<Answered>],
    made: Made,
    place: u64,
) -> Result<Option<EntryLine>, AllocError>
    ensures { IfOk result (λ o. IfSome o (λ entry. (l : Line) →
        AreLinesOf told.now (made ∷ []) (l ∷ []) →
        entry ∷ [] ≡ entries_from place (l ∷ []))) }
{
    let Some(answered) = told_at(told, made) else {
        return Ok(None);
    };
    if made.thread >= 0xffff_ffff {
        return Ok(None);
    }
    let text = copy_of(alloc, &answered.text)?;
    Ok(Some(EntryLine {
        place,
        phase: 1,
        thread: made.thread as u32 + 1,
        text,
    }))
}

fn copies(alloc: Global, texts: &[Text]) -> Result<Listed<Text>, AllocError>
    ensures { IfOk result (λ all. all ≡ texts.now) }
{
    let mut all = Vec::new(alloc);
    for text in texts {
        let copy = copy_of(alloc, text)?;
        all.push(copy)?;
    }
    Ok(Listed::from_vec(all))
}

fn copy_of(alloc: Global, text: &Text) -> Result<Text, AllocError>
    ensures { IfOk result (λ copy. copy ≡ text.now) }
{
    Ok(Text::new(String::from_str(alloc, text.as_str())?))
}
