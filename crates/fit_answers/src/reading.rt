//! What threads were told, read from a text.
ghost use Rattle.fit_answers.specs.ToldText as spec;

use crate::left::Lines;
use its_fit::Told;
use its_history::TraceError;
use std::alloc::Global;

/// Reads what so many threads were told on a machine of so many virtual processors: for each
/// thread, of which the first is 1, lines `1.T BEGIN END TEXT`, then for each virtual processor, of
/// which the first is 0, a line `vcpu V pending TEXT`. BEGIN isn't above END, nor below the END
/// before it of the same thread; both are below 2^64. A line that isn't so is `BadLine`, with its
/// number, of which the first is 1, and so is the line after the last where one lacks.
#[tactic(auto, unfolding(crate::specs::ToldText::told_from))]
pub fn read_told(alloc: Global, text: &[u8], threads: usize, vcpus: u16) -> Result<Told, TraceError>
    ensures { spec.IsToldAs result (spec.told_of threads vcpus text.now) }
{
    let mut lines = Lines {
        number: 1,
        rest: text,
    };
    let threads = lines.threads(alloc, threads)?;
    let pending = lines.pending_lists(alloc, vcpus)?;
    if lines.rest.is_empty() {
        Ok(Told { threads, pending })
    } else {
        Err(TraceError::BadLine(lines.number))
    }
}
