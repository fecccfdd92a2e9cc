//! Threads that sleep on when a call is placed: an order that begins with that call and with theirs
//! differs from one that was searched by a swap of two calls that commute.
ghost use Rattle.std.specs.Prelude.{◌≡◌, ◌<◌, true, IfOk, length};
ghost use Rattle.std.specs.List.{AllByRecursion};
ghost use Rattle.front_search.specs.Fronts as spec;
ghost use Rattle.front_search.specs.Sleeping.{MaySwap, SleepsOn};

use crate::at_once::returns_later;
use crate::fronts::next_of;
use crate::recorded::Recorded;
use crate::span::Span;
use crate::trail::Search;
use its_types::Listed;
use std::alloc::{AllocError, Global};

/// The threads that sleep on when the next call of a thread is placed: of those that were tried at
/// the front or slept there already, each whose next call may be swapped with it.
pub fn asleep_after<S: Drop, C: Recorded<S>>(
    alloc: Global,
    calls: &C,
    threads: &[Listed<Span>],
    search: &Search<S>,
    thread: usize,
) -> Result<Vec<usize>, AllocError>
    requires long { length search.now.front.items ≡ length threads.now }
    requires below { thread < length threads.now }
    ensures { IfOk result (λ asleep. AllByRecursion (SleepsOn (C.Goes calls.now)
        (C.IsEnd calls.now) threads.now search.now.front.items search.now.next
        search.now.asleep.items thread) asleep.items) }
{
    let mut asleep = Vec::new(alloc);
    for other in 0..threads.len() {
        if other < search.next() || search.is_asleep(other) {
            if may_swap(calls, threads, search, other, thread) {
                asleep.push(other)?;
            }
        }
    }
    Ok(asleep)
}

/// Whether the next calls of two threads may be swapped where the second's comes first: they are
/// known to commute, and the times forbid neither order.
fn may_swap<S: Drop, C: Recorded<S>>(
    calls: &C,
    threads: &[Listed<Span>],
    search: &Search<S>,
    thread: usize,
    first: usize,
) -> bool
    requires long { length search.now.front.items ≡ length threads.now }
    requires below { thread < length threads.now }
    requires first { first < length threads.now }
    ensures { result ≡ true → MaySwap (C.Goes calls.now) (C.IsEnd calls.now) threads.now
        search.now.front.items thread first }
{
    if first == thread {
        return false;
    }
    let Some(span) = next_of(threads, search.front(), thread) else {
        return false;
    };
    let Some(other) = next_of(threads, search.front(), first) else {
        return false;
    };
    let call = search.placed(thread);
    if other.end < span.begin || !returns_later(threads, thread, call + 1, other.begin) {
        return false;
    }
    calls.commutes(thread, call, first, search.placed(first))
}
