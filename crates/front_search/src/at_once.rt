//! Calls that go at once: after one of them has failed at a front, no other has to be tried there.
ghost use Rattle.std.specs.Prelude.{◌≡◌, ◌<◌, ◌+◌, ◌^◌, true, IfSome, length};
ghost use Rattle.front_search.specs.Commuting.{CommutesWith, GoesAtOnce, ReturnsFrom};
ghost use Rattle.front_search.specs.Fronts as spec;

use crate::fronts::{call_of, may_go, next_of};
use crate::recorded::Recorded;
use crate::span::Span;
use crate::trail::Search;
use its_types::Listed;

/// The least thread whose next call goes at once, if there is one.
pub fn first_at_once<S: Drop, C: Recorded<S>>(
    calls: &C,
    threads: &[Listed<Span>],
    search: &Search<S>,
) -> Option<usize>
    requires { length search.now.front.items ≡ length threads.now }
    ensures at_once { IfSome result (λ i. GoesAtOnce (C.Goes calls.now) (C.IsEnd calls.now)
        threads.now search.now.front.items i) }
    ensures below { IfSome result (λ i. i < length threads.now) }
    ensures counted { IfSome result (λ i. spec.placed search.now.front.items i + 1 < 2 ^ 64) }
{
    for thread in 0..threads.len() {
        if goes_at_once(calls, threads, search, thread) {
            return Some(thread);
        }
    }
    None
}

/// Whether a thread's next call goes at once.
fn goes_at_once<S: Drop, C: Recorded<S>>(
    calls: &C,
    threads: &[Listed<Span>],
    search: &Search<S>,
    thread: usize,
) -> bool
    requires long { length search.now.front.items ≡ length threads.now }
    requires below { thread < length threads.now }
    ensures at_once { result ≡ true → GoesAtOnce (C.Goes calls.now) (C.IsEnd calls.now)
        threads.now search.now.front.items thread }
    ensures counted { result ≡ true → spec.placed search.now.front.items thread + 1 < 2 ^ 64 }
{
    if !may_go(threads, search.front(), thread) {
        return false;
    }
    let Some(span) = next_of(threads, search.front(), thread) else {
        return false;
    };
    if returns_later(threads, thread, search.placed(thread) + 1, span.end) {
        for other in 0..threads.len() {
            if other != thread {
                if !commutes_with(calls, threads, search, thread, other, span.end) {
                    return false;
                }
            }
        }
        return true;
    }
    false
}

/// Whether a call, if there is one, returned no earlier than at this time.
pub fn returns_later(threads: &[Listed<Span>], thread: usize, call: usize, time: u64) -> bool
    ensures { result ≡ true → ReturnsFrom threads.now thread call time }
{
    let Some(later) = call_of(threads, thread, call) else {
        return true;
    };
    time <= later.end
}

/// Whether a thread's next call, which returned at this time, commutes with those calls of another
/// that may be placed before it.
fn commutes_with<S: Drop, C: Recorded<S>>(
    calls: &C,
    threads: &[Listed<Span>],
    search: &Search<S>,
    thread: usize,
    other: usize,
    time: u64,
) -> bool
    requires long { length search.now.front.items ≡ length threads.now }
    requires thread { thread < length threads.now }
    requires other { other < length threads.now }
    ensures { result ≡ true → CommutesWith (C.Goes calls.now) (C.IsEnd calls.now) threads.now
        search.now.front.items time thread (spec.placed search.now.front.items thread) other }
{
    let call = search.placed(thread);
    let spans = threads[other].as_slice();
    for number in search.placed(other)..spans.len() {
        if time < spans[number].begin {
            return true;
        }
        if !calls.commutes(thread, call, other, number) {
            return false;
        }
    }
    true
}
