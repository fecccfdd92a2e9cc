//! What a search tries next.
ghost use Rattle.std.specs.Prelude.{◌≡◌, ◌≤◌, ◌<◌, ◌+◌, ◌^◌, ℕ, true, false, IfSome, IfNone};
ghost use Rattle.std.specs.Prelude.{length};
ghost use Rattle.front_search.specs.Fronts.{MayGo, placed};
ghost use Rattle.front_search.specs.Sleeping.{Asleep, NoneFrom, is_asleep};
ghost use Rattle.front_search.specs.Trails.{IsEnough, NoneBelow};

use crate::at_once::first_at_once;
use crate::fronts::may_go;
use crate::recorded::Recorded;
use crate::span::Span;
use crate::trail::Search;
use its_types::Listed;

/// What to try next.
#[derive(Clone, Copy)]
pub struct Choice {
    /// Its next call is tried.
    pub thread: usize,
    /// Where no order fits in which that comes next, none fits in which a lower thread than this
    /// one does.
    pub next: usize,
}

/// What to try next: at a new front a call that goes at once, and nothing else there; where there
/// is none, or the search came back to the front, the next thread whose call may be placed and that
/// doesn't sleep.
pub fn choose<S: Drop, C: Recorded<S>>(
    calls: &C,
    threads: &[Listed<Span>],
    search: &Search<S>,
) -> Option<Choice>
    requires long { length search.now.front.items ≡ length threads.now }
    requires none_below { NoneBelow (C.Goes calls.now) (C.IsEnd calls.now) threads.now
        search.now.front.items search.now.state search.now.next }
    requires asleep { Asleep (C.Goes calls.now) (C.IsEnd calls.now) threads.now
        search.now.front.items search.now.state search.now.asleep.items }
    ensures may_go { IfSome result (λ c. MayGo threads.now search.now.front.items c.thread) }
    ensures enough { IfSome result (λ c. IsEnough (C.Goes calls.now) (C.IsEnd calls.now)
        threads.now search.now.front.items search.now.state c.thread c.next) }
    ensures below { IfSome result (λ c. c.thread < length threads.now) }
    ensures counted { IfSome result (λ c.
        placed search.now.front.items c.thread + 1 < 2 ^ 64) }
    ensures none { IfNone result (NoneFrom (C.Goes calls.now) (C.IsEnd calls.now) threads.now
        search.now.front.items search.now.state search.now.next) }
{
    if search.next() == 0 {
        if let Some(thread) = first_at_once(calls, threads, search) {
            if search.is_asleep(thread) {
                return None;
            }
            let next = threads.len();
            return Some(Choice { thread, next });
        }
    }
    let thread = least_awake(threads, search)?;
    let next = thread + 1;
    Some(Choice { thread, next })
}

/// The least thread that wasn't tried yet, doesn't sleep, and whose next call may be placed.
fn least_awake<S: Drop>(threads: &[Listed<Span>], search: &Search<S>) -> Option<usize>
    requires { length search.now.front.items ≡ length threads.now }
    ensures may_go { IfSome result (λ i. MayGo threads.now search.now.front.items i) }
    ensures below { IfSome result (λ i. i < length threads.now) }
    ensures fits { IfSome result (λ i. i + 1 < 2 ^ 64) }
    ensures counted { IfSome result (λ i. placed search.now.front.items i + 1 < 2 ^ 64) }
    ensures least { IfSome result (λ i. (j : ℕ) → search.now.next ≤ j → j < i
        → MayGo threads.now search.now.front.items j
        → is_asleep search.now.asleep.items j ≡ true) }
    ensures none { IfNone result ((j : ℕ) → search.now.next ≤ j
        → MayGo threads.now search.now.front.items j
        → is_asleep search.now.asleep.items j ≡ true) }
{
    for thread in search.next()..threads.len() {
        if is_awake(threads, search, thread) {
            return Some(thread);
        }
    }
    None
}

/// Whether a thread doesn't sleep, and its next call may be placed.
fn is_awake<S: Drop>(threads: &[Listed<Span>], search: &Search<S>, thread: usize) -> bool
    requires { length search.now.front.items ≡ length threads.now }
    ensures may_go { result ≡ true → MayGo threads.now search.now.front.items thread }
    ensures counted { result ≡ true → placed search.now.front.items thread + 1 < 2 ^ 64 }
    ensures asleep { result ≡ false → MayGo threads.now search.now.front.items thread
        → is_asleep search.now.asleep.items thread ≡ true }
{
    if search.is_asleep(thread) {
        return false;
    }
    may_go(threads, search.front(), thread)
}
