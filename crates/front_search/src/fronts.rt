//! How many calls of each thread are placed, and which may be placed next.

ghost use Rattle.std.specs.Prelude.{◌≡◌, ◌<◌, ◌+◌, ◌^◌, true, IfSome, length};
ghost use Rattle.std.specs.Bool.{Decides};
ghost use Rattle.front_search.specs.Fronts as spec;

use crate::span::Span;
use its_types::Listed;

/// A call of a thread, both counted from 0.
pub fn call_of(threads: &[Listed<Span>], thread: usize, call: usize) -> Option<Span>
    ensures { result ≡ spec.call_of threads.now thread call }
{
    let calls = threads.get(thread)?;
    calls.as_slice().get(call).copied()
}

/// The first call of a thread that isn't placed.
pub fn next_of(threads: &[Listed<Span>], front: &[usize], thread: usize) -> Option<Span>
    requires { length front.now ≡ length threads.now }
    ensures next { result ≡ spec.next_of threads.now front.now thread }
    ensures counted { IfSome result (λ _. spec.placed front.now thread + 1 < 2 ^ 64) }
{
    let calls = threads.get(thread)?;
    let spans = calls.as_slice();
    spans.get(front[thread]).copied()
}

/// Whether a thread has a next call that returned before this time.
fn returned_before(threads: &[Listed<Span>], front: &[usize], thread: usize, time: u64) -> bool
    requires { length front.now ≡ length threads.now }
    ensures { Decides result (spec.ReturnedBefore threads.now front.now thread time) }
{
    let Some(span) = next_of(threads, front, thread) else {
        return false;
    };
    span.end < time
}

/// Whether a thread's next call may be placed.
pub fn may_go(threads: &[Listed<Span>], front: &[usize], thread: usize) -> bool
    requires { length front.now ≡ length threads.now }
    ensures may_go { Decides result (spec.MayGo threads.now front.now thread) }
    ensures counted { result ≡ true → spec.placed front.now thread + 1 < 2 ^ 64 }
{
    let Some(span) = next_of(threads, front, thread) else {
        return false;
    };
    for other in 0..threads.len() {
        if returned_before(threads, front, other, span.begin) {
            return false;
        }
    }
    true
}

/// Whether all calls are placed.
pub fn is_whole(threads: &[Listed<Span>], front: &[usize]) -> bool
    requires { length front.now ≡ length threads.now }
    ensures { Decides result (spec.IsWhole threads.now front.now) }
{
    for thread in 0..threads.len() {
        if next_of(threads, front, thread).is_some() {
            return false;
        }
    }
    true
}
