//! Whose call comes next.
ghost use Rattle.std.specs.Prelude.{◌≡◌, ◌<◌, ℕ, Some, None, IfSome, IfNone, length};
ghost use Rattle.trace_check.specs.Cursors.{call_of, more};
ghost use Rattle.its_web.specs.Played.{HasCall};

use event_script::Thread;
use its_plain::Call;

/// Numbers that look like chance. From 0 on they are all 0, so that calls come thread by thread.
#[derive(Clone, Copy)]
pub struct Turns {
    state: u64,
}

/// The next call of a thread.
#[derive(Clone, Copy)]
pub struct Next {
    /// Counted from 0 in each phase.
    pub thread: usize,
    /// The first that isn't made yet.
    pub call: Call,
}

impl Turns {
    /// Those of an order.
    pub fn new(order: u64) -> Turns {
        Turns {
            state: order.wrapping_mul(0x9e37_79b9_7f4a_7c15),
        }
    }

    /// The next of them that is below a count, which isn't 0.
    fn next(&mut self, count: usize) -> usize
        requires { 0 < count }
        ensures { result < count }
    {
        let mut state = self.state;
        state ^= state << 13;
        state ^= state >> 7;
        state ^= state << 17;
        self.state = state;
        (state >> 11) as usize % count
    }
}

/// The next call of a thread that has one left, from the thread on that the next turn names. `made`
/// says how many calls of each thread are made.
pub fn choose(threads: &[Thread], made: &[usize], turns: &mut Turns) -> Option<Next>
    requires { length made.now ≡ length threads.now }
    ensures next { IfSome result (λ n. call_of threads.now made.now n.thread ≡ Some n.call) }
    ensures none { IfNone result ((i : ℕ) → call_of threads.now made.now i ≡ None) }
{
    let count = threads.len();
    if count > 1 {
        let first = turns.next(count);
        for thread in first..count {
            if let Some(call) = call_at(threads, made, thread) {
                return Some(Next { thread, call });
            }
        }
    }
    for thread in 0..count {
        if let Some(call) = call_at(threads, made, thread) {
            return Some(Next { thread, call });
        }
    }
    None
}

/// The next call of a thread, of which the first is 0.
fn call_at(threads: &[Thread], made: &[usize], thread: usize) -> Option<Call>
    requires { length made.now ≡ length threads.now }
    ensures { result ≡ call_of threads.now made.now thread }
{
    let calls = threads.get(thread)?;
    calls.get(made[thread])
}

/// Counts the next call of a thread as made.
pub fn count(threads: &[Thread], made: &mut [usize], thread: usize)
    requires long { length made.old ≡ length threads.now }
    requires call { HasCall threads.now made.old thread }
    ensures { made.new ≡ more made.old thread }
{
    let _calls = threads[thread].len();
    let number = made[thread] + 1;
    made[thread] = number;
}
