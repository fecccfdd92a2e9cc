//! How far an order came, and the lines of its calls.
ghost use Rattle.std.specs.Prelude.{◌≡◌, ◌<◌, ◌+◌, ◌++◌, ◌∷◌, ◌^◌, IfSome, List, ℕ, OnOk, length};
ghost use Rattle.std.specs.Prelude.{option_map, replicate};
ghost use Rattle.std.specs.String.{string_bytes};
ghost use Rattle.its_fit.specs.Replays as replays;
ghost use Rattle.fit_answers.specs.Reached as spec;

use its_fit::{Answered, Made};
use its_types::Listed;
use std::alloc::{AllocError, Global};
use std::fmt::Write;

/// How far an order came.
#[derive(Drop)]
pub struct Reached {
    /// Its calls, in this order.
    pub calls: Vec<Made>,
    /// How many of each thread they are.
    pub front: Vec<usize>,
}

/// What a thread tells of a call, if it does.
pub fn told_at(told: &[Listed<Answered>], made: Made) -> Option<&Answered>
    ensures told { option_map (λ a. a.now) result
        ≡ replays.told_at told.now made.thread made.call }
    ensures thread { IfSome result (λ a. made.thread + 1 < 2 ^ 64) }
    ensures call { IfSome result (λ a. made.call + 1 < 2 ^ 64) }
{
    let thread = told.get(made.thread)?;
    thread.as_slice().get(made.call)
}

/// Tells a call at a place.
#[tactic(auto, unfolding(crate::specs::Reached::reached_line))]
fn push_line(out: &mut String, place: usize, thread: usize, text: &str) -> Result<(), AllocError>
    requires { thread + 1 < 2 ^ 64 }
    ensures { OnOk result (string_bytes out.new
        ≡ string_bytes out.old ++ spec.reached_line place thread text.now) }
{
    let number = thread + 1;
    writeln!(out, "{place} 1.{number} {text}")
}

impl Reached {
    /// The next call of a thread.
    pub fn next_of(&self, thread: usize) -> Made
        ensures thread { result.thread ≡ thread }
        ensures call { result.call ≡ spec.count_of self.now.front.items thread }
    {
        let call = match self.front.get(thread) {
            Some(count) => *count,
            None => 0,
        };
        Made { thread, call }
    }

    /// Counts a thread's next call.
    fn count(&mut self, made: Made) -> Result<(), AllocError>
        requires { made.call + 1 < 2 ^ 64 }
        ensures calls { OnOk result (length self.new.calls.items
            ≡ length self.old.calls.items + 1) }
        ensures front { OnOk result (self.new.front.items
            ≡ spec.with_count self.old.front.items made.thread (made.call + 1)) }
    {
        self.calls.push(made)?;
        if let Some(count) = self.front.get_mut(made.thread) {
            *count = made.call + 1;
        }
        Ok(())
    }

    /// Tells the next call of a thread, if it has one, and counts it.
    fn push_call(
        &mut self,
        out: &mut String,
        told: &[Listed<Answered>],
        thread: usize,
    ) -> Result<(), AllocError>
        ensures { OnOk result ((later : List ℕ) → string_bytes out.new
            ++ spec.reached_lines told.now self.new.front.items (length self.new.calls.items) later
            ≡ string_bytes out.old ++ spec.reached_lines told.now self.old.front.items
            (length self.old.calls.items) (thread ∷ later)) }
    {
        let made = self.next_of(thread);
        if let Some(answered) = told_at(told, made) {
            push_line(out, self.calls.len(), thread, answered.text.as_str())?;
            self.count(made)?;
        }
        Ok(())
    }
}

/// Tells the calls of an order, each of which has a place.
pub fn push_reached(
    alloc: Global,
    out: &mut String,
    told: &[Listed<Answered>],
    order: &[usize],
) -> Result<Reached, AllocError>
    ensures { OnOk result (string_bytes out.new ≡ string_bytes out.old
        ++ spec.reached_lines told.now (replicate (length told.now) 0) 0 order.now) }
{
    let mut reached = Reached {
        calls: Vec::new(alloc),
        front: vec![in alloc; 0; told.len()]?,
    };
    let mut rest = order;
    while let [thread, later @ ..] = rest {
        reached.push_call(out, told, *thread)?;
        rest = later;
    }
    Ok(reached)
}
