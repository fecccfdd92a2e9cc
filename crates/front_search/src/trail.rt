//! How far a search is: the calls that are placed, and the states before them.
ghost use Rattle.std.specs.Prelude.{◌≡◌, ◌<◌, ◌≤◌, ◌+◌, ◌^◌, IfOk, OnOk, MatchOption};
ghost use Rattle.std.specs.Prelude.{◌||◌, ◌==◌, length, map, nat_lt, replicate};
ghost use Rattle.front_search.specs.Fronts as spec;
ghost use Rattle.front_search.specs.Moves.{IsEmpty, IsKept, IsNew, IsPlaced, IsReturned, IsSkipped};
ghost use Rattle.front_search.specs.Moves.{IsTaken};
ghost use Rattle.front_search.specs.Sleeping.{is_asleep};

use crate::span::Span;
use its_types::Listed;
use std::alloc::{AllocError, Global};
use std::mem::replace;

/// A call that is placed.
#[derive(Drop)]
pub struct Placed<S> {
    /// Counted from 0.
    thread: usize,
    /// The state that it was made in.
    before: S,
    /// Where no order fits in which it comes next, none fits in which a lower thread does.
    next: usize,
    /// The threads that slept before it.
    asleep: Vec<usize>,
}

/// How far a search is.
#[derive(Drop)]
pub struct Search<S> {
    /// The calls that are placed, in their order.
    path: Vec<Placed<S>>,
    /// How many of each thread they are.
    front: Vec<usize>,
    /// What they leave.
    state: S,
    /// No order fits in which these calls and then one of a lower thread come first.
    next: usize,
    /// Nor one in which these calls and then one of these threads come first.
    asleep: Vec<usize>,
    /// The longest order of calls that went and from which the search went back.
    reached: Vec<usize>,
}

impl<S: Drop> Search<S> {
    /// No call is placed yet.
    pub fn new(alloc: Global, first: S, threads: &[Listed<Span>]) -> Result<Search<S>, AllocError>
        ensures { IfOk result (λ s. IsNew threads.now first s) }
    {
        let front = zeros(alloc, threads.len())?;
        Ok(Search {
            path: Vec::new(alloc),
            front,
            state: first,
            next: 0,
            asleep: Vec::new(alloc),
            reached: Vec::new(alloc),
        })
    }

    /// How many calls of each thread are placed.
    pub fn front(&self) -> &[usize]
        ensures { result.now ≡ self.now.front.items }
    {
        &self.front
    }

    /// What the placed calls leave.
    pub fn state(&self) -> &S
        ensures { result.now ≡ self.now.state }
    {
        &self.state
    }

    /// The least thread that may come next.
    pub fn next(&self) -> usize
        ensures { result ≡ self.now.next }
    {
        self.next
    }

    /// Whether a thread sleeps: no order fits in which its next call comes next.
    pub fn is_asleep(&self, thread: usize) -> bool
        ensures { result ≡ is_asleep self.now.asleep.items thread }
    {
        self.asleep.contains(&thread)
    }

    /// The longest order of calls that went and from which the search went back.
    pub fn into_reached(self) -> Vec<usize>
        ensures { result.items ≡ self.reached.items }
    {
        self.reached
    }

    /// How many calls of a thread are placed.
    pub fn placed(&self, thread: usize) -> usize
        requires { thread < length self.now.front.items }
        ensures { result ≡ spec.placed self.now.front.items thread }
    {
        self.front[thread]
    }

    /// The threads of the calls that are placed, in their order.
    pub fn order(&self, alloc: Global) -> Result<Vec<usize>, AllocError>
        ensures { IfOk result (λ v. v.items ≡ map (λ p. p.thread) self.now.path.items) }
    {
        let mut order = Vec::new(alloc);
        for placed in &self.path {
            order.push(placed.thread)?;
        }
        Ok(order)
    }

    /// Places the next call of a thread, which leaves this state, in which these threads sleep.
    /// Where it is taken back, the search goes on at the thread `next`.
    pub fn place(
        &mut self,
        thread: usize,
        next: usize,
        state: S,
        asleep: Vec<usize>,
    ) -> Result<(), AllocError>
        requires below { thread < length self.old.front.items }
        requires fits { spec.placed self.old.front.items thread + 1 < 2 ^ 64 }
        ensures { OnOk result (IsPlaced thread next state asleep.items self.old self.new) }
    {
        let count = self.front[thread] + 1;
        let before = replace(&mut self.state, state);
        let slept = replace(&mut self.asleep, asleep);
        self.path.push(Placed {
            thread,
            before,
            next,
            asleep: slept,
        })?;
        self.front[thread] = count;
        self.next = 0;
        Ok(())
    }

    /// Leaves the threads below this one out.
    pub fn skip(&mut self, next: usize)
        ensures { IsSkipped next self.old self.new }
    {
        self.next = next;
    }

    /// Whether more calls are placed than the longest order has from which the search went back, or
    /// that has none.
    pub fn is_longest(&self) -> bool
        ensures { result ≡ (nat_lt (length self.now.reached.items) (length self.now.path.items)
            || length self.now.reached.items == 0) }
    {
        self.path.len() > self.reached.len() || self.reached.is_empty()
    }

    /// Keeps the order of the calls that are placed, if it is the longest.
    pub fn keep_longest(&mut self, alloc: Global) -> Result<(), AllocError>
        ensures { OnOk result (IsKept self.old self.new) }
    {
        if self.is_longest() {
            self.reached = self.order(alloc)?;
        }
        Ok(())
    }

    /// Takes the last call from the path.
    pub fn take_last(&mut self) -> Option<Placed<S>>
        ensures { MatchOption result (IsEmpty self.old self.new)
            (λ p. IsTaken p self.old self.new) }
    {
        self.path.pop()
    }

    /// Goes back to before a call that was taken from the path.
    pub fn return_to(&mut self, last: Placed<S>)
        requires below { last.thread < length self.old.front.items }
        requires some { 1 ≤ spec.placed self.old.front.items last.thread }
        ensures { IsReturned last self.old self.new }
    {
        let Placed {
            thread,
            before,
            next,
            asleep,
        } = last;
        let count = self.front[thread] - 1;
        self.front[thread] = count;
        self.next = next;
        self.asleep = asleep;
        self.state = before;
    }
}

/// So many counts of nothing.
fn zeros(alloc: Global, count: usize) -> Result<Vec<usize>, AllocError>
    ensures { IfOk result (λ v. v.items ≡ replicate count 0) }
{
    Ok(vec![in alloc; 0; count]?)
}
