//! An order of calls, put together call by call.
ghost use Rattle.std.specs.Prelude.{◌≡◌, ◌≤◌, IfOk, IfSome, length, true};
ghost use Rattle.its_fit.specs.Ordered.{IsAll, IsOrdered, IsSoFar};

use crate::recording::told_at;
use crate::replay::Made;
use crate::told::Answered;
use its_types::Listed;
use std::alloc::{AllocError, Global};

/// Some calls in an order that agrees with their times.
#[derive(Drop)]
pub struct Trail {
    /// In this order.
    pub calls: Vec<Made>,
    /// How many of each thread they are.
    pub front: Vec<usize>,
    /// None of them began later.
    pub latest: u64,
}

impl Trail {
    /// No calls of so many threads.
    pub fn new(alloc: Global, told: &[Listed<Answered>]) -> Result<Trail, AllocError>
        ensures { IfOk result (λ t.
            IsSoFar told.now t.calls.items t.front.items t.latest) }
    {
        let front = vec![in alloc; 0; told.len()]?;
        Ok(Trail {
            calls: Vec::new(alloc),
            front,
            latest: 0,
        })
    }

    /// Places the next call of a thread, if there is one that may come next. It answers whether it
    /// did.
    pub fn place(&mut self, told: &[Listed<Answered>], thread: usize) -> Result<bool, AllocError>
        requires { IsSoFar told.now self.old.calls.items self.old.front.items self.old.latest }
        ensures { IfOk result (λ b. b ≡ true →
            IsSoFar told.now self.new.calls.items self.new.front.items self.new.latest) }
    {
        if thread >= self.front.len() {
            return Ok(false);
        }
        let call = self.front[thread];
        let made = Made { thread, call };
        let Some(answered) = told_at(told, made) else {
            return Ok(false);
        };
        let span = answered.span;
        let latest = later_of(self.latest, span.begin);
        if latest > span.end || call == usize::MAX {
            return Ok(false);
        }
        self.calls.push(made)?;
        self.front[thread] = call + 1;
        self.latest = latest;
        Ok(true)
    }
}

/// The later of two times.
fn later_of(first: u64, second: u64) -> u64
    ensures first { first ≤ result }
    ensures second { second ≤ result }
{
    if first < second { second } else { first }
}

/// The calls of an order, if each may come next.
pub fn follow(
    alloc: Global,
    told: &[Listed<Answered>],
    order: &[usize],
) -> Result<Option<Trail>, AllocError>
    ensures { IfOk result (λ o. IfSome o (λ t.
        IsSoFar told.now t.calls.items t.front.items t.latest)) }
{
    let mut trail = Trail::new(alloc, told)?;
    for thread in order {
        if !trail.place(told, *thread)? {
            return Ok(None);
        }
    }
    Ok(Some(trail))
}

/// The calls of all threads in this order, if it is an order of them that agrees with their times.
pub fn ordered(
    alloc: Global,
    told: &[Listed<Answered>],
    order: &[usize],
) -> Result<Option<Vec<Made>>, AllocError>
    ensures { IfOk result (λ o. IfSome o (λ calls. IsOrdered told.now calls.items)) }
{
    let Some(trail) = follow(alloc, told, order)? else {
        return Ok(None);
    };
    if !is_whole(told, &trail.front) {
        return Ok(None);
    }
    Ok(Some(trail.calls))
}

/// Whether no thread has a call that isn't counted.
fn is_whole(told: &[Listed<Answered>], front: &[usize]) -> bool
    requires { length front.now ≡ length told.now }
    ensures { result ≡ true → IsAll told.now front.now }
{
    for (thread, calls) in told.iter().enumerate() {
        if front[thread] < calls.len() {
            return false;
        }
    }
    true
}
