//! Threads that make calls, and keep what they are answered.
ghost use Rattle.std.specs.List.{AllByRecursion};
ghost use Rattle.its_bench.specs.Ready.{IsReady};

use crate::asks::{Ask, Made, make};
use its_plain::Reply;
use its_turns::{Machine, Pass};
use its_types::Placed;
use std::alloc::{AllocError, Global};
use std::sync::Wait;
use std::sync::atomic::{AtomicU64, Ordering};
use std::thread;
use std::thread::Threads;

/// What is counted of calls.
#[derive(Clone, Copy)]
pub struct Counts {
    /// How many are signals that the cache alone translated.
    pub hits: u64,
    /// How many weren't made at first, as there was no memory, and were made again.
    pub again: u64,
}

impl Counts {
    /// Of no calls.
    pub const NONE: Counts = Counts { hits: 0, again: 0 };

    /// Of both together.
    pub fn with(self, other: Counts) -> Counts {
        Counts {
            hits: self.hits.wrapping_add(other.hits),
            again: self.again.wrapping_add(other.again),
        }
    }
}

/// A thread's pass and calls, and the replies to those that were made.
#[derive(Drop)]
pub struct Actor {
    pub pass: Pass,
    pub asks: Vec<Ask>,
    pub done: Vec<Placed<Reply>>,
    pub counts: Counts,
}

impl Actor {
    ghost use Rattle.std.specs.Prelude.{◌≡◌, IfOk};

    /// One that made no call. All memory for replies is taken here.
    pub fn new(alloc: Global, pass: Pass, asks: Vec<Ask>) -> Result<Actor, AllocError>
        ensures { IfOk result (λ a. a.pass ≡ pass) }
    {
        let done = Vec::with_capacity(alloc, asks.len())?;
        Ok(Actor {
            pass,
            asks,
            done,
            counts: Counts::NONE,
        })
    }
}

/// Makes calls in order, up to the first that isn't made.
pub fn make_each<R: Wait>(rt: &R, alloc: Global, machine: &Machine, pass: &mut Pass, asks: &[Ask])
    requires { IsReady machine.now pass.old }
    ensures { IsReady machine.now pass.new }
{
    for each in asks {
        if make(rt, alloc, machine, pass, each).is_none() {
            return;
        }
    }
}

// Makes a call, and makes it again where it isn't made.
fn make_or_again<R: Wait>(
    rt: &R,
    alloc: Global,
    machine: &Machine,
    pass: &mut Pass,
    ask: &Ask,
    counts: &mut Counts,
) -> Option<Made>
    requires { IsReady machine.now pass.old }
    ensures { IsReady machine.now pass.new }
{
    let made = make(rt, alloc, machine, pass, ask);
    if made.is_some() {
        return made;
    }
    counts.again = counts.again.wrapping_add(1);
    make(rt, alloc, machine, pass, ask)
}

/// Makes calls in order, up to the first that isn't made when it is made again. Keeps the replies.
fn make_all<R: Wait>(
    rt: &R,
    alloc: Global,
    machine: &Machine,
    pass: &mut Pass,
    asks: &[Ask],
    done: &mut Vec<Placed<Reply>>,
) -> Counts
    requires { IsReady machine.now pass.old }
    ensures { IsReady machine.now pass.new }
{
    let mut counts = Counts::NONE;
    for each in asks {
        let Some(Made { placed, hit }) = make_or_again(rt, alloc, machine, pass, each, &mut counts)
        else {
            return counts;
        };
        counts.hits = counts.hits.wrapping_add(u64::from(hit));
        if done.push(placed).is_err() {
            return counts;
        }
    }
    counts
}

/// Makes an actor's calls.
pub fn act<R: Wait>(rt: &R, alloc: Global, machine: &Machine, actor: &mut Actor)
    requires { IsReady machine.now actor.old.pass }
    ensures { IsReady machine.now actor.new.pass }
{
    actor.counts = make_all(
        rt,
        alloc,
        machine,
        &mut actor.pass,
        actor.asks.as_slice(),
        &mut actor.done,
    );
}

// How often a thread looks whether the others have begun: without end it could wait for one that
// can't be started.
const LOOKS: u32 = 100_000;

/// Where threads meet before they begin.
#[derive(Drop)]
pub struct Meeting {
    threads: u64,
    arrived: AtomicU64,
}

impl Meeting {
    /// Of so many threads.
    pub fn new(threads: u64) -> Meeting {
        Meeting {
            threads,
            arrived: AtomicU64::new(0),
        }
    }

    /// Waits until all threads have come here, or long enough.
    pub fn wait(&self) {
        self.arrived.fetch_add(1, Ordering::SeqCst);
        for _ in 0..LOOKS {
            if self.arrived.load(Ordering::SeqCst) >= self.threads {
                return;
            }
            thread::yield_now();
        }
    }
}

// Makes an actor's calls, once the other threads are there.
fn meet_and_act<R: Wait>(
    rt: &R,
    alloc: Global,
    machine: &Machine,
    actor: &mut Actor,
    meeting: &Meeting,
)
    requires { IsReady machine.now actor.old.pass }
{
    meeting.wait();
    act(rt, alloc, machine, actor);
}

/// Has all actors make their calls, each in a thread of its own where one can be started.
pub fn act_all<R: Threads + Wait + Sync>(
    rt: &R,
    alloc: Global,
    machine: &Machine,
    actors: &mut [Actor],
)
    requires { AllByRecursion (λ a. IsReady machine.now a.pass) actors.old }
{
    let threads = actors.len().max(1);
    let meeting = Meeting::new(threads as u64);
    thread::for_each_mut(
        rt,
        actors,
        threads,
        &|_, actor| { meet_and_act(rt, alloc, machine, actor, &meeting) },
    );
}
