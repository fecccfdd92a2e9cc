//! What one thread of a phase has to do.
ghost use Rattle.std.specs.Prelude.{◌≡◌, ◌≤◌, [], length, vec_capacity};
ghost use Rattle.its_turns.specs.Machines.{view, IsOf};
ghost use Rattle.script_threads.specs.Asks.{MayAskAll};
ghost use Rattle.script_threads.specs.Jobs.{IsReady, Ran, Worked};

use crate::ask::call_once;
use crate::stop::Stop;
use event_script::Calls;
use its_plain::Reply;
use its_turns::{Machine, Pass};
use its_types::{Gate, Placed};
use std::alloc::Global;
use std::mem;
use std::sync::Wait;

/// A thread's pass and its calls, the replies of those that were made, and why the next was not.
#[derive(Drop)]
pub struct Job<'a> {
    /// The thread's own.
    pub pass: Pass,
    /// All calls of the thread.
    pub calls: &'a Calls,
    /// The first calls' replies, each with its place.
    pub done: Vec<Placed<Reply>>,
    /// None where every call was made.
    pub stop: Option<Stop>,
}

/// Makes the calls in order, up to the first that isn't made.
fn ask_all<R: Wait, G: Gate>(
    rt: &R,
    alloc: Global,
    machine: &Machine,
    pass: &mut Pass,
    gate: &G,
    calls: &Calls,
    done: &mut Vec<Placed<Reply>>,
) -> Option<Stop>
    requires of { IsOf machine.now pass.old }
    requires free { (view pass.old).held ≡ [] }
    requires may { MayAskAll machine.now calls.now }
    requires empty { done.old.items ≡ [] }
    requires room { length calls.now ≤ vec_capacity done.old }
    ensures of { IsOf machine.now pass.new }
    ensures ran { Ran (view pass.old) calls.now result done.new.items (view pass.new) }
{
    for index in 0..calls.len() {
        let call = calls.at(index);
        match call_once(rt, alloc, machine, pass, gate, &call) {
            Ok(placed) => {
                if done.push(placed).is_err() {
                    unreachable!();
                }
            }
            Err(stop) => return Some(stop),
        }
    }
    None
}

/// Does a thread's work.
pub fn run<R: Wait, G: Gate>(rt: &R, alloc: Global, machine: &Machine, gate: &G, job: &mut Job)
    requires { IsReady machine.now job.old }
    ensures { Worked machine.now job.old job.new }
{
    let calls = job.calls;
    // Jobs stand side by side, and each call writes the list's length: here it is this thread's.
    let mut done = mem::replace(&mut job.done, Vec::new(alloc));
    job.stop = ask_all(rt, alloc, machine, &mut job.pass, gate, calls, &mut done);
    job.done = done;
}
