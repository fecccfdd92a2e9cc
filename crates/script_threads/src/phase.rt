//! The threads of a phase, beside each other.
ghost use Rattle.std.specs.Prelude.{◌≡◌, ◌+◌, ◌^◌, ◌<◌, ◌≤◌, [], None, IfOk, OnErr};
ghost use Rattle.std.specs.Prelude.{map, get_or, length, vec_len, vec_capacity};
ghost use Rattle.std.specs.List.{AllByRecursion};
ghost use Rattle.its_turns.specs.Machines.{view, IsOf};
ghost use Rattle.script_threads.specs.Asks.{MayRun};
ghost use Rattle.script_threads.specs.Jobs.{AreNew, Both, HasRoom, IsFreeJob, IsReady, SeenBy};
ghost use Rattle.script_threads.specs.Jobs.{Worked, call_list, end_of, reply_list, worst_from};
ghost use Rattle.script_threads.specs.Phases.{Phased};
ghost use Rattle.script_threads.specs.Rests.{Rests};
ghost use Rattle.script_threads.specs.Jobs as spec;
ghost use Rattle.script_threads.specs.Roots.{Gave, Knows, TookIn};

use crate::job::{Job, run};
use crate::stop::Stop;
use event_script::Thread;
use its_plain::Reply;
use its_turns::{Machine, Pass, look};
use its_types::{Gate, Listed, Placed};
use std::alloc::{AllocError, Global};
use std::sync::Wait;
use std::thread;
use std::thread::Threads;

/// What the threads of a phase did.
#[derive(Drop)]
pub struct PhaseEnd {
    /// Each thread's replies, with their places. Its first calls have them.
    pub lists: Vec<Listed<Placed<Reply>>>,
    /// Whether a thread was stopped: one that ran out of memory is told before one without a place.
    pub stop: Option<Stop>,
}

/// The memory that a phase takes.
#[derive(Drop)]
struct Room<'a> {
    replies: Vec<Vec<Placed<Reply>>>,
    jobs: Vec<Job<'a>>,
    lists: Vec<Listed<Placed<Reply>>>,
}

/// Runs every job, in a thread of its own where one can be made.
fn run_each<R: Threads + Wait + Sync, G: Gate + Sync>(
    rt: &R,
    alloc: Global,
    machine: &Machine,
    gate: &G,
    jobs: &mut [Job],
)
    requires { AllByRecursion (IsReady machine.now) jobs.old }
    ensures { Both (Worked machine.now) jobs.old jobs.new }
{
    let threads = jobs.len().max(1);
    thread::for_each_mut(
        rt,
        jobs,
        threads,
        &|_, job| run(rt, alloc, machine, gate, job),
    );
}

fn run_all<R: Threads + Wait + Sync, G: Gate + Sync>(
    rt: &R,
    alloc: Global,
    machine: &Machine,
    gate: &G,
    jobs: &mut Vec<Job>,
)
    requires { AllByRecursion (IsReady machine.now) jobs.old.items }
    ensures worked { Both (Worked machine.now) jobs.old.items jobs.new.items }
    ensures len { vec_len jobs.new ≡ vec_len jobs.old }
{
    run_each(rt, alloc, machine, gate, jobs.as_mut_slice());
}

/// Lists with room for the replies of each thread.
fn room_for(alloc: Global, threads: &[Thread]) -> Result<Vec<Vec<Placed<Reply>>>, AllocError>
    ensures len { IfOk result (λ v. vec_len v ≡ length threads.now) }
    ensures room { IfOk result (λ v. HasRoom threads.now v.items) }
{
    let mut lists = Vec::with_capacity(alloc, threads.len())?;
    for calls in threads {
        lists.push(Vec::with_capacity(alloc, calls.len())?)?;
    }
    Ok(lists)
}

/// The calls of the thread at an index.
pub fn thread_at(threads: &[Thread], index: usize) -> &Thread
    requires { index < length threads.now }
    ensures { result.now ≡ get_or threads.now index result.now }
{
    &threads[index]
}

/// Splits a pass off for each thread, in their order.
fn split_all<'a>(
    machine: &Machine,
    root: &mut Pass,
    threads: &'a [Thread],
    lists: Vec<Vec<Placed<Reply>>>,
    jobs: &mut Vec<Job<'a>>,
)
    requires of { IsOf machine.now root.old }
    requires root { (view root.old).number ≡ 0 }
    requires few { (view root.old).root.made + length threads.now < 2 ^ 32 }
    requires len { vec_len lists ≡ length threads.now }
    requires room { HasRoom threads.now lists.items }
    requires may { MayRun machine.now threads.now }
    requires empty { jobs.old.items ≡ [] }
    requires fits { length threads.now ≤ vec_capacity jobs.old }
    ensures of { IsOf machine.now root.new }
    ensures gave { Gave (view root.old) (length threads.now) (view root.new) }
    ensures len { vec_len jobs.new ≡ length threads.now }
    ensures ready { AllByRecursion (IsReady machine.now) jobs.new.items }
    ensures calls { map call_list jobs.new.items ≡ threads.now }
    ensures new { AreNew (view root.old).root.made jobs.new.items }
{
    for done in lists {
        let calls = thread_at(threads, jobs.len());
        let pass = root.split(machine);
        let job = Job {
            pass,
            calls,
            done,
            stop: None,
        };
        if jobs.push(job).is_err() {
            unreachable!();
        }
    }
}

/// Takes all passes in, in the order of the threads.
fn join_all(
    machine: &Machine,
    root: &mut Pass,
    jobs: Vec<Job>,
    lists: &mut Vec<Listed<Placed<Reply>>>,
) -> Option<Stop>
    requires of { IsOf machine.now root.old }
    requires root { (view root.old).number ≡ 0 }
    requires free { AllByRecursion (IsFreeJob machine.now) jobs.items }
    requires empty { lists.old.items ≡ [] }
    requires fits { vec_len jobs ≤ vec_capacity lists.old }
    ensures of { IsOf machine.now root.new }
    ensures took { TookIn (view root.old) (map end_of jobs.entry.items) (view root.new) }
    ensures lists { lists.new.items ≡ map reply_list jobs.entry.items }
    ensures told { AllByRecursion (SeenBy (view root.new)) jobs.entry.items }
    ensures stop { result ≡ worst_from None jobs.entry.items }
{
    let mut worst = None;
    for job in jobs {
        let Job {
            pass,
            calls: _,
            done,
            stop,
        } = job;
        root.join(machine, pass);
        if lists.push(Listed::from_vec(done)).is_err() {
            unreachable!();
        }
        worst = worse(worst, stop);
    }
    worst
}

fn worse(first: Option<Stop>, later: Option<Stop>) -> Option<Stop>
    ensures { result ≡ spec.worse first later }
{
    match (first, later) {
        (Some(Stop::NoMemory), _) => first,
        (_, None) => first,
        (_, Some(_)) => later,
    }
}

fn take_room<'a>(alloc: Global, threads: &'a [Thread]) -> Result<Room<'a>, AllocError>
    ensures len { IfOk result (λ r. vec_len r.replies ≡ length threads.now) }
    ensures replies { IfOk result (λ r. HasRoom threads.now r.replies.items) }
    ensures jobs { IfOk result (λ r.
        (r.jobs.items ≡ []) × (length threads.now ≤ vec_capacity r.jobs)) }
    ensures lists { IfOk result (λ r.
        (r.lists.items ≡ []) × (length threads.now ≤ vec_capacity r.lists)) }
{
    Ok(Room {
        replies: room_for(alloc, threads)?,
        jobs: Vec::with_capacity(alloc, threads.len())?,
        lists: Vec::with_capacity(alloc, threads.len())?,
    })
}

/// Runs the threads of a phase beside each other, each on a pass of its own that is split off the
/// root and joined. Each thread makes its calls in order, up to the first that isn't made. Where
/// no thread can be started, the caller does its work. All memory is taken first: where there is
/// none, no call is made.
pub fn run_phase<R: Threads + Wait + Sync, G: Gate + Sync>(
    rt: &R,
    alloc: Global,
    machine: &Machine,
    root: &mut Pass,
    gate: &G,
    threads: &[Thread],
) -> Result<PhaseEnd, AllocError>
    requires of { IsOf machine.now root.old }
    requires rests { Rests (view root.old) }
    requires few { (view root.old).root.made + length threads.now < 2 ^ 32 }
    requires may { MayRun machine.now threads.now }
    ensures of { IsOf machine.now root.new }
    ensures phase { IfOk result (λ e.
        Phased (view root.old) threads.now e.lists.items e.stop (view root.new)) }
    ensures err { OnErr result (root.new ≡ root.old) }
{
    let room = take_room(alloc, threads)?;
    look(machine, root);
    Ok(run_rested(rt, alloc, machine, root, gate, threads, room))
}

// The same, once the memory is there and the root has looked.
fn run_rested<'a, R: Threads + Wait + Sync, G: Gate + Sync>(
    rt: &R,
    alloc: Global,
    machine: &Machine,
    root: &mut Pass,
    gate: &G,
    threads: &'a [Thread],
    room: Room<'a>,
) -> PhaseEnd
    requires of { IsOf machine.now root.old }
    requires rests { Rests (view root.old) }
    requires knows { Knows (view root.old) }
    requires few { (view root.old).root.made + length threads.now < 2 ^ 32 }
    requires may { MayRun machine.now threads.now }
    requires len { vec_len room.replies ≡ length threads.now }
    requires replies { HasRoom threads.now room.replies.items }
    requires jobs { (room.jobs.items ≡ []) × (length threads.now ≤ vec_capacity room.jobs) }
    requires lists { (room.lists.items ≡ []) × (length threads.now ≤ vec_capacity room.lists) }
    ensures of { IsOf machine.now root.new }
    ensures phase { Phased (view root.old) threads.now result.lists.items result.stop
        (view root.new) }
{
    let Room {
        replies,
        mut jobs,
        mut lists,
    } = room;
    split_all(machine, root, threads, replies, &mut jobs);
    run_all(rt, alloc, machine, gate, &mut jobs);
    let stop = join_all(machine, root, jobs, &mut lists);
    PhaseEnd { lists, stop }
}
