//! A signal that a command overtakes: the cache had its translation, and the command ends that
//! before the signal is made.
ghost use mathlib.Core.List.{IsPrefix};
ghost use Rattle.its_turns.specs.Machines.{view};
ghost use Rattle.ports_together.specs.Ready.{IsReady};

use crate::asks::{Ask, Said, hit, play, queue, split, stepped};
use crate::commands::{CONFIGURED, MAPPED};
use crate::given::Given;
use crate::made::made;
use its_command::Op;
use its_plain::{Cause, MakeError, Reply, StepReply};
use its_turns::{Machine, Pass, Raced, meet, note};
use its_types::{Gate, Point, Word};
use std::alloc::Global;
use std::sync::Wait;
use std::sync::atomic::{AtomicU64, Ordering};
use std::test::Fail;
use std::thread::{self, Threads, join};

// The numbers of the passes.
const STEPS: u32 = 1;

const SIGNALS: u32 = 2;

// Holds the pass that steps once it has the maps, until the other has found the translation, and
// that one before its commit, until the first has committed. Counts the holds that ran out.
#[derive(Drop)]
struct Overtaking {
    found: AtomicU64,
    stepped: AtomicU64,
    ran_out: AtomicU64,
}

impl Overtaking {
    fn hold(&self, until: &AtomicU64) {
        for _ in 0..100_000_000u64 {
            if until.load(Ordering::SeqCst) != 0 {
                return;
            }
            thread::yield_now();
        }
        self.ran_out.store(1, Ordering::SeqCst);
    }
}

impl Gate for Overtaking {
    fn at(&self, pass: u32, point: Point) {
        match (pass, point) {
            (STEPS, Point::MapsTaken) => self.hold(&self.found),
            (STEPS, Point::AfterCommit) => self.stepped.store(1, Ordering::SeqCst),
            (SIGNALS, Point::BeforeCommit) => {
                self.found.store(1, Ordering::SeqCst);
                self.hold(&self.stepped);
            }
            _ => {}
        }
    }
}

fn steps<R: Wait>(rt: &R, machine: &Machine, mut pass: Pass, gate: &Overtaking) -> (Pass, Said)
    requires { IsReady machine.now pass }
    ensures { IsReady machine.now result.0 }
{
    let said = stepped(rt, machine, &mut pass, gate);
    (pass, said)
}

fn hits(machine: &Machine, mut pass: Pass, gate: &Overtaking) -> (Pass, Said)
    requires { IsReady machine.now pass }
    ensures { IsReady machine.now result.0 }
{
    let said = hit(machine, &mut pass, gate, 3);
    (pass, said)
}

// The second pass has then seen what the first has.
fn tell(machine: &Machine, first: &mut Pass, second: &mut Pass)
    requires first { IsReady machine.now first.old }
    requires second { IsReady machine.now second.old }
    ensures first { IsReady machine.now first.new }
    ensures second { IsReady machine.now second.new }
    ensures seen { IsPrefix (view first.new).seen (view second.new).seen }
{
    let note = note(machine, first);
    meet(machine, second, note);
}

// Steps and signals beside each other. Answers both, and the pass that signals, told of the step.
fn beside<R: Threads + Wait + Sync>(
    rt: &R,
    machine: &Machine,
    first: Pass,
    second: Pass,
    gate: &Overtaking,
) -> (Said, Said, Pass)
    requires first { IsReady machine.now first }
    requires second { IsReady machine.now second }
    ensures { IsReady machine.now result.2 }
{
    let ((mut first, step), (mut second, signal)) = join(
        rt,
        || steps(rt, machine, first, gate),
        || hits(machine, second, gate),
    );
    tell(machine, &mut first, &mut second);
    (step, signal, second)
}

// After the calls that map event 3, in places 0 to 8.
const CACHED: [(Ask, Said); 2] = [
    (Ask::Send(3), Said::Sent(9, 2, 8200)),
    (Ask::Hit(3), Said::Sent(10, 2, 8200)),
];

// Whether event 3 is cached, and the command that unmaps its device is the queue's next.
fn is_cached<R: Wait>(rt: &R, alloc: Global, machine: &Machine, pass: &mut Pass) -> bool
    requires { IsReady machine.now pass.old }
    ensures { IsReady machine.now pass.new }
{
    let mapped = play(rt, alloc, machine, pass, &MAPPED);
    let cached = play(rt, alloc, machine, pass, &CACHED);
    queue(rt, machine, pass, 3, Given::Unmapd);
    mapped == 3 && cached == 2
}

const STEPPED: Said = Said::At(13, Reply::Step(StepReply::Ran(Op::Mapd)));

const RACED: Said = Said::Raced(Raced {
    expected: Word {
        stamp: 0,
        place: 13,
    },
    found: Word {
        stamp: 1,
        place: 14,
    },
});

const AFTER: [(Ask, Said); 3] = [
    (Ask::Look, Said::Stamp(1, 14)),
    (Ask::Hit(3), Said::Miss),
    (Ask::Send(3), Said::Dropped(14, Cause::NoDevice)),
];

// What the step and the signal are answered, and how many rows hold after them.
fn overtaken<R: Threads + Wait + Sync>(
    rt: &R,
    alloc: Global,
    machine: &Machine,
    mut first: Pass,
    second: Pass,
    gate: &Overtaking,
) -> Option<(Said, Said, usize)>
    requires first { IsReady machine.now first }
    requires second { IsReady machine.now second }
{
    if !is_cached(rt, alloc, machine, &mut first) {
        return None;
    }
    let (step, signal, mut second) = beside(rt, machine, first, second, gate);
    let after = play(rt, alloc, machine, &mut second, &AFTER);
    Some((step, signal, after))
}

// The same on a machine that is made for it.
fn on_a_machine<R: Threads + Wait + Sync>(
    rt: &R,
    alloc: Global,
    gate: &Overtaking,
) -> Result<Option<(Said, Said, usize)>, MakeError> {
    let (machine, mut root) = made(alloc, &CONFIGURED)?;
    let first = split(&machine, &mut root);
    let second = split(&machine, &mut root);
    let answers = overtaken(rt, alloc, &machine, first, second, gate);
    drop((machine, root));
    Ok(answers)
}

#[test]
fn a_command_overtakes_a_signal(rt: HostRuntime) -> Result<(), Fail> {
    let gate = Overtaking {
        found: AtomicU64::new(0),
        stepped: AtomicU64::new(0),
        ran_out: AtomicU64::new(0),
    };
    let answers = on_a_machine(&rt, rt.alloc(), &gate)?;
    let ran_out = gate.ran_out.load(Ordering::SeqCst);
    assert!(rt; (answers, ran_out) == (Some((STEPPED, RACED, 3)), 0));
    Ok(())
}
