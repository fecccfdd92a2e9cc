//! Four threads that signal beside each other, and one that acknowledges after them.
ghost use Rattle.std.specs.Prelude.{◌≡◌, IfOk, length};
ghost use Rattle.std.specs.List.{AllByRecursion};
ghost use Rattle.ports_together.specs.Legs.{IsSmallLeg};
ghost use Rattle.ports_together.specs.Ready.{IsShared};

use crate::made::made;
use event_script::{Phase, Thread};
use its_history::ThreadList;
use its_plain::{Ack, Call, MakeError, Reply, Signal};
use its_turns::{Machine, Root};
use its_types::{DeviceId, EventId, Intid, Listed, Open, Placed, Vcpu};
use script_threads::{LegEnd, run_leg};
use std::alloc::{AllocError, Global};
use std::sync::Wait;
use std::test::Fail;
use std::thread::Threads;

// Device 16 with event 3, which collection 1 leads to processor 2 as LPI 8200, and that LPI's
// configuration: enabled, of priority 0xa0.
const WORDS: [(u64, u64); 4] = [
    (0x8001_0000, 0x8000_0000_0002_0001),
    (0x8000_0080, 0x8000_0000_1001_8004),
    (0x800c_0018, 0x0000_0000_2008_0001),
    (0x8003_0008, 0xa1),
];

const SIGNAL: Call = Call::Signal {
    its: 0,
    dev: DeviceId(16),
    ev: EventId(3),
};

const TAKE: Call = Call::Take(Vcpu(2));

fn repeated(alloc: Global, call: &Call, count: u32) -> Result<Thread, AllocError>
    ensures { IfOk result (λ calls. AllByRecursion (λ c. c ≡ call.now) calls) }
{
    let mut calls = Thread::new(alloc);
    for _ in 0..count {
        calls.push(*call)?;
    }
    Ok(calls)
}

// So many threads that each make a call so often.
fn beside(alloc: Global, threads: u32, call: &Call, count: u32) -> Result<Phase, AllocError>
    ensures threads { IfOk result (λ phase. length phase ≡ threads) }
    ensures calls { IfOk result (λ phase.
        AllByRecursion (λ calls. AllByRecursion (λ c. c ≡ call.now) calls) phase) }
{
    let mut phase = Listed::new(alloc);
    for _ in 0..threads {
        phase.push(repeated(alloc, call, count)?)?;
    }
    Ok(phase)
}

// Four threads of 50 signals, and then one thread of two acknowledgements.
fn leg(alloc: Global) -> Result<Vec<Phase>, AllocError>
    ensures { IfOk result (λ phases. IsSmallLeg phases.items) }
{
    let mut phases = Vec::new(alloc);
    phases.push(beside(alloc, 4, &SIGNAL, 50)?)?;
    phases.push(beside(alloc, 1, &TAKE, 2)?)?;
    Ok(phases)
}

// How many of the replies are signals that were delivered at one of the first 200 places.
fn count_delivered(replies: &[Placed<Reply>]) -> usize {
    let delivered = Reply::Signal(Signal::Delivered {
        vcpu: Vcpu(2),
        intid: Intid(8200),
    });
    replies
        .iter()
        .filter(|placed| placed.place < 200 && placed.reply == delivered)
        .count()
}

// Whether four threads had 50 signals delivered each, and the last thread took the LPI.
fn is_whole(lists: &[ThreadList]) -> bool {
    let Some((acks, signals)) = lists.split_last() else {
        return false;
    };
    let first = Placed {
        place: 200,
        reply: Reply::Ack(Ack::Some {
            intid: Intid(8200),
            priority: 0xa0,
        }),
    };
    let second = Placed {
        place: 201,
        reply: Reply::Ack(Ack::None),
    };
    let each = signals
        .iter()
        .all(|list| count_delivered(list.replies.as_slice()) == 50);
    signals.len() == 4 && each && acks.replies.as_slice() == [first, second].as_slice()
}

// The leg on this machine.
fn ran<'a, R: Threads + Wait + Sync>(
    rt: &R,
    alloc: Global,
    machine: &Machine,
    root: &mut Root,
    phases: &'a [Phase],
) -> Result<LegEnd<'a>, MakeError>
    requires shared { IsShared machine.now root.old }
    requires leg { IsSmallLeg phases.now }
{
    Ok(run_leg(rt, alloc, machine, root, &Open, phases)?)
}

// The same on a machine that is made for it.
fn ended<'a, R: Threads + Wait + Sync>(
    rt: &R,
    alloc: Global,
    phases: &'a [Phase],
) -> Result<LegEnd<'a>, MakeError>
    requires { IsSmallLeg phases.now }
{
    let (machine, mut root) = made(alloc, &WORDS)?;
    let end = ran(rt, alloc, &machine, &mut root, phases);
    drop((machine, root));
    end
}

#[test]
fn threads_signal_beside_each_other(rt: HostRuntime) -> Result<(), Fail> {
    let phases = leg(rt.alloc())?;
    let LegEnd { lists, stop } = ended(&rt, rt.alloc(), phases.as_slice())?;
    assert_eq!(rt; stop, None);
    assert!(rt; is_whole(lists.as_slice()));
    Ok(())
}
