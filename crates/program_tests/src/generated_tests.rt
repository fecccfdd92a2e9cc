//! Scripts that the program makes, and the summary of a run.
use event_script::{Phase, Script};
use its_plain::{Bytes64, Call};
use its_types::{Addr, DeviceId, EventId};
use script_gen::{Counts, generate, summary_text};
use std::test::Fail;

fn phases(script: &Script) -> &[Phase] {
    match script.legs.as_slice() {
        [leg, ..] => leg.as_slice(),
        [] => &[],
    }
}

// A call of the first thread of a phase, by its number from 0.
fn call_at(script: &Script, phase: usize, number: usize) -> Option<Call> {
    let threads = phases(script).get(phase)?;
    let calls = threads.as_slice().get(0)?;
    calls.get(number)
}

// How many signals there are, and how many steps.
fn signals_and_steps(script: &Script) -> (usize, usize) {
    let mut signals = 0usize;
    let mut steps = 0usize;
    for phase in phases(script) {
        for thread in phase.as_slice() {
            for call in thread.iter() {
                match call {
                    Call::Signal { .. } => signals = signals.saturating_add(1),
                    Call::Step { .. } => steps = steps.saturating_add(1),
                    _ => {}
                }
            }
        }
    }
    (signals, steps)
}

fn write_call(off: u32, size: u8, value: u64) -> Call {
    Call::WriteReg {
        its: 0,
        off,
        size,
        value,
    }
}

// MAPC of collection 0.
fn mapc_call() -> Call {
    let mut mapc = [0; 32];
    mapc[0] = 0x09;
    mapc[23] = 0x80;
    Call::Poke {
        addr: Addr(0x8002_0000),
        bytes: Bytes64::new(&mapc),
    }
}

// MAPD of device 1, the fifth command.
fn mapd_call() -> Call {
    let mut mapd = [0; 32];
    mapd[0] = 0x08;
    mapd[4] = 0x01;
    mapd[8] = 0x05;
    mapd[18] = 0x0c;
    mapd[19] = 0x80;
    mapd[23] = 0x80;
    Call::Poke {
        addr: Addr(0x8002_0080),
        bytes: Bytes64::new(&mapd),
    }
}

const LAST: Call = Call::Signal {
    its: 0,
    dev: DeviceId(1),
    ev: EventId(19),
};

// The phase and the number of the first call of some that isn't as it has to be.
fn first_wrong(script: &Script) -> Option<(usize, usize)> {
    let rows = [
        (0, 0, Some(write_call(0x100, 8, 0x8107_0000_8000_0200))),
        (0, 1, Some(write_call(0x108, 8, 0x8407_0000_8001_0200))),
        (0, 2, Some(write_call(0x80, 8, 0x8000_0000_8002_0000))),
        (0, 3, Some(write_call(0x0, 4, 1))),
        (0, 4, Some(mapc_call())),
        (0, 5, Some(write_call(0x88, 8, 0x20))),
        (0, 6, Some(Call::Step { its: 0 })),
        (0, 16, Some(mapd_call())),
        (1, 19, Some(LAST)),
        (1, 20, None),
    ];
    for (phase, number, call) in rows {
        if call_at(script, phase, number) != call {
            return Some((phase, number));
        }
    }
    None
}

#[test]
fn twenty_signals(rt: HostRuntime) -> Result<(), Fail> {
    let script = generate(rt.alloc(), 20, 1)?;
    let seen = (
        script.legs.len(),
        signals_and_steps(&script),
        first_wrong(&script),
    );
    assert_eq!(rt; seen, (2, (20, 71), None));
    Ok(())
}

#[test]
fn a_summary(rt: HostRuntime) -> Result<(), Fail> {
    let counts = Counts {
        signals: 20,
        delivered: 20,
        commands: 71,
        ran: 71,
    };
    let text = summary_text(rt.alloc(), &counts, &[6, 4, 5, 5])?;
    let lines = "signals 20 delivered 20\ncommands 71 ran 71\nmigrated 1\n\
        vcpu 0 pending 6\nvcpu 1 pending 4\nvcpu 2 pending 5\nvcpu 3 pending 5\n";
    assert_eq!(rt; text.as_str(), lines);
    Ok(())
}
