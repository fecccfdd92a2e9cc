//! What passes count: signals by cause, refused commands by reason, and what may end a translation.
use crate::count_calls::{its_pass_counters, its_pass_routes_changed};
use crate::making::{its_pass_free, its_split};
use crate::message_calls::{its_pass_dma, its_pass_signal};
use crate::pass::Pass;
use crate::register_calls::its_pass_write_register;
use crate::step_calls::{its_pass_save, its_pass_step, its_pass_write_memory};
use crate::tests::{NO_SAVE_FAULT, drive, shared};
use its_numbers::{Counters, DONE, DmaOut, HANDLE, RANGE, SignalOut, StepOut};

const NO_SIGNAL: SignalOut = SignalOut {
    cause: 9,
    vcpu: 9,
    intid: 9,
};

// The code, and how many signals went where, by their cause.
fn signals(pass: &mut Pass) -> (u32, [u64; 6]) {
    let mut out = Counters::new();
    let code = its_pass_counters(pass, &mut out);
    let s = out.signals;
    let counts = [
        s.delivered,
        s.disabled,
        s.no_device,
        s.no_event,
        s.no_collection,
        s.lpis_off,
    ];
    (code, counts)
}

// Unknown commands, and those of devices that aren't mapped, or with EventIDs out of range.
fn refused(pass: &mut Pass) -> [u64; 3] {
    let mut out = Counters::new();
    its_pass_counters(pass, &mut out);
    [
        out.refused.unknown_command,
        out.refused.no_device,
        out.refused.event_range,
    ]
}

fn routes(pass: &mut Pass) -> (u32, u64) {
    let mut count = 9;
    let code = its_pass_routes_changed(pass, &mut count);
    (code, count)
}

fn signalled(pass: &mut Pass, device: u32, event: u32) -> u32 {
    let (mut place, mut out) = (0, NO_SIGNAL);
    its_pass_signal(pass, 0, device, event, &mut place, &mut out);
    out.cause
}

fn wrote(pass: &mut Pass, requester: u32, bytes: &[u8]) -> u32 {
    let mut place = 0;
    let mut out = DmaOut {
        outcome: 9,
        signal: NO_SIGNAL,
    };
    its_pass_dma(pass, requester, 0x0809_0040, bytes, &mut place, &mut out)
}

#[test]
fn signals_by_cause(rt: HostRuntime) {
    let alloc = rt.alloc();
    let (mut root, mut pass) = (Pass::empty(alloc), Pass::empty(alloc));
    assert_eq!(rt; signals(&mut pass), (HANDLE, [0; 6]));
    assert_eq!(rt; shared(alloc, &mut root), DONE);
    assert_eq!(rt; signalled(&mut root, 7, 2), 1);
    assert_eq!(rt; its_split(&mut root, alloc, &mut pass), DONE);
    assert_eq!(rt; drive(&mut root), (3, 21));
    let rows = [(7, 2, 0), (8, 2, 2), (7, 3, 3), (7, 2, 0)];
    for (device, event, cause) in rows {
        assert_eq!(rt; signalled(&mut pass, device, event), cause);
    }
    assert_eq!(rt; signals(&mut pass), (DONE, [2, 0, 1, 1, 0, 0]));
    assert_eq!(rt; wrote(&mut pass, 7, &[2, 0, 0, 0]), DONE);
    assert_eq!(rt; wrote(&mut pass, 8, &[2, 0, 0, 0]), DONE);
    assert_eq!(rt; wrote(&mut pass, 7, &[]), RANGE);
    assert_eq!(rt; signals(&mut pass), (DONE, [3, 0, 1, 1, 0, 0]));
    assert_eq!(rt; signals(&mut root), (DONE, [0, 1, 0, 0, 0, 0]));
    assert_eq!(rt; its_pass_free(&mut pass, alloc), DONE);
    assert_eq!(rt; its_pass_free(&mut root, alloc), DONE);
}

// The next command of the queue, from the number of its place on.
fn commanded(pass: &mut Pass, number: u64, words: [u64; 2]) -> u32 {
    let mut place = 0;
    let mut at = number.wrapping_mul(32).wrapping_add(0x8002_0000);
    for word in words {
        its_pass_write_memory(pass, at, &word.to_le_bytes(), &mut place);
        at = at.wrapping_add(8);
    }
    let end = number.wrapping_add(1).wrapping_mul(32);
    its_pass_write_register(pass, 0, 0x88, 8, end, &mut place);
    let mut step = StepOut {
        outcome: 9,
        op: 0,
        reason: 9,
        address: 0,
        concerned: [0; 8],
    };
    its_pass_step(pass, 0, &mut place, &mut step);
    step.reason
}

// An unknown command, and INT of a device that isn't mapped and of an event with too many bits.
#[test]
fn commands_by_reason(rt: HostRuntime) {
    let alloc = rt.alloc();
    let mut root = Pass::empty(alloc);
    assert_eq!(rt; shared(alloc, &mut root), DONE);
    assert_eq!(rt; drive(&mut root), (3, 20));
    assert_eq!(rt; refused(&mut root), [0; 3]);
    let rows = [
        ([0xff, 0], 1, [1, 0, 0]),
        ([0x8_0000_0003, 2], 6, [1, 1, 0]),
        ([0x7_0000_0003, 16], 7, [1, 1, 1]),
        ([0x7_0000_0003, 2], 0, [1, 1, 1]),
    ];
    let mut number = 3;
    for (words, reason, counts) in rows {
        assert_eq!(rt; commanded(&mut root, number, words), reason);
        assert_eq!(rt; refused(&mut root), counts);
        number = number.wrapping_add(1);
    }
    assert_eq!(rt; its_pass_free(&mut root, alloc), DONE);
}

// The tables' registers and three commands raise the count of the pass that made them; the queue's
// registers, an idle step, a signal and a save don't.
#[test]
fn routes_that_may_have_changed(rt: HostRuntime) {
    let alloc = rt.alloc();
    let (mut root, mut pass) = (Pass::empty(alloc), Pass::empty(alloc));
    assert_eq!(rt; routes(&mut root), (HANDLE, 9));
    assert_eq!(rt; shared(alloc, &mut root), DONE);
    assert_eq!(rt; its_split(&mut root, alloc, &mut pass), DONE);
    assert_eq!(rt; drive(&mut root), (3, 20));
    assert_eq!(rt;
        (routes(&mut root), routes(&mut pass)),
        ((DONE, 5), (DONE, 0))
    );
    let mut place = 0;
    its_pass_write_register(&mut pass, 0, 0x108, 8, 0x8407_0000_8001_0200, &mut place);
    assert_eq!(rt; signalled(&mut root, 7, 2), 0);
    let mut fault = NO_SAVE_FAULT;
    its_pass_save(&mut root, alloc, &mut place, &mut fault);
    assert_eq!(rt;
        (routes(&mut root), routes(&mut pass)),
        ((DONE, 5), (DONE, 1))
    );
    assert_eq!(rt; its_pass_free(&mut pass, alloc), DONE);
    assert_eq!(rt; its_pass_free(&mut root, alloc), DONE);
}
