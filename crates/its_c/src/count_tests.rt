//! What a machine counts: signals by cause, and refused commands by reason.
use crate::calls::{its_signal, its_write_register};
use crate::count_calls::its_counters;
use crate::handle::Handle;
use crate::making::its_free;
use crate::memory_calls::its_write_memory;
use crate::step_calls::its_step;
use crate::tests::{NO_STEP, drive, made};
use its_numbers::{Counters, DONE, HANDLE, SignalOut};
use std::alloc::Global;

// The code, how many signals went where, by their cause, and how many commands were unknown or of a
// device that isn't mapped.
fn counted(handle: &mut Handle) -> (u32, [u64; 6], [u64; 2]) {
    let mut out = Counters::new();
    let code = its_counters(handle, &mut out);
    let s = out.signals;
    let counts = [
        s.delivered,
        s.disabled,
        s.no_device,
        s.no_event,
        s.no_collection,
        s.lpis_off,
    ];
    (
        code,
        counts,
        [out.refused.unknown_command, out.refused.no_device],
    )
}

fn signalled(alloc: Global, handle: &mut Handle, device: u32, event: u32) -> u32 {
    let mut out = SignalOut {
        cause: 9,
        vcpu: 9,
        intid: 9,
    };
    its_signal(handle, alloc, 0, device, event, &mut out);
    out.cause
}

#[test]
fn signals_by_cause(rt: HostRuntime) {
    let alloc = rt.alloc();
    let mut handle = Handle::empty(alloc);
    assert_eq!(rt; counted(&mut handle), (HANDLE, [0; 6], [0; 2]));
    assert_eq!(rt; made(alloc, &mut handle), DONE);
    assert_eq!(rt; signalled(alloc, &mut handle, 7, 2), 1);
    assert_eq!(rt; drive(alloc, &mut handle), 3);
    let rows = [(7, 2, 0), (8, 2, 2), (7, 3, 3), (7, 2, 0)];
    for (device, event, cause) in rows {
        assert_eq!(rt; signalled(alloc, &mut handle, device, event), cause);
    }
    assert_eq!(rt; counted(&mut handle), (DONE, [2, 1, 1, 1, 0, 0], [0; 2]));
    assert_eq!(rt; its_free(&mut handle, alloc), DONE);
}

// An unknown command, and INT of a device that isn't mapped.
#[test]
fn commands_by_reason(rt: HostRuntime) {
    let alloc = rt.alloc();
    let mut handle = Handle::empty(alloc);
    assert_eq!(rt; made(alloc, &mut handle), DONE);
    assert_eq!(rt; drive(alloc, &mut handle), 3);
    let rows = [(0x60, 0xff, 1, [1, 0]), (0x80, 0x8_0000_0003, 6, [1, 1])];
    for (at, word, reason, counts) in rows {
        let word: u64 = word;
        let place: u64 = at;
        its_write_memory(
            &mut handle,
            alloc,
            place.wrapping_add(0x8002_0000),
            &word.to_le_bytes(),
        );
        its_write_register(&mut handle, alloc, 0, 0x88, 8, place.wrapping_add(0x20));
        let mut step = NO_STEP;
        assert_eq!(rt; its_step(&mut handle, alloc, 0, &mut step), DONE);
        assert_eq!(rt; step.reason, reason);
        assert_eq!(rt; counted(&mut handle), (DONE, [0; 6], counts));
    }
    assert_eq!(rt; its_free(&mut handle, alloc), DONE);
}
