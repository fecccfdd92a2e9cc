//! Windows that guest memory gets while the machine runs, and those that it can't get.
use crate::calls::{its_signal, its_write_register};
use crate::handle::Handle;
use crate::making::{its_free, its_new};
use crate::memory_calls::{its_read_memory, its_write_memory};
use crate::step_calls::{its_migrate, its_save, its_step};
use crate::tests::{FILLS, NO_SAVE_FAULT, NO_STEP, NUMBERS, PENDING, TRANSLATORS, WINDOWS, drive};
use crate::window_calls::its_add_window;
use its_numbers::{DONE, FAULT, HANDLE, NO_FAULT, OUTSIDE, SignalOut, TranslatorIn};
use std::alloc::Global;

// Where the memory stands that is plugged in.
const PLUGGED: u64 = 0x1_0000_0000;

const SIZE: u64 = 0x10_0000;

// After the driver's commands: MAPD 8 with 4 bits, whose table is there, and MAPTI 8 2 to LPI 8193.
const COMMANDS: [u64; 8] = [
    0x8_0000_0008,
    3,
    0x8000_0001_0000_0000,
    0,
    0x8_0000_000a,
    0x2001_0000_0002,
    0,
    0,
];

// A machine of one window, whose frames stand at 0x9000_0000.
fn made(alloc: Global, handle: &mut Handle) -> u32 {
    let framed = TranslatorIn {
        has_frames: 1,
        frames: 0x9000_0000,
        ..TRANSLATORS[0]
    };
    let mut fault = NO_FAULT;
    its_new(
        handle,
        alloc,
        &NUMBERS,
        &[framed],
        &WINDOWS,
        &PENDING,
        &[],
        &[],
        &FILLS,
        &[0xa1],
        &mut fault,
    )
}

// The code, and the kind of the fault that is told.
fn added(alloc: Global, handle: &mut Handle, base: u64, length: u64) -> (u32, u32) {
    let mut fault = NO_FAULT;
    let code = its_add_window(handle, alloc, base, length, &mut fault);
    (code, fault.kind)
}

// What the last two bytes of it are, once they are written.
fn last_bytes(alloc: Global, handle: &mut Handle) -> (u32, u32, [u8; 2]) {
    let at = PLUGGED + SIZE - 2;
    let mut bytes = [9; 2];
    let written = its_write_memory(handle, alloc, at, &[0x5a, 0xa5]);
    let read = its_read_memory(handle, at, &mut bytes);
    (written, read, bytes)
}

// What became of both commands.
fn map_there(alloc: Global, handle: &mut Handle) -> (u32, u32) {
    let mut at = 0x8002_0060;
    for word in &COMMANDS {
        its_write_memory(handle, alloc, at, &word.to_le_bytes());
        at = at.wrapping_add(8);
    }
    its_write_register(handle, alloc, 0, 0x88, 8, 0xa0);
    (stepped(alloc, handle), stepped(alloc, handle))
}

fn stepped(alloc: Global, handle: &mut Handle) -> u32 {
    let mut step = NO_STEP;
    its_step(handle, alloc, 0, &mut step);
    step.outcome
}

// The code, and of a fault its kind, its region and that one's number.
fn saved(alloc: Global, handle: &mut Handle) -> (u32, u32, u32, u32) {
    let mut fault = NO_SAVE_FAULT;
    let code = its_save(handle, alloc, &mut fault);
    (code, fault.kind, fault.region, fault.number)
}

fn signalled(alloc: Global, handle: &mut Handle) -> (u32, u32, u32) {
    let mut out = SignalOut {
        cause: 9,
        vcpu: 9,
        intid: 9,
    };
    its_signal(handle, alloc, 0, 8, 2, &mut out);
    (out.cause, out.vcpu, out.intid)
}

// A device's table in memory that is plugged in: without that memory no save is made.
#[test]
fn a_table_in_it(rt: HostRuntime) {
    let alloc = rt.alloc();
    let mut handle = Handle::empty(alloc);
    assert_eq!(rt; added(alloc, &mut handle, PLUGGED, SIZE), (HANDLE, 0));
    assert_eq!(rt; made(alloc, &mut handle), DONE);
    assert_eq!(rt; drive(alloc, &mut handle), 3);
    assert_eq!(rt; map_there(alloc, &mut handle), (1, 1));
    assert_eq!(rt; last_bytes(alloc, &mut handle), (OUTSIDE, OUTSIDE, [9; 2]));
    assert_eq!(rt; saved(alloc, &mut handle), (FAULT, 2, 5, 8));
    assert_eq!(rt; added(alloc, &mut handle, PLUGGED, SIZE), (DONE, 0));
    assert_eq!(rt; last_bytes(alloc, &mut handle), (DONE, DONE, [0x5a, 0xa5]));
    assert_eq!(rt; saved(alloc, &mut handle), (DONE, 0, 0, 0));
    let mut entry = [9; 8];
    assert_eq!(rt;
        its_read_memory(&mut handle, PLUGGED + 16, &mut entry),
        DONE
    );
    assert_eq!(rt; entry, [0, 0, 0x01, 0x20, 0, 0, 0, 0]);
    let mut fault = NO_SAVE_FAULT;
    assert_eq!(rt; its_migrate(&mut handle, alloc, &mut fault), DONE);
    assert_eq!(rt; signalled(alloc, &mut handle), (0, 1, 8193));
    assert_eq!(rt; its_free(&mut handle, alloc), DONE);
}

#[test]
fn where_it_may_lie(rt: HostRuntime) {
    let alloc = rt.alloc();
    let mut handle = Handle::empty(alloc);
    assert_eq!(rt; made(alloc, &mut handle), DONE);
    let rows = [
        (0x8000_0000, 1, (FAULT, 1)),
        (0x801f_ffff, 2, (FAULT, 1)),
        (0x7fff_ffff, 2, (FAULT, 1)),
        (0x8020_0000, 0, (FAULT, 1)),
        (0xf_ffff_ffff_ffff, 2, (FAULT, 1)),
        (u64::MAX, u64::MAX, (FAULT, 1)),
        (0x8fff_ffff, 2, (FAULT, 14)),
        (0x9001_ffff, 1, (FAULT, 14)),
    ];
    for (base, length, expected) in rows {
        assert_eq!(rt; added(alloc, &mut handle, base, length), expected);
    }
    for address in [0x7fff_ffff, 0x8020_0000, 0x8fff_ffff, 0x9001_ffff] {
        let code = its_write_memory(&mut handle, alloc, address, &[1]);
        assert_eq!(rt; code, OUTSIDE);
    }
    let beside = [
        (0x8020_0000, 1),
        (0x7fff_ffff, 1),
        (0x8fff_ffff, 1),
        (0x9002_0000, 1),
        (0xf_ffff_ffff_ffff, 1),
    ];
    for (base, length) in beside {
        assert_eq!(rt; added(alloc, &mut handle, base, length), (DONE, 0));
    }
    assert_eq!(rt; its_free(&mut handle, alloc), DONE);
}

#[test]
fn sixteen(rt: HostRuntime) {
    let alloc = rt.alloc();
    let mut handle = Handle::empty(alloc);
    assert_eq!(rt; made(alloc, &mut handle), DONE);
    for i in 0..15u64 {
        let codes = added(alloc, &mut handle, PLUGGED + SIZE * i, SIZE);
        assert_eq!(rt; codes, (DONE, 0));
    }
    let next = PLUGGED + SIZE * 15;
    assert_eq!(rt; added(alloc, &mut handle, next, SIZE), (FAULT, 1));
    assert_eq!(rt; its_write_memory(&mut handle, alloc, next, &[1]), OUTSIDE);
    assert_eq!(rt; its_write_memory(&mut handle, alloc, next - 1, &[1]), DONE);
    assert_eq!(rt; its_free(&mut handle, alloc), DONE);
}
