//! Limits of what is mapped and of pages, at each and one past it, through passes and at a restore.
use crate::limit_calls::its_pass_limits;
use crate::making::{its_pass_free, its_split};
use crate::message_calls::its_pass_dma;
use crate::pass::Pass;
use crate::step_calls::{its_pass_save, its_pass_step, its_pass_write_memory};
use crate::tests::{FILLS, NO_SAVE_FAULT, NUMBERS, TRANSLATOR, drive, shared_from, signalled};
use its_numbers::{
    DONE, DescriptionIn, DmaOut, FULL, FillIn, HANDLE, OUTSIDE, SignalOut, StepOut, TranslatorIn,
};
use std::alloc::Global;

const NONE: u64 = u64::MAX;

fn limited(events: u64, devices: u64) -> DescriptionIn {
    DescriptionIn {
        event_limit: events,
        device_limit: devices,
        ..NUMBERS
    }
}

// The code of a step, its outcome and its place, which are 9 where none is told.
fn stepped(pass: &mut Pass) -> (u32, u32, u64) {
    let mut place = 9;
    let mut out = StepOut {
        outcome: 9,
        op: 9,
        reason: 9,
        address: 9,
        concerned: [9; 8],
    };
    let code = its_pass_step(pass, 0, &mut place, &mut out);
    (code, out.outcome, place)
}

// How many of the driver's MAPD, MAPC and MAPTI run, and what the next step answers.
fn ran(alloc: Global, events: u64, devices: u64) -> (u32, u32) {
    let mut root = Pass::empty(alloc);
    shared_from(
        alloc,
        &mut root,
        &limited(events, devices),
        &[TRANSLATOR],
        &FILLS,
        &[0xa1],
    );
    let (count, _) = drive(&mut root);
    let next = stepped(&mut root).0;
    its_pass_free(&mut root, alloc);
    (count, next)
}

#[test]
fn commands(rt: HostRuntime) {
    let alloc = rt.alloc();
    assert_eq!(rt; ran(alloc, NONE, NONE), (3, DONE));
    assert_eq!(rt; ran(alloc, 1, 1), (3, DONE));
    assert_eq!(rt; ran(alloc, 0, 1), (2, FULL));
    assert_eq!(rt; ran(alloc, 0, NONE), (2, FULL));
    assert_eq!(rt; ran(alloc, 1, 0), (0, FULL));
    assert_eq!(rt; ran(alloc, NONE, 0), (0, FULL));
}

// A step that is full is no call, and keeps no part from other passes. Each pass has the limits of
// the root when it was split off, until others are set.
#[test]
fn limits_of_passes(rt: HostRuntime) {
    let alloc = rt.alloc();
    let (mut root, mut pass) = (Pass::empty(alloc), Pass::empty(alloc));
    assert_eq!(rt; its_pass_limits(&mut root, 0, 0, NONE), HANDLE);
    assert_eq!(rt;
        shared_from(
            alloc,
            &mut root,
            &limited(0, 1),
            &[TRANSLATOR],
            &FILLS,
            &[0xa1]
        ),
        DONE
    );
    assert_eq!(rt; drive(&mut root), (2, 18));
    assert_eq!(rt; its_split(&mut root, alloc, &mut pass), DONE);
    assert_eq!(rt; stepped(&mut pass), (FULL, 9, 9));
    assert_eq!(rt; its_pass_limits(&mut root, 1, 0, NONE), DONE);
    assert_eq!(rt; stepped(&mut pass), (FULL, 9, 9));
    assert_eq!(rt; signalled(&mut pass), (DONE, 3, 0));
    assert_eq!(rt; stepped(&mut root), (DONE, 1, 20));
    assert_eq!(rt; signalled(&mut pass), (DONE, 0, 8192));
    assert_eq!(rt; stepped(&mut pass), (DONE, 0, 22));
    assert_eq!(rt; its_pass_free(&mut pass, alloc), DONE);
    assert_eq!(rt; its_pass_free(&mut root, alloc), DONE);
}

fn written(pass: &mut Pass, address: u64) -> u32 {
    let mut place = 0;
    its_pass_write_memory(pass, address, &[1], &mut place)
}

fn wrote(pass: &mut Pass, address: u64) -> u32 {
    let mut place = 0;
    let mut out = DmaOut {
        outcome: 9,
        signal: SignalOut {
            cause: 9,
            vcpu: 9,
            intid: 9,
        },
    };
    its_pass_dma(pass, 7, address, &[1], &mut place, &mut out)
}

// The code of a save, and its place, which is 9 where none is told.
fn saved(alloc: Global, pass: &mut Pass) -> (u32, u64) {
    let mut place = 9;
    let mut fault = NO_SAVE_FAULT;
    let code = its_pass_save(pass, alloc, &mut place, &mut fault);
    (code, place)
}

// What a new machine answers, whose fill is in one page.
fn filled(alloc: Global, memory: u64) -> (u32, u32) {
    let numbers = DescriptionIn {
        memory_limit: memory,
        ..NUMBERS
    };
    let mut root = Pass::empty(alloc);
    let code = shared_from(alloc, &mut root, &numbers, &[TRANSLATOR], &FILLS, &[0xa1]);
    (code, its_pass_free(&mut root, alloc))
}

// A page of 64 KiB is held by the fill at 0x8003_0000. Bytes that aren't in a page that is held
// may be counted as one page more.
#[test]
fn memory(rt: HostRuntime) {
    let alloc = rt.alloc();
    assert_eq!(rt; filled(alloc, 0xffff), (FULL, HANDLE));
    assert_eq!(rt; filled(alloc, 0x1_0000), (DONE, DONE));
    let mut root = Pass::empty(alloc);
    assert_eq!(rt;
        shared_from(alloc, &mut root, &NUMBERS, &[TRANSLATOR], &FILLS, &[0xa1]),
        DONE
    );
    assert_eq!(rt; its_pass_limits(&mut root, NONE, NONE, 0x3_0000), DONE);
    assert_eq!(rt; written(&mut root, 0x8000_0000), DONE);
    assert_eq!(rt; written(&mut root, 0x8000_ffff), DONE);
    assert_eq!(rt; written(&mut root, 0x8001_0000), FULL);
    assert_eq!(rt; written(&mut root, 0x8020_0000), OUTSIDE);
    assert_eq!(rt; wrote(&mut root, 0x8001_0000), FULL);
    assert_eq!(rt; wrote(&mut root, 0x8020_0000), DONE);
    assert_eq!(rt; wrote(&mut root, 0x8003_0000), DONE);
    assert_eq!(rt; its_pass_limits(&mut root, NONE, NONE, 0x4_0000), DONE);
    assert_eq!(rt; written(&mut root, 0x8001_0000), DONE);
    assert_eq!(rt; its_pass_limits(&mut root, NONE, NONE, 0x5_0000), DONE);
    assert_eq!(rt; drive(&mut root), (3, 26));
    assert_eq!(rt; saved(alloc, &mut root), (FULL, 9));
    assert_eq!(rt; its_pass_limits(&mut root, NONE, NONE, NONE), DONE);
    assert_eq!(rt; saved(alloc, &mut root), (DONE, 27));
    assert_eq!(rt; its_pass_free(&mut root, alloc), DONE);
}

// Where the entries of device 7 and of collection 0 are, and that of event 2 of the device.
const ENTRIES: [FillIn; 3] = [
    FillIn {
        address: 0x8000_0038,
        length: 8,
    },
    FillIn {
        address: 0x8001_0000,
        length: 8,
    },
    FillIn {
        address: 0x800c_0010,
        length: 8,
    },
];

// In the format of KVM's tables: an ITT at 0x800c_0000 for 4 bits, processor 1, LPI 8192.
const SAVED: [u8; 24] = [
    0x03, 0x80, 0x01, 0x10, 0, 0, 0, 0x80, 0, 0, 0x01, 0, 0, 0, 0, 0x80, 0, 0, 0, 0x20, 0, 0, 0, 0,
];

// What a restore of one device with one event answers, a signal of the event, and freeing the root.
fn restored(alloc: Global, events: u64, devices: u64) -> (u32, u32, u32) {
    let numbers = DescriptionIn {
        restored: 1,
        ..limited(events, devices)
    };
    let translator = TranslatorIn {
        ctlr: 1,
        cbaser: 0x8000_0000_8002_0000,
        creadr: 0x60,
        cwriter: 0x60,
        baser0: 0x8107_0000_8000_0200,
        baser1: 0x8407_0000_8001_0200,
        ..TRANSLATOR
    };
    let mut root = Pass::empty(alloc);
    let code = shared_from(alloc, &mut root, &numbers, &[translator], &ENTRIES, &SAVED);
    let (signal, _, _) = signalled(&mut root);
    (code, signal, its_pass_free(&mut root, alloc))
}

#[test]
fn restores(rt: HostRuntime) {
    let alloc = rt.alloc();
    assert_eq!(rt; restored(alloc, NONE, NONE), (DONE, DONE, DONE));
    assert_eq!(rt; restored(alloc, 1, 1), (DONE, DONE, DONE));
    assert_eq!(rt; restored(alloc, 0, 1), (FULL, HANDLE, HANDLE));
    assert_eq!(rt; restored(alloc, 1, 0), (FULL, HANDLE, HANDLE));
    assert_eq!(rt; restored(alloc, 0, NONE), (FULL, HANDLE, HANDLE));
}
