//! A machine of two translators, or of one: each call by its translator's number.
use crate::calls::{its_event, its_read_register, its_signal, its_write_register};
use crate::count_calls::its_counters;
use crate::handle::Handle;
use crate::list_calls::{its_list_collections, its_list_devices, its_list_events};
use crate::making::{its_free, its_new};
use crate::memory_calls::its_write_memory;
use crate::step_calls::{its_needs, its_needs_of, its_step, its_step_with};
use crate::tests::{FILLS, NO_STEP, NUMBERS, PENDING, TRANSLATORS, WINDOWS, drive};
use its_numbers::{
    CollectionOut, Counters, DONE, DescriptionIn, DeviceOut, EventOut, FillIn, MappingOut,
    NO_FAULT, RANGE, RequestersIn, SignalOut, StretchOut, TranslatorIn,
};
use std::alloc::Global;

// The second's queue, both its tables, and it is enabled.
const REGISTERS: [(u32, u32, u64); 4] = [
    (0x100, 8, 0x8107_0000_8008_0200),
    (0x108, 8, 0x8407_0000_8009_0200),
    (0x80, 8, 0x8000_0000_800a_0000),
    (0x0, 4, 1),
];

// MAPD 7 with 4 bits, MAPC 0 to processor 0, MAPTI 7 2 to LPI 8193.
const COMMANDS: [u64; 12] = [
    0x7_0000_0008,
    3,
    0x8000_0000_800d_0000,
    0,
    9,
    0,
    0x8000_0000_0000_0000,
    0,
    0x7_0000_000a,
    0x2001_0000_0002,
    0,
    0,
];

/// What no signal tells.
pub const NO_SIGNAL: SignalOut = SignalOut {
    cause: 9,
    vcpu: 9,
    intid: 9,
};

/// What making it answers, and of a fault its kind and its translator.
pub fn made(
    alloc: Global,
    handle: &mut Handle,
    numbers: &DescriptionIn,
    translators: &[TranslatorIn],
    fills: &[FillIn],
    bytes: &[u8],
) -> (u32, u32, u32) {
    let requesters = [RequestersIn {
        first: 1,
        last: 1,
        device: 7,
    }];
    let mut fault = NO_FAULT;
    let code = its_new(
        handle,
        alloc,
        numbers,
        translators,
        &WINDOWS,
        &PENDING,
        &[],
        &requesters,
        fills,
        bytes,
        &mut fault,
    );
    (code, fault.kind, fault.translator)
}

/// A machine of these translators, at reset.
pub fn of(alloc: Global, handle: &mut Handle, translators: &[TranslatorIn]) -> (u32, u32, u32) {
    made(alloc, handle, &NUMBERS, translators, &FILLS, &[0xa1])
}

/// The driver of the second. How many commands ran.
pub fn drive_second(alloc: Global, handle: &mut Handle) -> u32 {
    for (offset, size, value) in &REGISTERS {
        its_write_register(handle, alloc, 1, *offset, *size, *value);
    }
    let mut at = 0x800a_0000;
    for word in &COMMANDS {
        its_write_memory(handle, alloc, at, &word.to_le_bytes());
        at = at.wrapping_add(8);
    }
    its_write_register(handle, alloc, 1, 0x88, 8, 0x60);
    let mut ran = 0;
    for _ in 0..4u32 {
        let mut step = NO_STEP;
        if its_step(handle, alloc, 1, &mut step) == DONE && step.outcome == 1 {
            ran += 1;
        }
    }
    ran
}

/// The code, and where the signal of the device went.
pub fn signalled(alloc: Global, handle: &mut Handle, translator: u32) -> (u32, u32, u32, u32) {
    let mut out = NO_SIGNAL;
    let code = its_signal(handle, alloc, translator, 7, 2, &mut out);
    (code, out.cause, out.vcpu, out.intid)
}

fn led(handle: &mut Handle, translator: u32) -> (u32, u32) {
    let mut out = EventOut {
        cause: 9,
        intid: 9,
        collection: 9,
        vcpu: 9,
    };
    let code = its_event(handle, translator, 7, 2, &mut out);
    (code, out.intid)
}

// The code and the register at an offset.
fn register(alloc: Global, handle: &mut Handle, translator: u32, offset: u32) -> (u32, u64) {
    let mut value = 9;
    let code = its_read_register(handle, alloc, translator, offset, 8, &mut value);
    (code, value)
}

// The code, how many stretches the next step reads, and the first.
fn needed(handle: &mut Handle, translator: u32) -> (u32, u64, u64) {
    let mut list = [StretchOut {
        address: 9,
        length: 9,
    }];
    let mut count = 9;
    let code = its_needs(handle, translator, &mut list, &mut count);
    (code, count, list[0].address)
}

// The code and the first of each list.
fn listed(handle: &mut Handle, translator: u32) -> [(u32, u64); 3] {
    let mut devices = [DeviceOut {
        device: 9,
        event_bits: 9,
        itt: 9,
    }];
    let mut events = [MappingOut {
        event: 9,
        intid: 9,
        collection: 9,
    }];
    let mut collections = [CollectionOut {
        collection: 9,
        vcpu: 9,
    }];
    let mut count = 9;
    [
        (
            its_list_devices(handle, translator, 0, &mut devices, &mut count),
            devices[0].itt,
        ),
        (
            its_list_events(handle, translator, 7, 0, &mut events, &mut count),
            u64::from(events[0].intid),
        ),
        (
            its_list_collections(handle, translator, 0, &mut collections, &mut count),
            u64::from(collections[0].vcpu),
        ),
    ]
}

// The same device of both leads to an LPI of its own.
#[test]
fn signals_of_both(rt: HostRuntime) {
    let alloc = rt.alloc();
    let mut handle = Handle::empty(alloc);
    let both = [TRANSLATORS[0], TRANSLATORS[0]];
    assert_eq!(rt; of(alloc, &mut handle, &both), (DONE, 0, 0));
    assert_eq!(rt; drive(alloc, &mut handle), 3);
    assert_eq!(rt; signalled(alloc, &mut handle, 1), (DONE, 1, 0, 0));
    assert_eq!(rt; register(alloc, &mut handle, 0, 0x88), (DONE, 0x60));
    assert_eq!(rt; register(alloc, &mut handle, 1, 0x88), (DONE, 0));
    assert_eq!(rt; drive_second(alloc, &mut handle), 3);
    assert_eq!(rt; signalled(alloc, &mut handle, 0), (DONE, 0, 1, 8192));
    assert_eq!(rt; signalled(alloc, &mut handle, 1), (DONE, 0, 0, 8193));
    assert_eq!(rt; signalled(alloc, &mut handle, 2), (RANGE, 9, 9, 9));
    let mut out = Counters::new();
    assert_eq!(rt; its_counters(&mut handle, &mut out), DONE);
    assert_eq!(rt; (out.signals.delivered, out.signals.disabled), (2, 1));
    assert_eq!(rt; its_free(&mut handle, alloc), DONE);
}

// What is asked of each, and of one that isn't there.
#[test]
fn asked_of_both(rt: HostRuntime) {
    let alloc = rt.alloc();
    let mut handle = Handle::empty(alloc);
    let both = [TRANSLATORS[0], TRANSLATORS[0]];
    assert_eq!(rt; of(alloc, &mut handle, &both), (DONE, 0, 0));
    assert_eq!(rt; drive(alloc, &mut handle), 3);
    assert_eq!(rt; drive_second(alloc, &mut handle), 3);
    assert_eq!(rt; led(&mut handle, 0), (DONE, 8192));
    assert_eq!(rt; led(&mut handle, 1), (DONE, 8193));
    assert_eq!(rt; led(&mut handle, 2), (RANGE, 9));
    let first = [(DONE, 0x800c_0000), (DONE, 8192), (DONE, 1)];
    assert_eq!(rt; listed(&mut handle, 0), first);
    let second = [(DONE, 0x800d_0000), (DONE, 8193), (DONE, 0)];
    assert_eq!(rt; listed(&mut handle, 1), second);
    let none = [(RANGE, 9), (RANGE, 9), (RANGE, 9)];
    assert_eq!(rt; listed(&mut handle, 2), none);
    its_write_register(&mut handle, alloc, 1, 0x88, 8, 0x80);
    assert_eq!(rt; needed(&mut handle, 0), (DONE, 0, 9));
    assert_eq!(rt; needed(&mut handle, 1), (DONE, 1, 0x800a_0060));
    assert_eq!(rt; needed(&mut handle, 256), (RANGE, 9, 9));
    assert_eq!(rt; its_free(&mut handle, alloc), DONE);
}

// The second isn't there, and neither are no translators nor three.
#[test]
fn one_translator(rt: HostRuntime) {
    let alloc = rt.alloc();
    let mut handle = Handle::empty(alloc);
    assert_eq!(rt; of(alloc, &mut handle, &[]), (RANGE, 0, 0));
    assert_eq!(rt; of(alloc, &mut handle, &[TRANSLATORS[0]; 3]), (RANGE, 0, 0));
    assert_eq!(rt; of(alloc, &mut handle, &TRANSLATORS), (DONE, 0, 0));
    assert_eq!(rt; drive(alloc, &mut handle), 3);
    assert_eq!(rt; signalled(alloc, &mut handle, 1), (RANGE, 9, 9, 9));
    assert_eq!(rt; register(alloc, &mut handle, 1, 0x88), (RANGE, 9));
    assert_eq!(rt;
        its_write_register(&mut handle, alloc, 1, 0x88, 8, 0),
        RANGE
    );
    assert_eq!(rt; led(&mut handle, 1), (RANGE, 9));
    assert_eq!(rt; needed(&mut handle, 1), (RANGE, 9, 9));
    let mut step = NO_STEP;
    assert_eq!(rt; its_step(&mut handle, alloc, 1, &mut step), RANGE);
    assert_eq!(rt;
        its_step_with(&mut handle, alloc, 1, &[], &[], &mut step),
        RANGE
    );
    assert_eq!(rt; step.outcome, 9);
    let mut count = 9;
    assert_eq!(rt;
        its_needs_of(&mut handle, 1, &[0; 32], &mut [], &mut count),
        RANGE
    );
    assert_eq!(rt; count, 9);
    assert_eq!(rt; its_free(&mut handle, alloc), DONE);
}
