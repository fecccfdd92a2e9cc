//! Limits of what is mapped: at each, one past it, and at a restore; and a step on lent bytes.
use crate::calls::{its_dma, its_signal, its_write_register};
use crate::handle::Handle;
use crate::making::{its_free, its_new};
use crate::memory_calls::{its_forget, its_next_page, its_read_memory, its_write_memory};
use crate::step_calls::{
    its_limits, its_migrate, its_needs_of, its_routes_changed, its_save, its_step, its_step_with,
};
use crate::tests::{FILLS, NO_SAVE_FAULT, NO_STEP, NUMBERS, PENDING, TRANSLATORS, WINDOWS, drive};
use its_numbers::{
    DONE, DescriptionIn, DmaOut, FULL, FillIn, HANDLE, NO_FAULT, OUTSIDE, RANGE, SignalOut,
    StretchOut, TranslatorIn,
};
use std::alloc::Global;

const NONE: u64 = u64::MAX;

const NO_DMA: DmaOut = DmaOut {
    outcome: 9,
    signal: SignalOut {
        cause: 9,
        vcpu: 9,
        intid: 9,
    },
};

fn made(
    alloc: Global,
    handle: &mut Handle,
    numbers: &DescriptionIn,
    fills: &[FillIn],
    bytes: &[u8],
) -> u32 {
    made_with(alloc, handle, numbers, &TRANSLATORS, fills, bytes)
}

fn made_with(
    alloc: Global,
    handle: &mut Handle,
    numbers: &DescriptionIn,
    translators: &[TranslatorIn],
    fills: &[FillIn],
    bytes: &[u8],
) -> u32 {
    let mut fault = NO_FAULT;
    its_new(
        handle,
        alloc,
        numbers,
        translators,
        &WINDOWS,
        &PENDING,
        &[],
        &[],
        fills,
        bytes,
        &mut fault,
    )
}

fn limited(events: u64, devices: u64) -> DescriptionIn {
    DescriptionIn {
        event_limit: events,
        device_limit: devices,
        ..NUMBERS
    }
}

// How many of the driver's MAPD, MAPC and MAPTI run, and what the next step answers.
fn ran(alloc: Global, events: u64, devices: u64) -> (u32, u32) {
    let mut handle = Handle::empty(alloc);
    made(
        alloc,
        &mut handle,
        &limited(events, devices),
        &FILLS,
        &[0xa1],
    );
    let count = drive(alloc, &mut handle);
    let mut step = NO_STEP;
    let next = its_step(&mut handle, alloc, 0, &mut step);
    its_free(&mut handle, alloc);
    (count, next)
}

#[test]
fn commands(rt: HostRuntime) {
    let alloc = rt.alloc();
    assert_eq!(rt; ran(alloc, NONE, NONE), (3, DONE));
    assert_eq!(rt; ran(alloc, 1, 1), (3, DONE));
    assert_eq!(rt; ran(alloc, 0, 1), (2, FULL));
    assert_eq!(rt; ran(alloc, 0, NONE), (2, FULL));
    assert_eq!(rt; ran(alloc, 1, 0), (0, FULL));
    assert_eq!(rt; ran(alloc, NONE, 0), (0, FULL));
}

// A limit below what is mapped keeps it, and a later one lets the command pass.
#[test]
fn limits_that_change(rt: HostRuntime) {
    let alloc = rt.alloc();
    let mut handle = Handle::empty(alloc);
    assert_eq!(rt; its_limits(&mut handle, 0, 0, NONE), HANDLE);
    assert_eq!(rt;
        made(alloc, &mut handle, &limited(0, 1), &FILLS, &[0xa1]),
        DONE
    );
    assert_eq!(rt; drive(alloc, &mut handle), 2);
    assert_eq!(rt; its_limits(&mut handle, 1, 0, NONE), DONE);
    let mut step = NO_STEP;
    assert_eq!(rt; its_step(&mut handle, alloc, 0, &mut step), DONE);
    assert_eq!(rt; step.outcome, 1);
    assert_eq!(rt; its_free(&mut handle, alloc), DONE);
}

// What a new machine answers, whose fill is in one page.
fn filled(alloc: Global, memory: u64) -> (u32, u32) {
    let numbers = DescriptionIn {
        memory_limit: memory,
        ..NUMBERS
    };
    let mut handle = Handle::empty(alloc);
    let code = made(alloc, &mut handle, &numbers, &FILLS, &[0xa1]);
    (code, its_free(&mut handle, alloc))
}

fn written(alloc: Global, handle: &mut Handle, address: u64) -> u32 {
    its_write_memory(handle, alloc, address, &[1])
}

// A page of 64 KiB is held by the fill at 0x8003_0000. Bytes that aren't in a page that is held
// may be counted as one page more.
#[test]
fn memory(rt: HostRuntime) {
    let alloc = rt.alloc();
    assert_eq!(rt; filled(alloc, 0xffff), (FULL, HANDLE));
    assert_eq!(rt; filled(alloc, 0x1_0000), (DONE, DONE));
    let mut handle = Handle::empty(alloc);
    assert_eq!(rt; made(alloc, &mut handle, &NUMBERS, &FILLS, &[0xa1]), DONE);
    assert_eq!(rt; its_limits(&mut handle, NONE, NONE, 0x3_0000), DONE);
    assert_eq!(rt; written(alloc, &mut handle, 0x8000_0000), DONE);
    assert_eq!(rt; written(alloc, &mut handle, 0x8000_ffff), DONE);
    assert_eq!(rt; written(alloc, &mut handle, 0x8001_0000), FULL);
    assert_eq!(rt; written(alloc, &mut handle, 0x8020_0000), OUTSIDE);
    let mut out = NO_DMA;
    assert_eq!(rt;
        its_dma(&mut handle, alloc, 1, 0x8001_0000, &[1], &mut out),
        FULL
    );
    assert_eq!(rt;
        its_dma(&mut handle, alloc, 1, 0x8003_0000, &[1], &mut out),
        DONE
    );
    assert_eq!(rt; its_forget(&mut handle, 0x8000_0000, 0x1_0000), DONE);
    assert_eq!(rt; written(alloc, &mut handle, 0x8001_0000), DONE);
    assert_eq!(rt; written(alloc, &mut handle, 0x8000_0000), FULL);
    let mut fault = NO_SAVE_FAULT;
    assert_eq!(rt; drive(alloc, &mut handle), 0);
    assert_eq!(rt; its_save(&mut handle, alloc, &mut fault), FULL);
    assert_eq!(rt; its_migrate(&mut handle, alloc, &mut fault), FULL);
    assert_eq!(rt; its_limits(&mut handle, NONE, NONE, NONE), DONE);
    assert_eq!(rt; its_save(&mut handle, alloc, &mut fault), DONE);
    assert_eq!(rt; its_free(&mut handle, alloc), DONE);
}

// Where the entries of device 7 and of collection 0 are, and that of event 2 of the device.
const ENTRIES: [FillIn; 3] = [
    FillIn {
        address: 0x8000_0038,
        length: 8,
    },
    FillIn {
        address: 0x8001_0000,
        length: 8,
    },
    FillIn {
        address: 0x800c_0010,
        length: 8,
    },
];

// In the format of KVM's tables: an ITT at 0x800c_0000 for 4 bits, processor 1, LPI 8192.
const SAVED: [u8; 24] = [
    0x03, 0x80, 0x01, 0x10, 0, 0, 0, 0x80, 0, 0, 0x01, 0, 0, 0, 0, 0x80, 0, 0, 0, 0x20, 0, 0, 0, 0,
];

// What a restore of one device with one event answers, and what freeing the handle does then.
fn restored(alloc: Global, events: u64, devices: u64) -> (u32, u32, u32) {
    let numbers = DescriptionIn {
        restored: 1,
        ..limited(events, devices)
    };
    let given = TranslatorIn {
        ctlr: 1,
        cbaser: 0x8000_0000_8002_0000,
        creadr: 0x60,
        cwriter: 0x60,
        baser0: 0x8107_0000_8000_0200,
        baser1: 0x8407_0000_8001_0200,
        ..TRANSLATORS[0]
    };
    let mut handle = Handle::empty(alloc);
    let code = made_with(alloc, &mut handle, &numbers, &[given], &ENTRIES, &SAVED);
    let mut out = SignalOut {
        cause: 9,
        vcpu: 9,
        intid: 9,
    };
    its_signal(&mut handle, alloc, 0, 7, 2, &mut out);
    (code, out.intid, its_free(&mut handle, alloc))
}

#[test]
fn restores(rt: HostRuntime) {
    let alloc = rt.alloc();
    assert_eq!(rt; restored(alloc, NONE, NONE), (DONE, 8192, DONE));
    assert_eq!(rt; restored(alloc, 1, 1), (DONE, 8192, DONE));
    assert_eq!(rt; restored(alloc, 0, 1), (FULL, 9, HANDLE));
    assert_eq!(rt; restored(alloc, 1, 0), (FULL, 9, HANDLE));
    assert_eq!(rt; restored(alloc, 0, NONE), (FULL, 9, HANDLE));
}

// After the driver's: MAPTI 7 3 to LPI 8193, and its byte of the configuration table.
const LENT: [StretchOut; 2] = [
    StretchOut {
        address: 0x8002_0060,
        length: 32,
    },
    StretchOut {
        address: 0x8003_0001,
        length: 1,
    },
];

const LENT_BYTES: [u8; 33] = [
    0x0a, 0, 0, 0, 7, 0, 0, 0, 3, 0, 0, 0, 0x01, 0x20, 0, 0, 0, 0, 0, 0, 0, 0, 0, 0, 0, 0, 0, 0, 0,
    0, 0, 0, 0xb1,
];

// The bytes of the command are lent, which guest memory hasn't; afterwards it hasn't them either.
#[test]
fn lent_bytes(rt: HostRuntime) {
    let alloc = rt.alloc();
    let mut handle = Handle::empty(alloc);
    let mut step = NO_STEP;
    assert_eq!(rt;
        its_step_with(&mut handle, alloc, 0, &LENT, &LENT_BYTES, &mut step),
        HANDLE
    );
    assert_eq!(rt;
        made(alloc, &mut handle, &limited(NONE, NONE), &FILLS, &[0xa1]),
        DONE
    );
    assert_eq!(rt; drive(alloc, &mut handle), 3);
    assert_eq!(rt;
        its_write_register(&mut handle, alloc, 0, 0x88, 8, 0x80),
        DONE
    );
    assert_eq!(rt; its_forget(&mut handle, 0x8000_0000, 0x20_0000), DONE);
    let command = LENT_BYTES.as_slice().split_at(32).0;
    let mut list = [LENT[1], LENT[0]];
    let mut count = 9;
    assert_eq!(rt;
        its_needs_of(&mut handle, 0, &[0; 31], &mut list, &mut count),
        RANGE
    );
    assert_eq!(rt;
        its_needs_of(&mut handle, 0, command, &mut list, &mut count),
        DONE
    );
    assert_eq!(rt;
        (count, list[0].address, list[1].address),
        (2, 0x8002_0060, 0x8003_0001)
    );
    assert_eq!(rt;
        its_step_with(&mut handle, alloc, 0, &LENT, &[0; 32], &mut step),
        RANGE
    );
    assert_eq!(rt; its_limits(&mut handle, 1, NONE, NONE), DONE);
    assert_eq!(rt;
        its_step_with(&mut handle, alloc, 0, &LENT, &LENT_BYTES, &mut step),
        FULL
    );
    assert_eq!(rt; step.outcome, 9);
    assert_eq!(rt; its_limits(&mut handle, 2, NONE, NONE), DONE);
    assert_eq!(rt;
        its_step_with(&mut handle, alloc, 0, &LENT, &LENT_BYTES, &mut step),
        DONE
    );
    assert_eq!(rt;
        (step.outcome, step.op, step.concerned[0] & 2),
        (1, 0x0a, 2)
    );
    let mut bytes = [9; 32];
    assert_eq!(rt; its_read_memory(&mut handle, 0x8002_0060, &mut bytes), DONE);
    assert_eq!(rt; bytes, [0; 32]);
    let mut page = StretchOut {
        address: 9,
        length: 9,
    };
    assert_eq!(rt; its_next_page(&mut handle, 0, &mut page), DONE);
    assert_eq!(rt; (page.address, page.length), (0, 0));
    assert_eq!(rt; its_free(&mut handle, alloc), DONE);
}

fn routes(handle: &mut Handle) -> (u32, u64) {
    let mut count = 9;
    let code = its_routes_changed(handle, &mut count);
    (code, count)
}

// The tables' registers and three commands raise the count; the queue's registers, an idle step, a
// signal and a save don't, and a migration does.
#[test]
fn routes_that_may_have_changed(rt: HostRuntime) {
    let alloc = rt.alloc();
    let mut handle = Handle::empty(alloc);
    assert_eq!(rt; routes(&mut handle), (HANDLE, 9));
    assert_eq!(rt; made(alloc, &mut handle, &NUMBERS, &FILLS, &[0xa1]), DONE);
    assert_eq!(rt; routes(&mut handle), (DONE, 0));
    assert_eq!(rt; drive(alloc, &mut handle), 3);
    assert_eq!(rt; routes(&mut handle), (DONE, 5));
    let mut out = NO_DMA;
    its_signal(&mut handle, alloc, 0, 7, 2, &mut out.signal);
    let mut fault = NO_SAVE_FAULT;
    assert_eq!(rt; its_save(&mut handle, alloc, &mut fault), DONE);
    assert_eq!(rt; routes(&mut handle), (DONE, 5));
    assert_eq!(rt; its_migrate(&mut handle, alloc, &mut fault), DONE);
    assert_eq!(rt; routes(&mut handle), (DONE, 6));
    assert_eq!(rt; its_free(&mut handle, alloc), DONE);
}
