//! Restores, saves, limits and frames of two translators.
use crate::calls::{its_dma, its_write_register};
use crate::handle::Handle;
use crate::making::its_free;
use crate::memory_calls::its_write_memory;
use crate::pair_tests::{NO_SIGNAL, drive_second, made, of, signalled};
use crate::step_calls::{its_save, its_step};
use crate::tests::{FILLS, NO_SAVE_FAULT, NO_STEP, NUMBERS, TRANSLATORS, drive};
use crate::window_calls::its_add_window;
use its_numbers::{
    DONE, DescriptionIn, DmaOut, FAULT, FULL, FillIn, HANDLE, NO_FAULT, TranslatorIn,
};
use std::alloc::Global;

// Its frames stand here.
fn framed(frames: u64) -> TranslatorIn {
    TranslatorIn {
        has_frames: 1,
        frames,
        ..TRANSLATORS[0]
    }
}

// Where the entries of device 7 and of collection 0 are, and that of event 2, of both.
const ENTRIES: [FillIn; 6] = [
    FillIn {
        address: 0x8000_0038,
        length: 8,
    },
    FillIn {
        address: 0x8001_0000,
        length: 8,
    },
    FillIn {
        address: 0x800c_0010,
        length: 8,
    },
    FillIn {
        address: 0x8008_0038,
        length: 8,
    },
    FillIn {
        address: 0x8009_0000,
        length: 8,
    },
    FillIn {
        address: 0x800d_0010,
        length: 8,
    },
];

// In the format of KVM's tables: what both drivers map, but for the processors.
fn saved(first: u8, second: u8) -> [u8; 48] {
    [
        0x03, 0x80, 0x01, 0x10, 0, 0, 0, 0x80, 0, 0, first, 0, 0, 0, 0, 0x80, 0, 0, 0, 0x20, 0, 0,
        0, 0, 0x03, 0xa0, 0x01, 0x10, 0, 0, 0, 0x80, 0, 0, second, 0, 0, 0, 0, 0x80, 0, 0, 0x01,
        0x20, 0, 0, 0, 0,
    ]
}

// The registers of both, as they are saved.
const GIVEN: [TranslatorIn; 2] = [
    TranslatorIn {
        has_frames: 0,
        frames: 0,
        ctlr: 1,
        cbaser: 0x8000_0000_8002_0000,
        creadr: 0x60,
        cwriter: 0x60,
        baser0: 0x8107_0000_8000_0200,
        baser1: 0x8407_0000_8001_0200,
    },
    TranslatorIn {
        has_frames: 0,
        frames: 0,
        ctlr: 1,
        cbaser: 0x8000_0000_800a_0000,
        creadr: 0x60,
        cwriter: 0x60,
        baser0: 0x8107_0000_8008_0200,
        baser1: 0x8407_0000_8009_0200,
    },
];

// What a restore answers that may map so many events, where the collections go to these processors;
// and what freeing the handle does then.
fn restored(alloc: Global, events: u64, first: u8, second: u8) -> ((u32, u32, u32), u32) {
    let numbers = DescriptionIn {
        restored: 1,
        event_limit: events,
        ..NUMBERS
    };
    let mut handle = Handle::empty(alloc);
    let told = made(
        alloc,
        &mut handle,
        &numbers,
        &GIVEN,
        &ENTRIES,
        &saved(first, second),
    );
    (told, its_free(&mut handle, alloc))
}

#[test]
fn restores_of_both(rt: HostRuntime) {
    let alloc = rt.alloc();
    let numbers = DescriptionIn {
        restored: 1,
        ..NUMBERS
    };
    let mut handle = Handle::empty(alloc);
    let told = made(alloc, &mut handle, &numbers, &GIVEN, &ENTRIES, &saved(1, 0));
    assert_eq!(rt; told, (DONE, 0, 0));
    assert_eq!(rt; signalled(alloc, &mut handle, 0), (DONE, 0, 1, 8192));
    assert_eq!(rt; signalled(alloc, &mut handle, 1), (DONE, 0, 0, 8193));
    assert_eq!(rt; its_free(&mut handle, alloc), DONE);
    let none = u64::MAX;
    assert_eq!(rt; restored(alloc, none, 1, 2), ((FAULT, 9, 1), HANDLE));
    assert_eq!(rt; restored(alloc, none, 2, 2), ((FAULT, 9, 0), HANDLE));
}

// Each may map one event, and both map two together.
#[test]
fn limits_of_each(rt: HostRuntime) {
    let alloc = rt.alloc();
    assert_eq!(rt; restored(alloc, 1, 1, 0), ((DONE, 0, 0), DONE));
    assert_eq!(rt; restored(alloc, 0, 1, 0), ((FULL, 0, 0), HANDLE));
    let numbers = DescriptionIn {
        event_limit: 1,
        device_limit: 1,
        ..NUMBERS
    };
    let mut handle = Handle::empty(alloc);
    let both = [TRANSLATORS[0], TRANSLATORS[0]];
    let told = made(alloc, &mut handle, &numbers, &both, &FILLS, &[0xa1]);
    assert_eq!(rt; told, (DONE, 0, 0));
    assert_eq!(rt; drive(alloc, &mut handle), 3);
    assert_eq!(rt; drive_second(alloc, &mut handle), 3);
    let more: [u64; 4] = [0x7_0000_000a, 0x2002_0000_0003, 0, 0];
    let mut at = 0x800a_0060;
    for word in &more {
        its_write_memory(&mut handle, alloc, at, &word.to_le_bytes());
        at = at.wrapping_add(8);
    }
    its_write_register(&mut handle, alloc, 1, 0x88, 8, 0x80);
    let mut step = NO_STEP;
    assert_eq!(rt; its_step(&mut handle, alloc, 1, &mut step), FULL);
    assert_eq!(rt; its_step(&mut handle, alloc, 0, &mut step), DONE);
    assert_eq!(rt; its_free(&mut handle, alloc), DONE);
}

// The code, of a fault its kind, and the translator and the region of each region.
fn saved_as(alloc: Global, handle: &mut Handle) -> (u32, u32, (u32, u32), (u32, u32)) {
    let mut fault = NO_SAVE_FAULT;
    let code = its_save(handle, alloc, &mut fault);
    (
        code,
        fault.kind,
        (fault.translator, fault.region),
        (fault.other_translator, fault.other_region),
    )
}

// The second's collection table lies in no window, and then where the first's does.
#[test]
fn saves_of_both(rt: HostRuntime) {
    let alloc = rt.alloc();
    let mut handle = Handle::empty(alloc);
    let both = [TRANSLATORS[0], TRANSLATORS[0]];
    assert_eq!(rt; of(alloc, &mut handle, &both), (DONE, 0, 0));
    assert_eq!(rt; drive(alloc, &mut handle), 3);
    assert_eq!(rt; saved_as(alloc, &mut handle), (DONE, 0, (0, 0), (0, 0)));
    its_write_register(&mut handle, alloc, 1, 0x108, 8, 0x8407_0000_9000_0200);
    assert_eq!(rt; saved_as(alloc, &mut handle), (FAULT, 2, (1, 4), (0, 0)));
    its_write_register(&mut handle, alloc, 1, 0x108, 8, 0x8407_0000_8001_0200);
    assert_eq!(rt; saved_as(alloc, &mut handle), (FAULT, 3, (0, 4), (1, 4)));
    assert_eq!(rt; its_free(&mut handle, alloc), DONE);
}

// Where frames may stand, and whose doorbell a write meets.
#[test]
fn frames_of_both(rt: HostRuntime) {
    let alloc = rt.alloc();
    let mut handle = Handle::empty(alloc);
    let first = framed(0x9000_0000);
    let rows = [
        ([first, framed(0x8010_0000)], (FAULT, 14, 1)),
        ([first, first], (FAULT, 14, 0)),
        ([first, framed(0x9100_0000)], (DONE, 0, 0)),
    ];
    for (translators, told) in rows {
        assert_eq!(rt; of(alloc, &mut handle, &translators), told);
    }
    assert_eq!(rt; drive_second(alloc, &mut handle), 3);
    let mut out = DmaOut {
        outcome: 9,
        signal: NO_SIGNAL,
    };
    assert_eq!(rt;
        its_dma(&mut handle, alloc, 1, 0x9101_0040, &[2, 0], &mut out),
        DONE
    );
    assert_eq!(rt; (out.outcome, out.signal.intid), (4, 8193));
    let mut fault = NO_FAULT;
    assert_eq!(rt;
        its_add_window(&mut handle, alloc, 0x9101_ffff, 1, &mut fault),
        FAULT
    );
    assert_eq!(rt; (fault.kind, fault.translator), (14, 1));
    assert_eq!(rt; its_free(&mut handle, alloc), DONE);
}
