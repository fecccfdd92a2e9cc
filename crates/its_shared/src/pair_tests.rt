//! Two translators of one machine, which have a device of the same number, through two passes.
use crate::count_calls::{its_pass_counters, its_pass_routes_changed};
use crate::look_calls::{
    its_pass_event, its_pass_list_collections, its_pass_list_devices, its_pass_list_events,
    its_pass_needs,
};
use crate::making::{its_pass_free, its_split};
use crate::message_calls::{its_pass_dma, its_pass_signal};
use crate::pass::Pass;
use crate::register_calls::{its_pass_read_register, its_pass_write_register};
use crate::step_calls::{its_pass_read_memory, its_pass_save, its_pass_step};
use crate::tests::{
    Driver, NO_SAVE_FAULT, NO_SIGNAL, NUMBERS, TRANSLATOR, drive, drive_by, shared, shared_from,
    signalled_to, taken,
};
use its_numbers::{
    CollectionOut, Counters, DONE, DescriptionIn, DeviceOut, DmaOut, EventOut, FillIn, MappingOut,
    RANGE, StepOut, StretchOut, TranslatorIn,
};
use std::alloc::Global;

// MAPD 7 with 4 bits, MAPC 0 to processor 0, MAPTI 7 2 to LPI 8193.
const SECOND: Driver = Driver {
    translator: 1,
    queue: 0x8008_0000,
    commands: [
        0x7_0000_0008,
        3,
        0x8000_0000_8009_0000,
        0,
        9,
        0,
        0x8000_0000_0000_0000,
        0,
        0x7_0000_000a,
        0x2001_0000_0002,
        0,
        0,
    ],
    registers: [
        (0x100, 8, 0x8107_0000_8006_0200),
        (0x108, 8, 0x8407_0000_8007_0200),
        (0x80, 8, 0x8000_0000_8008_0000),
        (0x0, 4, 1),
        (0x88, 8, 0x60),
    ],
};

// LPIs 8192 and 8193 have priority 0xa0 and are enabled.
const FILLS: [FillIn; 1] = [FillIn {
    address: 0x8003_0000,
    length: 2,
}];

const NO_STEP: StepOut = StepOut {
    outcome: 9,
    op: 9,
    reason: 9,
    address: 9,
    concerned: [9; 8],
};

// A machine whose translators may map one event and one device each, and the code of making it.
fn paired(alloc: Global, root: &mut Pass) -> u32 {
    let numbers = DescriptionIn {
        event_limit: 1,
        device_limit: 1,
        ..NUMBERS
    };
    let second = TranslatorIn {
        frames: 0x080a_0000,
        ..TRANSLATOR
    };
    shared_from(
        alloc,
        root,
        &numbers,
        &[TRANSLATOR, second],
        &FILLS,
        &[0xa1; 2],
    )
}

// The code, the place, the INTID and the virtual processor of event 2 of device 7.
fn led(pass: &mut Pass, translator: u32) -> (u32, u64, u32, u32) {
    let mut out = EventOut {
        cause: 9,
        intid: 9,
        collection: 9,
        vcpu: 9,
    };
    let mut place = 99;
    let code = its_pass_event(pass, translator, 7, 2, &mut place, &mut out);
    (code, place, out.intid, out.vcpu)
}

// The code, and the ITT of the first device, the INTID of its first event, and the target of the
// first collection.
fn listed(pass: &mut Pass, translator: u32) -> (u32, u64, u32, u32) {
    let (mut place, mut count) = (0, 0);
    let mut devices = [DeviceOut {
        device: 9,
        event_bits: 9,
        itt: 9,
    }];
    let mut events = [MappingOut {
        event: 9,
        intid: 9,
        collection: 9,
    }];
    let mut collections = [CollectionOut {
        collection: 9,
        vcpu: 9,
    }];
    let mut code = its_pass_list_devices(pass, translator, 0, &mut place, &mut devices, &mut count);
    code |= its_pass_list_events(pass, translator, 7, 0, &mut place, &mut events, &mut count);
    code |= its_pass_list_collections(
        pass,
        translator,
        0,
        &mut place,
        &mut collections,
        &mut count,
    );
    (code, devices[0].itt, events[0].intid, collections[0].vcpu)
}

// The code and the value of a register.
fn read(pass: &mut Pass, translator: u32, offset: u32) -> (u32, u64) {
    let (mut place, mut value) = (0, 9);
    let code = its_pass_read_register(pass, translator, offset, 8, &mut place, &mut value);
    (code, value)
}

// A write of event 2 of device 7 to the doorbell of a translator whose frames stand there: the
// INTID.
fn written(pass: &mut Pass, frames: u64) -> u32 {
    let mut place = 0;
    let mut out = DmaOut {
        outcome: 9,
        signal: NO_SIGNAL,
    };
    let doorbell = frames.wrapping_add(0x1_0040);
    its_pass_dma(pass, 7, doorbell, &[2, 0, 0, 0], &mut place, &mut out);
    out.signal.intid
}

// How many messages were delivered, and what may have ended a translation.
fn counted(pass: &mut Pass) -> (u64, u64) {
    let (mut counters, mut routes) = (Counters::new(), 0);
    its_pass_counters(pass, &mut counters);
    its_pass_routes_changed(pass, &mut routes);
    (counters.signals.delivered, routes)
}

#[test]
fn one_device_leads_to_two_lpis(rt: HostRuntime) {
    let alloc = rt.alloc();
    let (mut root, mut pass) = (Pass::empty(alloc), Pass::empty(alloc));
    assert_eq!(rt; paired(alloc, &mut root), DONE);
    assert_eq!(rt; its_split(&mut root, alloc, &mut pass), DONE);
    assert_eq!(rt; drive(&mut root), (3, 20));
    assert_eq!(rt; signalled_to(&mut root, 1), (DONE, 1, 0));
    assert_eq!(rt; read(&mut root, 1, 0x90), (DONE, 0));
    assert_eq!(rt; drive_by(&mut pass, &SECOND), (3, 43));
    assert_eq!(rt; read(&mut root, 1, 0x80), (DONE, 0x8000_0000_8008_0000));
    assert_eq!(rt; read(&mut pass, 0, 0x80), (DONE, 0x8000_0000_8002_0000));
    assert_eq!(rt; led(&mut pass, 0), (DONE, 46, 8192, 1));
    assert_eq!(rt; led(&mut root, 1), (DONE, 46, 8193, 0));
    assert_eq!(rt; listed(&mut root, 0), (DONE, 0x800c_0000, 8192, 1));
    assert_eq!(rt; listed(&mut pass, 1), (DONE, 0x8009_0000, 8193, 0));
    assert_eq!(rt; signalled_to(&mut pass, 0), (DONE, 0, 8192));
    assert_eq!(rt; signalled_to(&mut pass, 1), (DONE, 0, 8193));
    assert_eq!(rt; taken(&mut root, 1), (DONE, 8192, 0xa0));
    assert_eq!(rt; taken(&mut root, 0), (DONE, 8193, 0xa0));
    assert_eq!(rt; written(&mut pass, 0x0808_0000), 8192);
    assert_eq!(rt; written(&mut pass, 0x080a_0000), 8193);
    assert_eq!(rt; its_pass_free(&mut root, alloc), DONE);
    assert_eq!(rt; its_pass_free(&mut pass, alloc), DONE);
}

// One pass drives and signals both: what it counts is of both, and a save writes the tables of
// both.
#[test]
fn one_pass_over_both(rt: HostRuntime) {
    let alloc = rt.alloc();
    let mut root = Pass::empty(alloc);
    assert_eq!(rt; paired(alloc, &mut root), DONE);
    assert_eq!(rt; drive(&mut root), (3, 20));
    assert_eq!(rt; counted(&mut root), (0, 5));
    assert_eq!(rt; drive_by(&mut root, &SECOND), (3, 41));
    assert_eq!(rt; counted(&mut root), (0, 10));
    for translator in 0..2u32 {
        assert_eq!(rt; signalled_to(&mut root, translator).1, 0);
    }
    assert_eq!(rt; counted(&mut root), (2, 10));
    let (mut place, mut fault) = (0, NO_SAVE_FAULT);
    assert_eq!(rt;
        its_pass_save(&mut root, alloc, &mut place, &mut fault),
        DONE
    );
    assert_eq!(rt; place, 44);
    for (itt, entry) in [(0x800c_0010, 0x2000_0000), (0x8009_0010, 0x2001_0000)] {
        let mut bytes = [0; 8];
        its_pass_read_memory(&mut root, itt, &mut bytes, &mut place);
        assert_eq!(rt; u64::from_le_bytes(bytes), entry);
    }
    assert_eq!(rt; its_pass_free(&mut root, alloc), DONE);
}

// The codes of each call that asks a translator, with no translator of this number, which tells
// and counts nothing.
fn refused(alloc: Global, pass: &mut Pass, translator: u32) -> ([u32; 6], u64) {
    let (mut place, mut count, mut value) = (77, 0, 0);
    let (mut signal, mut step) = (NO_SIGNAL, NO_STEP);
    let mut stretches = [StretchOut {
        address: 9,
        length: 9,
    }];
    let codes = [
        its_pass_signal(pass, translator, 7, 2, &mut place, &mut signal),
        its_pass_step(pass, translator, &mut place, &mut step),
        its_pass_read_register(pass, translator, 0, 4, &mut place, &mut value),
        its_pass_write_register(pass, translator, 0x100, 8, 0, &mut place),
        its_pass_needs(
            pass,
            alloc,
            translator,
            &mut place,
            &mut stretches,
            &mut count,
        ),
        its_pass_event(
            pass,
            translator,
            7,
            2,
            &mut place,
            &mut EventOut {
                cause: 9,
                intid: 9,
                collection: 9,
                vcpu: 9,
            },
        ),
    ];
    (codes, place)
}

#[test]
fn translators_that_are_not_there(rt: HostRuntime) {
    let alloc = rt.alloc();
    let (mut one, mut two) = (Pass::empty(alloc), Pass::empty(alloc));
    assert_eq!(rt; shared(alloc, &mut one), DONE);
    assert_eq!(rt; paired(alloc, &mut two), DONE);
    assert_eq!(rt; refused(alloc, &mut one, 1), ([RANGE; 6], 77));
    assert_eq!(rt; refused(alloc, &mut two, 2), ([RANGE; 6], 77));
    assert_eq!(rt; refused(alloc, &mut two, 256), ([RANGE; 6], 77));
    assert_eq!(rt; listed(&mut one, 1), (RANGE, 9, 9, 9));
    assert_eq!(rt; counted(&mut two), (0, 0));
    assert_eq!(rt; drive(&mut two), (3, 20));
    assert_eq!(rt; its_pass_free(&mut one, alloc), DONE);
    assert_eq!(rt; its_pass_free(&mut two, alloc), DONE);
    let none = shared_from(alloc, &mut one, &NUMBERS, &[], &FILLS, &[0xa1; 2]);
    let three = shared_from(
        alloc,
        &mut one,
        &NUMBERS,
        &[TRANSLATOR; 3],
        &FILLS,
        &[0xa1; 2],
    );
    assert_eq!(rt; (none, three), (RANGE, RANGE));
}
