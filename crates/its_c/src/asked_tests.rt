//! What a caller asks beside the life of a machine: writes by address, what a step needs, limits,
//! tables, pages and words.
use crate::calls::{its_dma, its_event, its_text};
use crate::handle::Handle;
use crate::making::{its_free, its_new};
use crate::memory_calls::{its_forget, its_next_page};
use crate::step_calls::{its_limit, its_needs, its_step, its_written};
use crate::tests::{FILLS, NO_STEP, NUMBERS, PENDING, TRANSLATORS, WINDOWS, drive, made};
use its_numbers::{
    DONE, DmaOut, EventOut, FAULT, FULL, HANDLE, NO_FAULT, OUTSIDE, RANGE, RequestersIn, SignalOut,
    StretchOut, TranslatorIn,
};
use std::alloc::Global;

// A machine whose frames stand at 0x9000_0000, with these requesters.
fn by_address(alloc: Global, handle: &mut Handle, requesters: &[RequestersIn]) -> (u32, u32) {
    let framed = TranslatorIn {
        has_frames: 1,
        frames: 0x9000_0000,
        ..TRANSLATORS[0]
    };
    let mut fault = NO_FAULT;
    let code = its_new(
        handle,
        alloc,
        &NUMBERS,
        &[framed],
        &WINDOWS,
        &PENDING,
        &[],
        requesters,
        &FILLS,
        &[0xa1],
        &mut fault,
    );
    (code, fault.kind)
}

fn sent(alloc: Global, handle: &mut Handle, requester: u32, address: u64) -> (u32, u32, u32, u32) {
    let none = SignalOut {
        cause: 9,
        vcpu: 9,
        intid: 9,
    };
    let mut out = DmaOut {
        outcome: 9,
        signal: none,
    };
    let code = its_dma(handle, alloc, requester, address, &[2, 0], &mut out);
    (code, out.outcome, out.signal.cause, out.signal.intid)
}

#[test]
fn writes_by_address(rt: HostRuntime) {
    let alloc = rt.alloc();
    let mut handle = Handle::empty(alloc);
    let seventh = RequestersIn {
        first: 1,
        last: 1,
        device: 7,
    };
    let codes = by_address(alloc, &mut handle, &[seventh, seventh]);
    assert_eq!(rt; codes, (FAULT, 15));
    let later = RequestersIn {
        first: 3,
        last: 9,
        device: 20,
    };
    let codes = by_address(alloc, &mut handle, &[later, seventh]);
    assert_eq!(rt; codes, (DONE, 0));
    assert_eq!(rt; drive(alloc, &mut handle), 3);
    let rows = [
        (1, 0x9001_0040, (DONE, 4, 0, 8192)),
        (2, 0x9001_0040, (DONE, 2, 0, 0)),
        (1, 0x9001_0041, (DONE, 3, 0, 0)),
        (1, 0x8fff_ffff, (DONE, 3, 0, 0)),
        (1, 0x9001_ffff, (DONE, 3, 0, 0)),
        (1, 0x9002_0000, (DONE, 1, 0, 0)),
        (1, 0x8000_0000, (DONE, 0, 0, 0)),
        (1, 0x7fff_ffff, (DONE, 1, 0, 0)),
    ];
    for (requester, address, expected) in rows {
        assert_eq!(rt; sent(alloc, &mut handle, requester, address), expected);
    }
    assert_eq!(rt; its_free(&mut handle, alloc), DONE);
    assert_eq!(rt; sent(alloc, &mut handle, 1, 0x9001_0040), (HANDLE, 9, 9, 9));
}

// The code, how many stretches, and the first two of them.
type Told = (u32, u64, [(u64, u64); 2]);

const NO_STRETCH: StretchOut = StretchOut {
    address: 0,
    length: 0,
};

fn needed(handle: &mut Handle) -> Told {
    let mut list = [NO_STRETCH; 2];
    let mut count = 0;
    let code = its_needs(handle, 0, &mut list, &mut count);
    let pairs = [
        (list[0].address, list[0].length),
        (list[1].address, list[1].length),
    ];
    (code, count, pairs)
}

// The guest's driver, where no event may be mapped at first.
#[test]
fn needs_and_limits(rt: HostRuntime) {
    let alloc = rt.alloc();
    let mut handle = Handle::empty(alloc);
    assert_eq!(rt; made(alloc, &mut handle), DONE);
    assert_eq!(rt; needed(&mut handle), (DONE, 0, [(0, 0); 2]));
    assert_eq!(rt; its_limit(&mut handle, 0), DONE);
    assert_eq!(rt; drive(alloc, &mut handle), 2);
    let command = (0x8002_0040, 32);
    assert_eq!(rt; needed(&mut handle), (DONE, 2, [command, (0x8003_0000, 1)]));
    let mut step = NO_STEP;
    assert_eq!(rt; its_step(&mut handle, alloc, 0, &mut step), FULL);
    assert_eq!(rt; (step.outcome, step.concerned[0]), (9, 0));
    assert_eq!(rt; its_limit(&mut handle, 1), DONE);
    assert_eq!(rt; its_step(&mut handle, alloc, 0, &mut step), DONE);
    assert_eq!(rt; (step.outcome, step.concerned[0] & 2), (1, 2));
    assert_eq!(rt; its_free(&mut handle, alloc), DONE);
}

fn led(handle: &mut Handle, device: u32, event: u32) -> (u32, u32, u32, u32) {
    let mut out = EventOut {
        cause: 9,
        intid: 9,
        collection: 9,
        vcpu: 9,
    };
    its_event(handle, 0, device, event, &mut out);
    (out.cause, out.intid, out.collection, out.vcpu)
}

fn page(handle: &mut Handle, from: u64) -> (u64, u64) {
    let mut out = NO_STRETCH;
    its_next_page(handle, from, &mut out);
    (out.address, out.length)
}

#[test]
fn events_tables_and_pages(rt: HostRuntime) {
    let alloc = rt.alloc();
    let mut handle = Handle::empty(alloc);
    assert_eq!(rt; made(alloc, &mut handle), DONE);
    assert_eq!(rt; drive(alloc, &mut handle), 3);
    assert_eq!(rt; led(&mut handle, 7, 2), (0, 8192, 0, 1));
    assert_eq!(rt; led(&mut handle, 7, 3), (3, 0, 0, 0));
    assert_eq!(rt; led(&mut handle, 8, 2), (2, 0, 0, 0));
    let mut list = [NO_STRETCH; 3];
    let mut count = 0;
    assert_eq!(rt;
        its_written(&mut handle, alloc, &mut list, &mut count),
        DONE
    );
    assert_eq!(rt;
        (count, list[0].address, list[0].length),
        (5, 0x8000_0000, 0x1_0000)
    );
    assert_eq!(rt; (list[2].address, list[2].length), (0x800c_0000, 128));
    assert_eq!(rt; page(&mut handle, 0x8002_0020), (0x8002_0020, 0xffe0));
    assert_eq!(rt; its_forget(&mut handle, 0x8002_0000, 0x1_0000), DONE);
    assert_eq!(rt; page(&mut handle, 0x8002_0000), (0x8003_0000, 0x1_0000));
    assert_eq!(rt; page(&mut handle, 0x8004_0000), (0, 0));
    assert_eq!(rt; its_forget(&mut handle, 0x8002_0000, 0x100_0000), OUTSIDE);
    assert_eq!(rt; its_free(&mut handle, alloc), DONE);
}

fn said(list: u32, number: u32) -> (u32, [u8; 4], u64) {
    let mut buffer = [b'-'; 4];
    let mut count = 0;
    let code = its_text(list, number, &mut buffer, &mut count);
    (code, buffer, count)
}

#[test]
fn words_of_numbers(rt: HostRuntime) {
    assert_eq!(rt; said(1, 0), (DONE, *b"done", 4));
    assert_eq!(rt; said(2, 10), (DONE, *b"doub", 17));
    assert_eq!(rt; said(3, 3), (DONE, *b"over", 7));
    assert_eq!(rt; said(4, 5), (DONE, *b"itt-", 3));
    assert_eq!(rt; said(5, 5), (DONE, *b"lpis", 8));
    assert_eq!(rt; said(6, 0), (RANGE, *b"----", 0));
    assert_eq!(rt; said(7, 1), (DONE, *b"ran-", 3));
    assert_eq!(rt; said(8, 3), (RANGE, *b"----", 0));
    assert_eq!(rt; said(9, 1), (RANGE, *b"----", 0));
}
