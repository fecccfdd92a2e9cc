//! Two passes of one machine, each call once: made, split, driven, signalled, saved, freed.
use crate::ack_calls::{its_pass_best, its_pass_claim, its_pass_show, its_pass_take};
use crate::making::{its_pass_free, its_share, its_split};
use crate::message_calls::{its_pass_dma, its_pass_signal};
use crate::pass::Pass;
use crate::register_calls::{
    its_pass_read_lpi_register, its_pass_read_register, its_pass_write_lpi_register,
    its_pass_write_register,
};
use crate::step_calls::{
    its_pass_read_memory, its_pass_save, its_pass_step, its_pass_write_memory,
};
use its_numbers::{
    AckOut, DONE, DescriptionIn, DmaOut, FillIn, HANDLE, NO_FAULT, OUTSIDE, RANGE, RequestersIn,
    SaveFaultOut, SignalOut, StepOut, TranslatorIn, WindowIn,
};
use std::alloc::Global;

/// A machine of two processors, whose tables are described.
pub const NUMBERS: DescriptionIn = DescriptionIn {
    vcpus: 2,
    device_bits: 16,
    lpi_bits: 16,
    profile: 1,
    programmed: 0,
    restored: 0,
    linux_guest: 0,
    config: 0x8003_0000,
    event_limit: u64::MAX,
    device_limit: u64::MAX,
    memory_limit: u64::MAX,
};

/// A translator at reset, to which devices write by address.
pub const TRANSLATOR: TranslatorIn = TranslatorIn {
    has_frames: 1,
    frames: 0x0808_0000,
    ctlr: 0,
    cbaser: 0,
    creadr: 0,
    cwriter: 0,
    baser0: 0,
    baser1: 0,
};

// 2 MiB.
const WINDOWS: [WindowIn; 1] = [WindowIn {
    base: 0x8000_0000,
    length: 0x20_0000,
}];

// Its pending tables.
const PENDING: [u64; 2] = [0x8004_0000, 0x8005_0000];

// Requester 7 is device 7.
const REQUESTERS: [RequestersIn; 1] = [RequestersIn {
    first: 7,
    last: 7,
    device: 7,
}];

/// LPI 8192 has priority 0xa0 and is enabled.
pub const FILLS: [FillIn; 1] = [FillIn {
    address: 0x8003_0000,
    length: 1,
}];

/// What the guest's driver of a translator writes: its queue, and its registers.
pub struct Driver {
    /// The number of the translator.
    pub translator: u32,
    /// Where its queue is.
    pub queue: u64,
    /// Three commands.
    pub commands: [u64; 12],
    /// Offsets, sizes and values of both tables, the queue, the enabling, and the queue's end.
    pub registers: [(u32, u32, u64); 5],
}

// MAPD 7 with 4 bits, MAPC 0 to processor 1, MAPTI 7 2 to LPI 8192.
const FIRST: Driver = Driver {
    translator: 0,
    queue: 0x8002_0000,
    commands: [
        0x7_0000_0008,
        3,
        0x8000_0000_800c_0000,
        0,
        9,
        0,
        0x8000_0000_0001_0000,
        0,
        0x7_0000_000a,
        0x2000_0000_0002,
        0,
        0,
    ],
    registers: [
        (0x100, 8, 0x8107_0000_8000_0200),
        (0x108, 8, 0x8407_0000_8001_0200),
        (0x80, 8, 0x8000_0000_8002_0000),
        (0x0, 4, 1),
        (0x88, 8, 0x60),
    ],
};

const NO_ACK: AckOut = AckOut {
    intid: 0,
    priority: 0,
};

/// What no message tells.
pub const NO_SIGNAL: SignalOut = SignalOut {
    cause: 9,
    vcpu: 0,
    intid: 0,
};

/// What a save tells that has no fault.
pub const NO_SAVE_FAULT: SaveFaultOut = SaveFaultOut {
    kind: 0,
    translator: 0,
    device: 0,
    region: 0,
    number: 0,
    other_region: 0,
    other_number: 0,
    other_translator: 0,
};

/// A machine of two processors and one translator, and what making it answers.
pub fn shared(alloc: Global, root: &mut Pass) -> u32 {
    shared_from(alloc, root, &NUMBERS, &[TRANSLATOR], &FILLS, &[0xa1])
}

/// What making one answers that is described so.
pub fn shared_from(
    alloc: Global,
    root: &mut Pass,
    numbers: &DescriptionIn,
    translators: &[TranslatorIn],
    fills: &[FillIn],
    bytes: &[u8],
) -> u32 {
    let mut fault = NO_FAULT;
    its_share(
        root,
        alloc,
        numbers,
        translators,
        &WINDOWS,
        &PENDING,
        &[],
        &REQUESTERS,
        fills,
        bytes,
        &mut fault,
    )
}

/// The guest's driver of the first translator, by one pass.
pub fn drive(pass: &mut Pass) -> (u32, u64) {
    drive_by(pass, &FIRST)
}

/// The guest's driver, by one pass. How many commands ran, and the last place.
pub fn drive_by(pass: &mut Pass, driver: &Driver) -> (u32, u64) {
    let translator = driver.translator;
    let mut place = 0;
    let mut at = driver.queue;
    for word in &driver.commands {
        its_pass_write_memory(pass, at, &word.to_le_bytes(), &mut place);
        at = at.wrapping_add(8);
    }
    for (offset, size, value) in &driver.registers {
        its_pass_write_register(pass, translator, *offset, *size, *value, &mut place);
    }
    let mut ran: u32 = 0;
    for _ in 0..4u32 {
        let mut step = StepOut {
            outcome: 9,
            op: 0,
            reason: 0,
            address: 0,
            concerned: [0; 8],
        };
        if its_pass_step(pass, translator, &mut place, &mut step) == DONE && step.outcome == 1 {
            ran = ran.wrapping_add(1);
        }
    }
    (ran, place)
}

/// A message of event 2 of device 7 to the first translator: the code, its cause and its INTID.
pub fn signalled(pass: &mut Pass) -> (u32, u32, u32) {
    signalled_to(pass, 0)
}

/// The same to a translator.
pub fn signalled_to(pass: &mut Pass, translator: u32) -> (u32, u32, u32) {
    let (mut place, mut out) = (0, NO_SIGNAL);
    let code = its_pass_signal(pass, translator, 7, 2, &mut place, &mut out);
    (code, out.cause, out.intid)
}

/// What a virtual processor acknowledges: the code, the INTID and the priority.
pub fn taken(pass: &mut Pass, vcpu: u32) -> (u32, u32, u32) {
    let (mut place, mut out) = (0, NO_ACK);
    let code = its_pass_take(pass, vcpu, &mut place, &mut out);
    (code, out.intid, out.priority)
}

#[test]
fn one_pass_signals_and_another_takes(rt: HostRuntime) {
    let alloc = rt.alloc();
    let mut root = Pass::empty(alloc);
    let (mut devices, mut vcpus) = (Pass::empty(alloc), Pass::empty(alloc));
    assert_eq!(rt; shared(alloc, &mut root), DONE);
    assert_eq!(rt; its_split(&mut root, alloc, &mut devices), DONE);
    assert_eq!(rt; its_split(&mut root, alloc, &mut vcpus), DONE);
    assert_eq!(rt; drive(&mut root), (3, 20));
    assert_eq!(rt; signalled(&mut devices), (DONE, 0, 8192));
    assert_eq!(rt; taken(&mut vcpus, 0), (DONE, 0, 0));
    assert_eq!(rt; taken(&mut vcpus, 1), (DONE, 8192, 0xa0));
    assert_eq!(rt; its_pass_free(&mut root, alloc), DONE);
    assert_eq!(rt; signalled(&mut devices), (DONE, 0, 8192));
    assert_eq!(rt; its_pass_free(&mut devices, alloc), DONE);
    assert_eq!(rt; taken(&mut vcpus, 1), (DONE, 8192, 0xa0));
    assert_eq!(rt; its_pass_free(&mut vcpus, alloc), DONE);
    assert_eq!(rt; taken(&mut vcpus, 1), (HANDLE, 0, 0));
}

#[test]
fn what_is_out_of_range_is_no_call(rt: HostRuntime) {
    let alloc = rt.alloc();
    let (mut root, mut pass) = (Pass::empty(alloc), Pass::empty(alloc));
    assert_eq!(rt; its_split(&mut root, alloc, &mut pass), HANDLE);
    assert_eq!(rt; shared(alloc, &mut root), DONE);
    assert_eq!(rt; shared(alloc, &mut root), HANDLE);
    assert_eq!(rt; its_split(&mut root, alloc, &mut pass), DONE);
    assert_eq!(rt; its_split(&mut root, alloc, &mut pass), HANDLE);
    let mut third = Pass::empty(alloc);
    assert_eq!(rt; its_split(&mut pass, alloc, &mut third), RANGE);
    assert_eq!(rt; taken(&mut pass, 2), (RANGE, 0, 0));
    let (mut place, mut value) = (77, 0);
    assert_eq!(rt;
        its_pass_read_register(&mut pass, 0, 0, 2, &mut place, &mut value),
        RANGE
    );
    assert_eq!(rt;
        its_pass_write_memory(&mut pass, 0x8000_0000, &[], &mut place),
        RANGE
    );
    assert_eq!(rt; place, 77);
    assert_eq!(rt;
        its_pass_write_memory(&mut pass, 0x1000, &[1], &mut place),
        OUTSIDE
    );
    assert_eq!(rt; place, 0);
    assert_eq!(rt; its_pass_free(&mut pass, alloc), DONE);
    assert_eq!(rt; its_pass_free(&mut root, alloc), DONE);
}

#[test]
fn each_other_call_once(rt: HostRuntime) {
    let alloc = rt.alloc();
    let mut root = Pass::empty(alloc);
    assert_eq!(rt; shared(alloc, &mut root), DONE);
    assert_eq!(rt; drive(&mut root), (3, 20));
    let (mut place, mut dma) = (
        0,
        DmaOut {
            outcome: 9,
            signal: NO_SIGNAL,
        },
    );
    assert_eq!(rt;
        its_pass_dma(
            &mut root,
            7,
            0x0809_0040,
            &[2, 0, 0, 0],
            &mut place,
            &mut dma
        ),
        DONE
    );
    assert_eq!(rt; (place, dma.outcome, dma.signal.intid), (21, 4, 8192));
    let mut ack = NO_ACK;
    assert_eq!(rt; its_pass_show(&mut root, 1, &mut place, &mut ack), DONE);
    assert_eq!(rt;
        its_pass_best(&mut root, 1, 0xa0, &mut place, &mut ack),
        DONE
    );
    assert_eq!(rt; (place, ack.intid), (23, 0));
    assert_eq!(rt;
        its_pass_claim(&mut root, 1, 8192, &mut place, &mut ack),
        DONE
    );
    assert_eq!(rt; (place, ack.intid), (24, 8192));
    let mut value = 0;
    assert_eq!(rt;
        its_pass_read_register(&mut root, 0, 0x90, 8, &mut place, &mut value),
        DONE
    );
    assert_eq!(rt; value, 0x60);
    assert_eq!(rt;
        its_pass_read_lpi_register(&mut root, 1, 0, 4, &mut place, &mut value),
        DONE
    );
    assert_eq!(rt;
        its_pass_write_lpi_register(&mut root, 1, 0, 4, 1, &mut place),
        DONE
    );
    let mut fault = NO_SAVE_FAULT;
    assert_eq!(rt;
        its_pass_save(&mut root, alloc, &mut place, &mut fault),
        DONE
    );
    assert_eq!(rt; place, 28);
    let mut entry = [0; 8];
    assert_eq!(rt;
        its_pass_read_memory(&mut root, 0x800c_0010, &mut entry, &mut place),
        DONE
    );
    assert_eq!(rt; u64::from_le_bytes(entry), 0x2000_0000);
    assert_eq!(rt; its_pass_free(&mut root, alloc), DONE);
}
