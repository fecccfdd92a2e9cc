//! Each call once, in the life of a machine: made, driven, signalled, saved, moved, freed.
use crate::ack_calls::{its_best, its_claim, its_pending, its_show, its_take};
use crate::calls::{
    its_read_lpi_register, its_read_register, its_signal, its_stored_lpi_registers,
    its_write_lpi_register, its_write_register,
};
use crate::handle::Handle;
use crate::making::{its_free, its_new};
use crate::memory_calls::{its_read_memory, its_write_memory};
use crate::step_calls::{its_migrate, its_save, its_step};
use its_numbers::{
    AckOut, DONE, DescriptionIn, FillIn, HANDLE, NO_FAULT, OUTSIDE, RANGE, RedistributorIn,
    SaveFaultOut, SignalOut, StepOut, TranslatorIn, WindowIn,
};
use std::alloc::Global;

/// A machine of two processors, whose tables are described.
pub const NUMBERS: DescriptionIn = DescriptionIn {
    vcpus: 2,
    device_bits: 16,
    lpi_bits: 16,
    profile: 1,
    programmed: 0,
    restored: 0,
    linux_guest: 0,
    config: 0x8003_0000,
    event_limit: u64::MAX,
    device_limit: u64::MAX,
    memory_limit: u64::MAX,
};

/// One translator at reset, to which no device writes by address.
pub const TRANSLATORS: [TranslatorIn; 1] = [TranslatorIn {
    has_frames: 0,
    frames: 0,
    ctlr: 0,
    cbaser: 0,
    creadr: 0,
    cwriter: 0,
    baser0: 0,
    baser1: 0,
}];

/// 2 MiB.
pub const WINDOWS: [WindowIn; 1] = [WindowIn {
    base: 0x8000_0000,
    length: 0x20_0000,
}];

/// Its pending tables.
pub const PENDING: [u64; 2] = [0x8004_0000, 0x8005_0000];

/// LPI 8192 has priority 0xa0 and is enabled.
pub const FILLS: [FillIn; 1] = [FillIn {
    address: 0x8003_0000,
    length: 1,
}];

// The queue, both tables, and the translator is enabled.
const REGISTERS: [(u32, u32, u64); 4] = [
    (0x100, 8, 0x8107_0000_8000_0200),
    (0x108, 8, 0x8407_0000_8001_0200),
    (0x80, 8, 0x8000_0000_8002_0000),
    (0x0, 4, 1),
];

// MAPD 7 with 4 bits, MAPC 0 to processor 1, MAPTI 7 2 to LPI 8192.
const COMMANDS: [u64; 12] = [
    0x7_0000_0008,
    3,
    0x8000_0000_800c_0000,
    0,
    9,
    0,
    0x8000_0000_0001_0000,
    0,
    0x7_0000_000a,
    0x2000_0000_0002,
    0,
    0,
];

/// No fault of a save.
pub const NO_SAVE_FAULT: SaveFaultOut = SaveFaultOut {
    kind: 0,
    translator: 0,
    device: 0,
    region: 0,
    number: 0,
    other_region: 0,
    other_number: 0,
    other_translator: 0,
};

const NO_ACK: AckOut = AckOut {
    intid: 0,
    priority: 0,
};

/// What no step tells.
pub const NO_STEP: StepOut = StepOut {
    outcome: 9,
    op: 0,
    reason: 0,
    address: 0,
    concerned: [0; 8],
};

/// A machine, and what making it answers.
pub fn made(alloc: Global, handle: &mut Handle) -> u32 {
    let mut fault = NO_FAULT;
    its_new(
        handle,
        alloc,
        &NUMBERS,
        &TRANSLATORS,
        &WINDOWS,
        &PENDING,
        &[],
        &[],
        &FILLS,
        &[0xa1],
        &mut fault,
    )
}

/// The guest's driver. How many commands ran.
pub fn drive(alloc: Global, handle: &mut Handle) -> u32 {
    for (offset, size, value) in &REGISTERS {
        its_write_register(handle, alloc, 0, *offset, *size, *value);
    }
    let mut at = 0x8002_0000;
    for word in &COMMANDS {
        its_write_memory(handle, alloc, at, &word.to_le_bytes());
        at = at.wrapping_add(8);
    }
    its_write_register(handle, alloc, 0, 0x88, 8, 0x60);
    let mut ran = 0;
    for _ in 0..4u32 {
        let mut step = NO_STEP;
        if its_step(handle, alloc, 0, &mut step) == DONE && step.outcome == 1 {
            ran += 1;
        }
    }
    ran
}

fn taken(alloc: Global, handle: &mut Handle, vcpu: u32) -> (u32, u32, u32) {
    let mut ack = NO_ACK;
    let code = its_take(handle, alloc, vcpu, &mut ack);
    (code, ack.intid, ack.priority)
}

fn signalled(alloc: Global, handle: &mut Handle) -> (u32, u32, u32, u32) {
    let mut out = SignalOut {
        cause: 9,
        vcpu: 9,
        intid: 9,
    };
    let code = its_signal(handle, alloc, 0, 7, 2, &mut out);
    (code, out.cause, out.vcpu, out.intid)
}

#[test]
fn a_life(rt: HostRuntime) {
    let alloc = rt.alloc();
    let mut handle = Handle::empty(alloc);
    assert_eq!(rt; made(alloc, &mut handle), DONE);
    assert_eq!(rt; made(alloc, &mut handle), HANDLE);
    assert_eq!(rt; drive(alloc, &mut handle), 3);
    assert_eq!(rt; signalled(alloc, &mut handle), (DONE, 0, 1, 8192));
    let mut shown = NO_ACK;
    assert_eq!(rt; its_show(&mut handle, alloc, 1, &mut shown), DONE);
    assert_eq!(rt; (shown.intid, shown.priority), (8192, 0xa0));
    let mut list = [0; 2];
    let mut count = 9;
    assert_eq!(rt;
        its_pending(&mut handle, alloc, 1, &mut list, &mut count),
        DONE
    );
    assert_eq!(rt; (list, count), ([8192, 0], 1));
    let mut fault = NO_SAVE_FAULT;
    assert_eq!(rt; its_save(&mut handle, alloc, &mut fault), DONE);
    assert_eq!(rt; its_migrate(&mut handle, alloc, &mut fault), DONE);
    assert_eq!(rt; its_best(&mut handle, alloc, 1, 0xa0, &mut shown), DONE);
    assert_eq!(rt; shown.intid, 0);
    assert_eq!(rt; its_best(&mut handle, alloc, 1, 0xa4, &mut shown), DONE);
    assert_eq!(rt; shown.intid, 8192);
    assert_eq!(rt; its_best(&mut handle, alloc, 1, 256, &mut shown), RANGE);
    assert_eq!(rt; its_claim(&mut handle, alloc, 1, 8193, &mut shown), DONE);
    assert_eq!(rt; shown.intid, 0);
    assert_eq!(rt; taken(alloc, &mut handle, 1), (DONE, 8192, 0xa0));
    assert_eq!(rt; taken(alloc, &mut handle, 1), (DONE, 0, 0));
    assert_eq!(rt; taken(alloc, &mut handle, 2), (RANGE, 0, 0));
    assert_eq!(rt; its_free(&mut handle, alloc), DONE);
    assert_eq!(rt; its_free(&mut handle, alloc), HANDLE);
}

#[test]
fn registers_and_memory(rt: HostRuntime) {
    let alloc = rt.alloc();
    let mut handle = Handle::empty(alloc);
    assert_eq!(rt; made(alloc, &mut handle), DONE);
    let mut value = 9;
    assert_eq!(rt;
        its_read_register(&mut handle, alloc, 0, 0x0, 4, &mut value),
        DONE
    );
    assert_eq!(rt; value, 0x8000_0000);
    assert_eq!(rt;
        its_read_register(&mut handle, alloc, 0, 0x0, 3, &mut value),
        RANGE
    );
    assert_eq!(rt;
        its_write_lpi_register(&mut handle, alloc, 1, 0x70, 8, 1),
        DONE
    );
    assert_eq!(rt;
        its_read_lpi_register(&mut handle, alloc, 1, 0x70, 8, &mut value),
        DONE
    );
    assert_eq!(rt; value, 0);
    let mut bytes = [0x5a; 130];
    assert_eq!(rt;
        its_write_memory(&mut handle, alloc, 0x801f_ff7e, &bytes),
        DONE
    );
    assert_eq!(rt;
        its_write_memory(&mut handle, alloc, 0x801f_ff7f, &bytes),
        OUTSIDE
    );
    bytes[129] = 0;
    assert_eq!(rt; its_read_memory(&mut handle, 0x801f_ff7e, &mut bytes), DONE);
    assert_eq!(rt; bytes[129], 0x5a);
    assert_eq!(rt; its_free(&mut handle, alloc), DONE);
}

// The guest programs the LPI registers, and has much memory.
fn programmed(alloc: Global, handle: &mut Handle) -> u32 {
    let numbers = DescriptionIn {
        programmed: 1,
        linux_guest: 1,
        ..NUMBERS
    };
    let windows = [WindowIn {
        base: 0x8000_0000,
        length: 1 << 32,
    }];
    let off = RedistributorIn {
        ctlr: 0,
        propbaser: 0,
        pendbaser: 0,
    };
    let mut fault = NO_FAULT;
    its_new(
        handle,
        alloc,
        &numbers,
        &TRANSLATORS,
        &windows,
        &[],
        &[off, off],
        &[],
        &[],
        &[],
        &mut fault,
    )
}

// Pending Table Zero, which reads zero, is told as it was stored.
#[test]
fn stored_lpi_registers(rt: HostRuntime) {
    let alloc = rt.alloc();
    let mut handle = Handle::empty(alloc);
    assert_eq!(rt; programmed(alloc, &mut handle), DONE);
    let table = 0x4000_0000_8006_0000;
    assert_eq!(rt;
        its_write_lpi_register(&mut handle, alloc, 1, 0x78, 8, table),
        DONE
    );
    let mut value = 9;
    assert_eq!(rt;
        its_read_lpi_register(&mut handle, alloc, 1, 0x78, 8, &mut value),
        DONE
    );
    assert_eq!(rt; value, 0x8006_0780);
    let mut stored = RedistributorIn {
        ctlr: 9,
        propbaser: 9,
        pendbaser: 9,
    };
    assert_eq!(rt; its_stored_lpi_registers(&mut handle, 1, &mut stored), DONE);
    assert_eq!(rt;
        (stored.ctlr, stored.propbaser, stored.pendbaser),
        (0, 0, table)
    );
    assert_eq!(rt;
        its_stored_lpi_registers(&mut handle, 2, &mut stored),
        RANGE
    );
    assert_eq!(rt; its_free(&mut handle, alloc), DONE);
}
