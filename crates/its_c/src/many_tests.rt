//! A machine of as many processors as there may be, of which the last one gets an interrupt.
use crate::ack_calls::{its_show, its_take};
use crate::calls::{its_write_lpi_register, its_write_register};
use crate::handle::Handle;
use crate::making::{its_free, its_new};
use crate::memory_calls::its_write_memory;
use crate::step_calls::its_step;
use crate::tests::{FILLS, NO_STEP, NUMBERS, TRANSLATORS, WINDOWS, drive};
use its_numbers::{AckOut, DONE, DescriptionIn, NO_FAULT, RANGE, RedistributorIn};
use std::alloc::Global;

const OFF: RedistributorIn = RedistributorIn {
    ctlr: 0,
    propbaser: 0,
    pendbaser: 0,
};

// After the driver's commands: MAPC 0 to processor 511, and INT 7 2.
const COMMANDS: [u64; 8] = [9, 0, 0x8000_0000_01ff_0000, 0, 0x7_0000_0003, 2, 0, 0];

// A machine whose guest programs the LPI registers, which are off.
fn made(alloc: Global, handle: &mut Handle, vcpus: u32, registers: &[RedistributorIn]) -> u32 {
    let numbers = DescriptionIn {
        vcpus,
        programmed: 1,
        ..NUMBERS
    };
    let mut fault = NO_FAULT;
    its_new(
        handle,
        alloc,
        &numbers,
        &TRANSLATORS,
        &WINDOWS,
        &[],
        registers,
        &[],
        &FILLS,
        &[0xa1],
        &mut fault,
    )
}

// Gives a processor its tables, and turns its LPIs on.
fn turn_on(alloc: Global, handle: &mut Handle, vcpu: u32) -> (u32, u32, u32) {
    (
        its_write_lpi_register(handle, alloc, vcpu, 0x70, 8, 0x8003_000f),
        its_write_lpi_register(handle, alloc, vcpu, 0x78, 8, 0x4000_0000_8005_0000),
        its_write_lpi_register(handle, alloc, vcpu, 0x0, 4, 1),
    )
}

fn write_commands(alloc: Global, handle: &mut Handle) -> u32 {
    let mut at = 0x8002_0060;
    for word in &COMMANDS {
        its_write_memory(handle, alloc, at, &word.to_le_bytes());
        at = at.wrapping_add(8);
    }
    its_write_register(handle, alloc, 0, 0x88, 8, 0xa0)
}

// What became of the next command, and whom it concerns.
fn stepped(alloc: Global, handle: &mut Handle) -> (u32, [u64; 8]) {
    let mut step = NO_STEP;
    its_step(handle, alloc, 0, &mut step);
    (step.outcome, step.concerned)
}

#[test]
fn the_last_of_512(rt: HostRuntime) {
    let alloc = rt.alloc();
    let mut handle = Handle::empty(alloc);
    assert_eq!(rt; made(alloc, &mut handle, 513, &[OFF; 513]), RANGE);
    assert_eq!(rt; made(alloc, &mut handle, 512, &[OFF; 512]), DONE);
    assert_eq!(rt; turn_on(alloc, &mut handle, 512), (RANGE, RANGE, RANGE));
    assert_eq!(rt; turn_on(alloc, &mut handle, 511), (DONE, DONE, DONE));
    assert_eq!(rt; drive(alloc, &mut handle), 3);
    assert_eq!(rt; write_commands(alloc, &mut handle), DONE);
    assert_eq!(rt; stepped(alloc, &mut handle), (1, [0; 8]));
    let last = [0, 0, 0, 0, 0, 0, 0, 1 << 63];
    assert_eq!(rt; stepped(alloc, &mut handle), (1, last));
    let mut shown = AckOut {
        intid: 9,
        priority: 9,
    };
    assert_eq!(rt; its_show(&mut handle, alloc, 511, &mut shown), DONE);
    assert_eq!(rt; (shown.intid, shown.priority), (8192, 0xa0));
    assert_eq!(rt; its_take(&mut handle, alloc, 512, &mut shown), RANGE);
    assert_eq!(rt; its_free(&mut handle, alloc), DONE);
}
