//! Whom a step through a pass concerned, by its command.
use crate::making::its_pass_free;
use crate::pass::Pass;
use crate::register_calls::its_pass_write_register;
use crate::step_calls::{its_pass_step, its_pass_write_memory};
use crate::tests::{drive, shared};
use its_numbers::{DONE, StepOut};

// After the driver's commands: INT 7 2, whose target is processor 1, INV 7 2, MAPTI 7 3 to LPI
// 8193, and INT 7 9, which isn't mapped.
const COMMANDS: [u64; 16] = [
    0x7_0000_0003,
    2,
    0,
    0,
    0x7_0000_000c,
    2,
    0,
    0,
    0x7_0000_000a,
    0x2001_0000_0003,
    0,
    0,
    0x7_0000_0003,
    9,
    0,
    0,
];

fn write_commands(pass: &mut Pass) -> u32 {
    let mut place = 0;
    let mut at = 0x8002_0060;
    for word in &COMMANDS {
        its_pass_write_memory(pass, at, &word.to_le_bytes(), &mut place);
        at = at.wrapping_add(8);
    }
    its_pass_write_register(pass, 0, 0x88, 8, 0xe0, &mut place)
}

// What became of the next command, and whom it concerned of the first 64 processors.
fn stepped(pass: &mut Pass) -> (u32, u64) {
    let mut place = 0;
    let mut step = StepOut {
        outcome: 9,
        op: 0,
        reason: 0,
        address: 0,
        concerned: [9; 8],
    };
    its_pass_step(pass, 0, &mut place, &mut step);
    (step.outcome, step.concerned[0])
}

// INT concerns its target. INV and MAPTI concern all processors, which read a configuration again;
// a command that is refused and an empty queue nobody.
#[test]
fn whom_a_step_concerns(rt: HostRuntime) {
    let alloc = rt.alloc();
    let mut root = Pass::empty(alloc);
    assert_eq!(rt; shared(alloc, &mut root), DONE);
    assert_eq!(rt; drive(&mut root), (3, 20));
    assert_eq!(rt; write_commands(&mut root), DONE);
    assert_eq!(rt; stepped(&mut root), (1, 2));
    assert_eq!(rt; stepped(&mut root), (1, 3));
    assert_eq!(rt; stepped(&mut root), (1, 3));
    assert_eq!(rt; stepped(&mut root), (2, 0));
    assert_eq!(rt; stepped(&mut root), (0, 0));
    assert_eq!(rt; its_pass_free(&mut root, alloc), DONE);
}
