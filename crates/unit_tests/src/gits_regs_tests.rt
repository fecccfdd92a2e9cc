//! Registers of the control frame.
use gits_regs::{RegChange, Regs};

const READS: [(u32, u8, u64); 7] = [
    (0x8, 8, 0x1EF71),
    (0x4, 4, 0x4B00_043B),
    (0xFFE8, 4, 0x30),
    (0x100, 8, 0x0107_0000_0000_0200),
    (0x108, 8, 0x0407_0000_0000_0200),
    (0x110, 8, 0),
    (0x0, 8, 0),
];

// The first offset where another value is read.
fn wrong_read(regs: &Regs) -> Option<u32> {
    for (off, size, value) in READS {
        if regs.read(off, size) != value {
            return Some(off);
        }
    }
    None
}

#[test]
fn registers_at_reset(rt: HostRuntime) {
    let mut regs = Regs::reset(16);
    let wrong = wrong_read(&regs);
    let change = regs.write(0x0, 4, 1);
    let control = regs.read(0x0, 4);
    assert_eq!(rt;
        (wrong, change, control),
        (None, RegChange::None, 0x8000_0000)
    );
}
