//! LPI registers.
use gicr_regs::{GicrRegisters, GicrWrite, asked_by, read_gicr, restored_bases, values_of};
use its_types::{Addr, Bases, Intid, Pendbaser, Propbaser};

const SAVED: GicrRegisters = GicrRegisters {
    ctlr: 0xffff_ffff,
    propbaser: 0x8003_000f,
    pendbaser: 0x4000_0000_8006_0000,
};

// Above each address that a base register has.
const END: u64 = 1 << 52;

// The first offset of reads, each with its size and value, where another value is read.
fn wrong_read(linux: bool, bases: &Bases, reads: &[(u32, u8, u64)]) -> Option<u32> {
    for (off, size, value) in reads {
        if bases.prop.table.0 >= END || bases.pend.table.0 >= END {
            return Some(*off);
        }
        if read_gicr(linux, bases, *off, *size) != *value {
            return Some(*off);
        }
    }
    None
}

// The first offset of writes, each with its size and value, where something else is asked.
fn wrong_write(bases: &Bases, writes: &[(u32, u8, u64, GicrWrite)]) -> Option<u32> {
    for (off, size, value, asked) in writes {
        if bases.prop.table.0 >= END || bases.pend.table.0 >= END {
            return Some(*off);
        }
        if asked_by(bases, *off, *size, *value) != *asked {
            return Some(*off);
        }
    }
    None
}

const READS: [(u32, u8, u64); 6] = [
    (0x0, 4, 1),
    (0x70, 8, 0x8003_000f),
    (0x74, 4, 0),
    (0x78, 8, 0x8006_0000),
    (0x78, 4, 0x8006_0000),
    (0xc0, 4, 0),
];

// For a Linux guest GICR_CTLR has bits 1 and 2, and both bases have bits 11 to 7 as Inner Shareable
// and write-back: 0x780.
const LINUX_READS: [(u32, u8, u64); 7] = [
    (0x0, 4, 7),
    (0x70, 8, 0x8003_078f),
    (0x70, 4, 0x8003_078f),
    (0x74, 4, 0),
    (0x78, 8, 0x8006_0780),
    (0x7c, 4, 0),
    (0xa0, 8, 0),
];

const WRITES: [(u32, u8, u64, GicrWrite); 5] = [
    (0x70, 8, 0, GicrWrite::Ignored),
    (0xa0, 8, 8200, GicrWrite::Reread(Intid(8200))),
    (0xb4, 4, 0, GicrWrite::RereadAll),
    (0x0, 4, 0, GicrWrite::Disable),
    (0x0, 4, 3, GicrWrite::Ignored),
];

#[test]
fn values_are_kept_and_read(rt: HostRuntime) {
    let bases = restored_bases(&SAVED);
    let values = values_of(&bases);
    assert_eq!(rt; (values.ctlr, values.pendbaser), (1, SAVED.pendbaser));
    assert!(rt; bases.on && bases.pend.ptz);
    let read = wrong_read(false, &bases, &READS);
    let linux = wrong_read(true, &bases, &LINUX_READS);
    let written = wrong_write(&bases, &WRITES);
    assert_eq!(rt; [read, linux, written], [None; 3]);
}

#[test]
fn lpis_are_off(rt: HostRuntime) {
    let off = Bases::off();
    let zeroed = Bases {
        pend: Pendbaser {
            table: Addr(0),
            ptz: true,
        },
        ..off
    };
    let half = GicrWrite::SetBases(Bases {
        pend: Pendbaser {
            table: Addr(0x8006_0000),
            ptz: true,
        },
        ..zeroed
    });
    let whole = GicrWrite::SetBases(Bases {
        prop: Propbaser {
            table: Addr(0x8003_0000),
            id_bits: 15,
        },
        ..zeroed
    });
    let turning = [
        (0x0, 4, 1, GicrWrite::Enable),
        (0x0, 4, 0, GicrWrite::Ignored),
    ];
    let setting = [
        (0x78, 4, 0x8006_0000, half),
        (0x70, 8, 0xfff0_0000_8003_0fef, whole),
    ];
    let read = wrong_read(true, &off, &[(0x0, 4, 6)]);
    let turned = wrong_write(&off, &turning);
    let set = wrong_write(&zeroed, &setting);
    assert_eq!(rt; [read, turned, set], [None; 3]);
}
