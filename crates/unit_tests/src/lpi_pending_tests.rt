//! Redistributors in hand: what is pending, which LPI comes first, and registers.
use crate::lpi_pending_acts::{Act, Redistributor, byte, off, on, play, set_byte};
use guest_windows::Memory;
use its_types::{Addr, Intid, Vcpu};
use lpi_pending::{Pending, Redists};
use std::alloc::Global;
use std::test::Fail;

const PENDING: &[Act] = &[
    Act::FirstEnabled(None),
    Act::Set(8200),
    Act::Set(16383),
    Act::Has(8200, true),
    Act::Has(8201, false),
    Act::FirstEnabled(None),
    Act::Reload(16383, 0xa1),
    Act::FirstEnabled(Some(16383)),
    Act::Reload(8200, 0xa1),
    Act::FirstEnabled(Some(8200)),
    Act::Clear(8200),
    Act::FirstEnabled(Some(16383)),
    Act::Has(8200, false),
];

// A lower number comes first, and among equal ones the lowest LPI. What isn't below the mask, isn't
// enabled or isn't pending is none of them.
const BY_PRIORITY: &[Act] = &[
    Act::Best(0xff, None),
    Act::Set(8200),
    Act::Set(8201),
    Act::Set(8300),
    Act::Set(12288),
    Act::Set(16383),
    Act::Best(0xff, None),
    Act::Reload(8200, 0xa1),
    Act::Reload(8201, 0x40),
    Act::Reload(8300, 0x83),
    Act::Reload(12288, 0x81),
    Act::Reload(16383, 0x91),
    Act::Best(0xff, Some(8300)),
    Act::Best(0x81, Some(8300)),
    Act::Best(0x80, None),
    Act::Best(0, None),
    Act::Claims(8200, true),
    Act::Claims(8201, false),
    Act::Claims(8202, false),
    Act::Claims(8191, false),
    Act::Clear(8300),
    Act::Best(0xff, Some(12288)),
    Act::Claims(0xffff_ffff, false),
];

// Below GICR_PROPBASER is written, GICR_PENDBASER, and the lower half of that once more. Then LPIs
// are turned on, where that can be.
const TURNED_ON: &[Act] = &[
    Act::Write(0x70, 8, 0x8003_0000),
    Act::Write(0x78, 8, 0),
    Act::Write(0x78, 4, 0x8006_0000),
    Act::Accepts(false),
    Act::Write(0x0, 4, 1),
    Act::Read(0x0, 4, 1),
    Act::Accepts(true),
    Act::Has(8200, true),
    Act::Config(8200, 0xa1),
];

const PENDING_TABLE_ZERO: &[Act] = &[
    Act::Write(0x70, 8, 0x8003_0000),
    Act::Write(0x78, 8, 0x4000_0000_0000_0000),
    Act::Write(0x78, 4, 0x8006_0000),
    Act::Write(0x0, 4, 1),
    Act::Read(0x0, 4, 1),
    Act::Has(8200, false),
    Act::Config(8200, 0xa1),
];

const PENDING_TABLE_OUTSIDE: &[Act] = &[
    Act::Write(0x70, 8, 0x8003_0000),
    Act::Write(0x78, 8, 0xc000_0000_8000_0000),
    Act::Write(0x78, 4, 0x8008_0000),
    Act::Write(0x0, 4, 1),
    Act::Read(0x0, 4, 0),
    Act::Accepts(false),
    Act::Has(8200, false),
    Act::Config(8200, 0),
];

const CONFIGURATIONS_OUTSIDE: &[Act] = &[
    Act::Write(0x70, 8, 0x8007_f000),
    Act::Write(0x78, 8, 0),
    Act::Write(0x78, 4, 0x8006_0000),
    Act::Write(0x0, 4, 1),
    Act::Read(0x0, 4, 0),
    Act::Has(8200, false),
    Act::Config(8200, 0),
];

const OTHER_TABLES: &[Act] = &[
    Act::Write(0x70, 8, 0x8006_0000),
    Act::Write(0x78, 8, 0),
    Act::Write(0x78, 4, 0x8003_0000),
    Act::Write(0x0, 4, 1),
    Act::Read(0x0, 4, 1),
    Act::Has(8200, false),
    Act::Config(8200, 0),
];

// On, and then off, where that can be.
const TURNED_OFF: &[Act] = &[
    Act::Write(0x70, 8, 0x8003_0000),
    Act::Write(0x78, 8, 0x8006_0000),
    Act::Read(0x0, 4, 6),
    Act::Write(0x0, 4, 1),
    Act::Read(0x0, 4, 7),
    Act::Write(0x0, 4, 0),
    Act::Write(0x70, 8, 0x8004_0000),
    Act::Read(0x0, 4, 6),
    Act::Accepts(false),
    Act::Has(8200, false),
    Act::Config(8200, 0),
    Act::Read(0x70, 8, 0x8004_0780),
];

const LEFT_ON: &[Act] = &[
    Act::Write(0x70, 8, 0x8003_0000),
    Act::Write(0x78, 8, 0x8006_0000),
    Act::Write(0x0, 4, 1),
    Act::Write(0x0, 4, 0),
    Act::Write(0x70, 8, 0x8004_0000),
    Act::Read(0x0, 4, 1),
    Act::Accepts(true),
    Act::Has(8200, true),
    Act::Config(8200, 0xa1),
    Act::Read(0x70, 8, 0x8003_0000),
];

// GICR_INVLPIR and GICR_INVALLR read the configuration again, where LPIs are on.
const READ_AGAIN: &[Act] = &[
    Act::Write(0x70, 8, 0x8003_0000),
    Act::Write(0x78, 8, 0x8006_0000),
    Act::Write(0xa0, 8, 8200),
    Act::Config(8200, 0),
    Act::Write(0xb0, 8, 0),
    Act::Config(8200, 0),
    Act::Write(0x0, 4, 1),
    Act::Reload(8200, 0x41),
    Act::Reload(8201, 0x41),
    Act::Write(0xa0, 8, 8200),
    Act::Config(8200, 0xa1),
    Act::Config(8201, 0x41),
    Act::Write(0xb0, 4, 0),
    Act::Config(8201, 0),
    Act::Has(8200, true),
    Act::Accepts(true),
];

// LPI 8200 is enabled in one table, and pending in the other.
fn memory(alloc: Global) -> Result<Memory, Fail> {
    let mut memory = Memory::new(alloc, &[(Addr(0x8003_0000), 0x5_0000)])?;
    memory.write(Addr(0x8003_0008), &[0xa1])?;
    memory.write(Addr(0x8006_0401), &[0x01])?;
    Ok(memory)
}

#[test]
fn redistributors_do_as_they_are_told(rt: HostRuntime) -> Result<(), Fail> {
    let memory = memory(rt.alloc())?;
    for acts in [PENDING, BY_PRIORITY] {
        let mut redistributor = on(rt.alloc())?;
        assert_eq!(rt; play(&mut redistributor, &memory, false, acts), acts.len());
    }
    for (linux, acts) in [
        (false, TURNED_ON),
        (false, PENDING_TABLE_ZERO),
        (false, PENDING_TABLE_OUTSIDE),
        (false, CONFIGURATIONS_OUTSIDE),
        (false, OTHER_TABLES),
        (true, TURNED_OFF),
        (false, LEFT_ON),
        (false, READ_AGAIN),
        (true, READ_AGAIN),
    ] {
        let mut redistributor = off(rt.alloc());
        assert_eq!(rt; play(&mut redistributor, &memory, linux, acts), acts.len());
    }
    Ok(())
}

// Whether that is an LPI, and pending.
fn has(pending: &Pending, lpi: u32) -> bool {
    let intid = Intid(lpi);
    intid.in_range(pending.lpi_bits()) && pending.has(intid)
}

#[test]
fn bytes_of_a_pending_table(rt: HostRuntime) -> Result<(), Fail> {
    let mut pending = Pending::new(rt.alloc(), 14)?;
    pending.set(Intid(8200));
    pending.set(Intid(8207));
    assert!(rt; byte(&pending, 1024) == Some(0) && byte(&pending, 1025) == Some(0x81));
    assert!(rt; set_byte(&mut pending, 1025, 0x02) && set_byte(&mut pending, 2047, 0x80));
    assert_eq!(rt; byte(&pending, 1025), Some(0x02));
    assert!(rt; has(&pending, 8201) && !has(&pending, 8200) && has(&pending, 16383));
    Ok(())
}

#[test]
fn redistributors_in_hand(rt: HostRuntime) -> Result<(), Fail> {
    let Redistributor { conf, pend } = off(rt.alloc());
    let conf = Box::new(rt.alloc(), conf)?;
    let pend = Box::new(rt.alloc(), pend)?;
    let mut redists = Redists::with_room(rt.alloc(), 512)?;
    redists.place_conf(Vcpu(511), conf);
    redists.place_pend(Vcpu(511), pend);
    let conf = redists.conf_mut(Vcpu(511));
    let mut bases = *conf.bases();
    bases.pend.table = Addr(0x8004_0000);
    conf.set_bases(bases);
    let conf = redists.take_conf(Vcpu(511));
    redists.place_conf(Vcpu(511), conf);
    redists.pend_mut(Vcpu(511)).turn_off();
    let table = redists.conf(Vcpu(511)).bases().pend.table;
    let accepts = redists.pend(Vcpu(511)).accepts();
    assert!(rt; table == Addr(0x8004_0000) && !accepts);
    Ok(())
}
