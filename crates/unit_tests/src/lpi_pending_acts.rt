//! A redistributor that does one act after the other.
ghost use Rattle.std.specs.Prelude.{◌≡◌, true};
ghost use Rattle.gicr_regs.specs.Registers.{AreLow};

use guest_windows::Memory;
use its_types::{Addr, Bases, Intid, Profile, Shape};
use lpi_config::{Conf, Config};
use lpi_pending::{
    Pend, Pending, changes_pending, conf_set, conf_write, gicr_read, gicr_write, reads_tables,
    room_for, turn_off_write,
};
use std::alloc::{AllocError, Global};

/// A redistributor in hand: both its parts.
#[derive(Drop)]
pub struct Redistributor {
    pub conf: Conf,
    pub pend: Pend,
}

/// What a redistributor is told or asked, and the answer.
pub enum Act {
    /// An LPI that becomes pending.
    Set(u32),
    /// One that is pending no more.
    Clear(u32),
    /// Whether it is pending.
    Has(u32, bool),
    /// An LPI's configuration byte.
    Reload(u32, u8),
    /// What the copy has.
    Config(u32, u8),
    /// The first that is enabled.
    FirstEnabled(Option<u32>),
    /// The first by priority below a mask.
    Best(u8, Option<u32>),
    /// Whether it may be claimed.
    Claims(u32, bool),
    /// Whether signals reach it.
    Accepts(bool),
    /// So many bytes at an offset of its registers.
    Write(u32, u8, u64),
    /// What a read has.
    Read(u32, u8, u64),
}

/// Whether that is an LPI, which is then pending or isn't any more.
pub fn put(pending: &mut Pending, lpi: u32, on: bool) -> bool {
    let intid = Intid(lpi);
    if !intid.in_range(pending.lpi_bits()) {
        return false;
    }
    if on {
        pending.set(intid);
    } else {
        pending.clear(intid);
    }
    true
}

// Whether that is an LPI of a redistributor that takes some, which is then pending.
fn set(pend: &mut Pend, lpi: u32) -> bool {
    let intid = Intid(lpi);
    if !intid.in_range(pend.lpi_bits()) || !pend.accepts() {
        return false;
    }
    pend.set(intid);
    true
}

// Whether that is an LPI, which is then pending no more.
fn clear(pend: &mut Pend, lpi: u32) -> bool {
    let intid = Intid(lpi);
    if !intid.in_range(pend.lpi_bits()) {
        return false;
    }
    pend.clear(intid);
    true
}

fn has(pend: &Pend, lpi: u32) -> Option<bool> {
    let intid = Intid(lpi);
    if intid.in_range(pend.lpi_bits()) {
        Some(pend.has(intid))
    } else {
        None
    }
}

/// Whether it is a byte of the table, which then has this value.
pub fn set_byte(pending: &mut Pending, n: u32, byte: u8) -> bool {
    if pending.lpi_bits() != 14 || n < 1024 || n >= 2048 {
        return false;
    }
    pending.set_byte(n, byte);
    true
}

/// A byte of the table.
pub fn byte(pending: &Pending, n: u32) -> Option<u8> {
    if pending.lpi_bits() != 14 || n < 1024 || n >= 2048 {
        return None;
    }
    Some(pending.byte(n))
}

// Whether LPIs are on and that is one, whose byte is then this.
fn reload(conf: &mut Conf, lpi: u32, byte: u8) -> bool {
    let intid = Intid(lpi);
    if !intid.in_range(conf.lpi_bits()) || !conf.bases().on {
        return false;
    }
    conf.reload(intid, byte);
    true
}

fn configured(conf: &Conf, lpi: u32) -> Option<u8> {
    let intid = Intid(lpi);
    if !intid.in_range(conf.lpi_bits()) {
        return None;
    }
    Some(conf.byte(intid))
}

fn first_enabled(pend: &Pend, conf: &Conf) -> Option<u32> {
    if pend.lpi_bits() != conf.lpi_bits() {
        return Some(0);
    }
    let first = pend.first_enabled(conf)?;
    Some(first.0)
}

fn best(pend: &Pend, conf: &Conf, mask: u8) -> Option<u32> {
    if pend.lpi_bits() != conf.lpi_bits() {
        return Some(0);
    }
    let first = pend.first_by_priority(conf, mask)?;
    Some(first.0)
}

fn claims(pend: &Pend, conf: &Conf, lpi: u32) -> Option<bool> {
    if pend.lpi_bits() != conf.lpi_bits() {
        return None;
    }
    match pend.claimable(conf, Intid(lpi)) {
        Some(intid) => Some(intid.0 == lpi),
        None => Some(false),
    }
}

// Above each address that a base register has.
const END: u64 = 1 << 52;

fn is_low(bases: &Bases) -> bool
    ensures { result ≡ true → AreLow bases.now }
{
    bases.prop.table.0 < END && bases.pend.table.0 < END
}

// With as little in hand as it asks for.
fn write(
    redistributor: &mut Redistributor,
    memory: &Memory,
    shape: &Shape,
    off: u32,
    size: u8,
    value: u64,
) -> bool {
    let Redistributor { conf, pend } = redistributor;
    let bits = shape.lpi_bits;
    if !is_low(conf.bases()) || pend.lpi_bits() != bits || conf.lpi_bits() != bits {
        return false;
    }
    let of_both = changes_pending(conf, off, size, value);
    let of_memory = reads_tables(conf, off, size, value);
    match (of_both, of_memory) {
        (false, false) => conf_set(conf, off, size, value),
        (false, true) => conf_write(conf, memory, shape, off, size, value),
        (true, false) => turn_off_write(conf, pend, shape, off, size, value),
        (true, true) => match room_for(conf, pend, off, size, value) {
            Ok(room) => gicr_write(conf, pend, memory, shape, off, size, value, room),
            Err(_) => return false,
        },
    }
    true
}

fn read(conf: &Conf, linux: bool, off: u32, size: u8) -> Option<u64> {
    if !is_low(conf.bases()) {
        return None;
    }
    Some(gicr_read(linux, conf, off, size))
}

// Whether the redistributor does as the act says.
fn does(redistributor: &mut Redistributor, memory: &Memory, shape: &Shape, act: &Act) -> bool {
    let Redistributor { conf, pend } = redistributor;
    match act {
        Act::Set(lpi) => set(pend, *lpi),
        Act::Clear(lpi) => clear(pend, *lpi),
        Act::Has(lpi, want) => has(pend, *lpi) == Some(*want),
        Act::Reload(lpi, byte) => reload(conf, *lpi, *byte),
        Act::Config(lpi, want) => configured(conf, *lpi) == Some(*want),
        Act::FirstEnabled(want) => first_enabled(pend, conf) == *want,
        Act::Best(mask, want) => best(pend, conf, *mask) == *want,
        Act::Claims(lpi, want) => claims(pend, conf, *lpi) == Some(*want),
        Act::Accepts(want) => pend.accepts() == *want,
        Act::Write(off, size, value) => write(redistributor, memory, shape, *off, *size, *value),
        Act::Read(off, size, value) => read(&redistributor.conf, shape.linux, *off, *size)
            == Some(*value),
    }
}

/// A redistributor whose LPIs are off.
pub fn off(alloc: Global) -> Redistributor {
    Redistributor {
        conf: Conf::off(alloc, 14, Bases::off()),
        pend: Pend::off(alloc, 14),
    }
}

/// One whose LPIs are on, with a configuration of zeros and nothing pending.
pub fn on(alloc: Global) -> Result<Redistributor, AllocError> {
    let bases = Bases::described(Addr(0x8003_0000), Addr(0x8006_0000));
    Ok(Redistributor {
        conf: Conf::on(alloc, Config::zeros(alloc, 14)?, bases),
        pend: Pend::on(alloc, Pending::new(alloc, 14)?),
    })
}

/// How many of the acts it does as they say, up to the first that it doesn't.
pub fn play(
    redistributor: &mut Redistributor,
    memory: &Memory,
    linux: bool,
    acts: &[Act],
) -> usize {
    let shape = Shape {
        vcpus: 1,
        dev_bits: 16,
        lpi_bits: 14,
        profile: Profile::One,
        linux,
    };
    for (at, act) in acts.iter().enumerate() {
        if !does(redistributor, memory, &shape, act) {
            return at;
        }
    }
    acts.len()
}
