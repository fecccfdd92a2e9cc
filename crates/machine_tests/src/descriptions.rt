//! Descriptions of machines, and calls that machines are asked.
ghost use Rattle.std.specs.Prelude.{IfOk};
ghost use Rattle.its_plain.specs.Machine.{IsDescription};

use gits_regs::RegValues;
use its_plain::{Call, Desc, Fill, Its, LpiTables, RequesterRanges};
use its_types::{Addr, DeviceId, EventId, Limits, Listed, Profile, Shape};
use std::alloc::{AllocError, Global};

/// Where the configuration table begins.
pub const CONFIG: Addr = Addr(0x8003_0000);

// Of each of four virtual processors.
const PENDING: [Addr; 4] = [
    Addr(0x8004_0000),
    Addr(0x8005_0000),
    Addr(0x8006_0000),
    Addr(0x8007_0000),
];

const SHAPE: Shape = Shape {
    vcpus: 4,
    dev_bits: 16,
    lpi_bits: 16,
    profile: Profile::One,
    linux: false,
};

/// Stamps and places as far as they can go.
pub const LIMITS: Limits = Limits {
    stamp_last: 16_777_215,
    place_last: 1_099_511_627_775,
};

/// Enabled, with a queue of one page, a flat device table of one page and a collection table of one
/// page.
pub const VALUES: RegValues = RegValues {
    ctlr: 1,
    cbaser: 0x8000_0000_8002_0000,
    creadr: 0,
    cwriter: 0,
    baser0: 0x8107_0000_8000_0200,
    baser1: 0x8407_0000_8001_0200,
};

/// Four virtual processors, and two MiB of memory with these words; restored with these values of
/// registers, where they are given.
pub fn desc(
    alloc: Global,
    restore: Option<RegValues>,
    words: &[(u64, u64)],
) -> Result<Desc, AllocError>
    ensures { IfOk result IsDescription }
{
    let pending = Listed::from_vec(Vec::from_slice(alloc, &PENDING)?);
    let translator = Its {
        restore,
        frames: None,
    };
    Ok(Desc {
        shape: SHAPE,
        shards: 4,
        limits: LIMITS,
        windows: windows(alloc, 0x20_0000)?,
        memory_limit: u64::MAX,
        tables: LpiTables::Described {
            config: CONFIG,
            pending,
        },
        fills: fills(alloc, words)?,
        translators: Listed::from_vec(Vec::from_slice(alloc, &[translator])?),
        requesters: RequesterRanges::none(alloc),
        from_kvm: false,
        track: false,
    })
}

/// One window of so many bytes.
pub fn windows(alloc: Global, length: u64) -> Result<Listed<(Addr, u64)>, AllocError> {
    let window = (Addr(0x8000_0000), length);
    Ok(Listed::from_vec(Vec::from_slice(alloc, &[window])?))
}

fn fills(alloc: Global, words: &[(u64, u64)]) -> Result<Listed<Fill>, AllocError> {
    let mut fills = Listed::new(alloc);
    for &(addr, word) in words {
        let bytes = Vec::from_slice(alloc, &word.to_le_bytes())?;
        fills.push(Fill {
            addr: Addr(addr),
            bytes: Listed::from_vec(bytes),
        })?;
    }
    Ok(fills)
}

/// A write of a register of the first translator.
pub fn write(off: u32, size: u8, value: u64) -> Call {
    Call::WriteReg {
        its: 0,
        off,
        size,
        value,
    }
}

/// A message of a device to the first translator.
pub fn signal(dev: u32, ev: u32) -> Call {
    Call::Signal {
        its: 0,
        dev: DeviceId(dev),
        ev: EventId(ev),
    }
}

/// A queue and a collection table of one page, this device table, the first translator enabled, and
/// its queue filled up to an offset.
pub fn enabling(baser0: u64, cwriter: u64) -> [Call; 5] {
    [
        write(0x80, 8, 0x8000_0000_8002_0000),
        write(0x100, 8, baser0),
        write(0x108, 8, 0x8407_0000_8001_0200),
        write(0x0, 4, 1),
        write(0x88, 8, cwriter),
    ]
}
