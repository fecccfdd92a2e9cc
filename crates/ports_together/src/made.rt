//! One machine of four virtual processors that is restored from words in its memory, and shared
//! from then on. The words are those of the table format (KVM document arm-vgic-its, "ITS Table ABI
//! REV0").
ghost use Rattle.std.specs.Prelude.{◌≡◌, ◌<◌, ◌^◌, IfOk};
ghost use Rattle.its_plain.specs.Machine.{HasTablesFor};
ghost use Rattle.its_turns.specs.Machines.{view};
ghost use Rattle.ports_together.specs.Ready.{IsSmall, IsRoot, IsAtRest, IsShared};

use gicr_regs::{GicrRegisters, GicrValues};
use gits_regs::RegValues;
use its_migrate::share;
use its_plain::{Desc, Fill, Its, LpiTables, MakeError, RequesterRanges};
use its_turns::{Machine, Root};
use its_types::{Addr, Limits, Listed, Profile, Shape};
use std::alloc::{AllocError, Global};

/// The translator is enabled, its queue empty, its device table flat.
pub const VALUES: RegValues = RegValues {
    ctlr: 1,
    cbaser: 0x8000_0000_8002_0000,
    creadr: 0,
    cwriter: 0,
    baser0: 0x8107_0000_8000_0200,
    baser1: 0x8407_0000_8001_0200,
};

const OFF: GicrRegisters = GicrRegisters {
    ctlr: 0,
    propbaser: 0,
    pendbaser: 0,
};

// LPIs are on at tables of their own, or the guest programs the LPI registers.
fn tables(alloc: Global, gicr: bool) -> Result<LpiTables, AllocError>
    ensures { IfOk result (HasTablesFor 4) }
{
    if gicr {
        return Ok(LpiTables::Registers(GicrValues {
            registers: Listed::from_vec(vec![in alloc; OFF; 4]?),
        }));
    }
    let mut pending = Listed::new(alloc);
    pending.push(Addr(0x8004_0000))?;
    pending.push(Addr(0x8005_0000))?;
    pending.push(Addr(0x8006_0000))?;
    pending.push(Addr(0x8007_0000))?;
    let config = Addr(0x8003_0000);
    Ok(LpiTables::Described { config, pending })
}

/// What it is made from.
pub fn described(
    alloc: Global,
    words: &[(u64, u64)],
    stamp_last: u32,
    gicr: bool,
    linux: bool,
) -> Result<Desc, AllocError>
    requires { stamp_last < 2 ^ 24 }
    ensures { IfOk result IsSmall }
{
    let mut windows = Listed::new(alloc);
    windows.push((Addr(0x8000_0000), 0x20_0000))?;
    let tables = tables(alloc, gicr)?;
    let fills = fills(alloc, words)?;
    let mut translators = Listed::new(alloc);
    translators.push(Its {
        restore: Some(VALUES),
        frames: None,
    })?;
    Ok(Desc {
        shape: Shape {
            vcpus: 4,
            dev_bits: 16,
            lpi_bits: 16,
            profile: Profile::One,
            linux,
        },
        shards: 4,
        limits: Limits {
            stamp_last,
            place_last: 1_099_511_627_775,
        },
        windows,
        memory_limit: u64::MAX,
        tables,
        fills,
        translators,
        requesters: RequesterRanges::none(alloc),
        from_kvm: false,
        track: false,
    })
}

fn fills(alloc: Global, words: &[(u64, u64)]) -> Result<Listed<Fill>, AllocError> {
    let mut fills = Listed::new(alloc);
    for &(addr, word) in words {
        let bytes = Vec::from_slice(alloc, &word.to_le_bytes())?;
        fills.push(Fill {
            addr: Addr(addr),
            bytes: Listed::from_vec(bytes),
        })?;
    }
    Ok(fills)
}

/// The machine with these words in its memory, each with its address, and its root.
pub fn made(alloc: Global, words: &[(u64, u64)]) -> Result<(Machine, Root), MakeError>
    ensures root { IfOk result (λ made. IsRoot made.0 made.1) }
    ensures passes { IfOk result (λ made. (view made.1).root.made ≡ 1) }
    ensures at_rest { IfOk result (λ made. IsAtRest made.0 made.1) }
    ensures shared { IfOk result (λ made. IsShared made.0 made.1) }
{
    made_with(alloc, words, 16_777_215, false, false)
}

/// The same with this as the last stamp. Its guest may program the LPI registers, which are off, and
/// may be a Linux.
pub fn made_with(
    alloc: Global,
    words: &[(u64, u64)],
    stamp_last: u32,
    gicr: bool,
    linux: bool,
) -> Result<(Machine, Root), MakeError>
    requires { stamp_last < 2 ^ 24 }
    ensures root { IfOk result (λ made. IsRoot made.0 made.1) }
    ensures passes { IfOk result (λ made. (view made.1).root.made ≡ 1) }
    ensures at_rest { IfOk result (λ made. IsAtRest made.0 made.1) }
    ensures shared { IfOk result (λ made. IsShared made.0 made.1) }
{
    let Ok(desc) = described(alloc, words, stamp_last, gicr, linux) else {
        return Err(MakeError::NoMemory);
    };
    share(alloc, &desc)
}
