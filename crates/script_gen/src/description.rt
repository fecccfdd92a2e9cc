//! The machine that generated scripts run on.
ghost use Rattle.std.specs.Prelude.{◌≡◌, IfOk};
ghost use Rattle.script_gen.specs.Description as spec;

use its_plain::{Desc, Its, LpiTables, RequesterRanges};
use its_types::{Addr, Limits, Listed, Profile, Shape};
use std::alloc::{AllocError, Global};

/// The machine that generated scripts run on.
#[tactic(auto, unfolding(crate::specs::Description::description))]
pub fn description(alloc: Global) -> Result<Desc, AllocError>
    ensures { IfOk result (λ d. d ≡ spec.description) }
{
    let mut windows = Listed::new(alloc);
    windows.push((Addr(0x8000_0000), 0x20_0000))?;
    let mut translators = Listed::new(alloc);
    translators.push(Its {
        restore: None,
        frames: None,
    })?;
    Ok(Desc {
        shape: Shape {
            vcpus: 4,
            dev_bits: 16,
            lpi_bits: 16,
            profile: Profile::One,
            linux: false,
        },
        shards: 16,
        limits: Limits {
            stamp_last: (1 << 24) - 1,
            place_last: (1 << 40) - 1,
        },
        windows,
        memory_limit: 64 << 20,
        tables: tables(alloc)?,
        fills: Listed::new(alloc),
        translators,
        requesters: RequesterRanges::none(alloc),
        from_kvm: false,
        track: false,
    })
}

fn tables(alloc: Global) -> Result<LpiTables, AllocError>
    ensures { IfOk result (λ t. t ≡ spec.tables) }
{
    let pending = [
        Addr(0x8004_0000),
        Addr(0x8005_0000),
        Addr(0x8006_0000),
        Addr(0x8007_0000),
    ];
    Ok(LpiTables::Described {
        config: Addr(0x8003_0000),
        pending: Listed::from_vec(pending.to_vec(alloc)?),
    })
}
