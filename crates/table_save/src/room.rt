//! Room for the tests before a save.
ghost use Rattle.std.specs.Prelude.{◌≡◌, IfOk, length};
ghost use Rattle.std.specs.FinMap.{entries};
ghost use Rattle.table_save.specs.Fits.{second_count};

use crate::area_list::AreaList;
use crate::edges::Edges;
use its_maps::Maps;
use owned_parts::{InPlace, TranslatorRef};
use std::alloc::{AllocError, Global};
use std::marker::Model;

// How many areas two translators have at most beside their devices' own tables: each the first
// level of the device table and its 128 pages, the collection table, and the command queue.
const OF_TRANSLATORS: usize = 262;

/// Room for so many areas in the tests before a save.
#[derive(Drop)]
pub struct SaveRoom {
    spare: usize,
    pub(crate) areas: AreaList,
    pub(crate) all: Edges,
    pub(crate) written: Edges,
}

impl Model for SaveRoom {
    ghost use Rattle.std.specs.Prelude.{◌≤◌};
    ghost use Rattle.table_save.specs.Rooms as spec;

    ghost Value = { spec.SaveRoom };

    ghost view = { λ r. record { spare = r.spare } };

    ghost invariant = { λ r. (r.spare ≤ r.areas.capacity) × (r.spare ≤ r.all.room)
        × (r.spare ≤ r.written.room) };
}

impl SaveRoom {
    ghost use Rattle.std.specs.Prelude.{◌≡◌, ◌+◌, ◌*◌, IfOk};
    ghost use Rattle.table_save.specs.Fits.{area_count};

    /// Room for translators that have so many mapped devices together, and for a pending table and
    /// a configuration table of each of so many virtual processors.
    pub fn new(alloc: Global, devices: usize, vcpus: u16) -> Result<SaveRoom, AllocError>
        ensures { IfOk result (λ r. r.spare ≡ devices + 262 + 2 * vcpus) }
    {
        let Some(count) = devices.checked_add(OF_TRANSLATORS + 2 * usize::from(vcpus)) else {
            return Err(AllocError);
        };
        Ok(SaveRoom {
            spare: count,
            areas: AreaList::new(alloc, count)?,
            all: Edges::new(alloc, count)?,
            written: Edges::new(alloc, count)?,
        })
    }

    /// Room for the devices that are mapped, and for the virtual processors that there are.
    pub fn for_parts(alloc: Global, parts: &InPlace<'_>) -> Result<SaveRoom, AllocError>
        ensures { IfOk result (λ r. r.spare ≡ area_count parts.now) }
    {
        let first = count_devices(parts.first.maps)?;
        let second = count_second(parts.second)?;
        let Some(devices) = first.checked_add(second) else {
            return Err(AllocError);
        };
        SaveRoom::new(alloc, devices, parts.layout.shape.vcpus)
    }
}

// How many devices a translator has mapped.
fn count_devices(maps: &Maps) -> Result<usize, AllocError>
    ensures { IfOk result (λ n. n ≡ length (entries maps.now.maps.devices)) }
{
    let mut devices: usize = 0;
    for _ in maps.devices() {
        let Some(more) = devices.checked_add(1) else {
            return Err(AllocError);
        };
        devices = more;
    }
    Ok(devices)
}

fn count_second(second: Option<TranslatorRef<'_>>) -> Result<usize, AllocError>
    ensures { IfOk result (λ n. n ≡ second_count second.entry) }
{
    match second {
        Some(translator) => count_devices(translator.maps),
        None => Ok(0),
    }
}
