//! Whether stretches lie in memory, and devices have a place.
ghost use Rattle.std.specs.Prelude.{◌≡◌, find, is_some};
ghost use Rattle.std.specs.FinMap.{entries};
ghost use Rattle.baser_place.specs.Places.{page_of};
ghost use Rattle.its_plain.specs.Regions as spec;
ghost use Rattle.owned_parts.specs.Owned.{translators_at};
ghost use Rattle.table_save.specs.Checked.{outside_fault, unplaced_fault, second_unplaced};

use crate::area::Stretch;
use baser_place::{Level1, level1};
use gits_regs::Regs;
use guest_windows::Memory;
use its_maps::Maps;
use its_plain::SaveFault;
use owned_parts::{InPlace, TranslatorRef};

/// Each of the areas lies in one window, or the first that doesn't.
pub fn all_inside(memory: &Memory, areas: &[Stretch]) -> Result<(), SaveFault>
    ensures { result ≡ outside_fault (find (spec.is_outside memory.now) areas.now) }
{
    for area in areas {
        if area.is_outside(memory) {
            return Err(SaveFault::Outside(area.region()));
        }
    }
    Ok(())
}

/// The level-1 entry of each mapped device is valid, or the first device whose entry isn't, of the
/// first translator and then of the second.
pub fn all_placed(parts: &InPlace<'_>) -> Result<(), SaveFault>
    ensures { result
        ≡ spec.all_placed parts.now.memory.now 0
        (translators_at parts.now.first parts.now.second) }
{
    let InPlace { first, memory, .. } = parts;
    placed(0, first.regs, memory, first.maps)?;
    second_placed(parts.second, memory)
}

fn second_placed(second: Option<TranslatorRef<'_>>, memory: &Memory) -> Result<(), SaveFault>
    ensures { result ≡ second_unplaced memory.now second.entry }
{
    match second {
        Some(translator) => placed(1, translator.regs, memory, translator.maps),
        None => Ok(()),
    }
}

// Those of one translator.
fn placed(its: u8, regs: &Regs, memory: &Memory, maps: &Maps) -> Result<(), SaveFault>
    ensures { result
        ≡ unplaced_fault its
        (find (spec.has_no_place regs.now memory.now) (entries maps.now.maps.devices)) }
{
    for (dev, _) in maps.devices() {
        if regs.indirect() && !is_page(level1(regs, memory, dev.0 / 8192)) {
            return Err(SaveFault::NoPlace(its, dev));
        }
    }
    Ok(())
}

fn is_page(entry: Level1) -> bool
    ensures { result ≡ is_some (page_of entry) }
{
    matches!(entry, Level1::Page(_))
}
