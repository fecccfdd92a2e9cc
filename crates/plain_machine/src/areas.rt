//! Stretches of guest memory that a save looks at.
ghost use Rattle.std.specs.Prelude.{◌≡◌, ◌≤◌, ◌+◌, ◌++◌, OnOk, find};
ghost use Rattle.baser_place.specs.Places as places;
ghost use Rattle.its_plain.specs.Regions as spec;

use baser_place::{Level1, level1, level1_entries};
use gits_regs::Regs;
use guest_windows::Memory;
use its_plain::{Area, Region, SaveFault};
use its_types::Addr;
use std::alloc::AllocError;

/// How many bytes a page of a table has.
const PAGE_SIZE: u64 = 65536;

/// Adds the areas of a device table.
#[tactic(auto, unfolding(its_plain::specs::Regions::device_areas))]
pub fn add_devices(
    areas: &mut Vec<Area>,
    its: u8,
    regs: &Regs,
    memory: &Memory,
) -> Result<(), AllocError>
    ensures { OnOk result
        (areas.new.items ≡ areas.old.items ++ spec.device_areas its regs.now memory.now) }
{
    if !regs.table_valid(0) {
        return Ok(());
    }
    if regs.indirect() {
        return add_levels(areas, its, regs, memory);
    }
    areas.push(Area {
        region: Region::Devices(its),
        base: regs.table_base(0).0,
        size: PAGE_SIZE * u64::from(regs.pages(0).min(level1_entries(regs))),
        is_written: true,
    })?;
    Ok(())
}

// The first level, and where it is in memory its pages.
fn add_levels(
    areas: &mut Vec<Area>,
    its: u8,
    regs: &Regs,
    memory: &Memory,
) -> Result<(), AllocError>
    ensures { OnOk result
        (areas.new.items ≡ areas.old.items ++ spec.level1_areas its regs.now memory.now) }
{
    let base = regs.table_base(0);
    let size = 8 * u64::from(level1_entries(regs));
    areas.push(Area {
        region: Region::Level1(its),
        base: base.0,
        size,
        is_written: false,
    })?;
    if memory.inside(base, size) {
        add_pages(areas, its, regs, memory)?;
    }
    Ok(())
}

fn add_pages(areas: &mut Vec<Area>, its: u8, regs: &Regs, memory: &Memory) -> Result<(), AllocError>
    ensures { OnOk result (areas.new.items
        ≡ areas.old.items ++ spec.pages_below its regs.now memory.now
        (places.level1_entries regs.now.dev_bits)) }
{
    for k in 0..level1_entries(regs) {
        add_page(areas, its, k, level1(regs, memory, k))?;
    }
    Ok(())
}

fn add_page(areas: &mut Vec<Area>, its: u8, k: u32, entry: Level1) -> Result<(), AllocError>
    ensures { OnOk result (areas.new.items ≡ areas.old.items ++ spec.page_area its k
        (places.page_of entry)) }
{
    if let Level1::Page(base) = entry {
        areas.push(Area {
            region: Region::Page(its, k),
            base: base.0,
            size: PAGE_SIZE,
            is_written: true,
        })?;
    }
    Ok(())
}

/// Adds the area of a collection table.
pub fn add_collections(areas: &mut Vec<Area>, its: u8, regs: &Regs) -> Result<(), AllocError>
    ensures { OnOk result
        (areas.new.items ≡ areas.old.items ++ spec.collection_areas its regs.now) }
{
    if regs.table_valid(1) {
        areas.push(Area {
            region: Region::Collections(its),
            base: regs.table_base(1).0,
            size: PAGE_SIZE * u64::from(regs.pages(1).min(8)),
            is_written: true,
        })?;
    }
    Ok(())
}

/// Adds the area of a command queue.
pub fn add_queue(areas: &mut Vec<Area>, its: u8, regs: &Regs) -> Result<(), AllocError>
    ensures { OnOk result (areas.new.items ≡ areas.old.items ++ spec.queue_area its regs.now) }
{
    if regs.queue_valid() {
        areas.push(Area {
            region: Region::Queue(its),
            base: regs.queue_base().0,
            size: regs.queue_size(),
            is_written: false,
        })?;
    }
    Ok(())
}

/// The first area that doesn't lie in one window.
pub fn first_outside(areas: &[Area], memory: &Memory) -> Option<Area>
    ensures { result ≡ find (spec.is_outside memory.now) areas.now }
{
    areas
        .iter()
        .copied()
        .find(|area| !memory.inside(Addr(area.base), area.size))
}

// Whether two areas share a byte, and one of them is written.
fn clash(a: &Area, b: &Area) -> bool
    ensures { result ≡ spec.clash a.now b.now }
{
    (a.is_written || b.is_written) && u128::from(a.base) < end(b) && u128::from(b.base) < end(a)
}

fn end(area: &Area) -> u128
    ensures { result ≡ area.now.base + area.now.size }
{
    u128::from(area.base) + u128::from(area.size)
}

/// No two areas clash, or the first two that do.
pub fn none_overlap(areas: &[Area]) -> Result<(), SaveFault>
    ensures { result ≡ spec.none_overlap areas.now }
{
    let mut rest = areas;
    while let [first, others @ ..] = rest {
        if let Some(other) = first_clash(first, others) {
            return Err(SaveFault::Overlap(first.region, other.region));
        }
        rest = others;
    }
    Ok(())
}

// The first of some areas that an area clashes with.
fn first_clash(area: &Area, others: &[Area]) -> Option<Area>
    ensures { result ≡ find (spec.clash area.now) others.now }
{
    others.iter().copied().find(|other| clash(area, other))
}
