//! The stretches of guest memory that a save looks at.

ghost use Rattle.std.specs.Prelude.{◌≡◌, ◌+◌, ◌*◌, ◌≤◌, ◌<◌, ◌^◌, length, IfSome};
ghost use Rattle.std.specs.FinMap.{entries};
ghost use Rattle.std.specs.List.{AllByRecursion};
ghost use Rattle.baser_place.specs.Places as places;
ghost use Rattle.gicr_regs.specs.Registers.{AreLow};
ghost use Rattle.its_plain.specs.Regions as spec;
ghost use Rattle.its_plain.specs.Sound.{IsShape};
ghost use Rattle.owned_parts.specs.Owned.{AreAllInHand};
ghost use Rattle.table_save.specs.Areas.{itt_areas, redistributors_of};
ghost use Rattle.table_save.specs.Areas.{pending_area, own_config_area, config_areas};
ghost use Rattle.table_save.specs.Areas.{HasLowTable, HaveLowTables, all_areas};
ghost use Rattle.table_save.specs.Fits.{FitsSave, FitsTranslator, all_count, device_count};
ghost use Rattle.table_save.specs.Fits.{second_count, second_tables, second_queue, queues_of};
ghost use Rattle.table_save.specs.Fits.{tables_at, tables_of};
ghost use Rattle.table_save.specs.Rooms.{Appended, HasRoom};

use crate::area::Stretch;
use crate::area_list::AreaList;
use baser_place::{Level1, level1, level1_entries};
use gits_regs::Regs;
use guest_windows::Memory;
use its_maps::Maps;
use its_plain::{Layout, Region};
use its_types::{Bases, Device, DeviceId, Shape, Vcpu};
use lpi_pending::Redists;
use owned_parts::{InPlace, TranslatorRef};

// A page of 64 KiB.
const PAGE: u64 = 65536;

/// Appends the areas of all translators that have to lie in one window each.
pub fn add_tables(areas: &mut AreaList, parts: &InPlace<'_>)
    requires fits { FitsSave parts.now }
    requires room { HasRoom (all_count parts.now + 260) areas.old }
    ensures { Appended (all_count parts.now + 260) (tables_of parts.now) areas.old areas.new }
{
    add_tables_of(areas, 0, parts.first, parts.memory);
    add_second_tables(areas, parts.second, parts.memory);
}

fn add_second_tables(areas: &mut AreaList, second: Option<TranslatorRef<'_>>, memory: &Memory)
    requires fits { IfSome second FitsTranslator }
    requires room { HasRoom (second_count second + 130) areas.old }
    ensures { Appended (second_count second.entry + 130) (second_tables memory.now second.entry)
        areas.old areas.new }
{
    if let Some(translator) = second {
        add_tables_of(areas, 1, translator, memory);
    }
}

// Those of one translator.
fn add_tables_of(areas: &mut AreaList, its: u8, translator: TranslatorRef<'_>, memory: &Memory)
    requires fits { FitsTranslator translator }
    requires room { HasRoom (device_count translator + 130) areas.old }
    ensures { Appended (device_count translator.entry + 130)
        (tables_at its memory.now translator.entry) areas.old areas.new }
{
    add_devices(areas, its, translator.regs, memory);
    add_collections(areas, its, translator.regs);
    add_itts(areas, its, translator.maps);
}

// Appends those of a translator's device table.
#[tactic(auto, unfolding(its_plain::specs::Regions::device_areas))]
fn add_devices(areas: &mut AreaList, its: u8, regs: &Regs, memory: &Memory)
    requires room { HasRoom 129 areas.old }
    ensures { Appended 129 (spec.device_areas its regs.now memory.now) areas.old areas.new }
{
    if !regs.table_valid(0) {
        return;
    }
    if regs.indirect() {
        add_levels(areas, its, regs, memory);
        return;
    }
    let pages = regs.pages(0).min(level1_entries(regs));
    let size = PAGE * u64::from(pages);
    areas.push(Stretch::written(Region::Devices(its), regs.table_base(0).0, size));
}

// Those of a device table of two levels: its first level, and the page of each valid level-1 entry.
fn add_levels(areas: &mut AreaList, its: u8, regs: &Regs, memory: &Memory)
    requires room { HasRoom 129 areas.old }
    ensures { Appended 129 (spec.level1_areas its regs.now memory.now) areas.old areas.new }
{
    let base = regs.table_base(0);
    let size = 8 * u64::from(level1_entries(regs));
    areas.push(Stretch::read_only(Region::Level1(its), base.0, size));
    if memory.inside(base, size) {
        add_pages(areas, its, regs, memory);
    }
}

fn add_pages(areas: &mut AreaList, its: u8, regs: &Regs, memory: &Memory)
    requires room { HasRoom (places.level1_entries regs.now.dev_bits) areas.old }
    ensures { let count = places.level1_entries regs.now.dev_bits in Appended count
        (spec.pages_below its regs.now memory.now count) areas.old areas.new }
{
    for k in 0..level1_entries(regs) {
        add_page(areas, its, k, level1(regs, memory, k));
    }
}

fn add_page(areas: &mut AreaList, its: u8, k: u32, entry: Level1)
    requires room { HasRoom 1 areas.old }
    requires entry { places.HasLowPage entry }
    ensures { Appended 1 (spec.page_area its k (places.page_of entry)) areas.old areas.new }
{
    match entry {
        Level1::Page(page) => {
            areas.push(Stretch::written(Region::Page(its, k), page.0, PAGE));
        }
        Level1::Empty | Level1::Outside(_) => {}
    }
}

// Appends that of a translator's collection table.
fn add_collections(areas: &mut AreaList, its: u8, regs: &Regs)
    requires room { HasRoom 1 areas.old }
    ensures { Appended 1 (spec.collection_areas its regs.now) areas.old areas.new }
{
    if regs.table_valid(1) {
        let size = PAGE * u64::from(regs.pages(1).min(8));
        areas.push(Stretch::written(Region::Collections(its), regs.table_base(1).0, size));
    }
}

// Appends those of a translator's interrupt translation tables, by rising DeviceID.
fn add_itts(areas: &mut AreaList, its: u8, maps: &Maps)
    requires room { HasRoom (length (entries maps.now.maps.devices)) areas.old }
    requires devices { AllByRecursion HasLowTable (entries maps.now.maps.devices) }
    ensures { Appended (length (entries maps.now.maps.devices))
        (itt_areas its (entries maps.now.maps.devices)) areas.old areas.new }
{
    for (dev, device) in maps.devices() {
        areas.push(itt_area(its, dev, device));
    }
}

fn itt_area(its: u8, dev: DeviceId, device: Device) -> Stretch
    requires low { device.itt.0 < 2 ^ 52 }
    requires few { device.bits ≤ 16 }
    ensures { result ≡ spec.itt_area its (dev.0, device) }
{
    Stretch::written(Region::Itt(its, dev), device.itt.0, 8 * (1 << device.bits))
}

// Appends those of the pending tables, but for the bytes that belong to no LPI.
fn add_pending(areas: &mut AreaList, redists: &Redists, shape: Shape)
    requires room { HasRoom shape.vcpus areas.old }
    requires shape { IsShape shape }
    requires in_hand { AreAllInHand shape redists.now }
    requires low { HaveLowTables shape redists.now }
    ensures { Appended shape.vcpus (spec.areas_from (spec.pending_area shape) 0
        (redistributors_of shape redists.now)) areas.old areas.new }
{
    for vcpu in 0..shape.vcpus {
        let conf = redists.conf(Vcpu(vcpu));
        add_pending_of(areas, Vcpu(vcpu), *conf.bases(), shape);
    }
}

fn add_pending_of(areas: &mut AreaList, vcpu: Vcpu, bases: Bases, shape: Shape)
    requires room { HasRoom 1 areas.old }
    requires shape { IsShape shape }
    requires low { AreLow bases }
    ensures { Appended 1 (pending_area shape vcpu bases) areas.old areas.new }
{
    if bases.on {
        let base = bases.pend.table.0 + 1024;
        let size = shape.pending_bytes() - 1024;
        areas.push(Stretch::written(Region::Pending(vcpu), base, size));
    }
}

// Appends that of the configuration table, which all virtual processors share; or where the guest
// programs the LPI registers, that of each whose LPIs are on.
fn add_configs(areas: &mut AreaList, redists: &Redists, layout: &Layout)
    requires room { HasRoom layout.now.shape.vcpus areas.old }
    requires shape { IsShape layout.now.shape }
    requires in_hand { AreAllInHand layout.now.shape redists.now }
    requires low { HaveLowTables layout.now.shape redists.now }
    ensures { Appended layout.now.shape.vcpus (config_areas layout.now
        (redistributors_of layout.now.shape redists.now)) areas.old areas.new }
{
    let shape = layout.shape;
    if layout.gicr {
        add_own_configs(areas, redists, shape);
        return;
    }
    let table = redists.conf(Vcpu(0)).bases().prop.table;
    areas.push(Stretch::read_only(Region::Config, table.0, shape.lpi_count()));
}

fn add_own_configs(areas: &mut AreaList, redists: &Redists, shape: Shape)
    requires room { HasRoom shape.vcpus areas.old }
    requires shape { IsShape shape }
    requires in_hand { AreAllInHand shape redists.now }
    requires low { HaveLowTables shape redists.now }
    ensures { Appended shape.vcpus (spec.areas_from (spec.config_area shape) 0
        (redistributors_of shape redists.now)) areas.old areas.new }
{
    for vcpu in 0..shape.vcpus {
        let conf = redists.conf(Vcpu(vcpu));
        add_own_config(areas, Vcpu(vcpu), *conf.bases(), shape);
    }
}

fn add_own_config(areas: &mut AreaList, vcpu: Vcpu, bases: Bases, shape: Shape)
    requires room { HasRoom 1 areas.old }
    requires shape { IsShape shape }
    requires low { AreLow bases }
    ensures { Appended 1 (own_config_area shape vcpu bases) areas.old areas.new }
{
    if bases.on {
        let region = Region::ConfigOf(vcpu);
        areas.push(Stretch::read_only(region, bases.prop.table.0, shape.lpi_count()));
    }
}

// Appends that of a translator's command queue.
fn add_queue(areas: &mut AreaList, its: u8, regs: &Regs)
    requires room { HasRoom 1 areas.old }
    ensures { Appended 1 (spec.queue_area its regs.now) areas.old areas.new }
{
    if regs.queue_valid() {
        areas.push(Stretch::read_only(Region::Queue(its), regs.queue_base().0, regs.queue_size()));
    }
}

fn add_second_queue(areas: &mut AreaList, second: Option<TranslatorRef<'_>>)
    requires room { HasRoom 1 areas.old }
    ensures { Appended 1 (second_queue second.entry) areas.old areas.new }
{
    if let Some(translator) = second {
        add_queue(areas, 1, translator.regs);
    }
}

/// Appends the others.
pub fn add_others(areas: &mut AreaList, parts: &InPlace<'_>)
    requires fits { FitsSave parts.now }
    requires room { HasRoom (2 * parts.now.layout.now.shape.vcpus + 2) areas.old }
    ensures items { areas.new.items
        ≡ all_areas areas.old.items parts.now.layout.now (queues_of parts.now)
        parts.now.redists.now }
    ensures few { length areas.new.items
        ≤ length areas.old.items + (2 * parts.now.layout.now.shape.vcpus + 2) }
    ensures capacity { areas.old.capacity ≤ areas.new.capacity }
{
    add_pending(areas, parts.redists, parts.layout.shape);
    add_configs(areas, parts.redists, parts.layout);
    add_queue(areas, 0, parts.first.regs);
    add_second_queue(areas, parts.second);
}
