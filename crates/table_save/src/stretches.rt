//! Which stretches of guest memory a save writes.

ghost use Rattle.std.specs.Prelude.{◌≡◌, ◌++◌, ◌∷◌, [], ◌*◌, ◌≤◌, ◌<◌, ◌^◌, ℕ};
ghost use Rattle.std.specs.Prelude.{IfOk, IfSome, OnOk};
ghost use Rattle.std.specs.FinMap.{entries};
ghost use Rattle.std.specs.List.{AllByRecursion, flat_map};
ghost use Rattle.baser_place.specs.Places as places;
ghost use Rattle.gicr_regs.specs.Registers.{AreLow};
ghost use Rattle.guest_windows.specs.Fields.{pairs};
ghost use Rattle.its_plain.specs.Saved as saved;
ghost use Rattle.its_plain.specs.Saved.{pending_words, words_of};
ghost use Rattle.its_plain.specs.Sound.{IsShape};
ghost use Rattle.its_types.specs.Maps as plain;
ghost use Rattle.its_types.specs.declared.machine.Shape as shapes;
ghost use Rattle.its_plain.specs.Plain.{PendState, joined};
ghost use Rattle.owned_parts.specs.Owned.{AreAllInHand, conf_state, state_in_place};
ghost use Rattle.table_save.specs.Areas.{redistributors_of, HasLowTable, HaveLowTables};
ghost use Rattle.table_save.specs.Fits.{AreOfSound, FitsSave, FitsTranslator};
ghost use Rattle.table_save.specs.Fits.{words_at, second_words};
ghost use Rattle.table_save.specs.Stretches.{stretches_of};
ghost use Rattle.table_save.specs.Tables.{itt_tables};

use baser_place::{Level1, level1, level1_entries};
use gits_regs::Regs;
use guest_windows::Memory;
use its_maps::Maps;
use its_types::{Addr, Shape, Vcpu};
use lpi_config::Conf;
use lpi_pending::Redists;
use owned_parts::{InPlace, TranslatorRef};
use std::alloc::{AllocError, Global};

/// The stretches that a save of the parts writes, table by table: where each begins, and how many
/// bytes it has. They are those of the tables as registers and memory have them, whether or not the
/// state can be saved.
pub fn written_tables(alloc: Global, parts: &InPlace<'_>) -> Result<Vec<(Addr, u64)>, AllocError>
    requires parts { AreAllInHand parts.now.layout.now.shape parts.now.redists.now }
    requires sound { AreOfSound parts.now }
    ensures { IfOk result (λ list. pairs list.items
        ≡ stretches_of (words_of (state_in_place parts.now))) }
{
    let mut list = Vec::new(alloc);
    list_all(&mut list, parts)?;
    Ok(list)
}

fn list_all(list: &mut Vec<(Addr, u64)>, parts: &InPlace<'_>) -> Result<(), AllocError>
    requires { FitsSave parts.now }
    ensures { OnOk result (pairs list.new.items ≡ pairs list.old.items
        ++ stretches_of ((words_at parts.now.layout.now.shape parts.now.memory.now parts.now.first
        ++ second_words parts.now.layout.now.shape parts.now.memory.now
        parts.now.second)
        ++ flat_map (pending_words parts.now.layout.now.shape)
        (redistributors_of parts.now.layout.now.shape parts.now.redists.now))) }
{
    list_translator(list, parts.memory, parts.first)?;
    list_second(list, parts.memory, parts.second)?;
    list_pending(list, parts.redists, parts.layout.shape)
}

fn list_second(
    list: &mut Vec<(Addr, u64)>,
    from: &Memory,
    second: Option<TranslatorRef<'_>>,
) -> Result<(), AllocError>
    requires { IfSome second FitsTranslator }
    ensures { OnOk result ((s : shapes.Shape) → pairs list.new.items ≡ pairs list.old.items
        ++ stretches_of (second_words s from.now second.entry)) }
{
    match second {
        Some(translator) => list_translator(list, from, translator),
        None => Ok(()),
    }
}

// Those of one translator.
fn list_translator(
    list: &mut Vec<(Addr, u64)>,
    from: &Memory,
    translator: TranslatorRef<'_>,
) -> Result<(), AllocError>
    requires { FitsTranslator translator }
    ensures { OnOk result ((s : shapes.Shape) → pairs list.new.items ≡ pairs list.old.items
        ++ stretches_of (words_at s from.now translator.entry)) }
{
    let TranslatorRef { regs, maps } = translator;
    list_devices(list, from, regs)?;
    list_collections(list, regs)?;
    list_itts(list, maps)
}

// The device table: a flat one, or the pages of one of two levels.
#[tactic(auto, unfolding(its_plain::specs::Saved::device_words))]
fn list_devices(list: &mut Vec<(Addr, u64)>, from: &Memory, regs: &Regs) -> Result<(), AllocError>
    ensures { OnOk result ((m : plain.Maps) → pairs list.new.items ≡ pairs list.old.items
        ++ stretches_of (saved.device_words (record { regs = regs.now; maps = m }) from.now)) }
{
    if !regs.table_valid(0) {
        return Ok(());
    }
    if regs.indirect() {
        return list_pages(list, from, regs);
    }
    let pages = regs.pages(0).min(level1_entries(regs));
    add(list, regs.table_base(0), 8 * (8192 * u64::from(pages)))
}

fn list_pages(list: &mut Vec<(Addr, u64)>, from: &Memory, regs: &Regs) -> Result<(), AllocError>
    ensures { OnOk result ((m : plain.Maps) → pairs list.new.items ≡ pairs list.old.items
        ++ stretches_of (saved.pages_words (record { regs = regs.now; maps = m }) from.now
        (places.level1_entries regs.now.dev_bits))) }
{
    for k in 0..level1_entries(regs) {
        list_page(list, level1(regs, from, k))?;
    }
    Ok(())
}

fn list_page(list: &mut Vec<(Addr, u64)>, entry: Level1) -> Result<(), AllocError>
    requires { places.HasLowPage entry }
    ensures { OnOk result ((m : plain.Maps) (k : ℕ) → pairs list.new.items
        ≡ pairs list.old.items ++ stretches_of (saved.page_words m k (places.page_of entry))) }
{
    match entry {
        Level1::Page(page) => add(list, page, 8 * 8192),
        Level1::Empty | Level1::Outside(_) => Ok(()),
    }
}

fn list_collections(list: &mut Vec<(Addr, u64)>, regs: &Regs) -> Result<(), AllocError>
    ensures { OnOk result ((s : shapes.Shape) (m : plain.Maps) → pairs list.new.items
        ≡ pairs list.old.items ++ stretches_of
        (saved.collection_words s (record { regs = regs.now; maps = m }))) }
{
    if !regs.table_valid(1) {
        return Ok(());
    }
    let pages = regs.pages(1).min(8);
    add(list, regs.table_base(1), 8 * (8192 * u64::from(pages)))
}

fn list_itts(list: &mut Vec<(Addr, u64)>, maps: &Maps) -> Result<(), AllocError>
    requires { AllByRecursion HasLowTable (entries maps.now.maps.devices) }
    ensures { OnOk result (pairs list.new.items ≡ pairs list.old.items
        ++ stretches_of (itt_tables maps.now.maps (entries maps.now.maps.devices))) }
{
    for (_, device) in maps.devices() {
        list_itt(list, device.itt, device.bits)?;
    }
    Ok(())
}

fn list_itt(list: &mut Vec<(Addr, u64)>, itt: Addr, bits: u8) -> Result<(), AllocError>
    requires { bits ≤ 16 }
    ensures { OnOk result (pairs list.new.items
        ≡ pairs list.old.items ++ (itt.0, 8 * 2 ^ bits) ∷ []) }
{
    add(list, itt, 8 * (1 << bits))
}

// The pending tables, but for the bytes that belong to no LPI.
fn list_pending(
    list: &mut Vec<(Addr, u64)>,
    redists: &Redists,
    shape: Shape,
) -> Result<(), AllocError>
    requires shape { IsShape shape }
    requires in_hand { AreAllInHand shape redists.now }
    requires low { HaveLowTables shape redists.now }
    ensures { OnOk result (pairs list.new.items ≡ pairs list.old.items
        ++ stretches_of (flat_map (pending_words shape)
        (redistributors_of shape redists.now))) }
{
    for vcpu in 0..shape.vcpus {
        list_table(list, redists.conf(Vcpu(vcpu)), shape)?;
    }
    Ok(())
}

// That of a redistributor whose LPIs are on.
fn list_table(list: &mut Vec<(Addr, u64)>, conf: &Conf, shape: Shape) -> Result<(), AllocError>
    requires shape { IsShape shape }
    requires low { AreLow conf.now.bases }
    ensures { OnOk result ((p : PendState) → pairs list.new.items ≡ pairs list.old.items
        ++ stretches_of (pending_words shape (joined (conf_state conf.now) p))) }
{
    if !conf.bases().on {
        return Ok(());
    }
    let size = 8 * ((shape.pending_bytes() - 1024) / 8);
    add(list, Addr(conf.bases().pend.table.0 + 1024), size)
}

fn add(list: &mut Vec<(Addr, u64)>, base: Addr, len: u64) -> Result<(), AllocError>
    ensures { OnOk result (pairs list.new.items ≡ pairs list.old.items ++ (base.0, len) ∷ []) }
{
    list.push((base, len))?;
    Ok(())
}
