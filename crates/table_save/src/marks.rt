//! Which pages of guest memory a save writes.

ghost use Rattle.std.specs.Prelude.{◌≡◌, ◌++◌, ◌*◌, ◌<◌, ◌≤◌, ◌^◌, ℕ, IfSome};
ghost use Rattle.std.specs.List.{AllByRecursion, flat_map};
ghost use Rattle.std.specs.FinMap.{entries};
ghost use Rattle.baser_place.specs.Places as places;
ghost use Rattle.dirty_log.specs.Copies.{wrote};
ghost use Rattle.gicr_regs.specs.Registers.{AreLow};
ghost use Rattle.its_plain.specs.Saved as saved;
ghost use Rattle.its_plain.specs.Saved.{wrote_tables, pending_words, words_of};
ghost use Rattle.its_plain.specs.Sound.{IsShape};
ghost use Rattle.its_types.specs.Maps as plain;
ghost use Rattle.its_types.specs.declared.machine.Shape as shapes;
ghost use Rattle.its_plain.specs.Plain.{PendState, joined};
ghost use Rattle.owned_parts.specs.Owned.{AreAllInHand, conf_state, state_in_place};
ghost use Rattle.table_save.specs.Areas.{redistributors_of, HasLowTable, HaveLowTables};
ghost use Rattle.table_save.specs.Fits.{AreOfSound, FitsSave, FitsTranslator};
ghost use Rattle.table_save.specs.Fits.{words_at, second_words};
ghost use Rattle.table_save.specs.Tables.{itt_tables};

use baser_place::{Level1, level1, level1_entries};
use dirty_log::Tracked;
use gits_regs::Regs;
use guest_windows::Memory;
use its_maps::Maps;
use its_types::{Addr, Shape, Vcpu};
use lpi_config::Conf;
use lpi_pending::Redists;
use owned_parts::{InPlace, TranslatorRef};

/// Marks the pages of the tables that a save of the parts writes. The second memory may be lent
/// beside them.
pub fn mark_tables(parts: &InPlace<'_>, track: &mut Tracked)
    requires parts { AreAllInHand parts.now.layout.now.shape parts.now.redists.now }
    requires sound { AreOfSound parts.now }
    ensures { track.new ≡ wrote_tables (words_of (state_in_place parts.now)) track.old }
{
    mark_all(parts, track);
}

fn mark_all(parts: &InPlace<'_>, track: &mut Tracked)
    requires { FitsSave parts.now }
    ensures { track.new ≡ wrote_tables ((words_at parts.now.layout.now.shape
        parts.now.memory.now parts.now.first
        ++ second_words parts.now.layout.now.shape parts.now.memory.now parts.now.second)
        ++ flat_map (pending_words parts.now.layout.now.shape)
        (redistributors_of parts.now.layout.now.shape parts.now.redists.now)) track.old }
{
    mark_translator(track, parts.memory, parts.first);
    mark_second(track, parts.memory, parts.second);
    mark_pending(track, parts.redists, parts.layout.shape);
}

fn mark_second(track: &mut Tracked, from: &Memory, second: Option<TranslatorRef<'_>>)
    requires { IfSome second FitsTranslator }
    ensures { (s : shapes.Shape) →
        track.new ≡ wrote_tables (second_words s from.now second.entry) track.old }
{
    if let Some(translator) = second {
        mark_translator(track, from, translator);
    }
}

// Those of one translator.
fn mark_translator(track: &mut Tracked, from: &Memory, translator: TranslatorRef<'_>)
    requires { FitsTranslator translator }
    ensures { (s : shapes.Shape) →
        track.new ≡ wrote_tables (words_at s from.now translator.entry) track.old }
{
    let TranslatorRef { regs, maps } = translator;
    mark_devices(track, from, regs);
    mark_collections(track, regs);
    mark_itts(track, maps);
}

// The device table: a flat one, or the pages of one of two levels.
#[tactic(auto, unfolding(its_plain::specs::Saved::device_words))]
fn mark_devices(track: &mut Tracked, from: &Memory, regs: &Regs)
    ensures { (m : plain.Maps) → track.new ≡ wrote_tables
        (saved.device_words (record { regs = regs.now; maps = m }) from.now) track.old }
{
    if !regs.table_valid(0) {
        return;
    }
    if regs.indirect() {
        mark_pages(track, from, regs);
        return;
    }
    let pages = regs.pages(0).min(level1_entries(regs));
    track.mark(regs.table_base(0), 8 * (8192 * u64::from(pages)));
}

fn mark_pages(track: &mut Tracked, from: &Memory, regs: &Regs)
    ensures { (m : plain.Maps) → track.new ≡ wrote_tables
        (saved.pages_words (record { regs = regs.now; maps = m }) from.now
        (places.level1_entries regs.now.dev_bits)) track.old }
{
    for k in 0..level1_entries(regs) {
        mark_page(track, level1(regs, from, k));
    }
}

fn mark_page(track: &mut Tracked, entry: Level1)
    requires { places.HasLowPage entry }
    ensures { (m : plain.Maps) (k : ℕ) → track.new ≡ wrote_tables
        (saved.page_words m k (places.page_of entry)) track.old }
{
    match entry {
        Level1::Page(page) => track.mark(page, 8 * 8192),
        Level1::Empty | Level1::Outside(_) => {}
    }
}

fn mark_collections(track: &mut Tracked, regs: &Regs)
    ensures { (s : shapes.Shape) (m : plain.Maps) → track.new ≡ wrote_tables
        (saved.collection_words s (record { regs = regs.now; maps = m })) track.old }
{
    if regs.table_valid(1) {
        let pages = regs.pages(1).min(8);
        track.mark(regs.table_base(1), 8 * (8192 * u64::from(pages)));
    }
}

fn mark_itts(track: &mut Tracked, maps: &Maps)
    requires { AllByRecursion HasLowTable (entries maps.now.maps.devices) }
    ensures { track.new
        ≡ wrote_tables (itt_tables maps.now.maps (entries maps.now.maps.devices)) track.old }
{
    for (_, device) in maps.devices() {
        mark_itt(track, device.itt, device.bits);
    }
}

fn mark_itt(track: &mut Tracked, itt: Addr, bits: u8)
    requires low { itt.0 < 2 ^ 52 }
    requires few { bits ≤ 16 }
    ensures { track.new ≡ wrote itt.0 (8 * 2 ^ bits) track.old }
{
    track.mark(itt, 8 * (1 << bits));
}

// The pending tables, but for the bytes that belong to no LPI.
fn mark_pending(track: &mut Tracked, redists: &Redists, shape: Shape)
    requires shape { IsShape shape }
    requires in_hand { AreAllInHand shape redists.now }
    requires low { HaveLowTables shape redists.now }
    ensures { track.new ≡ wrote_tables (flat_map (pending_words shape)
        (redistributors_of shape redists.now)) track.old }
{
    for vcpu in 0..shape.vcpus {
        mark_table(track, redists.conf(Vcpu(vcpu)), shape);
    }
}

// That of a redistributor whose LPIs are on.
fn mark_table(track: &mut Tracked, conf: &Conf, shape: Shape)
    requires shape { IsShape shape }
    requires low { AreLow conf.now.bases }
    ensures { (p : PendState) → track.new
        ≡ wrote_tables (pending_words shape (joined (conf_state conf.now) p)) track.old }
{
    if conf.bases().on {
        let size = 8 * ((shape.pending_bytes() - 1024) / 8);
        track.mark(Addr(conf.bases().pend.table.0 + 1024), size);
    }
}
