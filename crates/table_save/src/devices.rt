//! The device table.

ghost use Rattle.guest_windows.specs.Drafts.{laid};
ghost use Rattle.std.specs.Prelude.{◌≡◌, ◌+◌, ◌*◌, ◌<◌, ◌≤◌, ◌^◌, length, IfSome, OnOk};
ghost use Rattle.std.specs.FinMap.{entries};
ghost use Rattle.its_plain.specs.Saved.{put_words, put_tables, device_words};
ghost use Rattle.table_save.specs.Tables.{AreLowPages, page_table, page_tables};
ghost use Rattle.std.specs.List.{AllByRecursion};
ghost use Rattle.table_save.specs.Pass.{RisesFrom, FitsDevice, device_entry_word, PassedDevices};

use crate::pages::read_pages;
use crate::words::{BLOCK, put_block, put_zeros};
use baser_place::level1_entries;
use gits_regs::Regs;
use guest_windows::{Draft, Memory};
use its_maps::{DeviceWalk, Maps};
use its_types::{Addr, Device, DeviceId};
use std::alloc::AllocError;
use std::marker::Model;
use table_entries::Dte;

/// The devices that are not written yet, by rising DeviceID.
#[derive(Drop)]
pub struct DeviceFront<'a> {
    first: Option<(DeviceId, Device)>,
    rest: DeviceWalk<'a>,
}

impl<'a> Model for DeviceFront<'a> {
    ghost use Rattle.std.specs.Prelude.{ℕ, List};
    ghost use Rattle.its_types.specs.declared.translation.Device.{Device};
    ghost use Rattle.table_save.specs.Pass.{devices_with};

    ghost Value = { List (ℕ × Device) };

    ghost view = { λ f. devices_with f.first f.rest };
}

impl<'a> DeviceFront<'a> {
    ghost use Rattle.guest_windows.specs.Drafts.{laid};
    ghost use Rattle.std.specs.Prelude.{◌≡◌, ◌+◌, ◌<◌, ◌≤◌, ◌^◌, ℕ, OnOk, drop, false, length};
    ghost use Rattle.std.specs.Prelude.{slice_index};
    ghost use Rattle.std.specs.List.{AllByRecursion};
    ghost use Rattle.std.specs.FinMap.{entries};
    ghost use Rattle.its_plain.specs.Saved as saved;
    ghost use Rattle.its_plain.specs.Saved.{put_words};
    ghost use Rattle.table_save.specs.Pass.{RisesFrom, FitsDevice, PassedDevices};
    ghost use Rattle.table_save.specs.Pass.{device_entry_word, begins_below, first_key, past};

    /// All mapped devices.
    pub fn new(maps: &'a Maps) -> DeviceFront<'a>
        ensures { result ≡ entries maps.now.maps.devices }
    {
        let mut rest = maps.devices();
        let first = rest.next();
        DeviceFront { first, rest }
    }

    // The word of a place, at which the devices begin at the earliest; the device there is then
    // written.
    fn word_at(&mut self, id: u32) -> u64
        requires rises { RisesFrom id self.old }
        requires fit { AllByRecursion FitsDevice self.old }
        ensures word { result ≡ device_entry_word self.old id }
        ensures rest { self.new ≡ past id self.old }
    {
        match self.first {
            Some((dev, device)) if dev.0 == id => {
                self.first = self.rest.next();
                let entry = Dte {
                    next: self.distance(id),
                    itt: device.itt,
                    bits: device.bits,
                };
                entry.pack()
            }
            _ => 0,
        }
    }

    // The words of some places, at the first of which the devices begin at the earliest.
    fn words_at(&mut self, id: u32, words: &mut [u64])
        requires few { id + length words.old < 2 ^ 32 }
        requires rises { RisesFrom id self.old }
        requires fit { AllByRecursion FitsDevice self.old }
        ensures length { length words.new ≡ length words.old }
        ensures words { (k : ℕ) → k < length words.old
            → slice_index words.new k ≡ device_entry_word self.old (id + k) }
        ensures rest { PassedDevices (id + length words.old) self.old self.new }
    {
        for i in 0..words.len() {
            words[i] = self.word_at(id + i as u32);
        }
    }

    // How many of the next places are written at once: those before the first device, where they
    // are more than a block, or else a block. At the first of them the devices begin at the
    // earliest.
    fn span(&self, id: u32, most: u32) -> u32
        requires some { 0 < most }
        requires rises { RisesFrom id self.now }
        ensures some { 0 < result }
        ensures most { result ≤ most }
        ensures free { 512 < result → begins_below (id + result) self.now ≡ false }
    {
        let gap = match self.first {
            Some((dev, _)) => most.min(dev.0 - id),
            None => most,
        };
        if gap > BLOCK { gap } else { most.min(BLOCK) }
    }

    // Writes the places of a block, or of more without a device, at the first of which the devices
    // begin at the earliest.
    fn put_block(
        &mut self,
        draft: &mut Draft,
        under: &Memory,
        base: u64,
        id: u32,
        count: u32,
    ) -> Result<(), AllocError>
        requires low { base < 2 ^ 54 }
        requires few { 512 < count → begins_below (id + count) self.old ≡ false }
        requires fits { id + count < 2 ^ 32 }
        requires rises { RisesFrom id self.old }
        requires fit { AllByRecursion FitsDevice self.old }
        ensures memory { OnOk result (laid draft.new under.now
            ≡ put_words (laid draft.old under.now) base
            (λ i. device_entry_word self.old (id + i)) count) }
        ensures rest { PassedDevices (id + count) self.old self.new }
    {
        if !self.begins_below(id + count) {
            return put_zeros(draft, under, base, count);
        }
        let mut words = [0u64; BLOCK as usize];
        let words = &mut words[..count as usize];
        self.words_at(id, words);
        put_block(draft, under, base, words)
    }

    /// Passes over the devices before a place.
    pub fn skip_below(&mut self, id: u32)
        requires rises { RisesFrom 0 self.old }
        requires fit { AllByRecursion FitsDevice self.old }
        ensures { PassedDevices id self.old self.new }
    {
        while self.begins_below(id) {
            self.pass_first();
        }
    }

    fn begins_below(&self, id: u32) -> bool
        ensures { result ≡ begins_below id self.now }
    {
        matches!(self.first, Some((dev, _)) if dev.0 < id)
    }

    fn pass_first(&mut self)
        ensures { self.new ≡ drop 1 self.old }
    {
        if self.first.is_some() {
            self.first = self.rest.next();
        }
    }

    // How far the first one is, at most 16383, or 0 where there is none.
    fn distance(&self, id: u32) -> u16
        requires { RisesFrom (id + 1) self.now }
        ensures distance { result ≡ saved.distance 16383 id (first_key self.now) }
        ensures fits { result < 2 ^ 14 }
    {
        match self.first {
            Some((dev, _)) => (dev.0 - id).min(16383) as u16,
            None => 0,
        }
    }
}

/// Writes so many places of a device table, of which the first is that of a DeviceID and stands at
/// an address.
pub fn put_places(
    draft: &mut Draft,
    under: &Memory,
    base: u64,
    first: u32,
    count: u32,
    front: &mut DeviceFront,
) -> Result<(), AllocError>
    requires low { base < 2 ^ 53 }
    requires few { first + count < 2 ^ 32 }
    requires rises { RisesFrom first front.old }
    requires fit { AllByRecursion FitsDevice front.old }
    ensures memory { OnOk result (laid draft.new under.now
        ≡ put_words (laid draft.old under.now) base
        (λ i. device_entry_word front.old (first + i)) count) }
    ensures rest { OnOk result (PassedDevices (first + count) front.old front.new) }
{
    let mut done = 0;
    while done < count {
        let more = front.span(first + done, count - done);
        front.put_block(draft, under, base + 8 * u64::from(done), first + done, more)?;
        done += more;
    }
    Ok(())
}

/// Writes the pages of a device table of two levels, which have so many places each.
pub fn put_pages(
    draft: &mut Draft,
    under: &Memory,
    pages: &[Option<Addr>],
    per_page: u32,
    maps: &Maps,
) -> Result<(), AllocError>
    requires few { length pages.now ≤ 128 }
    requires short { per_page ≤ 8192 }
    requires low { AreLowPages pages.now }
    requires fit { AllByRecursion FitsDevice (entries maps.now.maps.devices) }
    ensures { OnOk result (laid draft.new under.now
        ≡ put_tables (laid draft.old under.now)
        (page_tables (entries maps.now.maps.devices) per_page pages.now (length pages.now))) }
{
    let mut front = DeviceFront::new(maps);
    for (k, page) in pages.iter().enumerate() {
        put_page(
            draft,
            under,
            *page,
            per_page * k as u32,
            per_page,
            &mut front,
        )?;
    }
    Ok(())
}

// Writes a page, if there is one, and passes over its places.
fn put_page(
    draft: &mut Draft,
    under: &Memory,
    page: Option<Addr>,
    first: u32,
    count: u32,
    front: &mut DeviceFront,
) -> Result<(), AllocError>
    requires few { first + count < 2 ^ 24 }
    requires low { IfSome page (λ a. a.0 < 2 ^ 52) }
    requires rises { RisesFrom first front.old }
    requires fit { AllByRecursion FitsDevice front.old }
    ensures memory { OnOk result (laid draft.new under.now
        ≡ put_tables (laid draft.old under.now) (page_table front.old first count page)) }
    ensures rest { OnOk result (PassedDevices (first + count) front.old front.new) }
{
    match page {
        Some(base) => put_places(draft, under, base.0, first, count, front),
        None => {
            front.skip_below(first + count);
            Ok(())
        }
    }
}

/// Writes the device table: a flat one, or the pages of one of two levels, as its first level in
/// the memory under the draft says.
#[tactic(auto, unfolding(its_plain::specs::Saved::device_words))]
pub fn put_devices(
    draft: &mut Draft,
    under: &Memory,
    regs: &Regs,
    maps: &Maps,
) -> Result<(), AllocError>
    requires { AllByRecursion FitsDevice (entries maps.now.maps.devices) }
    ensures { OnOk result (laid draft.new under.now
        ≡ put_tables (laid draft.old under.now)
        (device_words (record { regs = regs.now; maps = maps.now.maps }) under.now)) }
{
    if !regs.table_valid(0) {
        return Ok(());
    }
    if regs.indirect() {
        let pages = read_pages(regs, under);
        let pages = &pages[..level1_entries(regs) as usize];
        return put_pages(draft, under, pages, 8192, maps);
    }
    let count = 8192 * regs.pages(0).min(level1_entries(regs));
    let mut front = DeviceFront::new(maps);
    put_places(draft, under, regs.table_base(0).0, 0, count, &mut front)
}
