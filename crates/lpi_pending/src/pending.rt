//! The pending set of a redistributor.
ghost use Rattle.std.specs.Prelude.{◌≡◌, ◌+◌, ◌*◌, ◌<◌, ◌≤◌, ◌^◌, ◌-◌, ◌/◌, ◌%◌, ◌==◌};
ghost use Rattle.std.specs.Prelude.{if◌then◌else◌, ℕ, true, IfOk, IfSome, All, map};
ghost use Rattle.std.specs.Option.{option_map};
ghost use Rattle.std.specs.List.Sorted.{IsStrictlyIncreasing};
ghost use Rattle.guest_windows.specs.Windows.{inside};
ghost use Rattle.gicr_regs.specs.Redistributors.{pending_in};
ghost use Rattle.its_types.specs.Bits as bits;
ghost use Rattle.its_types.specs.Ranges.{is_lpi, lpi_count, pending_bytes};
ghost use Rattle.its_types.specs.Lpis as spec;
ghost use Rattle.lpi_pending.specs.PendingSets.{none_pending, as_intid, busy_words, summary_words};

use crate::best::first_by_priority;
use crate::bitmap::Bitmap;
use crate::first::first_ready;
use crate::steps::Steps;
use guest_windows::Memory;
use its_types::{Addr, Intid, bit_of, field, with_bit};
use lpi_config::Config;
use std::alloc::{AllocError, Global};
use std::marker::{Brand, Model};
use std::sync::ledger::{Blank, Ledger};

/// The LPIs that are pending at a redistributor (IHI 0069, section 5.1.2), seen as their INTIDs in
/// rising order.
#[derive(Drop)]
pub struct Pending {
    lpi_bits: u8,
    bitmap: Bitmap,
}

impl Model for Pending {
    ghost use Rattle.lpi_pending.specs.PendingSets.{PendingSet, pending_set_code, lpis_of, IsKept};

    ghost Value = { PendingSet };

    ghost coded = { pending_set_code };

    ghost view = { λ p. record { lpi_bits = p.lpi_bits; lpis = lpis_of p.bitmap } };

    ghost invariant = { λ p. IsKept p.lpi_bits p.bitmap };
}

impl Pending {
    /// A set in which no LPI is pending. An LPI's INTID has 14 to 20 bits.
    pub fn new(alloc: Global, lpi_bits: u8) -> Result<Pending, AllocError>
        requires low { 14 ≤ lpi_bits }
        requires high { lpi_bits ≤ 20 }
        ensures { IfOk result (λ p. p ≡ none_pending lpi_bits) }
    {
        let groups = (1 << (lpi_bits - 12)) - 2;
        Ok(Pending {
            lpi_bits,
            bitmap: Bitmap::new(alloc, groups)?,
        })
    }

    /// Makes an LPI pending.
    pub fn set(&mut self, intid: Intid)
        requires { is_lpi self.old.lpi_bits intid.0 ≡ true }
        ensures { self.new ≡ record self.old { lpis = spec.with_lpi intid.0 self.old.lpis } }
    {
        let (at, bit) = place(intid);
        let word = self.bitmap.word(at);
        self.bitmap.put_word(at, with_bit(word, bit, true));
    }

    /// Makes an LPI not pending.
    pub fn clear(&mut self, intid: Intid)
        requires { is_lpi self.old.lpi_bits intid.0 ≡ true }
        ensures { self.new ≡ record self.old { lpis = spec.without_lpi intid.0 self.old.lpis } }
    {
        let (at, bit) = place(intid);
        let word = self.bitmap.word(at);
        self.bitmap.put_word(at, with_bit(word, bit, false));
    }

    /// Whether an LPI is pending.
    pub fn has(&self, intid: Intid) -> bool
        requires { is_lpi self.now.lpi_bits intid.0 ≡ true }
        ensures { result ≡ spec.is_pending intid.0 self.now.lpis }
    {
        let (at, bit) = place(intid);
        bit_of(self.bitmap.word(at), bit)
    }

    /// How many bits the INTID of an LPI has. No other LPI is pending, and the INTIDs rise.
    pub fn lpi_bits(&self) -> u8
        ensures bits { result ≡ self.now.lpi_bits }
        ensures low { 14 ≤ result }
        ensures high { result ≤ 20 }
        ensures rising { IsStrictlyIncreasing self.now.lpis }
        ensures in_range { All (λ x. is_lpi result x ≡ true) self.now.lpis }
    {
        // What the fields keep is known once one of them is looked at.
        let _ = &self.bitmap;
        self.lpi_bits
    }

    /// The lowest LPI that is pending and enabled.
    pub fn first_enabled(&self, config: &Config) -> Option<Intid>
        requires { self.now.lpi_bits ≡ config.now.lpi_bits }
        ensures found { result ≡ option_map as_intid
            (spec.first_enabled config.now.bytes self.now.lpis) }
        ensures in_range { IfSome result (λ intid. is_lpi self.now.lpi_bits intid.0 ≡ true) }
    {
        self.first_enabled_from::<Brand>(config, Blank::new(1))
    }

    fn first_enabled_from<L: Ledger>(&self, config: &Config, blank: Blank) -> Option<Intid>
        requires name { blank.name ≡ L.name }
        requires parts { blank.parts ≡ L.parts }
        requires some { 0 < L.parts }
        requires same_bits { self.now.lpi_bits ≡ config.now.lpi_bits }
        ensures found { result ≡ option_map as_intid
            (spec.first_enabled config.now.bytes self.now.lpis) }
        ensures in_range { IfSome result (λ intid. is_lpi self.now.lpi_bits intid.0 ≡ true) }
    {
        let mut steps = Steps::<L>::new(blank);
        self.first_enabled_in(config, &mut steps)
    }

    /// The lowest LPI that is pending and enabled, and how many words were looked at to find it:
    /// each word of the summary at most once, and of the words of 64 LPIs none but those that have
    /// a pending one.
    pub fn first_enabled_in<L: Ledger>(
        &self,
        config: &Config,
        steps: &mut Steps<L>,
    ) -> Option<Intid>
        requires { self.now.lpi_bits ≡ config.now.lpi_bits }
        ensures found { result ≡ option_map as_intid
            (spec.first_enabled config.now.bytes self.now.lpis) }
        ensures in_range { IfSome result (λ intid. is_lpi self.now.lpi_bits intid.0 ≡ true) }
        ensures cost { steps.new ≤ steps.old + summary_words self.now.lpi_bits + busy_words
            self.now }
    {
        match first_ready(&self.bitmap.looks(config), steps) {
            Some(at) => Some(Intid(8192 + at as u32)),
            None => None,
        }
    }

    /// The LPI that comes first by priority, of those that are pending and enabled and whose
    /// priority is below the mask. Among equal priorities it is the lowest LPI.
    pub fn first_by_priority(&self, config: &Config, mask: u8) -> Option<Intid>
        requires { self.now.lpi_bits ≡ config.now.lpi_bits }
        ensures found { result ≡ option_map as_intid
            (spec.first_by_priority config.now.bytes mask self.now.lpis) }
        ensures in_range { IfSome result (λ intid. is_lpi self.now.lpi_bits intid.0 ≡ true) }
    {
        self.first_by_priority_from::<Brand>(config, mask, Blank::new(1))
    }

    fn first_by_priority_from<L: Ledger>(
        &self,
        config: &Config,
        mask: u8,
        blank: Blank,
    ) -> Option<Intid>
        requires name { blank.name ≡ L.name }
        requires parts { blank.parts ≡ L.parts }
        requires some { 0 < L.parts }
        requires same_bits { self.now.lpi_bits ≡ config.now.lpi_bits }
        ensures found { result ≡ option_map as_intid
            (spec.first_by_priority config.now.bytes mask self.now.lpis) }
        ensures in_range { IfSome result (λ intid. is_lpi self.now.lpi_bits intid.0 ≡ true) }
    {
        let mut steps = Steps::<L>::new(blank);
        self.first_by_priority_in(config, mask, &mut steps)
    }

    /// The LPI that comes first by priority below a mask, and how much was looked at to find it:
    /// each word of the summary once, each word of 64 LPIs that has a pending one, with the 64
    /// bytes of their configuration, and with each of these a word of the summary again; and an LPI
    /// for each of the 64 priorities.
    pub fn first_by_priority_in<L: Ledger>(
        &self,
        config: &Config,
        mask: u8,
        steps: &mut Steps<L>,
    ) -> Option<Intid>
        requires { self.now.lpi_bits ≡ config.now.lpi_bits }
        ensures found { result ≡ option_map as_intid
            (spec.first_by_priority config.now.bytes mask self.now.lpis) }
        ensures in_range { IfSome result (λ intid. is_lpi self.now.lpi_bits intid.0 ≡ true) }
        ensures cost { steps.new ≤ steps.old + summary_words self.now.lpi_bits
            + 2 * busy_words self.now + 64 }
    {
        match first_by_priority(&self.bitmap.looks(config), mask, steps).at {
            Some(at) => Some(Intid(8192 + at as u32)),
            None => None,
        }
    }

    /// This LPI, if it is pending and enabled. A number that is no LPI's is neither.
    pub fn claimable(&self, config: &Config, intid: Intid) -> Option<Intid>
        requires { self.now.lpi_bits ≡ config.now.lpi_bits }
        ensures found { result ≡ option_map as_intid
            (spec.claimable config.now.bytes intid.0 self.now.lpis) }
        ensures in_range { IfSome result (λ intid. is_lpi self.now.lpi_bits intid.0 ≡ true) }
    {
        if !intid.in_range(self.lpi_bits) {
            return None;
        }
        if self.has(intid) && config.byte(intid) % 2 == 1 {
            Some(intid)
        } else {
            None
        }
    }

    /// The LPIs that are pending, in rising order. Of the words of 64 LPIs none is looked at but
    /// those that have a pending one.
    pub fn lpis(&self, alloc: Global) -> Result<Vec<Intid>, AllocError>
        ensures { IfOk result (λ lpis. map (λ i. i.0) lpis.items ≡ self.now.lpis) }
    {
        let mut lpis = Vec::new(alloc);
        let mut from = 0;
        while let Some(at) = self.bitmap.next(from) {
            lpis.push(Intid(8192 + at as u32))?;
            from = at + 1;
        }
        Ok(lpis)
    }

    /// Moves every pending LPI to another set.
    pub fn move_all(&mut self, to: &mut Pending)
        requires { self.old.lpi_bits ≡ to.old.lpi_bits }
        ensures left { self.new ≡ none_pending self.old.lpi_bits }
        ensures moved { to.new ≡ record to.old { lpis = spec.with_lpis self.old.lpis to.old.lpis } }
    {
        self.bitmap.move_to(&mut to.bitmap);
    }

    /// Makes none pending.
    pub fn clear_all(&mut self)
        ensures { self.new ≡ none_pending self.old.lpi_bits }
    {
        self.bitmap.clear();
    }

    /// Makes pending what the pending table that begins at an address says, and nothing else. Where
    /// it doesn't lie in one window nothing changes.
    pub fn read_table(&mut self, memory: &Memory, base: Addr)
        ensures { let bits = self.old.lpi_bits in
            self.new ≡ (if inside memory.now base.0 (pending_bytes bits)
            then record self.old { lpis = pending_in bits memory.now base.0 } else self.old) }
    {
        if memory.inside(base, 1 << (self.lpi_bits - 3)) {
            self.bitmap.read(memory, Addr(base.0 + 1024));
        }
    }

    /// Byte `n` of the pending table, which has the bits of the INTIDs from 8 * `n` on, the lowest
    /// at bit 0. The bytes of LPIs begin at 1024.
    pub fn byte(&self, n: u32) -> u8
        requires low { 1024 ≤ n }
        requires high { n < pending_bytes self.now.lpi_bits }
        ensures { result ≡ spec.pending_byte n self.now.lpis }
    {
        let at = (n - 1024) as usize;
        let shift = 8 * (at % 8) as u32;
        field(self.bitmap.word(at / 8), shift, 8) as u8
    }

    /// Makes pending what byte `n` of the pending table says of its eight INTIDs, and no other of
    /// them.
    pub fn set_byte(&mut self, n: u32, byte: u8)
        requires low { 1024 ≤ n }
        requires high { n < pending_bytes self.old.lpi_bits }
        ensures { self.new ≡ record self.old { lpis = spec.with_byte n byte self.old.lpis } }
    {
        let at = (n - 1024) as usize;
        let word = self.bitmap.word(at / 8);
        self.bitmap
            .put_word(at / 8, with_byte(word, (at % 8) as u32, byte));
    }
}

// Which word has an LPI's bit, and which of its bits it is.
fn place(intid: Intid) -> (usize, u32)
    requires { 8192 ≤ intid.0 }
    ensures word { result.0 ≡ (intid.0 - 8192) / 64 }
    ensures bit { result.1 ≡ (intid.0 - 8192) % 64 }
{
    let at = intid.0 - 8192;
    ((at / 64) as usize, at % 64)
}

// A word with one of its eight bytes replaced.
fn with_byte(word: u64, at: u32, byte: u8) -> u64
    requires { at < 8 }
    ensures { (i : ℕ) → i < 64
        → bits.bit_of result i
        ≡ (if i / 8 == at then bits.bit_of byte (i % 8) else bits.bit_of word i) }
{
    let shift = 8 * at;
    word & !(0xff << shift) | u64::from(byte) << shift
}
