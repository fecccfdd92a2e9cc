//! The LPI configuration that a redistributor has read.
ghost use Rattle.std.specs.Prelude.{◌≡◌, ◌+◌, ◌*◌, ◌/◌, ◌<◌, ◌≤◌, ℕ, true, Some, IfOk, unwrap_or};
ghost use Rattle.std.specs.Prelude.{length, nat_lt};
ghost use Rattle.its_types.specs.Bits.{bit_of};
ghost use Rattle.its_types.specs.Ranges.{is_lpi, lpi_count};
ghost use Rattle.its_types.specs.Lpis.{config_byte, with_config_byte, is_enabled, priority_of};
ghost use Rattle.guest_windows.specs.Windows.{inside, read_at};
ghost use Rattle.lpi_config.specs.Bounds.{least_priority};
ghost use Rattle.lpi_config.specs.Configurations as spec;
ghost use Rattle.lpi_config.specs.Searches.{FirstIn};

use crate::bounds::Bounds;
use crate::enabled::put_enabled_bits;
use crate::least::{bytes_at, least_rank, priorities_below};
use guest_windows::Memory;
use its_types::{Addr, Intid, put_bit};
use std::alloc::{AllocError, Global};
use std::marker::Model;

/// The LPI configuration that a redistributor has read (IHI 0069, section 5.1.1), seen as its
/// bytes.
#[derive(Drop)]
pub struct Config {
    lpi_bits: u8,
    bytes: Vec<u8>,
    // Bit 0 of each byte, 64 to a word.
    enabled: Vec<u64>,
    // Least priorities of those that are enabled.
    bounds: Bounds,
}

impl Model for Config {
    ghost use Rattle.lpi_config.specs.Configurations.{Configuration, configuration_code, IsKept};

    ghost Value = { Configuration };

    ghost coded = { configuration_code };

    ghost view = { λ c. record { lpi_bits = c.lpi_bits; bytes = c.bytes.items } };

    ghost invariant = { λ c. IsKept c.lpi_bits c.bytes.items c.enabled.items c.bounds };
}

impl Config {
    /// Reads the configuration table that begins at an address: the bytes of all LPIs. An LPI's
    /// INTID has 14 to 20 bits.
    pub fn load(
        alloc: Global,
        memory: &Memory,
        base: Addr,
        lpi_bits: u8,
    ) -> Result<Config, AllocError>
        requires low { 14 ≤ lpi_bits }
        requires high { lpi_bits ≤ 20 }
        requires inside { inside memory.now base.0 (lpi_count lpi_bits) ≡ true }
        ensures bits { IfOk result (λ c. c.lpi_bits ≡ lpi_bits) }
        ensures bytes { IfOk result
            (λ c. read_at memory.now base.0 (lpi_count lpi_bits) ≡ Some c.bytes) }
    {
        let mut config = Config::zeros(alloc, lpi_bits)?;
        config.read_table(memory, base);
        Ok(config)
    }

    /// The configuration of a redistributor whose LPIs are off: all bytes zero. An LPI's INTID has
    /// 14 to 20 bits.
    pub fn zeros(alloc: Global, lpi_bits: u8) -> Result<Config, AllocError>
        requires low { 14 ≤ lpi_bits }
        requires high { lpi_bits ≤ 20 }
        ensures { IfOk result (λ c. c ≡ spec.zeros lpi_bits) }
    {
        let count = lpi_count(lpi_bits);
        Ok(Config {
            lpi_bits,
            bytes: vec![in alloc; 0; count]?,
            enabled: vec![in alloc; 0; count / 64]?,
            bounds: Bounds::new(alloc, count / 4096)?,
        })
    }

    /// Makes all bytes zero.
    pub fn clear(&mut self)
        ensures { self.new ≡ spec.zeros self.old.lpi_bits }
    {
        self.bytes.fill(0);
        self.enabled.fill(0);
        self.bounds.clear();
    }

    /// Reads the configuration table that begins at an address, in place of the bytes of all LPIs.
    /// Where it doesn't lie in one window nothing changes.
    pub fn read_table(&mut self, memory: &Memory, base: Addr)
        ensures { let read = read_at memory.now base.0 (lpi_count self.old.lpi_bits) in
            self.new ≡ record self.old { bytes = unwrap_or read self.old.bytes } }
    {
        if memory.read(base, &mut self.bytes).is_ok() {
            put_enabled_bits(&mut self.enabled, &self.bytes);
            self.bounds.put_all(&self.bytes);
        }
    }

    /// How many bits the INTID of an LPI has, which says how many bytes there are.
    pub fn lpi_bits(&self) -> u8
        ensures bits { result ≡ self.now.lpi_bits }
        ensures low { 14 ≤ result }
        ensures high { result ≤ 20 }
        ensures size { length self.now.bytes ≡ lpi_count result }
    {
        self.lpi_bits
    }

    /// An LPI's byte: bit 0 enables it, and bits 7 to 2 are its priority.
    pub fn byte(&self, intid: Intid) -> u8
        requires { is_lpi self.now.lpi_bits intid.0 ≡ true }
        ensures { result ≡ config_byte self.now.bytes intid.0 }
    {
        self.bytes[(intid.0 - 8192) as usize]
    }

    /// Replaces an LPI's byte by one that was read again.
    pub fn reload(&mut self, intid: Intid, byte: u8)
        requires { is_lpi self.old.lpi_bits intid.0 ≡ true }
        ensures { self.new ≡ record self.old {
          bytes =
              with_config_byte self.old.bytes intid.0 byte;
        } }
    {
        let at = (intid.0 - 8192) as usize;
        if self.bytes[at] == byte {
            return;
        }
        self.bytes[at] = byte;
        put_bit(&mut self.enabled, at, byte & 1 == 1);
        self.bounds
            .put(at / 64, least_rank(bytes_at(&self.bytes, at / 64)));
    }

    /// Which of 64 LPIs are enabled, the lowest at bit 0: those from INTID 8192 + 64 * `at` on.
    pub fn enabled_word(&self, at: usize) -> u64
        requires { 64 * at < lpi_count self.now.lpi_bits }
        ensures { (k : ℕ) → k < 64 → bit_of result k ≡ is_enabled self.now.bytes
            (8192 + 64 * at + k) }
    {
        self.enabled[at]
    }

    /// Which of 64 LPIs have a priority below a limit, enabled or not, the lowest at bit 0: those
    /// from INTID 8192 + 64 * `at` on.
    pub fn word_below(&self, at: usize, limit: u8) -> u64
        requires { 64 * at < lpi_count self.now.lpi_bits }
        ensures { (k : ℕ) → k < 64 → bit_of result k
            ≡ nat_lt (priority_of self.now.bytes (8192 + 64 * at + k)) limit }
    {
        priorities_below(bytes_at(&self.bytes, at), limit)
    }

    /// The least priority of those of 64 LPIs that are enabled, and 255 where none is: those from
    /// INTID 8192 + 64 * `at` on.
    pub fn word_priority(&self, at: usize) -> u8
        requires { 64 * at < lpi_count self.now.lpi_bits }
        ensures { result ≡ least_priority self.now.bytes (8192 + 64 * at) 64 }
    {
        self.bounds.word(at)
    }

    /// Which words of 64 LPIs have an enabled one with a priority below a limit, the lowest at bit
    /// 0: of the 64 words from INTID 8192 + 4096 * `group` on.
    pub fn words_below(&self, group: usize, limit: u8) -> u64
        requires { 4096 * group < lpi_count self.now.lpi_bits }
        ensures { (k : ℕ) → k < 64 → bit_of result k
            ≡ nat_lt (least_priority self.now.bytes (8192 + 64 * (64 * group + k)) 64) limit }
    {
        self.bounds.words_below(group, limit)
    }

    /// The first group from this one on that has an enabled LPI with a priority below a limit.
    /// Group `g` has the 4096 LPIs from INTID 8192 + 4096 * `g` on.
    pub fn next_group_below(&self, from: usize, limit: u8) -> Option<usize>
        ensures { FirstIn
            (λ g. nat_lt (least_priority self.now.bytes (8192 + 4096 * g) 4096) limit)
            from (lpi_count self.now.lpi_bits / 4096) result }
    {
        self.bounds.next_group_below(from, limit)
    }
}

// How many LPIs there are.
fn lpi_count(lpi_bits: u8) -> usize
    requires low { 14 ≤ lpi_bits }
    requires high { lpi_bits ≤ 20 }
    ensures count { result ≡ lpi_count lpi_bits }
    ensures words { 64 * (result / 64) ≡ result }
    ensures groups { 4096 * (result / 4096) ≡ result }
    ensures most { result ≤ 1048576 }
{
    (1 << lpi_bits) - 8192
}
