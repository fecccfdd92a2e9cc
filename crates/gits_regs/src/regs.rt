//! The registers of a translator, and what their fields say.
ghost use Rattle.std.specs.Prelude.{◌≡◌, ◌<◌, ◌≤◌, ◌^◌, nat_lt};
ghost use Rattle.gits_regs.specs.Registers as spec;

use its_types::{Addr, bit_of, field};
use std::marker::Model;

/// The registers, and how many bits a DeviceID has. A contract sees them as a record of the specs;
/// each value keeps what every sequence of writes keeps (`IsSound`).
#[derive(Clone, Copy, Debug, PartialEq, Eq)]
pub struct Regs {
    pub(crate) dev_bits: u8,
    pub(crate) enabled: bool,
    pub(crate) cbaser: u64,
    pub(crate) creadr: u64,
    pub(crate) cwriter: u64,
    pub(crate) baser0: u64,
    pub(crate) baser1: u64,
}

impl Model for Regs {
    ghost use Rattle.gits_regs.specs.Registers.{Registers, IsSound, registers_code};

    ghost Value = { Registers };

    ghost coded = { registers_code };

    ghost view = { λ r. record {
      dev_bits = r.dev_bits;
      enabled = r.enabled;
      cbaser = r.cbaser;
      creadr = r.creadr;
      cwriter = r.cwriter;
      baser0 = r.baser0;
      baser1 = r.baser1;
    } };

    ghost invariant = { λ r. IsSound (record {
      dev_bits = r.dev_bits;
      enabled = r.enabled;
      cbaser = r.cbaser;
      creadr = r.creadr;
      cwriter = r.cwriter;
      baser0 = r.baser0;
      baser1 = r.baser1;
    }) };

    ghost inverse = { λ r. record {
      dev_bits = r.dev_bits;
      enabled = r.enabled;
      cbaser = r.cbaser;
      creadr = r.creadr;
      cwriter = r.cwriter;
      baser0 = r.baser0;
      baser1 = r.baser1;
    } };
}

impl Regs {
    /// As nothing was written yet, with DeviceIDs of 16 to 20 bits.
    pub fn reset(dev_bits: u8) -> Regs
        requires least { 16 ≤ dev_bits }
        requires most { dev_bits ≤ 20 }
        ensures { result ≡ spec.reset dev_bits }
    {
        Regs {
            dev_bits,
            enabled: false,
            cbaser: 0,
            creadr: 0,
            cwriter: 0,
            baser0: 0x0107_0000_0000_0200,
            baser1: 0x0407_0000_0000_0200,
        }
    }

    /// What each value keeps, for a caller's proof.
    pub fn keeps_rules(&self)
        ensures { spec.IsSound self.now }
    {
        let _enabled = self.enabled;
    }

    /// How many bits a DeviceID has.
    pub fn dev_bits(&self) -> u8
        ensures { result ≡ self.now.dev_bits }
    {
        self.dev_bits
    }

    /// Whether the translator works.
    pub fn enabled(&self) -> bool
        ensures { result ≡ self.now.enabled }
    {
        self.enabled
    }

    /// Where the command queue begins.
    pub fn queue_base(&self) -> Addr
        ensures { result.0 ≡ spec.queue_base self.now }
    {
        Addr(field(self.cbaser, 16, 36) * (1 << 16))
    }

    /// How many bytes the command queue has.
    pub fn queue_size(&self) -> u64
        ensures size { result ≡ spec.queue_size self.now }
        ensures most { result ≤ 1048576 }
    {
        size_of(self.cbaser)
    }

    /// Whether the command queue has a valid base.
    pub fn queue_valid(&self) -> bool
        ensures { result ≡ spec.is_valid self.now.cbaser }
    {
        bit_of(self.cbaser, 63)
    }

    /// Whether no command waits.
    pub fn queue_is_empty(&self) -> bool
        ensures { result ≡ spec.is_queue_empty self.now }
    {
        self.creadr == self.cwriter
    }

    /// Where the next command stands: 32 bytes of the queue.
    pub fn queue_place(&self) -> Addr
        ensures { result.0 ≡ spec.queue_place self.now }
    {
        Addr(self.queue_base().0 + self.creadr)
    }

    fn baser(&self, table: u8) -> u64
        ensures { result ≡ spec.baser_of self.now table }
    {
        if table == 0 { self.baser0 } else { self.baser1 }
    }

    /// Whether table 0, of devices, or table 1, of collections, has a valid base.
    pub fn table_valid(&self, table: u8) -> bool
        requires { table < 2 }
        ensures { result ≡ spec.is_valid (spec.baser_of self.now table) }
    {
        bit_of(self.baser(table), 63)
    }

    /// Where table 0 or 1 begins.
    pub fn table_base(&self, table: u8) -> Addr
        requires { table < 2 }
        ensures { result.0 ≡ spec.table_base (spec.baser_of self.now table) }
    {
        let baser = self.baser(table);
        Addr(field(baser, 12, 4) * (1 << 48) + field(baser, 16, 32) * (1 << 16))
    }

    /// How many pages of 64 KiB table 0 or 1 has, 1 to 256.
    pub fn pages(&self, table: u8) -> u32
        requires { table < 2 }
        ensures pages { result ≡ spec.pages (spec.baser_of self.now table) }
        ensures most { result ≤ 256 }
    {
        field(self.baser(table), 0, 8) as u32 + 1
    }

    /// Whether the table of devices has two levels.
    pub fn indirect(&self) -> bool
        ensures { result ≡ spec.is_indirect self.now.baser0 }
    {
        bit_of(self.baser0, 62)
    }

    /// How many collections have a place: at most 65536.
    pub fn collection_places(&self) -> u32
        ensures places { result ≡ spec.collection_places self.now }
        ensures most { result ≤ 65536 }
    {
        8192 * self.pages(1).min(8)
    }

    pub(crate) fn has_bases(&self) -> bool
        ensures { result ≡ spec.has_bases self.now }
    {
        bit_of(self.cbaser, 63) && bit_of(self.baser0, 63) && bit_of(self.baser1, 63)
    }

    /// Goes on to the next command, as after one that ran or was refused.
    pub fn advance(&mut self)
        ensures { self.new ≡ spec.advanced self.old }
    {
        let next = self.creadr + 32;
        self.creadr = if next == self.queue_size() { 0 } else { next };
    }
}

/// How many bytes the command queue of a CBASER has.
pub fn size_of(cbaser: u64) -> u64
    ensures size { result ≡ spec.size_of cbaser }
    ensures most { result ≤ 1048576 }
{
    (field(cbaser, 0, 8) + 1) * 4096
}
