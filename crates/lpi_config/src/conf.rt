//! What a redistributor has read of its LPI tables.
ghost use Rattle.std.specs.Prelude.{◌≡◌, ◌≤◌, true, false, IfOk, MatchOption, Some, unwrap_or};
ghost use Rattle.guest_windows.specs.Windows.{read_at};
ghost use Rattle.its_types.specs.Lpis.{config_byte, with_config_byte};
ghost use Rattle.its_types.specs.Ranges.{is_lpi, lpi_count};
ghost use Rattle.lpi_config.specs.Configurations as spec;
ghost use Rattle.lpi_config.specs.Conf as conf_spec;
ghost use Rattle.lpi_config.specs.Conf.{off_conf, turned_off, turned_on};

use crate::config::Config;
use guest_windows::Memory;
use its_types::{Bases, Intid};
use std::alloc::{AllocError, Global};
use std::marker::Model;

/// What a redistributor has read of its LPI tables, and where they stand. Nothing here changes
/// where an LPI becomes pending. While LPIs are off the configuration is all zeros, and takes no
/// memory.
#[derive(Drop)]
pub struct Conf {
    alloc: Global,
    lpi_bits: u8,
    // The configuration bytes, as they were when last read, of LPIs that are on.
    config: Option<Config>,
    // Whether LPIs are on, and where both tables stand.
    bases: Bases,
}

impl Model for Conf {
    ghost use Rattle.std.specs.Prelude.{unwrap_or};
    ghost use Rattle.lpi_config.specs.Configurations.{zeros};
    ghost use Rattle.lpi_config.specs.Conf.{Conf, conf_code, IsHeld};

    ghost Value = { Conf };

    ghost coded = { conf_code };

    ghost view = { λ c. record {
      config = unwrap_or c.config (zeros c.lpi_bits);
      bases = c.bases;
    } };

    ghost invariant = { λ c. IsHeld c.lpi_bits c.config c.bases.on };
}

impl Conf {
    /// That of LPIs that are on, as they were read.
    pub fn on(alloc: Global, config: Config, bases: Bases) -> Conf
        requires { bases.on ≡ true }
        ensures { result ≡ record { config = config; bases = bases } }
    {
        Conf {
            alloc,
            lpi_bits: config.lpi_bits(),
            config: Some(config),
            bases,
        }
    }

    /// That of LPIs that are off. An LPI's INTID has 14 to 20 bits. Takes no memory.
    pub fn off(alloc: Global, lpi_bits: u8, bases: Bases) -> Conf
        requires low { 14 ≤ lpi_bits }
        requires high { lpi_bits ≤ 20 }
        requires off { bases.on ≡ false }
        ensures { result ≡ off_conf lpi_bits bases }
    {
        Conf {
            alloc,
            lpi_bits,
            config: None,
            bases,
        }
    }

    /// Whether LPIs are on, and where both tables stand.
    pub fn bases(&self) -> &Bases
        ensures { result.now ≡ self.now.bases }
    {
        &self.bases
    }

    /// The configuration bytes, as they were when last read, if LPIs are on; else they are zeros.
    pub fn config(&self) -> Option<&Config>
        ensures { MatchOption result
            ((self.now.bases.on ≡ false) × (self.now.config ≡ spec.zeros self.now.config.lpi_bits))
            (λ c. (self.now.bases.on ≡ true) × (c.now ≡ self.now.config)) }
    {
        self.config.as_ref()
    }

    /// How many bits the INTID of an LPI has.
    pub fn lpi_bits(&self) -> u8
        ensures bits { result ≡ self.now.config.lpi_bits }
        ensures low { 14 ≤ result }
        ensures high { result ≤ 20 }
    {
        self.lpi_bits
    }

    /// An LPI's byte: bit 0 enables it, and bits 7 to 2 are its priority.
    pub fn byte(&self, intid: Intid) -> u8
        requires { is_lpi self.now.config.lpi_bits intid.0 ≡ true }
        ensures { result ≡ config_byte self.now.config.bytes intid.0 }
    {
        match &self.config {
            Some(config) => config.byte(intid),
            None => 0,
        }
    }

    /// Replaces an LPI's byte by one that was read again. LPIs are on.
    pub fn reload(&mut self, intid: Intid, byte: u8)
        requires on { self.old.bases.on ≡ true }
        requires lpi { is_lpi self.old.config.lpi_bits intid.0 ≡ true }
        ensures { self.new ≡ record self.old {
          config = record self.old.config {
            bytes = with_config_byte self.old.config.bytes intid.0 byte;
          };
        } }
    {
        match &mut self.config {
            Some(config) => config.reload(intid, byte),
            None => unreachable!(),
        }
    }

    /// Reads the configuration table again, where LPIs are on. Where it doesn't lie in one window
    /// nothing changes.
    pub fn reread(&mut self, memory: &Memory)
        ensures { self.new ≡ conf_spec.reread memory.now self.old }
    {
        if let Some(config) = &mut self.config {
            config.read_table(memory, self.bases.prop.table);
        }
    }

    /// Other tables. LPIs are on as before.
    pub fn set_bases(&mut self, bases: Bases)
        requires { bases.on ≡ self.old.bases.on }
        ensures { self.new ≡ record self.old { bases = bases } }
    {
        self.bases = bases;
    }

    /// What `turn_on` wants beside the tables.
    pub fn room(&self) -> Result<Config, AllocError>
        ensures { IfOk result (λ c. c ≡ spec.zeros self.now.config.lpi_bits) }
    {
        Config::zeros(self.alloc, self.lpi_bits)
    }

    /// LPIs are on from now on, with the configuration as its table has it, or as it was where that
    /// doesn't lie in one window.
    pub fn turn_on(&mut self, memory: &Memory, room: Config)
        requires { room ≡ spec.zeros self.old.config.lpi_bits }
        ensures { self.new ≡ turned_on memory.now self.old }
    {
        let mut config = match self.config.take() {
            Some(config) => config,
            None => room,
        };
        config.read_table(memory, self.bases.prop.table);
        self.config = Some(config);
        self.bases.on = true;
    }

    /// LPIs are off from now on.
    pub fn turn_off(&mut self)
        ensures { self.new ≡ turned_off self.old }
    {
        self.config = None;
        self.bases.on = false;
    }
}
