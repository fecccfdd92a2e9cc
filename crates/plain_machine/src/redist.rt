//! What a redistributor knows of LPIs, as plain lists.
ghost use Rattle.std.specs.Prelude.{◌≡◌, ◌<◌, ◌≤◌, ◌^◌, ◌++◌, OnOk, [], slice_set};
ghost use Rattle.its_types.specs.Lpis as lpis;
ghost use Rattle.gicr_regs.specs.Redistributors as tables;
ghost use Rattle.its_plain.specs.Answer as plain;
ghost use Rattle.its_plain.specs.Regions as regions;
ghost use Rattle.its_plain.specs.Saved as saved;
ghost use Rattle.plain_machine.specs.Memories.{put_all};
ghost use Rattle.its_plain.specs.Commands as commands;

use crate::rising_lists::{add_all_rising, add_rising, remove_number};
use crate::saved_tables;
use crate::tracked_memory::TrackedMemory;
use guest_windows::Memory;
use its_plain::{Ack, Area, Region};
use its_types::{Addr, Bases, Intid, Shape, Vcpu};
use std::alloc::{AllocError, Global};
use std::marker::Model;

/// A pending set as a rising list, and a copy of the configuration.
#[derive(Drop)]
pub struct RedistLists {
    pub(crate) bases: Bases,
    pub(crate) pending: Vec<u32>,
    pub(crate) accepts: bool,
    pub(crate) config: Vec<u8>,
}

impl Model for RedistLists {
    ghost use Rattle.std.specs.Prelude.{◌<◌, ◌^◌};
    ghost use Rattle.its_plain.specs.Plain.{Redistributor, redistributor_code};

    ghost Value = { Redistributor };

    ghost coded = { redistributor_code };

    ghost view = { λ r. record {
      bases = r.bases;
      pending = r.pending.items;
      accepts = r.accepts;
      config = r.config.items;
    } };

    ghost invariant = { λ r. (r.bases.prop.table.0 < 2 ^ 52) × (r.bases.pend.table.0 < 2 ^ 52) };
}

impl RedistLists {
    /// Nothing is pending, and LPIs are taken where they are on.
    pub fn new(alloc: Global, bases: Bases, config: Vec<u8>) -> RedistLists
        requires config { bases.prop.table.0 < 2 ^ 52 }
        requires pending { bases.pend.table.0 < 2 ^ 52 }
        ensures { result ≡ record {
          bases = bases;
          pending = [];
          accepts = bases.on;
          config = config.items;
        } }
    {
        RedistLists {
            bases,
            pending: Vec::new(alloc),
            accepts: bases.on,
            config,
        }
    }

    /// Whether it takes LPIs: whether they are on (IHI 0069, section 12.11, GICR_CTLR.EnableLPIs).
    pub fn accepts(&self) -> bool
        ensures { result ≡ self.now.accepts }
    {
        self.accepts
    }

    /// Whether an LPI is pending.
    pub fn is_pending(&self, intid: u32) -> bool
        ensures { result ≡ lpis.is_pending intid self.now.pending }
    {
        self.pending.iter().any(|x| *x == intid)
    }

    /// Makes an LPI pending. Out of memory, nothing is said of the pending set.
    pub fn set(&mut self, intid: u32) -> Result<(), AllocError>
        ensures { OnOk result
            (self.new ≡ record self.old { pending = lpis.with_lpi intid self.old.pending }) }
    {
        add_rising(&mut self.pending, intid)?;
        Ok(())
    }

    /// Makes an LPI not pending.
    pub fn clear(&mut self, intid: u32)
        ensures { self.new ≡ record self.old { pending = lpis.without_lpi intid self.old.pending } }
    {
        remove_number(&mut self.pending, intid);
    }

    /// A byte of the pending table.
    pub(crate) fn pending_byte(&self, n: u32) -> u8
        requires { n < 2 ^ 29 }
        ensures { result ≡ lpis.pending_byte n self.now.pending }
    {
        let first = 8 * n;
        self.pending_bit(first)
            + 2 * self.pending_bit(first + 1)
            + 4 * self.pending_bit(first + 2)
            + 8 * self.pending_bit(first + 3)
            + 16 * self.pending_bit(first + 4)
            + 32 * self.pending_bit(first + 5)
            + 64 * self.pending_bit(first + 6)
            + 128 * self.pending_bit(first + 7)
    }

    fn pending_bit(&self, intid: u32) -> u8
        ensures bit { result ≡ lpis.pending_bit intid self.now.pending }
        ensures most { result ≤ 1 }
    {
        u8::from(self.is_pending(intid))
    }

    /// Where the configuration table stands.
    pub(crate) fn config_base(&self) -> u64
        ensures { result ≡ self.now.bases.prop.table.0 }
    {
        self.bases.prop.table.0
    }

    /// Adds the area of the pending table, where LPIs are on.
    pub(crate) fn add_pending_area(
        &self,
        areas: &mut Vec<Area>,
        shape: &Shape,
        vcpu: Vcpu,
    ) -> Result<(), AllocError>
        requires least { 14 ≤ shape.now.lpi_bits }
        requires most { shape.now.lpi_bits ≤ 20 }
        ensures { OnOk result
            (areas.new.items ≡ areas.old.items ++ regions.pending_area shape.now vcpu.0 self.now) }
    {
        if self.bases.on {
            areas.push(Area {
                region: Region::Pending(vcpu),
                base: self.bases.pend.table.0 + 1024,
                size: shape.pending_bytes() - 1024,
                is_written: true,
            })?;
        }
        Ok(())
    }

    /// Adds the area of the configuration table, where LPIs are on.
    pub(crate) fn add_config_area(
        &self,
        areas: &mut Vec<Area>,
        shape: &Shape,
        vcpu: Vcpu,
    ) -> Result<(), AllocError>
        requires least { 14 ≤ shape.now.lpi_bits }
        requires most { shape.now.lpi_bits ≤ 20 }
        ensures { OnOk result
            (areas.new.items ≡ areas.old.items ++ regions.config_area shape.now vcpu.0 self.now) }
    {
        if self.bases.on {
            areas.push(Area {
                region: Region::ConfigOf(vcpu),
                base: self.bases.prop.table.0,
                size: shape.lpi_count(),
                is_written: false,
            })?;
        }
        Ok(())
    }

    /// Writes the pending table, where LPIs are on.
    pub(crate) fn write_pending(
        &self,
        memory: &mut TrackedMemory,
        shape: &Shape,
    ) -> Result<(), AllocError>
        requires least { 14 ≤ shape.now.lpi_bits }
        requires most { shape.now.lpi_bits ≤ 20 }
        ensures { OnOk result (memory.new ≡ put_all memory.old
            (saved.pending_words shape.now self.now)) }
    {
        if !self.bases.on {
            return Ok(());
        }
        saved_tables::write_pending(memory, self.bases.pend.table, shape.pending_bytes(), self)
    }

    /// Hands the pending set out, so that nothing is pending.
    pub(crate) fn take_all(&mut self, alloc: Global) -> Vec<u32>
        ensures taken { result.items ≡ self.old.pending }
        ensures none { self.new ≡ record self.old { pending = [] } }
    {
        std::mem::replace(&mut self.pending, Vec::new(alloc))
    }

    /// Makes all of some LPIs pending.
    pub(crate) fn set_all(&mut self, intids: Vec<u32>) -> Result<(), AllocError>
        ensures { OnOk result (self.new
            ≡ record self.old { pending = lpis.with_lpis intids.items self.old.pending }) }
    {
        add_all_rising(&mut self.pending, intids)?;
        Ok(())
    }

    // An LPI with its priority, of which bits 1 and 0 are clear.
    fn told(&self, lpi: Option<u32>) -> Ack
        ensures { result ≡ plain.ack_of self.now lpi }
    {
        match lpi {
            Some(intid) => Ack::Some {
                intid: Intid(intid),
                priority: priority_of(&self.config, intid),
            },
            None => Ack::None,
        }
    }

    fn taken(&mut self, lpi: Option<u32>)
        ensures { self.new ≡ plain.taken self.old lpi }
    {
        if let Some(intid) = lpi {
            self.clear(intid);
        }
    }

    /// The lowest LPI that is pending and enabled.
    pub fn show(&self) -> Ack
        ensures { result ≡ plain.ack_of self.now (plain.lowest self.now) }
    {
        self.told(first_enabled(&self.config, &self.pending))
    }

    /// Acknowledges it.
    pub fn take(&mut self) -> Ack
        ensures ack { result ≡ plain.ack_of self.old (plain.lowest self.old) }
        ensures taken { self.new ≡ plain.taken self.old (plain.lowest self.old) }
    {
        let lowest = first_enabled(&self.config, &self.pending);
        let ack = self.told(lowest);
        self.taken(lowest);
        ack
    }

    /// The LPI that comes first by priority, of those below a mask.
    pub fn best(&self, mask: u8) -> Ack
        ensures { result ≡ plain.ack_of self.now (plain.best self.now mask) }
    {
        self.told(first_by_priority(&self.config, mask, &self.pending))
    }

    /// Acknowledges this LPI, if it is pending and enabled.
    pub fn claim(&mut self, intid: u32) -> Ack
        ensures ack { result ≡ plain.ack_of self.old (plain.claimed self.old intid) }
        ensures taken { self.new ≡ plain.taken self.old (plain.claimed self.old intid) }
    {
        let claimed = self.claimable(intid);
        let ack = self.told(claimed);
        self.taken(claimed);
        ack
    }

    fn claimable(&self, intid: u32) -> Option<u32>
        ensures { result ≡ plain.claimed self.now intid }
    {
        if self.is_pending(intid) && config_byte(&self.config, intid) % 2 == 1 {
            Some(intid)
        } else {
            None
        }
    }

    /// Reads an LPI's configuration byte again, if LPIs are on.
    #[tactic(auto, unfolding(gicr_regs::specs::Redistributors::conf_reread_at))]
    pub(crate) fn reread(&mut self, memory: &Memory, intid: u32)
        ensures { self.new ≡ commands.reread_at memory.now intid self.old }
    {
        if !self.bases.on {
            return;
        }
        let place = intid.saturating_sub(8192);
        if let Ok(byte) = memory.read_u8(Addr(self.bases.prop.table.0 + u64::from(place))) {
            set_byte(&mut self.config, place as usize, byte);
        }
    }

    /// Reads the whole configuration table, where it lies in memory.
    pub(crate) fn read_config(
        &mut self,
        alloc: Global,
        memory: &Memory,
        shape: &Shape,
    ) -> Result<(), AllocError>
        requires least { 14 ≤ shape.now.lpi_bits }
        requires most { shape.now.lpi_bits ≤ 20 }
        ensures { OnOk result (self.new
            ≡ record self.old { config = tables.config_in shape.now memory.now (tables.conf_of self.old) }) }
    {
        let mut bytes = vec![in alloc; 0; shape.lpi_count() as usize]?;
        if memory.read(self.bases.prop.table, &mut bytes).is_ok() {
            self.config = bytes;
        }
        Ok(())
    }

    pub(crate) fn reread_all(&mut self, memory: &Memory, intids: &[u32])
        ensures { self.new ≡ commands.all_reread_at memory.now intids.now self.old }
    {
        for intid in intids {
            self.reread(memory, *intid);
        }
    }
}

// Writes a byte, where it is there.
fn set_byte(bytes: &mut [u8], at: usize, byte: u8)
    ensures { bytes.new ≡ slice_set bytes.old at byte }
{
    if at < bytes.len() {
        bytes[at] = byte;
    }
}

fn config_byte(config: &[u8], intid: u32) -> u8
    ensures { result ≡ lpis.config_byte config.now intid }
{
    config
        .get(intid.saturating_sub(8192) as usize)
        .copied()
        .unwrap_or(0)
}

fn priority_of(config: &[u8], intid: u32) -> u8
    ensures { result ≡ lpis.priority_of config.now intid }
{
    config_byte(config, intid) & 0xfc
}

fn is_unmasked(config: &[u8], mask: u8, intid: u32) -> bool
    ensures { result ≡ lpis.is_unmasked config.now mask intid }
{
    config_byte(config, intid) % 2 == 1 && priority_of(config, intid) < mask
}

// From the last one on to the first.
fn first_by_priority(config: &[u8], mask: u8, pending: &[u32]) -> Option<u32>
    ensures { result ≡ lpis.first_by_priority config.now mask pending.now }
{
    let mut best = None;
    for at in (0..pending.len()).rev() {
        if is_unmasked(config, mask, pending[at]) {
            best = Some(first_of(config, pending[at], best));
        }
    }
    best
}

fn first_of(config: &[u8], intid: u32, best: Option<u32>) -> u32
    ensures { result ≡ lpis.first_of config.now intid best }
{
    match best {
        Some(other) if priority_of(config, other) < priority_of(config, intid) => other,
        _ => intid,
    }
}

fn first_enabled(config: &[u8], pending: &[u32]) -> Option<u32>
    ensures { result ≡ lpis.first_enabled config.now pending.now }
{
    pending
        .iter()
        .copied()
        .find(|intid| config_byte(config, *intid) % 2 == 1)
}
