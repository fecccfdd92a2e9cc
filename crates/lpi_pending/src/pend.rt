//! What is pending at a redistributor.
ghost use Rattle.std.specs.Prelude.{◌≡◌, ◌≤◌, [], true, false, IfOk, IfSome, MatchOption, All, map};
ghost use Rattle.std.specs.List.Sorted.{IsStrictlyIncreasing};
ghost use Rattle.std.specs.Option.{option_map};
ghost use Rattle.its_types.specs.Lpis as spec;
ghost use Rattle.its_types.specs.Ranges.{is_lpi};
ghost use Rattle.lpi_pending.specs.Pend.{off_pend, with_lpis, turned_on};
ghost use Rattle.lpi_pending.specs.PendingSets.{none_pending, as_intid};

use crate::pending::Pending;
use guest_windows::Memory;
use its_types::{Intid, Pendbaser};
use lpi_config::Conf;
use std::alloc::{AllocError, Global};
use std::marker::Model;

/// The LPIs that are pending at a redistributor, and whether it takes LPIs at all. A signal needs
/// nothing else of it. While LPIs are off none is pending, and the set takes no memory.
#[derive(Drop)]
pub struct Pend {
    alloc: Global,
    lpi_bits: u8,
    // The LPIs that are pending, of a redistributor that takes LPIs.
    pending: Option<Pending>,
}

impl Model for Pend {
    ghost use Rattle.std.specs.Prelude.{unwrap_or, is_some};
    ghost use Rattle.lpi_pending.specs.PendingSets.{none_pending};
    ghost use Rattle.lpi_pending.specs.Pend.{Pend, pend_in_hand_code, IsHeld};

    ghost Value = { Pend };

    ghost coded = { pend_in_hand_code };

    ghost view = { λ p. record {
      pending = unwrap_or p.pending (none_pending p.lpi_bits);
      accepts = is_some p.pending;
    } };

    ghost invariant = { λ p. IsHeld p.lpi_bits p.pending };
}

impl Pend {
    /// Of a redistributor that takes LPIs.
    pub fn on(alloc: Global, pending: Pending) -> Pend
        ensures { result ≡ record { pending = pending; accepts = true } }
    {
        Pend {
            alloc,
            lpi_bits: pending.lpi_bits(),
            pending: Some(pending),
        }
    }

    /// Of one that takes none. An LPI's INTID has 14 to 20 bits. Takes no memory.
    pub fn off(alloc: Global, lpi_bits: u8) -> Pend
        requires low { 14 ≤ lpi_bits }
        requires high { lpi_bits ≤ 20 }
        ensures { result ≡ off_pend lpi_bits }
    {
        Pend {
            alloc,
            lpi_bits,
            pending: None,
        }
    }

    /// Whether it takes LPIs: the same as its registers say.
    pub fn accepts(&self) -> bool
        ensures { result ≡ self.now.accepts }
    {
        self.pending.is_some()
    }

    /// The LPIs that are pending, where it takes LPIs; else there are none.
    pub fn pending(&self) -> Option<&Pending>
        ensures { MatchOption result ((self.now.accepts ≡ false)
            × (self.now.pending ≡ none_pending self.now.pending.lpi_bits))
            (λ p. (self.now.accepts ≡ true) × (p.now ≡ self.now.pending)) }
    {
        self.pending.as_ref()
    }

    /// How many bits the INTID of an LPI has. No other LPI is pending, and the INTIDs rise.
    pub fn lpi_bits(&self) -> u8
        ensures bits { result ≡ self.now.pending.lpi_bits }
        ensures low { 14 ≤ result }
        ensures high { result ≤ 20 }
        ensures rising { IsStrictlyIncreasing self.now.pending.lpis }
        ensures in_range { All (λ x. is_lpi result x ≡ true) self.now.pending.lpis }
    {
        match &self.pending {
            Some(pending) => pending.lpi_bits(),
            None => self.lpi_bits,
        }
    }

    /// Makes an LPI pending. LPIs are taken.
    pub fn set(&mut self, intid: Intid)
        requires on { self.old.accepts ≡ true }
        requires lpi { is_lpi self.old.pending.lpi_bits intid.0 ≡ true }
        ensures { self.new ≡ with_lpis self.old (spec.with_lpi intid.0 self.old.pending.lpis) }
    {
        match &mut self.pending {
            Some(pending) => pending.set(intid),
            None => unreachable!(),
        }
    }

    /// Makes an LPI not pending.
    pub fn clear(&mut self, intid: Intid)
        requires { is_lpi self.old.pending.lpi_bits intid.0 ≡ true }
        ensures { self.new ≡ with_lpis self.old (spec.without_lpi intid.0 self.old.pending.lpis) }
    {
        if let Some(pending) = &mut self.pending {
            pending.clear(intid);
        }
    }

    /// Whether an LPI is pending.
    pub fn has(&self, intid: Intid) -> bool
        requires { is_lpi self.now.pending.lpi_bits intid.0 ≡ true }
        ensures { result ≡ spec.is_pending intid.0 self.now.pending.lpis }
    {
        match &self.pending {
            Some(pending) => pending.has(intid),
            None => false,
        }
    }

    /// The LPIs that are pending, in rising order.
    pub fn lpis(&self, alloc: Global) -> Result<Vec<Intid>, AllocError>
        ensures { IfOk result (λ lpis. map (λ i. i.0) lpis.items ≡ self.now.pending.lpis) }
    {
        match &self.pending {
            Some(pending) => pending.lpis(alloc),
            None => Ok(Vec::new(alloc)),
        }
    }

    /// Moves every pending LPI to another redistributor, which takes LPIs.
    pub fn move_all(&mut self, to: &mut Pend)
        requires same { self.old.pending.lpi_bits ≡ to.old.pending.lpi_bits }
        requires on { to.old.accepts ≡ true }
        ensures left { self.new ≡ with_lpis self.old [] }
        ensures moved { to.new
            ≡ with_lpis to.old (spec.with_lpis self.old.pending.lpis to.old.pending.lpis) }
    {
        if let Some(from) = &mut self.pending {
            match &mut to.pending {
                Some(to) => from.move_all(to),
                None => unreachable!(),
            }
        }
    }

    /// Another set, of a redistributor that takes LPIs.
    pub fn replace(&mut self, pending: Pending)
        requires on { self.old.accepts ≡ true }
        requires same { pending.lpi_bits ≡ self.old.pending.lpi_bits }
        ensures { self.new ≡ record self.old { pending = pending } }
    {
        self.pending = Some(pending);
    }

    /// The lowest LPI that is pending and enabled.
    pub fn first_enabled(&self, conf: &Conf) -> Option<Intid>
        requires { self.now.pending.lpi_bits ≡ conf.now.config.lpi_bits }
        ensures found { result ≡ option_map as_intid
            (spec.first_enabled conf.now.config.bytes self.now.pending.lpis) }
        ensures in_range { IfSome result (λ intid.
            is_lpi self.now.pending.lpi_bits intid.0 ≡ true) }
    {
        let config = conf.config()?;
        match &self.pending {
            Some(pending) => pending.first_enabled(config),
            None => None,
        }
    }

    /// The LPI that comes first by priority, of those that are pending and enabled and whose
    /// priority is below the mask. Among equal priorities it is the lowest LPI.
    pub fn first_by_priority(&self, conf: &Conf, mask: u8) -> Option<Intid>
        requires { self.now.pending.lpi_bits ≡ conf.now.config.lpi_bits }
        ensures found { result ≡ option_map as_intid
            (spec.first_by_priority conf.now.config.bytes mask self.now.pending.lpis) }
        ensures in_range { IfSome result (λ intid.
            is_lpi self.now.pending.lpi_bits intid.0 ≡ true) }
    {
        let config = conf.config()?;
        match &self.pending {
            Some(pending) => pending.first_by_priority(config, mask),
            None => None,
        }
    }

    /// This LPI, if it is pending and enabled. A number that is no LPI's is neither.
    pub fn claimable(&self, conf: &Conf, intid: Intid) -> Option<Intid>
        requires { self.now.pending.lpi_bits ≡ conf.now.config.lpi_bits }
        ensures found { result ≡ option_map as_intid
            (spec.claimable conf.now.config.bytes intid.0 self.now.pending.lpis) }
        ensures in_range { IfSome result (λ intid.
            is_lpi self.now.pending.lpi_bits intid.0 ≡ true) }
    {
        let config = conf.config()?;
        match &self.pending {
            Some(pending) => pending.claimable(config, intid),
            None => None,
        }
    }

    /// What `turn_on` wants where LPIs are off.
    pub fn room(&self) -> Result<Pending, AllocError>
        ensures { IfOk result (λ p. p ≡ none_pending self.now.pending.lpi_bits) }
    {
        Pending::new(self.alloc, self.lpi_bits)
    }

    /// LPIs are taken from now on. What the pending table says is pending, or what was, where
    /// Pending Table Zero is set.
    pub fn turn_on(&mut self, memory: &Memory, table: Pendbaser, room: Pending)
        requires { room ≡ none_pending self.old.pending.lpi_bits }
        ensures { self.new ≡ turned_on memory.now table self.old }
    {
        let mut pending = match self.pending.take() {
            Some(pending) => pending,
            None => room,
        };
        if !table.ptz {
            pending.read_table(memory, table.table);
        }
        self.pending = Some(pending);
    }

    /// LPIs are off from now on, and none is pending.
    pub fn turn_off(&mut self)
        ensures { self.new ≡ off_pend self.old.pending.lpi_bits }
    {
        self.pending = None;
    }
}
