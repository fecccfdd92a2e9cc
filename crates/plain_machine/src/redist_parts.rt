//! A redistributor's two parts: what it reads of its tables, and what is pending.
ghost use Rattle.std.specs.Prelude.{◌≡◌, ◌<◌, ◌^◌, IfOk, []};
ghost use Rattle.its_plain.specs.Plain as plain;

use crate::redist::RedistLists;
use its_types::Bases;
use std::alloc::{AllocError, Global};
use std::marker::Model;

/// The LPI registers, and a copy of the configuration.
#[derive(Drop)]
pub struct ConfLists {
    bases: Bases,
    config: Vec<u8>,
}

impl Model for ConfLists {
    ghost use Rattle.std.specs.Prelude.{◌<◌, ◌^◌};
    ghost use Rattle.gicr_regs.specs.Redistributors.{ConfState, conf_code};

    ghost Value = { ConfState };

    ghost coded = { conf_code };

    ghost view = { λ c. record { bases = c.bases; config = c.config.items } };

    ghost invariant = { λ c. (c.bases.prop.table.0 < 2 ^ 52) × (c.bases.pend.table.0 < 2 ^ 52) };
}

/// A pending set as a rising list, and whether LPIs are taken.
#[derive(Drop)]
pub struct PendLists {
    pending: Vec<u32>,
    accepts: bool,
}

impl Model for PendLists {
    ghost use Rattle.gicr_regs.specs.Redistributors.{PendState, pend_code};

    ghost Value = { PendState };

    ghost coded = { pend_code };

    ghost view = { λ p. record { pending = p.pending.items; accepts = p.accepts } };
}

impl ConfLists {
    ghost use Rattle.std.specs.Prelude.{◌≡◌, IfOk};
    ghost use Rattle.its_plain.specs.Plain as plain;

    /// Those of no redistributor.
    pub fn none(alloc: Global) -> ConfLists
        ensures { result ≡ plain.conf_of plain.no_redistributor }
    {
        ConfLists {
            bases: Bases::off(),
            config: Vec::new(alloc),
        }
    }

    /// The same once more.
    pub fn copy(&self, alloc: Global) -> Result<ConfLists, AllocError>
        ensures { IfOk result (λ c. c ≡ self.now) }
    {
        Ok(ConfLists {
            bases: self.bases,
            config: Vec::from_slice(alloc, &self.config)?,
        })
    }
}

impl PendLists {
    ghost use Rattle.std.specs.Prelude.{◌≡◌, IfOk};
    ghost use Rattle.its_plain.specs.Plain as plain;

    /// Those of no redistributor.
    pub fn none(alloc: Global) -> PendLists
        ensures { result ≡ plain.pend_of plain.no_redistributor }
    {
        PendLists {
            pending: Vec::new(alloc),
            accepts: false,
        }
    }

    /// The same once more.
    pub fn copy(&self, alloc: Global) -> Result<PendLists, AllocError>
        ensures { IfOk result (λ p. p ≡ self.now) }
    {
        Ok(PendLists {
            pending: Vec::from_slice(alloc, &self.pending)?,
            accepts: self.accepts,
        })
    }

    /// Whether LPIs are taken.
    pub fn accepts(&self) -> bool
        ensures { result ≡ self.now.accepts }
    {
        self.accepts
    }
}

impl RedistLists {
    ghost use Rattle.std.specs.Prelude.{◌≡◌, IfOk};
    ghost use Rattle.its_plain.specs.Plain as plain;

    /// A copy of its LPI registers and its configuration.
    pub fn conf(&self, alloc: Global) -> Result<ConfLists, AllocError>
        ensures { IfOk result (λ c. c ≡ plain.conf_of self.now) }
    {
        Ok(ConfLists {
            bases: self.bases,
            config: Vec::from_slice(alloc, &self.config)?,
        })
    }

    /// A copy of what is pending.
    pub fn pend(&self, alloc: Global) -> Result<PendLists, AllocError>
        ensures { IfOk result (λ p. p ≡ plain.pend_of self.now) }
    {
        Ok(PendLists {
            pending: Vec::from_slice(alloc, &self.pending)?,
            accepts: self.accepts,
        })
    }

    pub(crate) fn set_conf(&mut self, conf: ConfLists)
        ensures { self.new ≡ plain.with_conf conf self.old }
    {
        self.bases = conf.bases;
        self.config = conf.config;
    }

    pub(crate) fn set_pend(&mut self, pend: PendLists)
        ensures { self.new ≡ plain.with_pend pend self.old }
    {
        self.pending = pend.pending;
        self.accepts = pend.accepts;
    }
}
