//! An LPI at a redistributor.
ghost use Rattle.std.specs.Prelude.{◌≡◌, IfOk};
ghost use Rattle.call_facts.specs.Lpis as spec;
ghost use Rattle.lpi_pending.specs.InHand.{redistributor_of};

use its_types::Intid;
use lpi_config::Conf;
use lpi_pending::Pend;
use std::alloc::{AllocError, Global};

/// How an LPI stands at a redistributor.
#[derive(Clone, Copy, Debug, PartialEq, Eq)]
pub struct LpiState {
    /// Whether it is pending.
    pub pending: bool,
    /// Whether its configuration byte, as it was read last, enables it.
    pub enabled: bool,
    /// Bits 7 to 2 of that byte, where they stand.
    pub priority: u8,
}

/// What became of the pending LPI of an event.
#[derive(Clone, Copy, Debug, PartialEq, Eq)]
pub enum PendingChange {
    /// It goes to no processor, so it is pending at none that the event names.
    Nowhere,
    /// It was not pending, and isn't.
    Absent,
    /// It was not pending, and is.
    Began,
    /// It was pending, and isn't any more.
    Ended,
    /// It was pending, and is.
    Stayed,
}

/// What waits at a redistributor.
#[derive(Clone, Copy, Debug, PartialEq, Eq)]
pub enum Waiting {
    /// No LPI is pending.
    Nothing,
    /// LPIs are pending, of which this is the lowest, and none of them is enabled.
    NotEnabled(Intid),
    /// Of those that are pending and enabled this is the first by priority.
    Enabled {
        /// Which one it is.
        intid: Intid,
        /// Its priority.
        priority: u8,
    },
}

/// How an LPI stands; none where the number is no LPI's.
pub fn lpi_state(conf: &Conf, pend: &Pend, intid: Intid) -> Option<LpiState>
    requires { pend.now.pending.lpi_bits ≡ conf.now.config.lpi_bits }
    ensures { result ≡ spec.lpi_state pend.now.pending.lpi_bits
        (redistributor_of conf.now pend.now) intid.0 }
{
    if !intid.in_range(pend.lpi_bits()) {
        return None;
    }
    let byte = conf.byte(intid);
    Some(LpiState {
        pending: pend.has(intid),
        enabled: byte % 2 == 1,
        priority: byte & 0xfc,
    })
}

/// What became of an LPI between two looks at it.
pub fn pending_change(before: Option<LpiState>, after: Option<LpiState>) -> PendingChange
    ensures { result ≡ spec.pending_change before after }
{
    let (Some(before), Some(after)) = (before, after) else {
        return PendingChange::Nowhere;
    };
    match (before.pending, after.pending) {
        (false, false) => PendingChange::Absent,
        (false, true) => PendingChange::Began,
        (true, false) => PendingChange::Ended,
        (true, true) => PendingChange::Stayed,
    }
}

/// What waits at a redistributor.
pub fn waiting_at(alloc: Global, conf: &Conf, pend: &Pend) -> Result<Waiting, AllocError>
    requires { pend.now.pending.lpi_bits ≡ conf.now.config.lpi_bits }
    ensures { IfOk result (λ w. w ≡ spec.waiting (redistributor_of conf.now pend.now)) }
{
    match pend.first_by_priority(conf, 255) {
        Some(intid) => Ok(Waiting::Enabled {
            intid,
            priority: conf.byte(intid) & 0xfc,
        }),
        None => lowest(alloc, pend),
    }
}

// The lowest LPI that is pending, where none is enabled.
fn lowest(alloc: Global, pend: &Pend) -> Result<Waiting, AllocError>
    ensures { IfOk result (λ w. w ≡ spec.lowest pend.now.pending.lpis) }
{
    let lpis = pend.lpis(alloc)?;
    match lpis.first() {
        Some(intid) => Ok(Waiting::NotEnabled(*intid)),
        None => Ok(Waiting::Nothing),
    }
}
