//! What each command keeps.
ghost use Rattle.plain_soundness.specs.Laws as laws;

/// A device is mapped where its table has a place for it.
pub fn mapd_keeps_soundness()
    ensures { laws.MapdKeepsSound }
{}

/// A device takes its events with it.
pub fn unmapd_keeps_soundness()
    ensures { laws.UnmapdKeepsSound }
{}

/// A collection is mapped where its table has a place for it, to a virtual processor that there is.
pub fn mapc_keeps_soundness()
    ensures { laws.MapcKeepsSound }
{}

/// A collection goes alone.
pub fn unmapc_keeps_soundness()
    ensures { laws.UnmapcKeepsSound }
{}

/// An event is mapped within its device's bits, to an LPI of the machine.
pub fn mapti_keeps_soundness()
    ensures { laws.MaptiKeepsSound }
{}

/// An event's pending LPI follows it to its new collection.
pub fn movi_keeps_soundness()
    ensures { laws.MoviKeepsSound }
{}

/// An event goes with its pending LPI.
pub fn discard_keeps_soundness()
    ensures { laws.DiscardKeepsSound }
{}

/// An event's LPI is made pending where LPIs are on.
pub fn int_keeps_soundness()
    ensures { laws.IntKeepsSound }
{}

/// An event's LPI is no longer pending.
pub fn clear_keeps_soundness()
    ensures { laws.ClearKeepsSound }
{}

/// A byte read again leaves a configuration as long as it was.
pub fn inv_keeps_soundness()
    ensures { laws.InvKeepsSound }
{}

/// So do the bytes of a collection's LPIs.
pub fn invall_keeps_soundness()
    ensures { laws.InvallKeepsSound }
{}

/// All pending LPIs go to a virtual processor whose LPIs are on.
pub fn movall_keeps_soundness()
    ensures { laws.MovallKeepsSound }
{}

/// Every command of an enabled translator is refused, or leaves a sound state.
pub fn commands_keep_soundness()
    ensures { laws.CommandsKeepSound }
{}
