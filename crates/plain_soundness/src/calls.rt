//! What each kind of call keeps.
ghost use Rattle.plain_soundness.specs.Laws as laws;

/// The LPI that would be acknowledged is only read.
pub fn show_keeps_soundness()
    ensures { laws.ShowKeepsSound }
{}

/// The LPI that comes first by priority is only read.
pub fn best_keeps_soundness()
    ensures { laws.BestKeepsSound }
{}

/// Guest memory is only read.
pub fn peek_keeps_soundness()
    ensures { laws.PeekKeepsSound }
{}

/// A register is only read.
pub fn register_read_keeps_soundness()
    ensures { laws.RegisterReadKeepsSound }
{}

/// An acknowledged LPI leaves a pending set that is still in order.
pub fn take_keeps_soundness()
    ensures { laws.TakeKeepsSound }
{}

/// An LPI that was claimed leaves a pending set that is still in order.
pub fn claim_keeps_soundness()
    ensures { laws.ClaimKeepsSound }
{}

/// A write of guest memory leaves every table in one window.
pub fn poke_keeps_soundness()
    ensures { laws.PokeKeepsSound }
{}

/// A new device or collection table is empty, and every other write leaves the tables as they are.
pub fn register_write_keeps_soundness()
    ensures { laws.RegisterWriteKeepsSound }
{}

/// A read of an LPI register changes nothing.
pub fn gicr_read_keeps_soundness()
    ensures { laws.GicrReadKeepsSound }
{}

/// A write of an LPI register leaves kept bits alone, and turns LPIs on only where both tables lie
/// in memory.
pub fn gicr_write_keeps_soundness()
    ensures { laws.GicrWriteKeepsSound }
{}

/// A message makes an LPI pending where LPIs are on.
pub fn signal_keeps_soundness()
    ensures { laws.SignalKeepsSound }
{}

/// A step is idle, or takes a command and goes on in the queue.
pub fn step_keeps_soundness()
    ensures { laws.StepKeepsSound }
{}

/// A save leaves every table in one window, and nothing else changed.
pub fn save_keeps_soundness()
    ensures { laws.SaveKeepsSound }
{}

/// A copy leaves no byte in which memory and its copy differ.
pub fn copy_keeps_soundness()
    ensures { laws.CopyKeepsSound }
{}

/// A write by address is a message, a write of guest memory, or nothing.
pub fn dma_keeps_soundness()
    ensures { laws.DmaKeepsSound }
{}

/// Every call leaves a sound state sound.
pub fn calls_keep_soundness()
    ensures { laws.CallsKeepSound }
{}

/// So the state after any calls from a sound state on is sound.
pub fn histories_keep_soundness()
    ensures { laws.HistoriesKeepSound }
{}
