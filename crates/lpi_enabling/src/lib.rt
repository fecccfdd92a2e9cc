//! When the LPIs of a virtual processor are on: the guest turns them on by GICR_CTLR.EnableLPIs
//! (IHI 0069, section 12.11), and until then it has none. Laws of the model; nothing here runs.
#![tactic(auto)]

ghost use Rattle.lpi_enabling.specs.Laws as laws;

/// No call turns LPIs off but a write of 0 to GICR_CTLR.EnableLPIs, where the machine lets it; that
/// does. LPIs are taken where they are on, from then on too.
pub fn lpis_stay_on()
    ensures stay { laws.LpisStayOn }
    ensures off { laws.LpisAreTurnedOff }
    ensures taken { laws.LpisAreTakenWhereOn }
{}

/// LPIs are turned on by a write of 1 to the virtual processor's GICR_CTLR.EnableLPIs alone.
pub fn only_a_write_turns_on()
    ensures { laws.OnlyAWriteTurnsOn }
{}

/// A migration turns LPIs neither on nor off.
pub fn migrations_keep_on()
    ensures { laws.MigrationsKeepOn }
{}

/// Where the guest programs the LPI registers, every virtual processor starts with LPIs off, and
/// with none pending, unless it is restored with them on.
pub fn machines_start_off()
    ensures { laws.MachinesStartOff }
{}

/// In a run that starts so, each LPI that is delivered, taken, shown or pending comes after a call
/// that turned the LPIs of its virtual processor on.
pub fn runs_follow_enabling()
    ensures { laws.RunsFollowEnabling }
{}

/// So it is in each run that was cut.
pub fn partial_runs_follow_enabling()
    ensures { laws.PartialRunsFollowEnabling }
{}
