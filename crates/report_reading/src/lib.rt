//! Each report of a run is read back as it is: all that it prints are bytes of text, since no byte
//! that a script puts into guest memory is above 255. Laws of the model; nothing here runs.
#![tactic(auto)]

ghost use Rattle.report_reading.specs.Laws as laws;

/// A machine starts with bytes in its memory, restored or not, where its description's fills are.
pub fn machines_start_with_bytes()
    ensures { laws.MachinesStartWithBytes }
{}

/// A call that puts bytes there leaves bytes there.
pub fn calls_keep_bytes()
    ensures { laws.CallsKeepBytes }
{}

/// What is read of memory are bytes.
pub fn replies_tell_bytes()
    ensures { laws.RepliesTellBytes }
{}

/// A migration goes on with bytes in memory.
pub fn migrations_keep_bytes()
    ensures { laws.MigrationsKeepBytes }
{}

/// The report of each run of a script is read back as it is.
pub fn run_reports_are_read()
    ensures { laws.RunReportsAreRead }
{}
