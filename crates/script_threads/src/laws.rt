//! What a script's limits tell of its legs.
ghost use Rattle.script_threads.specs.Scripts.{LegsMayRun};

/// A leg of a script within its limits may be run.
pub fn legs_may_run()
    ensures { LegsMayRun }
{}
