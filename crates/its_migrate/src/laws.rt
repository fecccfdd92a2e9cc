//! What is known of the ways to go on in another machine.
ghost use Rattle.its_migrate.specs.Beside as beside;
ghost use Rattle.its_migrate.specs.Precopying as laws;

/// The next machine begins alike whichever way it was gone on to.
pub fn precopies_as_migrates()
    ensures { laws.PrecopiesAsMigrates }
{}

/// Copies that threads make, in any history and beside any other calls, change nothing but the
/// second memory. The other calls are answered as if there were none.
pub fn copies_change_nothing_else()
    ensures { beside.CopiesChangeNothingElse }
{}

/// A migration that copies pages while threads run gives the same machine as one that stops first,
/// of one translator or two.
pub fn running_as_stopped()
    ensures { beside.RunningAsStopped }
{}
