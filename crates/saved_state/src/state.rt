//! The state that a restore finds.
ghost use Rattle.saved_state.specs.Laws as laws;

/// What a save left, and values that mask to the registers, stand for the state that a migration
/// goes on from.
pub fn saved_stands()
    ensures { laws.SavedStands }
{}

/// What is read of the registers is what they are restored from.
pub fn read_values_mask()
    ensures { laws.ReadValuesMask }
{}

/// So what a save left, and the registers as they read, stand for that state.
pub fn saved_reads_stand()
    ensures { laws.SavedReadsStand }
{}

/// Memory and registers stand for no other state after a save.
pub fn only_that_state_stands()
    ensures { laws.OnlyThatStands }
{}

/// A restore finds no fault in what a save leaves.
pub fn no_offence_is_first()
    ensures { laws.NoOffenceIsFirst }
{}

/// The state that a migration goes on from is an equal translator: registers, devices, events,
/// collections, whether LPIs are on, bases, and exactly the same pending LPIs.
pub fn moved_is_equal()
    ensures { laws.MovedIsEqual }
{}
