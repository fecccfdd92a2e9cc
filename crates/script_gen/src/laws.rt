//! What a run of a generated script rests on.
ghost use Rattle.script_gen.specs.Laws as laws;
ghost use Rattle.script_gen.specs.Summary.{ListsTellCounts, ListsTellLength};

/// The description makes a machine.
pub fn makes_machine()
    ensures { laws.MakesMachine }
{}

/// Nothing is wrong with the description.
pub fn is_never_refused()
    ensures { laws.IsNeverRefused }
{}

/// The script has no more of anything than a script may have, and each field of its calls is in its
/// range.
pub fn stays_within_limits()
    ensures { laws.StaysWithinLimits }
{}

/// Each leg has fewer calls than a history has places.
pub fn has_room()
    ensures { laws.HasRoom }
{}

/// The machine can migrate after the first leg, however the calls of its threads followed one
/// another.
pub fn can_migrate()
    ensures { laws.CanMigrate }
{}

/// Where lists have just the lines of a history's passes, their calls are counted as the history's.
pub fn lists_tell_counts()
    ensures { ListsTellCounts }
{}

/// Then they have as many lines as the history has entries.
pub fn lists_tell_length()
    ensures { ListsTellLength }
{}
