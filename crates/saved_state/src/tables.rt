//! The tables that a save leaves.
ghost use Rattle.saved_state.specs.Laws as laws;

/// The collection table holds the collections that are mapped, and nothing that a restore would
/// refuse.
pub fn collections_stand()
    ensures { laws.CollectionsStand }
{}

/// For Linux, each event's collection has an entry where the table has a place of its number, also
/// if it isn't mapped.
pub fn named_collections_stand()
    ensures { laws.NamedCollectionsStand }
{}

/// A pending table holds the LPIs that are pending, where LPIs are on, and the configuration is the
/// one that is read again.
pub fn redistributors_stand()
    ensures { laws.RedistributorsStand }
{}

/// The interrupt translation table of each device holds the events that are mapped, and nothing
/// that a restore would refuse.
pub fn events_stand()
    ensures { laws.EventsStand }
{}

/// The device table, flat or of two levels, holds the devices that are mapped, and nothing that a
/// restore would refuse.
pub fn devices_stand()
    ensures { laws.DevicesStand }
{}
