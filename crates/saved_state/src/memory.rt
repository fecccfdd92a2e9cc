//! The memory that a save leaves.
ghost use Rattle.saved_state.specs.Laws as laws;

/// Every word of every table that a save writes stands in memory after it.
pub fn words_read_back()
    ensures { laws.WordsReadBack }
{}

/// Bytes that belong to no area that is written are as before.
pub fn other_bytes_stay()
    ensures { laws.OtherBytesStay }
{}

/// So what a save only looks at is as before: first levels, configuration tables and command
/// queues.
pub fn read_areas_stay()
    ensures { laws.ReadAreasStay }
{}
