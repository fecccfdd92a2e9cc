//! Laws of the definitions, for every list of ways that a shard can have.

ghost use Rattle.xlate_cache.specs.Laws.{FillsAreLawful, DropsAreLawful};

/// What a fill leaves, and what it takes away.
pub fn fills_are_lawful()
    ensures { FillsAreLawful }
{}

/// What a drop leaves.
pub fn drops_are_lawful()
    ensures { DropsAreLawful }
{}
