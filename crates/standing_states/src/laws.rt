//! What memory and registers stand for.
ghost use Rattle.standing_states.specs.Laws as laws;

/// One memory and one set of register values stand for at most one state.
pub fn at_most_one_state_stands()
    ensures { laws.AtMostOneStands }
{}

/// A state that memory and register values stand for is sound, where the machine's layout and the
/// bases of its redistributors are.
pub fn standing_is_sound()
    ensures { laws.StandingIsSound }
{}

/// One memory and one set of register values have at most one first fault, and none where they
/// stand for a state.
pub fn offences_are_decided()
    ensures { laws.OffencesAreDecided }
{}
