//! The order in which parts are taken. Nothing here runs.
ghost use Rattle.its_turns.specs.Order.{OrderIsByNumber};

/// The order of parts, which is told by their kinds, is that of the numbers of their turns and
/// slots.
pub fn order_is_by_number()
    ensures { OrderIsByNumber }
{}
