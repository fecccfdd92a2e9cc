//! What a call of the plain machine reads and changes: the laws of its parts. Nothing here runs.
#![tactic(auto)]

ghost use Rattle.plain_footprint.specs.Laws.{CallsLeaveOthers, FootprintDecides};
ghost use Rattle.plain_footprint.specs.Laws.{FootprintsAreAlike, LayoutStays, OtherPartsStay};
ghost use Rattle.plain_footprint.specs.Laws.{RefusedChangesNothing};

/// A call changes no part of the machine outside its footprint.
pub fn other_parts_stay()
    ensures { OtherPartsStay }
{}

/// Two states of one machine that have a call's footprint in common answer it alike, and have the
/// footprint in common afterwards.
pub fn footprint_decides()
    ensures { FootprintDecides }
{}

/// A call changes nothing of the layout, so what it leaves is a state of the same machine.
pub fn layout_stays()
    ensures { LayoutStays }
{}

/// A call leaves all else alone, also where the state is not sound, as one that is put together of
/// parts in hand.
pub fn calls_leave_others()
    ensures { CallsLeaveOthers }
{}

/// Who has a call's footprint in hand knows that it is the footprint.
pub fn footprints_are_alike()
    ensures { FootprintsAreAlike }
{}

/// A refused command changes nothing but CREADR.
pub fn refused_changes_nothing()
    ensures { RefusedChangesNothing }
{}
