//! Whether stretches share bytes.
ghost use Rattle.std.specs.Prelude.{◌≡◌, List, ◌<◌, ◌≤◌, find, length, true, false};
ghost use Rattle.its_plain.specs.Regions as spec;
ghost use Rattle.its_plain.specs.declared.area.Area as plain;
ghost use Rattle.table_save.specs.Checked.{clash_fault};
ghost use Rattle.table_save.specs.Edges.{AreEdges, chosen, end_of, meets_another};

use crate::area::Stretch;
use crate::edges::Edges;
use its_plain::SaveFault;

/// No two of the areas clash, or the first pair that does, by the first of the two and then by the
/// second. The edges of all of them, and of those that are written, are sorted into the room that
/// is lent for them.
pub fn none_overlap(
    areas: &[Stretch],
    all: &mut Edges,
    written: &mut Edges,
) -> Result<(), SaveFault>
    requires all { length areas.now ≤ all.old.room }
    requires written { length areas.now ≤ written.old.room }
    ensures answer { result ≡ spec.none_overlap areas.now }
    ensures all { all.old.room ≤ all.new.room }
    ensures written { written.old.room ≤ written.new.room }
{
    all.set(areas, true);
    written.set(areas, false);
    find_overlap(areas, all, written)
}

// The same, with the edges of all the areas and of those that are written. The first area that
// meets another is the first of the pair, so one area alone is tried with each of those after it.
fn find_overlap(areas: &[Stretch], all: &Edges, written: &Edges) -> Result<(), SaveFault>
    requires all { AreEdges (chosen true areas.now) all.now }
    requires written { AreEdges (chosen false areas.now) written.now }
    ensures { result ≡ spec.none_overlap areas.now }
{
    let mut rest = areas;
    while let [one, others @ ..] = rest {
        if meets_another(one, all, written) {
            none_clashes(one, others)?;
        }
        rest = others;
    }
    Ok(())
}

// Whether an area shares a byte with another, and one of the two is written.
fn meets_another(one: &Stretch, all: &Edges, written: &Edges) -> bool
    ensures meets { (areas : List plain.Area) → AreEdges (chosen true areas) all.now →
        AreEdges (chosen false areas) written.now → result ≡ meets_another one.now areas }
    ensures some { one.now.base < end_of one.now }
{
    if one.is_written() {
        all.met_by(one) > 1
    } else {
        written.met_by(one) > 0
    }
}

// None of the others clashes with an area, or the first that does.
fn none_clashes(one: &Stretch, others: &[Stretch]) -> Result<(), SaveFault>
    ensures { result ≡ clash_fault one.now (find (spec.clash one.now) others.now) }
{
    for other in others {
        if one.clashes(other) {
            return Err(SaveFault::Overlap(one.region(), other.region()));
        }
    }
    Ok(())
}
