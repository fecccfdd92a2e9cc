//! The collections that have entries in a saved table, by rising ICID: those that are mapped, and
//! those that aren't and that events name.
ghost use Rattle.std.specs.Prelude.{◌≤◌};

use its_maps::{CollectionWalk, Maps};
use its_types::{Icid, Vcpu};

/// The collections whose entries aren't written yet.
#[derive(Drop)]
pub struct EntryFront<'a> {
    pub(crate) maps: &'a Maps,
    // Collections that aren't mapped have entries below this ICID.
    pub(crate) places: u32,
    // Those below this ICID are written.
    pub(crate) from: u32,
    pub(crate) first: Option<(Icid, Vcpu)>,
    pub(crate) rest: CollectionWalk<'a>,
    // The next one that isn't mapped and that an event names.
    pub(crate) named: Option<Icid>,
    ghost few: { places ≤ 65536 },
}
