//! The walk over the collection table.
ghost use Rattle.std.specs.Prelude.{◌≡◌, ◌+◌, ◌<◌, ◌≤◌, ◌^◌, ℕ, true, OnOk};
ghost use Rattle.std.specs.Option.{option_map};
ghost use Rattle.gits_regs.specs.Registers.{collection_places, is_valid};
ghost use Rattle.its_types.specs.Maps.{Maps, no_maps};
ghost use Rattle.standing_states.specs.Walked.{after_all};
ghost use Rattle.standing_states.specs.Found.{put_collection, collections_from, collections_read};
ghost use Rattle.standing_states.specs.Found.{AreThoseBefore, one_collection};
ghost use Rattle.table_restore.specs.Outcome.{LookedCollection, Took, fields_of};

use crate::error::TableError;
use crate::events::within;
use gits_regs::Regs;
use guest_windows::Memory;
use its_maps::Maps;
use its_plain::RestoreFault;
use its_types::{Addr, Icid, Shape, Vcpu};
use std::alloc::AllocError;
use table_entries::Cte;

// The processor number of a collection that was named and never mapped, as KVM saves it.
const NEVER_MAPPED: u64 = 0xFFFF_FFFF;

// What a place has, and where it leads, where the maps have the collections of the places before.
fn look(
    regs: &Regs,
    memory: &Memory,
    shape: Shape,
    maps: &Maps,
    place: u32,
) -> Result<(Option<(Icid, Vcpu)>, Option<u32>), RestoreFault>
    requires place { place < collection_places regs.now }
    requires before { AreThoseBefore shape memory.now regs.now maps.now.maps place }
    ensures { LookedCollection shape memory.now regs.now place result }
{
    let addr = Addr(regs.table_base(1).0 + 8 * u64::from(place));
    let Ok(word) = memory.read_u64(addr) else {
        return Err(RestoreFault::OutsideTable(addr));
    };
    let Some(entry) = Cte::unpack(word) else {
        return Ok((None, None));
    };
    let next = within(regs.collection_places(), place + 1);
    if shape.linux && entry.vcpu_number == NEVER_MAPPED {
        return Ok((None, next));
    }
    let icid = entry.icid;
    if u32::from(icid.0) >= regs.collection_places() {
        return Err(RestoreFault::BadCollection(icid));
    }
    if entry.vcpu_number >= u64::from(shape.vcpus) {
        return Err(RestoreFault::BadTarget(icid, entry.vcpu_number));
    }
    if maps.collection(icid).is_some() {
        return Err(RestoreFault::DoubleCollection(icid));
    }
    Ok((Some((icid, Vcpu(entry.vcpu_number as u16))), next))
}

// Maps the collection that a place has, if it has one.
fn map_one(maps: &mut Maps, seen: Option<(Icid, Vcpu)>) -> Result<(), AllocError>
    ensures { OnOk result (maps.new.maps ≡ after_all put_collection maps.old.maps
        (one_collection (option_map fields_of seen))) }
{
    if let Some((icid, vcpu)) = seen {
        maps.room_for_collection()?;
        maps.map_collection(icid, vcpu);
    }
    Ok(())
}

fn walk(regs: &Regs, memory: &Memory, shape: Shape, maps: &mut Maps) -> Result<(), TableError>
    requires { maps.old.maps ≡ no_maps }
    ensures { Took put_collection maps.old.maps maps.new.maps result
        (collections_from shape memory.now regs.now 0) }
{
    let mut place = 0;
    'places: loop {
        let (collection, next) = match look(regs, memory, shape, maps, place) {
            Ok(seen) => seen,
            Err(fault) => return Err(TableError::Fault(fault)),
        };
        map_one(maps, collection)?;
        let Some(to) = next else {
            return Ok(());
        };
        place = to;
    }
}

/// Maps the collections that a valid table has, up to its first entry that isn't valid, or tells
/// the first fault. No collection is mapped before. In a machine for Linux guests the entries of
/// collections that were named and never mapped are passed over.
pub fn map_collections(
    regs: &Regs,
    memory: &Memory,
    shape: Shape,
    maps: &mut Maps,
) -> Result<(), TableError>
    requires { maps.old.maps ≡ no_maps }
    ensures { Took put_collection maps.old.maps maps.new.maps result
        (collections_read shape memory.now regs.now) }
{
    if !regs.table_valid(1) {
        return Ok(());
    }
    walk(regs, memory, shape, maps)
}
