//! The whole of a save.

ghost use Rattle.guest_windows.specs.Drafts.{laid};
ghost use Rattle.std.specs.Prelude.{◌≡◌, ◌++◌, ◌≤◌, ◌∷◌, [], OnOk, IfSome, Option, None};
ghost use Rattle.std.specs.List.{flat_map};
ghost use Rattle.dirty_log.specs.declared.tracked.Tracked.{Tracked};
ghost use Rattle.its_plain.specs.Regions as spec;
ghost use Rattle.its_plain.specs.Saved.{saved, put_tables, pending_words};
ghost use Rattle.its_plain.specs.Sound.{IsSound};
ghost use Rattle.owned_parts.specs.Owned.{AreAllInHand, state_of, state_in_place};
ghost use Rattle.table_save.specs.Areas.{redistributors_of};
ghost use Rattle.table_save.specs.Checked.{Answers, Leaves, Saves};
ghost use Rattle.table_save.specs.Fits.{AreOfSound, FitsSave, FitsTranslator, area_count};
ghost use Rattle.table_save.specs.Fits.{words_at, second_words};

use crate::areas::{add_others, add_tables};
use crate::checks::{all_inside, all_placed};
use crate::collections::put_collections;
use crate::devices::put_devices;
use crate::events::put_itts;
use crate::overlap::none_overlap;
use crate::pending::put_pending;
use crate::room::SaveRoom;
use guest_windows::{Draft, Memory};
use its_plain::{SaveError, SaveFault};
use its_types::Shape;
use owned_parts::{InPlace, TranslatorRef};
use std::alloc::{AllocError, Global};

/// Whether the tables can be saved to guest memory, or the first reason why not.
pub fn savable(alloc: Global, parts: &InPlace<'_>) -> Result<(), SaveError>
    requires parts { AreAllInHand parts.now.layout.now.shape parts.now.redists.now }
    requires sound { AreOfSound parts.now }
    ensures { Answers result (spec.savable (state_in_place parts.now)) }
{
    let mut room = SaveRoom::for_parts(alloc, parts)?;
    savable_in(parts, &mut room)?;
    Ok(())
}

// Whether the tables can be saved, found in room for them.
fn savable_in(parts: &InPlace<'_>, room: &mut SaveRoom) -> Result<(), SaveFault>
    requires fits { FitsSave parts.now }
    requires room { area_count parts.now ≤ room.old.spare }
    ensures { result ≡ spec.savable (state_in_place parts.now) }
{
    room.areas.clear();
    add_tables(&mut room.areas, parts);
    all_inside(parts.memory, room.areas.as_slice())?;
    all_placed(parts)?;
    add_others(&mut room.areas, parts);
    none_overlap(room.areas.as_slice(), &mut room.all, &mut room.written)
}

/// The pages of guest memory with the tables saved in them, to be laid over it: every entry of
/// every table, unused ones as zeros, and the pending bits. Or why they can't be saved.
pub fn saved_pages(alloc: Global, parts: &InPlace<'_>) -> Result<Draft, SaveError>
    requires parts { AreAllInHand parts.now.layout.now.shape parts.now.redists.now }
    requires sound { AreOfSound parts.now }
    ensures { Saves (state_in_place parts.now) result }
{
    savable(alloc, parts)?;
    let mut draft = Draft::new(alloc);
    save_in(parts, &mut draft)?;
    Ok(draft)
}

/// Writes what a save writes into a draft over their memory that is as it. It checks nothing. Out
/// of memory, a part of it is written.
pub fn save_in(parts: &InPlace<'_>, draft: &mut Draft) -> Result<(), AllocError>
    requires parts { AreAllInHand parts.now.layout.now.shape parts.now.redists.now }
    requires sound { AreOfSound parts.now }
    requires same { laid draft.old parts.now.memory.now ≡ parts.now.memory.now }
    ensures { OnOk result (laid draft.new parts.now.memory.now ≡ saved (state_in_place parts.now)) }
{
    put_all(parts, draft)
}

// Writes all tables.
fn put_all(parts: &InPlace<'_>, draft: &mut Draft) -> Result<(), AllocError>
    requires fits { FitsSave parts.now }
    ensures { OnOk result (laid draft.new parts.now.memory.now
        ≡ put_tables (laid draft.old parts.now.memory.now)
        ((words_at parts.now.layout.now.shape parts.now.memory.now parts.now.first
        ++ second_words parts.now.layout.now.shape parts.now.memory.now
        parts.now.second)
        ++ flat_map (pending_words parts.now.layout.now.shape)
        (redistributors_of parts.now.layout.now.shape parts.now.redists.now))) }
{
    put_translator(draft, parts.memory, parts.layout.shape, parts.first)?;
    put_second(draft, parts.memory, parts.layout.shape, parts.second)?;
    put_pending(draft, parts.memory, parts.redists, parts.layout.shape)
}

fn put_second(
    draft: &mut Draft,
    under: &Memory,
    shape: Shape,
    second: Option<TranslatorRef<'_>>,
) -> Result<(), AllocError>
    requires { IfSome second FitsTranslator }
    ensures { OnOk result (laid draft.new under.now
        ≡ put_tables (laid draft.old under.now) (second_words shape under.now second.entry)) }
{
    match second {
        Some(translator) => put_translator(draft, under, shape, translator),
        None => Ok(()),
    }
}

// Writes the tables of one translator.
fn put_translator(
    draft: &mut Draft,
    under: &Memory,
    shape: Shape,
    translator: TranslatorRef<'_>,
) -> Result<(), AllocError>
    requires { FitsTranslator translator }
    ensures { OnOk result (laid draft.new under.now
        ≡ put_tables (laid draft.old under.now) (words_at shape under.now translator.entry)) }
{
    let TranslatorRef { regs, maps } = translator;
    put_devices(draft, under, regs, maps)?;
    put_collections(draft, under, shape, regs, maps)?;
    put_itts(draft, under, maps)
}
