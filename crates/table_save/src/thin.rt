//! Saves of parts that are lent one by one, of a machine without a second memory.
ghost use Rattle.std.specs.Prelude.{◌≡◌, ◌∷◌, [], None};
ghost use Rattle.its_plain.specs.Regions as spec;
ghost use Rattle.its_plain.specs.Saved.{saved};
ghost use Rattle.its_plain.specs.Sound.{IsSound};
ghost use Rattle.owned_parts.specs.Owned.{AreAllInHand, state_of, translator_at, translators_at};
ghost use Rattle.table_save.specs.Fits.{one};
ghost use Rattle.table_save.specs.Checked.{Answers, Leaves, Saves};

use crate::saving::saved_pages;
use gits_regs::Regs;
use guest_windows::{Draft, Memory};
use its_maps::Maps;
use its_plain::{Layout, SaveError};
use lpi_pending::Redists;
use owned_parts::{InPlace, TranslatorRef};
use std::alloc::Global;

/// Saves the tables of one translator to guest memory: writes every entry of every table, unused
/// ones as zeros, and the pending bits. Where it answers an error, memory is as it was.
pub fn save<'a>(
    alloc: Global,
    regs: &'a Regs,
    maps: &'a Maps,
    redists: &'a Redists,
    layout: &'a Layout,
    memory: &mut Memory,
) -> Result<(), SaveError>
    requires parts { AreAllInHand layout.now.shape redists.now }
    requires sound { IsSound (state_of layout.now (one regs.now maps.now.maps) memory.old None
        redists.now) }
    ensures answer { Answers result (spec.savable (state_of layout.now
        (one regs.now maps.now.maps) memory.old None redists.now)) }
    ensures memory { Leaves result memory.old memory.new (saved (state_of layout.now
        (one regs.now maps.now.maps) memory.old None redists.now)) }
{
    let first = TranslatorRef { regs, maps };
    let saved = saved_of(alloc, first, None, redists, layout, memory)?;
    memory.adopt(saved);
    Ok(())
}

/// The same of two translators.
pub fn save_two<'a>(
    alloc: Global,
    first: TranslatorRef<'a>,
    second: TranslatorRef<'a>,
    redists: &'a Redists,
    layout: &'a Layout,
    memory: &mut Memory,
) -> Result<(), SaveError>
    requires parts { AreAllInHand layout.now.shape redists.now }
    requires sound { IsSound (state_of layout.now (translator_at first ∷ translator_at second ∷ [])
        memory.old None redists.now) }
    ensures answer { Answers result (spec.savable (state_of layout.now
        (translator_at first.entry ∷ translator_at second.entry ∷ []) memory.old None
        redists.now)) }
    ensures memory { Leaves result memory.old memory.new (saved (state_of layout.now
        (translator_at first.entry ∷ translator_at second.entry ∷ []) memory.old None
        redists.now)) }
{
    let saved = saved_of(alloc, first, Some(second), redists, layout, memory)?;
    memory.adopt(saved);
    Ok(())
}

// The pages with the tables saved in them.
fn saved_of<'a>(
    alloc: Global,
    first: TranslatorRef<'a>,
    second: Option<TranslatorRef<'a>>,
    redists: &'a Redists,
    layout: &'a Layout,
    memory: &'a Memory,
) -> Result<Draft, SaveError>
    requires parts { AreAllInHand layout.now.shape redists.now }
    requires sound { IsSound (state_of layout.now (translators_at first second) memory.now None
        redists.now) }
    ensures { Saves (state_of layout.now (translators_at first.entry second.entry) memory.now None
        redists.now) result }
{
    let parts = InPlace {
        layout,
        first,
        second,
        memory,
        track: None,
        redists,
    };
    saved_pages(alloc, &parts)
}
