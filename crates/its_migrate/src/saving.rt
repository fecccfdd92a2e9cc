//! Saves while other passes go on (KVM document arm-vgic-its, section
//! "KVM_DEV_ARM_ITS_SAVE_TABLES").
ghost use Rattle.std.specs.Prelude.{◌≡◌, ◌<◌, [], Some, IfOk};
ghost use Rattle.its_plain.specs.Answer.{save_reply};
ghost use Rattle.its_plain.specs.Sound.{IsSound};
ghost use Rattle.owned_parts.specs.Owned.{AreAllInHand, state_of, translator_of, translator_at};
ghost use Rattle.std.specs.Option.{option_map};
ghost use Rattle.held_parts.specs.Wholes.{redists_in, state_of_whole};
ghost use Rattle.its_types.specs.declared.machine.Word.{Word};
ghost use Rattle.its_plain.specs.declared.call.Call.TheVariants as call;
ghost use Rattle.its_steps.specs.Calls.{staying};
ghost use Rattle.its_steps.specs.MayCall.{MayCall};
ghost use Rattle.its_steps.specs.declared.change.ShardChange.TheVariants.{Keep};
ghost use Rattle.its_turns.specs.Machines.{setup, view, IsOf};
ghost use Rattle.its_migrate.specs.Saving.{IsSaved, Commits, LeavesMemory, answered};
ghost use Rattle.its_migrate.specs.Saving.{marked, memory_or, track_or, translators_held};

use dirty_log::Tracked;
use guest_windows::{Draft, Memory};
use held_parts::{Waiting, Whole, put_whole, take_whole};
use its_plain::{Call, Layout, Reply, SaveError, SaveFault};
use its_steps::ShardChange;
use its_turns::{GuestMemory, Lost, Machine, NotMade, Pass, Spent, pause, try_commit};
use its_types::{Gate, Placed, Word};
use lpi_pending::Redists;
use owned_parts::{InPlace, Translator, TranslatorRef};
use std::alloc::{AllocError, Global};
use std::sync::Wait;
use table_save::{mark_tables, saved_pages};

/// Writes the tables and the pending LPIs of all translators to guest memory, or answers why they
/// can't be saved: one call of the history, for which it waits until it has all parts but the
/// shards. Where it answers an error no call was made, and memory is as it was.
///
/// ```
/// let refused = match save(rt, alloc, machine, pass, &Open)?.reply {
///     Ok(()) => None,
///     Err(fault) => Some(fault),
/// };
/// ```
pub fn save<R: Wait, G: Gate>(
    rt: &R,
    alloc: Global,
    machine: &Machine,
    pass: &mut Pass,
    gate: &G,
) -> Result<Placed<Result<(), SaveFault>>, NotMade>
    requires of { IsOf machine.now pass.old }
    requires free { (view pass.old).held ≡ [] }
    ensures of { IsOf machine.now pass.new }
    ensures answer { IsSaved (view pass.old) result (view pass.new) }
{
    let layout = match machine.desc().layout(alloc) {
        Ok(layout) => layout,
        Err(_) => return Err(NotMade::NoMemory),
    };
    let mut whole = take_whole(&Waiting { rt }, machine, pass, gate);
    let Ok(saved) = saves(alloc, &layout, &whole) else {
        put_whole(machine, pass, whole);
        return Err(NotMade::NoMemory);
    };
    let reply = answer_of(&saved);
    match commit_save(rt, machine, pass, gate, &reply_to(&reply)) {
        Ok(word) => {
            adopt(saved, &layout, &mut whole);
            put_whole(machine, pass, whole);
            Ok(Placed {
                place: word.place,
                reply,
            })
        }
        Err(Spent) => {
            put_whole(machine, pass, whole);
            Err(NotMade::Spent)
        }
    }
}

// Makes the call, whose reply no other call can change while all parts are held. Where another was
// made first, it tries again. Answers the word that it found.
fn commit_save<R: Wait, G: Gate>(
    rt: &R,
    machine: &Machine,
    pass: &mut Pass,
    gate: &G,
    reply: &Reply,
) -> Result<Word, Spent>
    requires of { IsOf machine.now pass.old }
    requires may { (w : Word) → w.place < (setup machine.now).limits.place_last
        → MayCall (setup machine.now) (staying w call.Save reply.now Keep) (view pass.old).held }
    ensures of { IsOf machine.now pass.new }
    ensures result { Commits (view pass.old) reply.now result (view pass.new) }
{
    let mut attempt = 0u8;
    for _ in rt.forever() {
        attempt = attempt.saturating_add(1);
        match try_commit(machine, pass, gate, &Call::Save, reply, ShardChange::Keep) {
            Ok(word) => return Ok(word),
            Err(Lost::Spent) => return Err(Spent),
            Err(Lost::Raced(_)) => pause(attempt),
        }
    }
    unreachable!()
}

/// The pages of guest memory with the tables saved in them, or why they can't be saved. Nothing
/// after this takes memory.
pub fn saves(
    alloc: Global,
    layout: &Layout,
    whole: &Whole,
) -> Result<Result<Draft, SaveFault>, AllocError>
    requires hand { AreAllInHand layout.now.shape (redists_in whole.now) }
    requires sound { IsSound (state_of_whole layout.now whole.now) }
    ensures { IfOk result (λ r. LeavesMemory (state_of_whole layout.now whole.now) r) }
{
    match saved_pages(alloc, &whole.in_place(layout)) {
        Ok(pages) => Ok(Ok(pages)),
        Err(SaveError::Fault(fault)) => Ok(Err(fault)),
        Err(SaveError::NoMemory) => Err(AllocError),
    }
}

/// What the save answers.
pub fn answer_of(saved: &Result<Draft, SaveFault>) -> Result<(), SaveFault>
    ensures { result ≡ answered saved.now }
{
    match saved {
        Ok(_) => Ok(()),
        Err(fault) => Err(*fault),
    }
}

/// Lays the pages over guest memory, where the tables can be saved, and marks those that the tables
/// lie in. Takes no memory.
pub fn adopt(saved: Result<Draft, SaveFault>, layout: &Layout, whole: &mut Whole)
    requires hand { AreAllInHand layout.now.shape (redists_in whole.old) }
    requires sound { IsSound (state_of_whole layout.now whole.old) }
    ensures first { whole.new.first ≡ whole.old.first }
    ensures second { whole.new.second ≡ whole.old.second }
    ensures redists { redists_in whole.new ≡ redists_in whole.old }
    ensures memory { whole.new.memory.value.memory
        ≡ memory_or whole.old.memory.value.memory saved }
    ensures track { whole.new.memory.value.track
        ≡ track_or (state_of_whole layout.now whole.old) saved }
{
    if let Ok(pages) = saved {
        mark_saved(layout, whole);
        whole.memory.memory.adopt(pages);
    }
}

// Marks the pages of the tables that a save writes, where the machine has a second memory.
fn mark_saved(layout: &Layout, whole: &mut Whole)
    requires hand { AreAllInHand layout.now.shape (redists_in whole.old) }
    requires sound { IsSound (state_of_whole layout.now whole.old) }
    ensures first { whole.new.first ≡ whole.old.first }
    ensures second { whole.new.second ≡ whole.old.second }
    ensures redists { redists_in whole.new ≡ redists_in whole.old }
    ensures memory { whole.new.memory.value.memory ≡ whole.old.memory.value.memory }
    ensures track { whole.new.memory.value.track ≡ marked (state_of_whole layout.now whole.old) }
{
    let Whole {
        first,
        second,
        memory,
    } = whole;
    mark_memory(layout, first, second, memory);
}

fn mark_memory(
    layout: &Layout,
    first: &Translator,
    second: &Option<Box<Translator>>,
    memory: &mut GuestMemory,
)
    requires hand { AreAllInHand layout.now.shape memory.old.redists }
    requires sound { IsSound (state_of layout.now (translators_held first.now second.now)
        memory.old.memory memory.old.track memory.old.redists) }
    ensures memory { memory.new.memory ≡ memory.old.memory }
    ensures redists { memory.new.redists ≡ memory.old.redists }
    ensures track { memory.new.track
        ≡ marked (state_of layout.now (translators_held first.now second.now)
        memory.old.memory memory.old.track memory.old.redists) }
{
    let GuestMemory {
        memory,
        track,
        redists,
        ..
    } = memory;
    if let Some(track) = track {
        mark_track(layout, first, second, memory, redists, track);
    }
}

fn mark_track<'a>(
    layout: &'a Layout,
    first: &'a Translator,
    second: &'a Option<Box<Translator>>,
    memory: &'a Memory,
    redists: &'a Redists,
    track: &mut Tracked,
)
    requires hand { AreAllInHand layout.now.shape redists.now }
    requires sound { IsSound (state_of layout.now (translators_held first.now second.now)
        memory.now (Some track.old) redists.now) }
    ensures { Some track.new ≡ marked (state_of layout.now
        (translators_held first.now second.now) memory.now (Some track.old) redists.now) }
{
    let rest = InPlace {
        layout,
        first: first.in_place(),
        second: second_in_place(second),
        memory,
        track: None,
        redists,
    };
    mark_tables(&rest, track);
}

fn second_in_place(second: &Option<Box<Translator>>) -> Option<TranslatorRef<'_>>
    ensures { option_map translator_at result
        ≡ option_map translator_of (option_map (λ b. b.value) second.now) }
{
    match second {
        Some(second) => Some(second.in_place()),
        None => None,
    }
}

/// As the history has it.
pub fn reply_to(saved: &Result<(), SaveFault>) -> Reply
    ensures { result ≡ save_reply saved.now }
{
    match saved {
        Ok(()) => Reply::Saved,
        Err(fault) => Reply::SaveFault(*fault),
    }
}
