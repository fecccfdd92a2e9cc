//! A machine that passes share.
ghost use Rattle.std.specs.Prelude.{◌≡◌, ◌++◌, ◌∷◌, OnOk, IfOk, map, replicate};
ghost use Rattle.std.specs.Prelude as std;
ghost use Rattle.xlate_cache.specs.Ways.{no_entries};
ghost use Rattle.its_plain.specs.Plain.{conf_of, pend_of};
ghost use Rattle.its_plain.specs.Sound.{IsSound};
ghost use Rattle.its_player.specs.Shared.{core_of, home_slots};
ghost use Rattle.its_steps.specs.Steps.{first_core};

use crate::content::Content;
use crate::view::{FIRST_WORD, View};
use its_plain::Entry;
use its_types::{Limits, Word};
use plain_machine::{RedistLists, State, TranslatorLists};
use std::alloc::{AllocError, Global};
use xlate_cache::Shard;

/// A machine that passes share. Each part has an index, by which it has its turn and its slot.
#[derive(Drop)]
pub struct Shared {
    /// The state before any call.
    pub start: State,
    pub limits: Limits,
    /// How many shards each translator's cache has.
    pub shards: u32,
    pub history: Vec<Entry>,
    pub word: Word,
    /// 0 where the part is free, else one more than the number of the pass that has it.
    pub turns: Vec<u64>,
    /// Nothing where the part is out.
    pub slots: Vec<Option<Content>>,
    pub views: Vec<View>,
    /// The index of the view of each note.
    pub notes: Vec<usize>,
}

impl Shared {
    /// Before any step.
    pub fn new(
        alloc: Global,
        start: State,
        limits: Limits,
        shards: u32,
    ) -> Result<Shared, AllocError>
        requires { IsSound start }
        ensures first { IfOk result (λ w.
            core_of w ≡ first_core (record { start = start; limits = limits; shards = shards })) }
        ensures shards { IfOk result (λ w. w.shards ≡ shards) }
    {
        let slots = first_slots(alloc, &start, shards)?;
        let turns = free_turns(alloc, slots.len())?;
        let root = View::fresh(alloc, 0, 1, Vec::new(alloc), FIRST_WORD);
        let mut views = Vec::new(alloc);
        views.push(root)?;
        Ok(Shared {
            start,
            limits,
            shards,
            history: Vec::new(alloc),
            word: FIRST_WORD,
            turns,
            slots,
            views,
            notes: Vec::new(alloc),
        })
    }
}

fn free_turns(alloc: Global, count: usize) -> Result<Vec<u64>, AllocError>
    ensures { IfOk result (λ v. v.items ≡ replicate count 0) }
{
    Ok(vec![in alloc; 0; count]?)
}

// Each part in its slot, and every shard empty.
fn first_slots(
    alloc: Global,
    start: &State,
    shards: u32,
) -> Result<Vec<Option<Content>>, AllocError>
    ensures { IfOk result (λ v. v.items ≡ home_slots start.now shards) }
{
    let mut slots = Vec::new(alloc);
    add_maps(alloc, &mut slots, start.translators())?;
    slots.push(Some(Content::Mem(start.memory().copy(alloc)?)))?;
    for _translator in start.translators() {
        add_shards(alloc, &mut slots, shards)?;
    }
    add_confs(alloc, &mut slots, start.redistributors())?;
    add_pends(alloc, &mut slots, start.redistributors())?;
    Ok(slots)
}

fn add_maps(
    alloc: Global,
    slots: &mut Vec<Option<Content>>,
    translators: &[TranslatorLists],
) -> Result<(), AllocError>
    ensures { OnOk result (slots.new.items
        ≡ slots.old.items ++ map (λ t. std.Some (Content.Maps t)) translators.now) }
{
    for translator in translators {
        slots.push(Some(Content::Maps(translator.copy(alloc)?)))?;
    }
    Ok(())
}

fn add_shards(
    alloc: Global,
    slots: &mut Vec<Option<Content>>,
    shards: u32,
) -> Result<(), AllocError>
    ensures { OnOk result (slots.new.items
        ≡ slots.old.items ++ replicate shards (std.Some (Content.Shard no_entries))) }
{
    for _n in 0..shards {
        slots.push(Some(Content::Shard(Shard::new(alloc)?)))?;
    }
    Ok(())
}

fn add_confs(
    alloc: Global,
    slots: &mut Vec<Option<Content>>,
    redists: &[RedistLists],
) -> Result<(), AllocError>
    ensures { OnOk result (slots.new.items
        ≡ slots.old.items ++ map (λ r. std.Some (Content.Conf (conf_of r))) redists.now) }
{
    for redist in redists {
        slots.push(Some(Content::Conf(redist.conf(alloc)?)))?;
    }
    Ok(())
}

fn add_pends(
    alloc: Global,
    slots: &mut Vec<Option<Content>>,
    redists: &[RedistLists],
) -> Result<(), AllocError>
    ensures { OnOk result (slots.new.items
        ≡ slots.old.items ++ map (λ r. std.Some (Content.Pend (pend_of r))) redists.now) }
{
    for redist in redists {
        slots.push(Some(Content::Pend(redist.pend(alloc)?)))?;
    }
    Ok(())
}
