//! Whether the plain machine can be saved, and the save.
ghost use Rattle.std.specs.Prelude.{◌≡◌, ◌≤◌, ◌++◌, [], OnOk, IfOk, Ok, Err, MatchOption, find};
ghost use Rattle.std.specs.Prelude.{length};
ghost use Rattle.std.specs.List.{flat_map};
ghost use Rattle.std.specs.Option.{option_map};
ghost use Rattle.its_types.specs.Ranges.{most_vcpus};
ghost use Rattle.plain_machine.specs.Memories.{put_all};
ghost use Rattle.its_plain.specs.Answer as answers;
ghost use Rattle.plain_machine.specs.Outcome.{IsTested};
ghost use Rattle.its_plain.specs.Regions as regions;
ghost use Rattle.its_plain.specs.declared.fault.SaveFault.TheVariants as fault;
ghost use Rattle.its_plain.specs.Saved as saved;

use crate::areas;
use crate::redist::RedistLists;
use crate::state::State;
use crate::tracked_memory::TrackedMemory;
use crate::translator::TranslatorLists;
use guest_windows::Memory;
use its_plain::{Area, Region, Reply, SaveError, SaveFault};
use its_types::{Shape, Vcpu};
use std::alloc::{AllocError, Global};

impl State {
    /// Writes every table to memory, or tells the first reason why not.
    pub(crate) fn save(&mut self, alloc: Global) -> Result<Reply, AllocError>
        ensures reply { IfOk result (λ r. r ≡ answers.save_reply (regions.savable self.old)) }
        ensures left { IfOk result
            (λ _. self.new ≡ answers.save_left self.old (regions.savable self.old)) }
    {
        match self.savable(alloc) {
            Ok(()) => {}
            Err(SaveError::Fault(fault)) => return Ok(Reply::SaveFault(fault)),
            Err(SaveError::NoMemory) => return Err(AllocError),
        }
        let Ok(before) = self.memory.guest().copy(alloc) else {
            return Err(AllocError);
        };
        self.write_tables(alloc, &before)?;
        Ok(Reply::Saved)
    }

    // Whether every table can be written, or the first reason why not.
    fn savable(&self, alloc: Global) -> Result<(), SaveError>
        ensures { IsTested result (regions.savable self.now) }
    {
        let mut areas = Vec::new(alloc);
        self.test_areas(&mut areas)
    }

    // The same, over an empty list, to which it adds the areas.
    #[tactic(auto, unfolding(its_plain::specs::Regions::savable, its_plain::specs::Regions::areas_of))]
    fn test_areas(&self, areas: &mut Vec<Area>) -> Result<(), SaveError>
        requires { areas.old.items ≡ [] }
        ensures { IsTested result (regions.savable self.now) }
    {
        let memory = self.memory.guest();
        add_tables(areas, &self.translators, memory)?;
        all_inside(areas, memory)?;
        all_placed(&self.translators, memory)?;
        self.add_other_areas(areas)?;
        areas::none_overlap(areas)?;
        Ok(())
    }

    // The areas of all but the tables of translators.
    fn add_other_areas(&self, areas: &mut Vec<Area>) -> Result<(), AllocError>
        ensures { OnOk result (areas.new.items ≡ areas.old.items
            ++ regions.areas_from (regions.pending_area self.now.layout.shape) 0
            self.now.redistributors ++ regions.config_areas self.now
            ++ regions.each_areas regions.queue_areas 0 self.now.translators) }
    {
        add_pending(areas, &self.layout.shape, &self.redistributors)?;
        self.add_configurations(areas)?;
        add_queues(areas, &self.translators)
    }

    fn add_configurations(&self, areas: &mut Vec<Area>) -> Result<(), AllocError>
        ensures { OnOk result (areas.new.items ≡ areas.old.items ++ regions.config_areas self.now) }
    {
        if self.layout.gicr {
            return add_configurations(areas, &self.layout.shape, &self.redistributors);
        }
        let base = match self.redistributors.first() {
            Some(redist) => redist.config_base(),
            None => 0,
        };
        areas.push(Area {
            region: Region::Config,
            base,
            size: self.layout.shape.lpi_count(),
            is_written: false,
        })?;
        Ok(())
    }

    // `before` is memory as it is.
    #[tactic(auto, using(crate::proofs::SavedTables::put_more, crate::proofs::SavedTables::put_both), unfolding(its_plain::specs::Saved::words_of))]
    fn write_tables(&mut self, alloc: Global, before: &Memory) -> Result<(), AllocError>
        requires { before.now ≡ self.old.memory }
        ensures { OnOk result (self.new ≡ record self.old {
          memory = saved.saved self.old;
          track = option_map (saved.wrote_tables (saved.words_of self.old)) self.old.track;
        }) }
    {
        let shape = &self.layout.shape;
        write_translators(alloc, &mut self.memory, shape, before, &self.translators)?;
        write_pending(&mut self.memory, shape, &self.redistributors)
    }
}

// The areas of the tables of translators.
fn add_tables(
    areas: &mut Vec<Area>,
    translators: &[TranslatorLists],
    memory: &Memory,
) -> Result<(), AllocError>
    requires few { length translators.now ≤ 256 }
    ensures { OnOk result (areas.new.items
        ≡ areas.old.items ++ regions.each_areas (regions.table_areas memory.now) 0
        translators.now) }
{
    for (its, translator) in translators.iter().enumerate() {
        translator.add_tables(its as u8, areas, memory)?;
    }
    Ok(())
}

// Each area lies in one window, or the first that doesn't.
fn all_inside(areas: &[Area], memory: &Memory) -> Result<(), SaveFault>
    ensures { MatchOption (find (regions.is_outside memory.now) areas.now) (result ≡ Ok tt)
        (λ a. result ≡ Err (fault.Outside a.region)) }
{
    match areas::first_outside(areas, memory) {
        Some(outside) => Err(SaveFault::Outside(outside.region)),
        None => Ok(()),
    }
}

fn add_queues(areas: &mut Vec<Area>, translators: &[TranslatorLists]) -> Result<(), AllocError>
    requires few { length translators.now ≤ 256 }
    ensures { OnOk result (areas.new.items
        ≡ areas.old.items ++ regions.each_areas regions.queue_areas 0 translators.now) }
{
    for (its, translator) in translators.iter().enumerate() {
        areas::add_queue(areas, its as u8, translator.regs())?;
    }
    Ok(())
}

// Each mapped device has its level-1 entry, or the first that has none.
fn all_placed(translators: &[TranslatorLists], memory: &Memory) -> Result<(), SaveFault>
    requires few { length translators.now ≤ 256 }
    ensures { result ≡ regions.all_placed memory.now 0 translators.now }
{
    for (its, translator) in translators.iter().enumerate() {
        if let Some(dev) = translator.first_unplaced(memory) {
            return Err(SaveFault::NoPlace(its as u8, dev));
        }
    }
    Ok(())
}

fn add_pending(
    areas: &mut Vec<Area>,
    shape: &Shape,
    redists: &[RedistLists],
) -> Result<(), AllocError>
    requires least { 14 ≤ shape.now.lpi_bits }
    requires most { shape.now.lpi_bits ≤ 20 }
    requires few { length redists.now ≤ most_vcpus }
    ensures { OnOk result (areas.new.items
        ≡ areas.old.items ++ regions.areas_from (regions.pending_area shape.now) 0 redists.now) }
{
    for (vcpu, redist) in redists.iter().enumerate() {
        redist.add_pending_area(areas, shape, Vcpu(vcpu as u16))?;
    }
    Ok(())
}

fn add_configurations(
    areas: &mut Vec<Area>,
    shape: &Shape,
    redists: &[RedistLists],
) -> Result<(), AllocError>
    requires least { 14 ≤ shape.now.lpi_bits }
    requires most { shape.now.lpi_bits ≤ 20 }
    requires few { length redists.now ≤ most_vcpus }
    ensures { OnOk result (areas.new.items
        ≡ areas.old.items ++ regions.areas_from (regions.config_area shape.now) 0 redists.now) }
{
    for (vcpu, redist) in redists.iter().enumerate() {
        redist.add_config_area(areas, shape, Vcpu(vcpu as u16))?;
    }
    Ok(())
}

// ---- what is written

#[tactic(auto, using(crate::proofs::SavedTables::put_front))]
fn write_translators(
    alloc: Global,
    memory: &mut TrackedMemory,
    shape: &Shape,
    before: &Memory,
    translators: &[TranslatorLists],
) -> Result<(), AllocError>
    ensures { OnOk result (memory.new
        ≡ put_all memory.old
        (flat_map (saved.translator_words shape.now before.now) translators.now)) }
{
    for translator in translators {
        translator.write_tables(alloc, memory, shape, before)?;
    }
    Ok(())
}

#[tactic(auto, using(crate::proofs::SavedTables::put_more))]
fn write_pending(
    memory: &mut TrackedMemory,
    shape: &Shape,
    redists: &[RedistLists],
) -> Result<(), AllocError>
    requires least { 14 ≤ shape.now.lpi_bits }
    requires most { shape.now.lpi_bits ≤ 20 }
    ensures { OnOk result (memory.new
        ≡ put_all memory.old (flat_map (saved.pending_words shape.now) redists.now)) }
{
    for redist in redists {
        redist.write_pending(memory, shape)?;
    }
    Ok(())
}
