//! Copies of a state and of its parts, which share nothing with what they are copied from.
ghost use Rattle.std.specs.Prelude.{◌≡◌, IfOk};

use crate::maps::MapLists;
use crate::redist::RedistLists;
use crate::state::State;
use crate::translator::TranslatorLists;
use std::alloc::{AllocError, Global};

impl State {
    ghost use Rattle.std.specs.Prelude.{◌≡◌, IfOk};

    /// A copy of the state.
    pub fn copy(&self, alloc: Global) -> Result<State, AllocError>
        ensures { IfOk result (λ s. s ≡ self.now) }
    {
        Ok(State {
            layout: self.layout.copy(alloc)?,
            translators: translators_copy(alloc, &self.translators)?,
            redistributors: redistributors_copy(alloc, &self.redistributors)?,
            memory: self.memory.copy(alloc)?,
        })
    }
}

impl TranslatorLists {
    ghost use Rattle.std.specs.Prelude.{◌≡◌, IfOk};

    /// A copy of the registers and maps.
    pub fn copy(&self, alloc: Global) -> Result<TranslatorLists, AllocError>
        ensures { IfOk result (λ t. t ≡ self.now) }
    {
        Ok(TranslatorLists {
            regs: self.regs,
            maps: self.maps.copy(alloc)?,
        })
    }
}

impl MapLists {
    ghost use Rattle.std.specs.Prelude.{◌≡◌, IfOk};

    fn copy(&self, alloc: Global) -> Result<MapLists, AllocError>
        ensures { IfOk result (λ m. m ≡ self.now) }
    {
        Ok(MapLists {
            devices: Vec::from_slice(alloc, &self.devices)?,
            events: Vec::from_slice(alloc, &self.events)?,
            collections: Vec::from_slice(alloc, &self.collections)?,
        })
    }
}

impl RedistLists {
    ghost use Rattle.std.specs.Prelude.{◌≡◌, IfOk};

    /// A copy of the pending set and the configuration.
    pub fn copy(&self, alloc: Global) -> Result<RedistLists, AllocError>
        ensures { IfOk result (λ r. r ≡ self.now) }
    {
        Ok(RedistLists {
            bases: self.bases,
            pending: Vec::from_slice(alloc, &self.pending)?,
            accepts: self.accepts,
            config: Vec::from_slice(alloc, &self.config)?,
        })
    }
}

// ---- parts of a state

fn translators_copy(
    alloc: Global,
    translators: &[TranslatorLists],
) -> Result<Vec<TranslatorLists>, AllocError>
    ensures { IfOk result (λ v. v.items ≡ translators.now) }
{
    let mut copies = Vec::new(alloc);
    for translator in translators {
        copies.push(translator.copy(alloc)?)?;
    }
    Ok(copies)
}

fn redistributors_copy(
    alloc: Global,
    redists: &[RedistLists],
) -> Result<Vec<RedistLists>, AllocError>
    ensures { IfOk result (λ v. v.items ≡ redists.now) }
{
    let mut copies = Vec::new(alloc);
    for redist in redists {
        copies.push(redist.copy(alloc)?)?;
    }
    Ok(copies)
}
