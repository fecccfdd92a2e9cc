//! Saves (KVM document arm-vgic-its, section "KVM_DEV_ARM_ITS_SAVE_TABLES").
ghost use Rattle.std.specs.Prelude.{◌≡◌, IfOk, OnErr};
ghost use Rattle.its_plain.specs.Regions as regions;
ghost use Rattle.its_plain.specs.Answer as answers;
ghost use Rattle.owned_parts.specs.Owned.{state_of_parts};
ghost use Rattle.owned_machine.specs.Whole.{IsMachine, GoesOn};
ghost use Rattle.owned_machine.specs.Migrations.{marked};

use its_plain::{Reply, SaveError};
use owned_parts::Parts;
use std::alloc::{AllocError, Global};
use table_save::{mark_tables, saved_pages};

/// Writes the tables to guest memory, or answers why not. Out of memory, nothing is written.
pub fn save(parts: &mut Parts, alloc: Global) -> Result<Reply, AllocError>
    requires { IsMachine parts.old }
    ensures reply { IfOk result
        (λ r. r ≡ answers.save_reply (regions.savable (state_of_parts parts.old))) }
    ensures left { IfOk result (λ _.
        GoesOn parts.new (answers.save_left (state_of_parts parts.old)
        (regions.savable (state_of_parts parts.old)))) }
    ensures err { OnErr result (parts.new ≡ parts.old) }
{
    let pages = match saved_pages(alloc, &parts.in_place()) {
        Ok(pages) => pages,
        Err(SaveError::Fault(fault)) => return Ok(Reply::SaveFault(fault)),
        Err(SaveError::NoMemory) => return Err(AllocError),
    };
    mark_saved(parts);
    parts.memory.adopt(pages);
    Ok(Reply::Saved)
}

/// Marks the pages of the tables that a save writes, where the machine has a second memory.
pub fn mark_saved(parts: &mut Parts)
    requires { IsMachine parts.old }
    ensures { parts.new ≡ marked parts.old }
{
    let Some(mut track) = parts.track.take() else {
        return;
    };
    mark_tables(&parts.in_place(), &mut track);
    parts.track = Some(track);
}
