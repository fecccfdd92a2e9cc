//! Saves and migrations (KVM document arm-vgic-its).
ghost use Rattle.std.specs.Prelude.{◌≡◌, ◌≢◌};
ghost use Rattle.its_numbers.specs.Codes as codes;
ghost use Rattle.its_numbers.specs.Limits.{no_limit};
ghost use Rattle.its_c.specs.Routes.{KeepsRoutes};
ghost use Rattle.its_c.specs.Saves.{IsSaved, IsMoved, IsUnsaved};

use crate::kept::Kept;
use its_numbers::{DONE, FAULT, FULL, NO_MEMORY, SaveFaultOut, save_fault_out};
use its_plain::{Call, Reply, SaveError};
use std::alloc::Global;

/// The tables are written to guest memory.
#[tactic(auto, unfolding(its_plain::specs::Answer::reply_of, its_plain::specs::Answer::left))]
pub fn save(kept: &mut Kept, alloc: Global, fault: &mut SaveFaultOut) -> u32
    ensures done { result ≡ codes.done → IsSaved kept.old.machine kept.new.machine }
    ensures otherwise { IsUnsaved result kept.old.machine kept.new.machine fault.old fault.new }
    ensures full { result ≡ codes.full → kept.old.limits.memory ≢ no_limit }
    ensures beside { (kept.new.desc ≡ kept.old.desc) × (kept.new.limits ≡ kept.old.limits)
        × (kept.new.counters ≡ kept.old.counters) }
{
    match kept.has_room_for_tables(alloc) {
        Ok(true) => {}
        Ok(false) => return FULL,
        Err(_) => return NO_MEMORY,
    }
    match kept.answer(alloc, &Call::Save) {
        Ok(Reply::Saved) => DONE,
        Ok(Reply::SaveFault(found)) => {
            *fault = save_fault_out(found);
            FAULT
        }
        Ok(_) => unreachable!(),
        Err(_) => NO_MEMORY,
    }
}

/// The tables are saved into a copy of guest memory, and the machine goes on from what that copy
/// and the registers stand for.
pub fn migrate(kept: &mut Kept, alloc: Global, fault: &mut SaveFaultOut) -> u32
    ensures done { result ≡ codes.done → IsMoved kept.old.machine kept.new.machine }
    ensures otherwise { IsUnsaved result kept.old.machine kept.new.machine fault.old fault.new }
    ensures routes { KeepsRoutes kept.old kept.new }
    ensures full { result ≡ codes.full → kept.old.limits.memory ≢ no_limit }
    ensures beside { (kept.new.desc ≡ kept.old.desc) × (kept.new.limits ≡ kept.old.limits)
        × (kept.new.counters ≡ kept.old.counters) }
{
    match kept.has_room_for_tables(alloc) {
        Ok(true) => {}
        Ok(false) => return FULL,
        Err(_) => return NO_MEMORY,
    }
    match kept.migrate(alloc) {
        Ok(()) => {
            kept.count(false);
            DONE
        }
        Err(SaveError::Fault(found)) => {
            *fault = save_fault_out(found);
            FAULT
        }
        Err(SaveError::NoMemory) => NO_MEMORY,
    }
}
