//! Commands: a translator takes the next of its queue (IHI 0069, section 5.3).
ghost use Rattle.std.specs.Prelude.{◌≡◌, ◌≢◌, true, false, length, map};
ghost use Rattle.guest_windows.specs.Windows.{extent};
ghost use Rattle.owned_machine.specs.Lent.{on, left_on};
ghost use Rattle.its_c.specs.LentBytes.{may_step_with, lent, lent_left};
ghost use Rattle.its_plain.specs.Answer as plain;
ghost use Rattle.owned_machine.specs.Whole.{step_adds};
ghost use Rattle.its_numbers.specs.Codes as codes;
ghost use Rattle.its_numbers.specs.Limits.{is_full};
ghost use Rattle.its_c.specs.Routes.{stepped, KeepsRoutes};
ghost use Rattle.its_c.specs.Concerns.{UnconcernedStay, AreConcerned, IsStepCode};
ghost use Rattle.its_numbers.specs.Translators.{has_translator as has};
ghost use Rattle.its_numbers.specs.Replies as replies;

use crate::kept::{Kept, StepError};
use crate::lent_bytes::{lent_memory, stretches_fit};
use crate::memory::memory_of;
use crate::ranges::is_translator;
use guest_windows::Memory;
use its_numbers::{DONE, FULL, NO_MEMORY, RANGE, StepOut, StretchOut, concerned_words, step_out};
use std::alloc::Global;
use step_views::{concerned, concerned_on};

/// A translator takes its next command.
pub fn step(kept: &mut Kept, alloc: Global, translator: u32, out: &mut StepOut) -> u32
    ensures range { has kept.old.machine translator ≡ false → result ≡ codes.range }
    ensures told { result ≡ codes.done → out.new
        ≡ replies.step_out (plain.step_reply kept.old.machine translator) out.new.concerned }
    ensures unconcerned { result ≡ codes.done
        → UnconcernedStay out.new.concerned kept.old.machine kept.new.machine }
    ensures concerned { result ≡ codes.done
        → AreConcerned out.new.concerned kept.old.machine translator }
    ensures left { result ≡ codes.done
        → kept.new ≡ stepped kept.old (plain.step_left kept.old.machine translator)
        (plain.step_reply kept.old.machine translator) }
    ensures routes { KeepsRoutes kept.old kept.new }
    ensures full { result ≡ codes.full
        → is_full kept.old.limits kept.old.machine translator ≡ true }
    ensures where_full { has kept.old.machine translator ≡ true
        → is_full kept.old.limits kept.old.machine translator ≡ true → result ≡ codes.full }
    ensures rare { result ≡ codes.no_memory → step_adds kept.old.machine translator ≡ true }
    ensures codes { has kept.old.machine translator ≡ true → IsStepCode result }
    ensures refused { result ≢ codes.done → (out.new ≡ out.old) × (kept.new ≡ kept.old) }
{
    if !is_translator(kept.machine(), translator) {
        return RANGE;
    }
    let its = translator as u8;
    let concerned = concerned_words(concerned(kept.machine().parts(), its));
    match kept.step(alloc, its) {
        Ok(reply) => {
            kept.count_step(reply);
            *out = step_out(reply, concerned);
            DONE
        }
        Err(StepError::Full) => FULL,
        Err(StepError::NoMemory) => NO_MEMORY,
    }
}

/// A translator takes its next command on memory that has just the bytes of some stretches.
pub fn step_with(
    kept: &mut Kept,
    alloc: Global,
    translator: u32,
    list: &[StretchOut],
    bytes: &[u8],
    out: &mut StepOut,
) -> u32
    ensures range { may_step_with kept.old.machine translator list.now (length bytes.now) ≡ false
        → result ≡ codes.range }
    ensures codes { may_step_with kept.old.machine translator list.now (length bytes.now) ≡ true
        → IsStepCode result }
    ensures told { result ≡ codes.done → out.new ≡ replies.step_out
        (plain.step_reply (lent kept.old.machine list.now bytes.now) translator)
        out.new.concerned }
    ensures unconcerned { result ≡ codes.done
        → UnconcernedStay out.new.concerned kept.old.machine kept.new.machine }
    ensures concerned { result ≡ codes.done → AreConcerned out.new.concerned
        (lent kept.old.machine list.now bytes.now) translator }
    ensures left { result ≡ codes.done → kept.new
        ≡ stepped kept.old (lent_left kept.old.machine translator list.now bytes.now)
        (plain.step_reply (lent kept.old.machine list.now bytes.now) translator) }
    ensures routes { KeepsRoutes kept.old kept.new }
    ensures full { result ≡ codes.full
        → is_full kept.old.limits (lent kept.old.machine list.now bytes.now) translator ≡ true }
    ensures past { result ≡ codes.done
        → is_full kept.old.limits (lent kept.old.machine list.now bytes.now) translator ≡ false }
    ensures refused { result ≢ codes.done → (out.new ≡ out.old) × (kept.new ≡ kept.old) }
{
    if !(is_translator(kept.machine(), translator) && stretches_fit(list, bytes.len())) {
        return RANGE;
    }
    match lent_memory(alloc, memory_of(kept), list, bytes) {
        Ok(memory) => step_on(kept, &memory, translator as u8, out),
        Err(_) => NO_MEMORY,
    }
}

// The same on memory with the machine's windows.
fn step_on(kept: &mut Kept, memory: &Memory, its: u8, out: &mut StepOut) -> u32
    requires { map extent memory.now ≡ map extent kept.old.machine.memory }
    ensures told { result ≡ codes.done → out.new ≡ replies.step_out
        (plain.step_reply (on memory.now kept.old.machine) its) out.new.concerned }
    ensures unconcerned { result ≡ codes.done
        → UnconcernedStay out.new.concerned kept.old.machine kept.new.machine }
    ensures concerned { result ≡ codes.done
        → AreConcerned out.new.concerned (on memory.now kept.old.machine) its }
    ensures left { result ≡ codes.done → kept.new
        ≡ stepped kept.old (left_on memory.now kept.old.machine its)
        (plain.step_reply (on memory.now kept.old.machine) its) }
    ensures routes { KeepsRoutes kept.old kept.new }
    ensures full { result ≡ codes.full
        → is_full kept.old.limits (on memory.now kept.old.machine) its ≡ true }
    ensures where_full { is_full kept.old.limits (on memory.now kept.old.machine) its ≡ true
        → result ≡ codes.full }
    ensures codes { IsStepCode result }
    ensures refused { result ≢ codes.done → (out.new ≡ out.old) × (kept.new ≡ kept.old) }
{
    let concerned = concerned_words(concerned_on(kept.machine().parts(), memory, its));
    match kept.step_on(memory, its) {
        Ok(reply) => {
            kept.count_step(reply);
            *out = step_out(reply, concerned);
            DONE
        }
        Err(StepError::Full) => FULL,
        Err(StepError::NoMemory) => NO_MEMORY,
    }
}
