//! The calls of the command queue and of saves, by the machine's handle.
ghost use Rattle.std.specs.Prelude.{◌≡◌, ◌≢◌, ◌⊎◌, true, false, None, is_some, length};
ghost use Rattle.its_plain.specs.Answer.{step_reply, step_left};
ghost use Rattle.owned_machine.specs.Whole.{step_adds};
ghost use Rattle.its_numbers.specs.Codes as codes;
ghost use Rattle.its_c.specs.Held.{InMachine, InHeld, beside, setting};
ghost use Rattle.its_numbers.specs.Counters.{count_step};
ghost use Rattle.its_numbers.specs.Limits.{is_full, no_limit};
ghost use Rattle.its_c.specs.Concerns.{UnconcernedStay, AreConcerned, IsStepCode};
ghost use Rattle.its_c.specs.LentBytes.{may_step_with, lent, lent_left};
ghost use Rattle.its_numbers.specs.Replies as replies;
ghost use Rattle.its_c.specs.Routes.{KeepsRoutes};
ghost use Rattle.its_c.specs.Saves.{IsSaved, IsMoved, IsUnsaved};
ghost use Rattle.its_c.specs.Stretches.{needed as reads, needed_by as reads_by, has_command};
ghost use Rattle.its_c.specs.Stretches.{written_tables as tables};
ghost use Rattle.its_numbers.specs.Lists.{HasFirstOf, SameRest};
ghost use Rattle.its_numbers.specs.Translators.{has_translator as has};

use crate::commands::{step, step_with};
use crate::handle::Handle;
use crate::saves::{migrate, save};
use crate::stretches::{needed, needed_by, written};
use its_numbers::{DONE, GuestLimits, HANDLE, SaveFaultOut, StepOut, StretchOut};
use std::alloc::Global;

/// The stretches of guest memory that the next step of a translator reads: as many as the list
/// takes, whose rest stays, and how many there are.
#[unsafe(no_mangle)]
pub extern "C" fn its_needs(
    handle: &mut Handle,
    translator: u32,
    list: &mut [StretchOut],
    count: &mut u64,
) -> u32
    ensures empty { handle.old.machine ≡ None
        → (result ≡ codes.handle) × (list.new ≡ list.old) × (count.new ≡ count.old) }
    ensures kept { beside handle.new ≡ beside handle.old }
    ensures code { InMachine handle.old handle.new (λ u w.
        result ≡ codes.if_in_range (has u translator)) }
    ensures told { InMachine handle.old handle.new (λ u w.
        has u translator ≡ true → HasFirstOf (reads u translator) list.new) }
    ensures rest { InMachine handle.old handle.new (λ u w. has u translator ≡ true
        → SameRest (length (reads u translator)) list.old list.new) }
    ensures length { length list.new ≡ length list.old }
    ensures count { InMachine handle.old handle.new (λ u w.
        has u translator ≡ true → count.new ≡ length (reads u translator)) }
    ensures refused { InMachine handle.old handle.new (λ u w. has u translator ≡ false
        → (list.new ≡ list.old) × (count.new ≡ count.old)) }
    ensures same { InMachine handle.old handle.new (λ u w. w ≡ u) }
{
    if handle.is_empty() {
        return HANDLE;
    }
    needed(handle.lent(), translator, list, count)
}

/// So the stretches that it reads where the bytes of its command are these, whatever guest memory
/// has there.
#[unsafe(no_mangle)]
pub extern "C" fn its_needs_of(
    handle: &mut Handle,
    translator: u32,
    command: &[u8],
    list: &mut [StretchOut],
    count: &mut u64,
) -> u32
    ensures empty { handle.old.machine ≡ None
        → (result ≡ codes.handle) × (list.new ≡ list.old) × (count.new ≡ count.old) }
    ensures kept { beside handle.new ≡ beside handle.old }
    ensures code { InMachine handle.old handle.new (λ u w.
        result ≡ codes.if_in_range (has_command u translator command.now)) }
    ensures told { InMachine handle.old handle.new (λ u w.
        result ≡ codes.done → HasFirstOf (reads_by u translator command.now) list.new) }
    ensures rest { InMachine handle.old handle.new (λ u w. result ≡ codes.done
        → SameRest (length (reads_by u translator command.now)) list.old list.new) }
    ensures length { length list.new ≡ length list.old }
    ensures count { InMachine handle.old handle.new (λ u w.
        result ≡ codes.done → count.new ≡ length (reads_by u translator command.now)) }
    ensures only { InMachine handle.old handle.new (λ u w.
        result ≢ codes.done → (list.new ≡ list.old) × (count.new ≡ count.old)) }
    ensures same { InMachine handle.old handle.new (λ u w. w ≡ u) }
{
    if handle.is_empty() {
        return HANDLE;
    }
    needed_by(handle.lent(), translator, command, list, count)
}

/// A translator takes its next command.
#[unsafe(no_mangle)]
pub extern "C" fn its_step(
    handle: &mut Handle,
    alloc: Global,
    translator: u32,
    out: &mut StepOut,
) -> u32
    ensures empty { handle.old.machine ≡ None → (result ≡ codes.handle) × (out.new ≡ out.old) }
    ensures kept { setting handle.new ≡ setting handle.old }
    ensures range { InMachine handle.old handle.new (λ u w.
        has u translator ≡ false → result ≡ codes.range) }
    ensures codes { InMachine handle.old handle.new (λ u w.
        has u translator ≡ true → IsStepCode result) }
    ensures told { InMachine handle.old handle.new (λ u w. result ≡ codes.done
        → out.new ≡ replies.step_out (step_reply u translator) out.new.concerned) }
    ensures unconcerned { InMachine handle.old handle.new (λ u w.
        result ≡ codes.done → UnconcernedStay out.new.concerned u w) }
    ensures concerned { InMachine handle.old handle.new (λ u w.
        result ≡ codes.done → AreConcerned out.new.concerned u translator) }
    ensures left { InMachine handle.old handle.new (λ u w.
        result ≡ codes.done → w ≡ step_left u translator) }
    ensures full { InHeld handle.old handle.new (λ h k.
        result ≡ codes.full → is_full h.limits h.machine translator ≡ true) }
    ensures where_full { InHeld handle.old handle.new (λ h k. has h.machine translator ≡ true
        → is_full h.limits h.machine translator ≡ true → result ≡ codes.full) }
    ensures rare { InMachine handle.old handle.new (λ u w.
        result ≡ codes.no_memory → step_adds u translator ≡ true) }
    ensures refused { InMachine handle.old handle.new (λ u w.
        result ≢ codes.done → (out.new ≡ out.old) × (w ≡ u)) }
    ensures routes { InHeld handle.old handle.new (λ h k. KeepsRoutes h k) }
    ensures counted { InHeld handle.old handle.new (λ h k. result ≡ codes.done
        → k.counters ≡ count_step (step_reply h.machine translator) h.counters) }
    ensures uncounted { InHeld handle.old handle.new (λ h k.
        result ≢ codes.done → k.counters ≡ h.counters) }
{
    if handle.is_empty() {
        return HANDLE;
    }
    step(handle.lent(), alloc, translator, out)
}

/// A translator takes its next command on memory that has just the bytes of some stretches. None
/// of them is held afterwards.
#[unsafe(no_mangle)]
pub extern "C" fn its_step_with(
    handle: &mut Handle,
    alloc: Global,
    translator: u32,
    list: &[StretchOut],
    bytes: &[u8],
    out: &mut StepOut,
) -> u32
    ensures empty { handle.old.machine ≡ None → (result ≡ codes.handle) × (out.new ≡ out.old) }
    ensures kept { setting handle.new ≡ setting handle.old }
    ensures range { InMachine handle.old handle.new (λ u w.
        may_step_with u translator list.now (length bytes.now) ≡ false
        → result ≡ codes.range) }
    ensures codes { InMachine handle.old handle.new (λ u w.
        may_step_with u translator list.now (length bytes.now) ≡ true → IsStepCode result) }
    ensures told { InMachine handle.old handle.new (λ u w. result ≡ codes.done → out.new
        ≡ replies.step_out (step_reply (lent u list.now bytes.now) translator)
        out.new.concerned) }
    ensures unconcerned { InMachine handle.old handle.new (λ u w.
        result ≡ codes.done → UnconcernedStay out.new.concerned u w) }
    ensures concerned { InMachine handle.old handle.new (λ u w. result ≡ codes.done
        → AreConcerned out.new.concerned (lent u list.now bytes.now) translator) }
    ensures left { InMachine handle.old handle.new (λ u w.
        result ≡ codes.done → w ≡ lent_left u translator list.now bytes.now) }
    ensures full { InHeld handle.old handle.new (λ h k. result ≡ codes.full
        → is_full h.limits (lent h.machine list.now bytes.now) translator ≡ true) }
    ensures past { InHeld handle.old handle.new (λ h k. result ≡ codes.done
        → is_full h.limits (lent h.machine list.now bytes.now) translator ≡ false) }
    ensures refused { InMachine handle.old handle.new (λ u w.
        result ≢ codes.done → (out.new ≡ out.old) × (w ≡ u)) }
    ensures routes { InHeld handle.old handle.new (λ h k. KeepsRoutes h k) }
    ensures counted { InHeld handle.old handle.new (λ h k. result ≡ codes.done → k.counters
        ≡ count_step (step_reply (lent h.machine list.now bytes.now) translator)
        h.counters) }
    ensures uncounted { InHeld handle.old handle.new (λ h k.
        result ≢ codes.done → k.counters ≡ h.counters) }
{
    if handle.is_empty() {
        return HANDLE;
    }
    step_with(handle.lent(), alloc, translator, list, bytes, out)
}

/// How many events each translator may map from now on.
#[unsafe(no_mangle)]
pub extern "C" fn its_limit(handle: &mut Handle, events: u64) -> u32
    ensures empty { handle.old.machine ≡ None → result ≡ codes.handle }
    ensures kept { is_some handle.new.machine ≡ is_some handle.old.machine }
    ensures done { InMachine handle.old handle.new (λ u w. result ≡ codes.done) }
    ensures left { InHeld handle.old handle.new (λ h k.
        k ≡ record h { limits = record h.limits { events = events } }) }
{
    if handle.is_empty() {
        return HANDLE;
    }
    let kept = handle.lent();
    let limits = GuestLimits {
        events,
        ..kept.limits()
    };
    kept.set_limits(limits);
    DONE
}

/// How many events and how many devices each translator may map, and how many bytes of guest memory
/// may be held, from now on.
#[unsafe(no_mangle)]
pub extern "C" fn its_limits(handle: &mut Handle, events: u64, devices: u64, memory: u64) -> u32
    ensures empty { handle.old.machine ≡ None → result ≡ codes.handle }
    ensures kept { is_some handle.new.machine ≡ is_some handle.old.machine }
    ensures done { InMachine handle.old handle.new (λ u w. result ≡ codes.done) }
    ensures left { InHeld handle.old handle.new (λ h k.
        k ≡ record h { limits = record { events = events; devices = devices; memory = memory } }) }
{
    if handle.is_empty() {
        return HANDLE;
    }
    handle.lent().set_limits(GuestLimits {
        events,
        devices,
        memory,
    });
    DONE
}

/// How often a step, a write of a register or a migration may have ended a translation, of whichever
/// translator.
#[unsafe(no_mangle)]
pub extern "C" fn its_routes_changed(handle: &mut Handle, count: &mut u64) -> u32
    ensures empty { handle.old.machine ≡ None
        → (result ≡ codes.handle) × (count.new ≡ count.old) }
    ensures done { InMachine handle.old handle.new (λ u w. result ≡ codes.done) }
    ensures told { InHeld handle.old handle.new (λ h k. count.new ≡ h.routes) }
    ensures same { InHeld handle.old handle.new (λ h k. k ≡ h) }
{
    if handle.is_empty() {
        return HANDLE;
    }
    *count = handle.lent().routes();
    DONE
}

/// The tables are written to guest memory.
#[unsafe(no_mangle)]
pub extern "C" fn its_save(handle: &mut Handle, alloc: Global, fault: &mut SaveFaultOut) -> u32
    ensures empty { handle.old.machine ≡ None → (result ≡ codes.handle) × (fault.new ≡ fault.old) }
    ensures kept { beside handle.new ≡ beside handle.old }
    ensures done { InMachine handle.old handle.new (λ u w. result ≡ codes.done → IsSaved u w) }
    ensures otherwise { InMachine handle.old handle.new (λ u w.
        IsUnsaved result u w fault.old fault.new) }
    ensures full { InHeld handle.old handle.new (λ h k.
        result ≡ codes.full → h.limits.memory ≢ no_limit) }
{
    if handle.is_empty() {
        return HANDLE;
    }
    save(handle.lent(), alloc, fault)
}

/// The tables are saved into a copy of guest memory, and the machine goes on from what that copy
/// and the registers stand for.
#[unsafe(no_mangle)]
pub extern "C" fn its_migrate(handle: &mut Handle, alloc: Global, fault: &mut SaveFaultOut) -> u32
    ensures empty { handle.old.machine ≡ None → (result ≡ codes.handle) × (fault.new ≡ fault.old) }
    ensures kept { beside handle.new ≡ beside handle.old }
    ensures done { InMachine handle.old handle.new (λ u w. result ≡ codes.done → IsMoved u w) }
    ensures otherwise { InMachine handle.old handle.new (λ u w.
        IsUnsaved result u w fault.old fault.new) }
    ensures full { InHeld handle.old handle.new (λ h k.
        result ≡ codes.full → h.limits.memory ≢ no_limit) }
    ensures routes { InHeld handle.old handle.new (λ h k. KeepsRoutes h k) }
{
    if handle.is_empty() {
        return HANDLE;
    }
    migrate(handle.lent(), alloc, fault)
}

/// The tables that a save of this state writes: as many as the list takes, whose rest stays, and
/// how many there are.
#[unsafe(no_mangle)]
pub extern "C" fn its_written(
    handle: &mut Handle,
    alloc: Global,
    list: &mut [StretchOut],
    count: &mut u64,
) -> u32
    ensures empty { handle.old.machine ≡ None
        → (result ≡ codes.handle) × (list.new ≡ list.old) × (count.new ≡ count.old) }
    ensures kept { beside handle.new ≡ beside handle.old }
    ensures codes { InMachine handle.old handle.new (λ u w.
        (result ≡ codes.done) ⊎ (result ≡ codes.no_memory)) }
    ensures told { InMachine handle.old handle.new (λ u w.
        result ≡ codes.done → HasFirstOf (tables u) list.new) }
    ensures rest { InMachine handle.old handle.new (λ u w.
        result ≡ codes.done → SameRest (length (tables u)) list.old list.new) }
    ensures length { length list.new ≡ length list.old }
    ensures count { InMachine handle.old handle.new (λ u w.
        result ≡ codes.done → count.new ≡ length (tables u)) }
    ensures only { InMachine handle.old handle.new (λ u w.
        result ≢ codes.done → (list.new ≡ list.old) × (count.new ≡ count.old)) }
    ensures same { InMachine handle.old handle.new (λ u w. w ≡ u) }
{
    if handle.is_empty() {
        return HANDLE;
    }
    written(handle.lent(), alloc, list, count)
}
