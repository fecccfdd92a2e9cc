//! The calls of a pass for commands, saves and guest memory.
ghost use Rattle.std.specs.Prelude.{◌≡◌, ◌≢◌, false, true, None, length};
ghost use Rattle.cmd_engine.specs.Concern.{BeforeLast};
ghost use Rattle.its_numbers.specs.Codes as codes;
ghost use Rattle.its_numbers.specs.Limits.{no_limit};
ghost use Rattle.its_plain.specs.Answer.{save_reply};
ghost use Rattle.its_plain.specs.declared.call.Call.TheVariants as call;
ghost use Rattle.its_plain.specs.declared.call.Reply.TheVariants as reply;
ghost use Rattle.its_shared.specs.Asked as asked;
ghost use Rattle.its_shared.specs.Asked.{is_count};
ghost use Rattle.its_shared.specs.Concerns.{AreConcerned, UnconcernedStay};
ghost use Rattle.its_shared.specs.Counting.{Counts, KeepsRoutes};
ghost use Rattle.its_shared.specs.Knowing.{has_translator};
ghost use Rattle.its_shared.specs.Limits.{StepsWithin};
ghost use Rattle.its_shared.specs.Telling.{read_code};
ghost use Rattle.its_shared.specs.Telling.{InPass, Tells, as_told, bytes_told, is_done, machine_of};
ghost use Rattle.its_shared.specs.Telling.{nothing_told, save_code, save_told, step_told};
ghost use Rattle.its_shared.specs.Telling.{setting_of, write_code};

use crate::commands::{read_memory, save, step, write_memory};
use crate::pass::Pass;
use its_numbers::{HANDLE, SaveFaultOut, StepOut};
use std::alloc::Global;

/// A translator takes its next command (IHI 0069, section 5.3).
#[unsafe(no_mangle)]
pub extern "C" fn its_pass_step(
    pass: &mut Pass,
    translator: u32,
    place: &mut u64,
    out: &mut StepOut,
) -> u32
    ensures empty { pass.old.known ≡ None
        → (result ≡ codes.handle) × (place.new ≡ place.old) × (out.new ≡ out.old) }
    ensures kept { setting_of pass.new ≡ setting_of pass.old }
    ensures range { InPass pass.old pass.new (λ k l. has_translator k translator ≡ false
        → (result ≡ codes.range) × (l ≡ k) × (place.new ≡ place.old) × (out.new ≡ out.old)) }
    ensures told { InPass pass.old pass.new (λ k l. has_translator k translator ≡ true
        → Tells is_done (as_told (step_told out.new.concerned)) (asked.step translator) reply.Step
        k l result place.old place.new out.old out.new) }
    ensures unconcerned { InPass pass.old pass.new (λ k l. result ≡ codes.done → BeforeLast
        (UnconcernedStay out.new.concerned translator) k.view.setup.start l.view.seen) }
    ensures concerned { InPass pass.old pass.new (λ k l. result ≡ codes.done → BeforeLast
        (AreConcerned out.new.concerned translator) k.view.setup.start l.view.seen) }
    ensures within { InPass pass.old pass.new (λ k l. StepsWithin translator k l result) }
    ensures counts { InPass pass.old pass.new (λ k l. Counts k l result) }
    ensures routes { InPass pass.old pass.new (λ k l. KeepsRoutes k l result) }
{
    if pass.is_empty() {
        return HANDLE;
    }
    step(pass.lent(), translator, place, out)
}

/// The tables are written to guest memory (KVM document arm-vgic-its).
#[unsafe(no_mangle)]
pub extern "C" fn its_pass_save(
    pass: &mut Pass,
    alloc: Global,
    place: &mut u64,
    out: &mut SaveFaultOut,
) -> u32
    ensures empty { pass.old.known ≡ None
        → (result ≡ codes.handle) × (place.new ≡ place.old) × (out.new ≡ out.old) }
    ensures kept { machine_of pass.new ≡ machine_of pass.old }
    ensures told { InPass pass.old pass.new (λ k l. Tells save_code save_told call.Save
        save_reply k l result place.old place.new out.old out.new) }
    ensures full { InPass pass.old pass.new (λ k l.
        result ≡ codes.full → k.limits.memory ≢ no_limit) }
{
    if pass.is_empty() {
        return HANDLE;
    }
    save(pass.lent(), alloc, place, out)
}

/// A write of 1 to 64 bytes of guest memory.
#[unsafe(no_mangle)]
pub extern "C" fn its_pass_write_memory(
    pass: &mut Pass,
    address: u64,
    bytes: &[u8],
    place: &mut u64,
) -> u32
    ensures empty { pass.old.known ≡ None
        → (result ≡ codes.handle) × (place.new ≡ place.old) }
    ensures kept { machine_of pass.new ≡ machine_of pass.old }
    ensures range { InPass pass.old pass.new (λ k l. is_count bytes.now ≡ false
        → (result ≡ codes.range) × (l ≡ k) × (place.new ≡ place.old)) }
    ensures told { InPass pass.old pass.new (λ k l. is_count bytes.now ≡ true
        → Tells write_code nothing_told (asked.write_memory address bytes.now)
        (λ r. r) k l result place.old place.new tt tt) }
    ensures full { InPass pass.old pass.new (λ k l.
        result ≡ codes.full → k.limits.memory ≢ no_limit) }
{
    if pass.is_empty() {
        return HANDLE;
    }
    write_memory(pass.lent(), address, bytes, place)
}

/// A read of 1 to 64 bytes of guest memory.
#[unsafe(no_mangle)]
pub extern "C" fn its_pass_read_memory(
    pass: &mut Pass,
    address: u64,
    buffer: &mut [u8],
    place: &mut u64,
) -> u32
    ensures empty { pass.old.known ≡ None → (result ≡ codes.handle)
        × (place.new ≡ place.old) × (buffer.new ≡ buffer.old) }
    ensures kept { machine_of pass.new ≡ machine_of pass.old }
    ensures range { InPass pass.old pass.new (λ k l. is_count buffer.old ≡ false
        → (result ≡ codes.range) × (l ≡ k) × (place.new ≡ place.old)
        × (buffer.new ≡ buffer.old)) }
    ensures told { InPass pass.old pass.new (λ k l. is_count buffer.old ≡ true
        → Tells read_code bytes_told (asked.read_memory address (length buffer.old)) (λ r. r)
        k l result place.old place.new buffer.old buffer.new) }
{
    if pass.is_empty() {
        return HANDLE;
    }
    read_memory(pass.lent(), address, buffer, place)
}
