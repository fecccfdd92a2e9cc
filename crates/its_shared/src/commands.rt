//! Commands, saves, and guest memory.
ghost use Rattle.std.specs.Prelude.{◌≡◌, ◌≢◌, false, true, length};
ghost use Rattle.cmd_engine.specs.Concern.{BeforeLast};
ghost use Rattle.its_numbers.specs.Codes as codes;
ghost use Rattle.its_numbers.specs.Limits.{no_limit};
ghost use Rattle.its_plain.specs.Answer.{save_reply};
ghost use Rattle.its_plain.specs.declared.call.Call.TheVariants as call;
ghost use Rattle.its_plain.specs.declared.call.Reply.TheVariants as reply;
ghost use Rattle.its_shared.specs.Concerns.{AreConcerned, UnconcernedStay};
ghost use Rattle.its_shared.specs.Counting.{Counts, KeepsRoutes};
ghost use Rattle.its_shared.specs.Knowing.{beside, has_translator, setting};
ghost use Rattle.its_shared.specs.Limits.{StepsWithin};
ghost use Rattle.its_shared.specs.Asked as asked;
ghost use Rattle.its_shared.specs.Asked.{is_count};
ghost use Rattle.its_shared.specs.Telling.{Tells, as_told, bytes_told, is_done, read_code};
ghost use Rattle.its_shared.specs.Telling.{nothing_told, save_code};
ghost use Rattle.its_shared.specs.Telling.{save_told, step_told, write_code};

use crate::port::Port;
use crate::telling::{tell_bytes, tell_save, tell_write};
use crate::telling_step::tell_step;
use its_numbers::{RANGE, SaveFaultOut, StepOut};
use its_plain::Bytes64;
use std::alloc::Global;

/// A translator takes its next command (IHI 0069, section 5.3).
pub fn step(port: &mut Port, translator: u32, place: &mut u64, out: &mut StepOut) -> u32
    ensures setting { setting port.new ≡ setting port.old }
    ensures range { has_translator port.old translator ≡ false → (result ≡ codes.range)
        × (port.new ≡ port.old) × (place.new ≡ place.old) × (out.new ≡ out.old) }
    ensures told { has_translator port.old translator ≡ true → Tells is_done
        (as_told (step_told out.new.concerned)) (asked.step translator) reply.Step
        port.old port.new result place.old place.new out.old out.new }
    ensures unconcerned { result ≡ codes.done → BeforeLast
        (UnconcernedStay out.new.concerned translator)
        port.old.view.setup.start port.new.view.seen }
    ensures concerned { result ≡ codes.done → BeforeLast
        (AreConcerned out.new.concerned translator)
        port.old.view.setup.start port.new.view.seen }
    ensures within { StepsWithin translator port.old port.new result }
    ensures counts { Counts port.old port.new result }
    ensures routes { KeepsRoutes port.old port.new result }
{
    if !port.has_translator(translator) {
        return RANGE;
    }
    step_of(port, translator as u8, place, out)
}

fn step_of(port: &mut Port, its: u8, place: &mut u64, out: &mut StepOut) -> u32
    requires { has_translator port.old its ≡ true }
    ensures setting { setting port.new ≡ setting port.old }
    ensures told { Tells is_done (as_told (step_told out.new.concerned)) (asked.step its) reply.Step
        port.old port.new result place.old place.new out.old out.new }
    ensures unconcerned { result ≡ codes.done → BeforeLast (UnconcernedStay out.new.concerned its)
        port.old.view.setup.start port.new.view.seen }
    ensures concerned { result ≡ codes.done → BeforeLast (AreConcerned out.new.concerned its)
        port.old.view.setup.start port.new.view.seen }
    ensures within { StepsWithin its port.old port.new result }
    ensures counts { Counts port.old port.new result }
    ensures routes { KeepsRoutes port.old port.new result }
{
    let answer = port.step(its);
    port.count_step(&answer);
    tell_step(answer, place, out)
}

/// The tables are written to guest memory (KVM document arm-vgic-its).
pub fn save(port: &mut Port, alloc: Global, place: &mut u64, out: &mut SaveFaultOut) -> u32
    ensures beside { beside port.new ≡ beside port.old }
    ensures told { Tells save_code save_told call.Save save_reply
        port.old port.new result place.old place.new out.old out.new }
    ensures full { result ≡ codes.full → port.old.limits.memory ≢ no_limit }
{
    let answer = port.save(alloc);
    tell_save(answer, place, out)
}

/// A write of 1 to 64 bytes of guest memory.
pub fn write_memory(port: &mut Port, address: u64, bytes: &[u8], place: &mut u64) -> u32
    ensures beside { beside port.new ≡ beside port.old }
    ensures range { is_count bytes.now ≡ false → (result ≡ codes.range)
        × (port.new ≡ port.old) × (place.new ≡ place.old) }
    ensures told { is_count bytes.now ≡ true → Tells write_code nothing_told (asked.write_memory
        address bytes.now) (λ r. r)
        port.old port.new result place.old place.new tt tt }
    ensures full { result ≡ codes.full → port.old.limits.memory ≢ no_limit }
{
    if bytes.is_empty() || bytes.len() > 64 {
        return RANGE;
    }
    let bytes = Bytes64::new(bytes);
    let answer = port.write_memory(address, bytes);
    tell_write(answer, place)
}

/// A read of 1 to 64 bytes of guest memory.
pub fn read_memory(port: &mut Port, address: u64, buffer: &mut [u8], place: &mut u64) -> u32
    ensures beside { beside port.new ≡ beside port.old }
    ensures range { is_count buffer.old ≡ false → (result ≡ codes.range)
        × (port.new ≡ port.old) × (place.new ≡ place.old) × (buffer.new ≡ buffer.old) }
    ensures told { is_count buffer.old ≡ true → Tells read_code bytes_told
        (asked.read_memory address (length buffer.old)) (λ r. r) port.old port.new result
        place.old place.new buffer.old buffer.new }
{
    if buffer.is_empty() || buffer.len() > 64 {
        return RANGE;
    }
    let answer = port.read_memory(address, buffer.len() as u8);
    tell_bytes(answer, place, buffer)
}
