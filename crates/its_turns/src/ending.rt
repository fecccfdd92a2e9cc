//! What is left of a machine.
ghost use Rattle.std.specs.Prelude.{◌≡◌, ◌+◌, ◌*◌, ◌<◌, ◌≤◌, [], None, Some, MatchOption};
ghost use Rattle.std.specs.Slots.{slots_items, slots_filled, slots_len};
ghost use mathlib.Core.Option.{some};
ghost use lib.ListN.{get_elem?};
ghost use Rattle.its_plain.specs.History.{after};
ghost use Rattle.its_turns.specs.Closed.{AreAllParts, AreTaken, IsTranslatorAt, HasTranslatorAt};
ghost use Rattle.its_turns.specs.Closed.{HasMemoryAt, IsMemoryAt, HasConfAt, HasPendAt};
ghost use Rattle.its_turns.specs.declared.value.Value.TheVariants as values;
ghost use Rattle.its_turns.specs.Machines.{setup, view, IsOf};
ghost use Rattle.its_turns.specs.Told.{IsLone};

use crate::machine::{Machine, Pass, Root};
use crate::value::{GuestMemory, Value};
use atomic_table::Closed;
use its_types::Vcpu;
use lpi_config::Conf;
use lpi_pending::Pend;
use owned_parts::{Parts, Translator};
use std::alloc::Global;

/// The parts, as all calls leave them. No pass but the root is out, and that holds nothing. Takes
/// no memory.
///
/// ```
/// root.join(&machine, pass);
/// let parts = close(machine, root);
/// ```
pub fn close(machine: Machine, root: Root) -> Parts
    requires of { IsOf machine root }
    requires free { (view root).held ≡ [] }
    requires lone { IsLone (view root) }
    ensures { AreAllParts (setup machine) (after (setup machine).start (view root).seen) result }
{
    let Machine {
        table,
        desc,
        layout,
        translators,
        first_shard,
        first_conf,
        first_pend,
        ..
    } = machine;
    let Pass { seat, .. } = root;
    let mut closed = table.close_with(seat);
    let first = take_translator(&mut closed, 0);
    let second = take_second(&mut closed, translators);
    let GuestMemory {
        memory,
        track,
        mut redists,
        ..
    } = take_memory(&mut closed, usize::from(translators));
    for shard in first_shard..first_conf {
        drop(take_part(&mut closed, shard));
    }
    for vcpu in 0..desc.shape.vcpus {
        let conf = take_conf(&mut closed, first_conf + usize::from(vcpu));
        redists.place_conf(Vcpu(vcpu), conf);
    }
    for vcpu in 0..desc.shape.vcpus {
        let pend = take_pend(&mut closed, first_pend + usize::from(vcpu));
        redists.place_pend(Vcpu(vcpu), pend);
    }
    closed.free();
    Parts {
        layout,
        first,
        second,
        memory,
        track,
        redists,
    }
}

// Translator 1, of a machine with so many, if it is one of them.
fn take_second(closed: &mut Closed<Value, Global>, translators: u8) -> Option<Translator>
    requires some { 1 ≤ translators }
    requires most { translators ≤ 2 }
    requires inside { 8 * translators ≤ slots_len closed.old.slots }
    requires front { AreTaken 8 (slots_len closed.old.slots) (slots_filled closed.old.slots) }
    requires there { translators ≡ 2 → HasTranslatorAt 1 (slots_items closed.old.slots) }
    ensures second { MatchOption result (translators ≡ 1)
        (λ t. (translators ≡ 2) × IsTranslatorAt 1 (slots_items closed.old.slots) t) }
    ensures items { slots_items closed.new.slots ≡ slots_items closed.old.slots }
    ensures length { slots_len closed.new.slots ≡ slots_len closed.old.slots }
    ensures words { closed.new.words ≡ closed.old.words }
    ensures front { AreTaken (8 * translators) (slots_len closed.new.slots)
        (slots_filled closed.new.slots) }
{
    if translators == 2 {
        Some(take_translator(closed, 1))
    } else {
        None
    }
}

// The translator of this number, which is the next part.
fn take_translator(closed: &mut Closed<Value, Global>, its: usize) -> Translator
    requires low { its < 2 }
    requires inside { 8 * its + 8 ≤ slots_len closed.old.slots }
    requires front { AreTaken (8 * its) (slots_len closed.old.slots)
        (slots_filled closed.old.slots) }
    requires there { HasTranslatorAt its (slots_items closed.old.slots) }
    ensures translator { IsTranslatorAt its (slots_items closed.old.slots) result }
    ensures items { slots_items closed.new.slots ≡ slots_items closed.old.slots }
    ensures length { slots_len closed.new.slots ≡ slots_len closed.old.slots }
    ensures words { closed.new.words ≡ closed.old.words }
    ensures front { AreTaken (8 * its + 8) (slots_len closed.new.slots)
        (slots_filled closed.new.slots) }
{
    let Value::Maps(translator) = take_part(closed, its) else {
        unreachable!()
    };
    Box::into_inner(translator)
}

// Guest memory, which is the next part.
fn take_memory(closed: &mut Closed<Value, Global>, part: usize) -> GuestMemory
    requires low { part < 2048 }
    requires inside { 8 * part + 8 ≤ slots_len closed.old.slots }
    requires front { AreTaken (8 * part) (slots_len closed.old.slots)
        (slots_filled closed.old.slots) }
    requires there { HasMemoryAt part (slots_items closed.old.slots) }
    ensures memory { IsMemoryAt part (slots_items closed.old.slots) result }
    ensures items { slots_items closed.new.slots ≡ slots_items closed.old.slots }
    ensures length { slots_len closed.new.slots ≡ slots_len closed.old.slots }
    ensures words { closed.new.words ≡ closed.old.words }
    ensures front { AreTaken (8 * part + 8) (slots_len closed.new.slots)
        (slots_filled closed.new.slots) }
{
    let Value::Mem(memory) = take_part(closed, part) else {
        unreachable!()
    };
    Box::into_inner(memory)
}

// The configuration that is the next part.
fn take_conf(closed: &mut Closed<Value, Global>, part: usize) -> Box<Conf>
    requires low { part < 2048 }
    requires inside { 8 * part + 8 ≤ slots_len closed.old.slots }
    requires front { AreTaken (8 * part) (slots_len closed.old.slots)
        (slots_filled closed.old.slots) }
    requires there { HasConfAt part (slots_items closed.old.slots) }
    ensures conf { get_elem? (slots_items closed.old.slots) (8 * part)
        ≡ some (values.Conf result) }
    ensures items { slots_items closed.new.slots ≡ slots_items closed.old.slots }
    ensures length { slots_len closed.new.slots ≡ slots_len closed.old.slots }
    ensures words { closed.new.words ≡ closed.old.words }
    ensures front { AreTaken (8 * part + 8) (slots_len closed.new.slots)
        (slots_filled closed.new.slots) }
{
    let Value::Conf(conf) = take_part(closed, part) else {
        unreachable!()
    };
    conf
}

// What is pending, as the next part.
fn take_pend(closed: &mut Closed<Value, Global>, part: usize) -> Box<Pend>
    requires low { part < 2048 }
    requires inside { 8 * part + 8 ≤ slots_len closed.old.slots }
    requires front { AreTaken (8 * part) (slots_len closed.old.slots)
        (slots_filled closed.old.slots) }
    requires there { HasPendAt part (slots_items closed.old.slots) }
    ensures pend { get_elem? (slots_items closed.old.slots) (8 * part)
        ≡ some (values.Pend result) }
    ensures items { slots_items closed.new.slots ≡ slots_items closed.old.slots }
    ensures length { slots_len closed.new.slots ≡ slots_len closed.old.slots }
    ensures words { closed.new.words ≡ closed.old.words }
    ensures front { AreTaken (8 * part + 8) (slots_len closed.new.slots)
        (slots_filled closed.new.slots) }
{
    let Value::Pend(pend) = take_part(closed, part) else {
        unreachable!()
    };
    pend
}

// The value of the next part, with the empty slots after it.
fn take_part(closed: &mut Closed<Value, Global>, part: usize) -> Value
    requires low { part < 2048 }
    requires inside { 8 * part + 8 ≤ slots_len closed.old.slots }
    requires front { AreTaken (8 * part) (slots_len closed.old.slots)
        (slots_filled closed.old.slots) }
    ensures value { get_elem? (slots_items closed.old.slots) (8 * part) ≡ some result }
    ensures items { slots_items closed.new.slots ≡ slots_items closed.old.slots }
    ensures length { slots_len closed.new.slots ≡ slots_len closed.old.slots }
    ensures words { closed.new.words ≡ closed.old.words }
    ensures front { AreTaken (8 * part + 8) (slots_len closed.new.slots)
        (slots_filled closed.new.slots) }
{
    let value = closed.take(8 * part);
    for behind in 8 * part + 1..8 * part + 8 {
        drop(closed.take(behind));
    }
    value
}
