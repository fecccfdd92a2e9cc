//! Writes of the registers of a translator.
ghost use Rattle.std.specs.Prelude.{◌≡◌, ◌<◌, []};
ghost use Rattle.its_plain.specs.declared.call.Call.TheVariants as call;
ghost use Rattle.its_plain.specs.declared.call.Reply.TheVariants as reply;
ghost use Rattle.its_steps.specs.Parts.{translator_count};
ghost use Rattle.its_turns.specs.Machines.{setup, view, IsOf};
ghost use Rattle.cmd_engine.specs.Hands.{IsOfTranslator};
ghost use Rattle.cmd_engine.specs.Registers.{write_call};
ghost use Rattle.cmd_engine.specs.Telling.{AsksUntilMade, Comes};

use crate::hands::{Hands, put_taken};
use crate::missed::Missed;
use crate::taking::take_cached;
use crate::writing::{RegWrite, make_write};
use held_parts::{Waiting, take_maps};
use its_turns::{Machine, Pass, Spent, Value, pause, put};
use its_types::{Gate, Part, Placed, Point};
use std::sync::Wait;

/// Writes `size` bytes, 4 or 8, at an offset of a translator's control frame. A write that turns
/// the translator off ends every translation that its cache has: it leaves the translator's next
/// stamp, and after the last one 0 and empty shards, for which it takes all of its shards.
pub fn write_at<R: Wait, G: Gate>(
    rt: &R,
    machine: &Machine,
    pass: &mut Pass,
    gate: &G,
    its: u8,
    off: u32,
    size: u8,
    value: u64,
) -> Result<Placed<()>, Spent>
    requires of { IsOf machine.now pass.old }
    requires its { its < translator_count (setup machine.now) }
    requires free { (view pass.old).held ≡ [] }
    ensures of { IsOf machine.now pass.new }
    ensures answer { AsksUntilMade (IsOfTranslator its) (view pass.old)
        (call.WriteReg its off size value) (λ _. reply.Ok) (view pass.new) result }
{
    let write = RegWrite { off, size, value };
    let mut attempt = 0u8;
    for _ in rt.forever() {
        attempt = attempt.saturating_add(1);
        match write_once(rt, machine, pass, gate, its, write) {
            Ok(placed) => return Ok(placed),
            Err(Missed::Spent) => return Err(Spent),
            Err(Missed::NoMemory | Missed::Full) => unreachable!(),
            Err(Missed::Raced(_) | Missed::Late) => pause(attempt),
        }
    }
    unreachable!()
}

/// A write of translator 0's registers.
///
/// ```
/// // GITS_CTLR: the translator is enabled.
/// write_reg(rt, machine, pass, &Open, 0x0, 4, 1)?;
/// ```
pub fn write_reg<R: Wait, G: Gate>(
    rt: &R,
    machine: &Machine,
    pass: &mut Pass,
    gate: &G,
    off: u32,
    size: u8,
    value: u64,
) -> Result<Placed<()>, Spent>
    requires of { IsOf machine.now pass.old }
    requires free { (view pass.old).held ≡ [] }
    ensures of { IsOf machine.now pass.new }
    ensures answer { AsksUntilMade (IsOfTranslator 0) (view pass.old)
        (call.WriteReg 0 off size value) (λ _. reply.Ok) (view pass.new) result }
{
    write_at(rt, machine, pass, gate, 0, off, size, value)
}

fn write_once<R: Wait, G: Gate>(
    rt: &R,
    machine: &Machine,
    pass: &mut Pass,
    gate: &G,
    its: u8,
    write: RegWrite,
) -> Result<Placed<()>, Missed>
    requires of { IsOf machine.now pass.old }
    requires its { its < translator_count (setup machine.now) }
    requires free { (view pass.old).held ≡ [] }
    ensures of { IsOf machine.now pass.new }
    ensures free { (view pass.new).held ≡ [] }
    ensures comes { Comes (IsOfTranslator its) (view pass.old) (write_call its write)
        (λ _. reply.Ok) (view pass.new) result }
{
    let translator = take_maps(&Waiting { rt }, machine, pass, its);
    gate.at(pass.number(), Point::MapsTaken);
    let ends = write.ending(&translator);
    let mut hands = Hands::new(its, translator, None);
    take_cached(rt, machine, pass, its, ends, &mut hands.cached);
    let made = make_write(machine, pass, gate, write, &mut hands);
    put_taken(machine, pass, &mut hands);
    let Hands {
        its,
        translator,
        ..
    } = hands;
    put(machine, pass, Part::Maps(its), Value::Maps(translator));
    made
}
