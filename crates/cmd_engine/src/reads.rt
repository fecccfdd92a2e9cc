//! Reads of the registers of a translator.
ghost use Rattle.std.specs.Prelude.{◌≡◌, ◌<◌, []};
ghost use Rattle.its_types.specs.declared.machine.Part.TheVariants as part;
ghost use Rattle.its_plain.specs.declared.call.Call.TheVariants as call;
ghost use Rattle.its_plain.specs.declared.call.Reply.TheVariants as reply;
ghost use Rattle.its_steps.specs.Parts.{translator_count};
ghost use Rattle.its_turns.specs.Calls.{TriesPart, AsksPart};
ghost use Rattle.its_turns.specs.Machines.{setup, view, IsOf};

use cmd_exec::read_register;
use its_plain::{Call, Reply};
use its_steps::ShardChange;
use its_turns::{
    Attempt, Machine, Pass, Spent, Value, give_way, pause, put, try_commit, try_take_maps,
};
use its_types::{Gate, Part, Placed, Point};
use std::sync::Wait;

/// Reads `size` bytes, 4 or 8, at an offset of a translator's control frame. Waits for nobody.
pub fn try_read_at<G: Gate>(
    machine: &Machine,
    pass: &mut Pass,
    gate: &G,
    its: u8,
    off: u32,
    size: u8,
) -> Attempt<u64>
    requires of { IsOf machine.now pass.old }
    requires its { its < translator_count (setup machine.now) }
    requires free { (view pass.old).held ≡ [] }
    ensures of { IsOf machine.now pass.new }
    ensures answer { TriesPart (view pass.old) (part.Maps its) (call.ReadReg its off size)
        reply.Value (view pass.new) result }
{
    let translator = match try_take_maps(machine, pass, its) {
        Ok(translator) => translator,
        Err(busy) => return Attempt::Busy(busy),
    };
    gate.at(pass.number(), Point::MapsTaken);
    let value = read_register(&translator.regs, off, size);
    let call = Call::ReadReg { its, off, size };
    let made = try_commit(
        machine,
        pass,
        gate,
        &call,
        &Reply::Value(value),
        ShardChange::Keep,
    );
    match made {
        Ok(word) => {
            put(machine, pass, Part::Maps(its), Value::Maps(translator));
            Attempt::Done(Placed {
                place: word.place,
                reply: value,
            })
        }
        Err(lost) => {
            put(machine, pass, Part::Maps(its), Value::Maps(translator));
            lost.attempt()
        }
    }
}

/// Reads a register of translator 0, and waits for nobody.
pub fn try_read_reg<G: Gate>(
    machine: &Machine,
    pass: &mut Pass,
    gate: &G,
    off: u32,
    size: u8,
) -> Attempt<u64>
    requires of { IsOf machine.now pass.old }
    requires free { (view pass.old).held ≡ [] }
    ensures of { IsOf machine.now pass.new }
    ensures answer { TriesPart (view pass.old) (part.Maps 0) (call.ReadReg 0 off size) reply.Value
        (view pass.new) result }
{
    try_read_at(machine, pass, gate, 0, off, size)
}

/// Reads `size` bytes, 4 or 8, at an offset of a translator's control frame.
pub fn read_at<R: Wait, G: Gate>(
    rt: &R,
    machine: &Machine,
    pass: &mut Pass,
    gate: &G,
    its: u8,
    off: u32,
    size: u8,
) -> Result<Placed<u64>, Spent>
    requires of { IsOf machine.now pass.old }
    requires its { its < translator_count (setup machine.now) }
    requires free { (view pass.old).held ≡ [] }
    ensures of { IsOf machine.now pass.new }
    ensures answer { AsksPart (view pass.old) (part.Maps its) (call.ReadReg its off size)
        reply.Value (view pass.new) result }
{
    let mut attempt = 0u8;
    for _ in rt.forever() {
        attempt = attempt.saturating_add(1);
        match try_read_at(machine, pass, gate, its, off, size) {
            Attempt::Done(placed) => return Ok(placed),
            Attempt::Spent => return Err(Spent),
            Attempt::Busy(_) => give_way(attempt),
            Attempt::Raced(_) => pause(attempt),
        }
    }
    unreachable!()
}

/// Reads a register of translator 0.
///
/// ```
/// // GITS_CTLR, bit 0: the translator is enabled.
/// let enabled = read_reg(rt, machine, pass, &Open, 0x0, 4)?.reply & 1 == 1;
/// ```
pub fn read_reg<R: Wait, G: Gate>(
    rt: &R,
    machine: &Machine,
    pass: &mut Pass,
    gate: &G,
    off: u32,
    size: u8,
) -> Result<Placed<u64>, Spent>
    requires of { IsOf machine.now pass.old }
    requires free { (view pass.old).held ≡ [] }
    ensures of { IsOf machine.now pass.new }
    ensures answer { AsksPart (view pass.old) (part.Maps 0) (call.ReadReg 0 off size) reply.Value
        (view pass.new) result }
{
    read_at(rt, machine, pass, gate, 0, off, size)
}
