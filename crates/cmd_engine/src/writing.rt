//! Writes of registers, with the maps in hand.
ghost use Rattle.std.specs.Prelude.{◌≡◌};
ghost use Rattle.its_plain.specs.declared.call.Reply.TheVariants as reply;
ghost use Rattle.owned_parts.specs.Owned.{translator_of};
ghost use Rattle.its_turns.specs.Machines.{setup, view, IsOf};
ghost use Rattle.cmd_engine.specs.Cached.{ending_as};
ghost use Rattle.cmd_engine.specs.Hands.{HasInHand, IsOfTranslator, IsOwn};
ghost use Rattle.cmd_engine.specs.Registers.{write_call, write_ending};
ghost use Rattle.cmd_engine.specs.Telling.{ComesFromShards};

use crate::commits::commit_marked;
use crate::endings::Ending;
use crate::hands::Hands;
use crate::missed::Missed;
use cmd_exec::write_register;
use its_plain::{Call, Reply};
use its_turns::{Machine, Pass, begin};
use its_types::{Gate, Placed, Shape};
use owned_parts::Translator;

/// A write of `size` bytes at an offset of the control frame.
#[derive(Clone, Copy, Debug, PartialEq, Eq)]
pub(crate) struct RegWrite {
    /// In bytes, from the control frame's beginning.
    pub off: u32,
    /// 4 or 8 bytes; a write of any other size is ignored.
    pub size: u8,
    /// Of a write of 4 bytes its low 32 bits count.
    pub value: u64,
}

impl RegWrite {
    ghost use Rattle.std.specs.Prelude.{◌≡◌};
    ghost use Rattle.owned_parts.specs.Owned.{translator_of};
    ghost use Rattle.cmd_engine.specs.Cached.{ending_by};
    ghost use Rattle.cmd_engine.specs.Registers.{write_call, write_ending, after_write};

    /// The write as a call of the history, of this translator.
    pub fn call(self, its: u8) -> Call
        ensures { result ≡ write_call its self }
    {
        Call::WriteReg {
            its,
            off: self.off,
            size: self.size,
            value: self.value,
        }
    }

    /// What it ends: all, where it turns the translator off that has these registers.
    pub fn ending(self, translator: &Translator) -> Ending
        ensures { ending_by result ≡ write_ending self (translator_of translator.now) }
    {
        let mut regs = translator.regs;
        let _ = regs.write(self.off, self.size, self.value);
        if translator.regs.enabled() && !regs.enabled() {
            Ending::All
        } else {
            Ending::Nothing
        }
    }

    /// Writes, in a machine of this shape.
    pub fn apply(self, translator: &mut Translator, shape: &Shape)
        ensures { translator_of translator.new
            ≡ after_write shape.now self (translator_of translator.old) }
    {
        write_register(
            &mut translator.regs,
            &mut translator.maps,
            shape,
            self.off,
            self.size,
            self.value,
        );
    }
}

/// Tries once to make the write. The maps are in hand, and the shards that it may change.
pub(crate) fn make_write<G: Gate>(
    machine: &Machine,
    pass: &mut Pass,
    gate: &G,
    write: RegWrite,
    hands: &mut Hands,
) -> Result<Placed<()>, Missed>
    requires of { IsOf machine.now pass.old }
    requires hands { HasInHand (setup machine.now) (view pass.old) hands.old }
    requires own { IsOwn hands.old }
    requires ends { ending_as hands.old.cached
        ≡ write_ending write (translator_of hands.old.translator.value) }
    ensures of { IsOf machine.now pass.new }
    ensures hands { HasInHand (setup machine.now) (view pass.new) hands.new }
    ensures tries { (view pass.new).tries ≡ (view pass.old).tries }
    ensures comes { ComesFromShards hands.old.cached (IsOfTranslator hands.old.its)
        (view pass.old) (write_call hands.old.its write) (λ _. reply.Ok) (view pass.new) result }
{
    let Ok(word) = begin(machine, pass) else {
        return Err(Missed::Spent);
    };
    let Some(mark) = hands.cached.mark(machine, hands.its, word) else {
        return Err(Missed::Late);
    };
    let call = write.call(hands.its);
    let place = match commit_marked(machine, pass, gate, word, mark, call, Reply::Ok) {
        Ok(place) => place,
        Err(missed) => return Err(missed),
    };
    write.apply(&mut hands.translator, &machine.desc().shape);
    hands.cached.change(mark.change);
    Ok(Placed { place, reply: () })
}
