//! Messages by the maps.
ghost use Rattle.std.specs.Prelude.{◌≡◌, Ok, []};
ghost use Rattle.its_plain.specs.Translation.{located};
ghost use Rattle.its_steps.specs.Contents as content;
ghost use Rattle.its_types.specs.declared.machine.Part.TheVariants as part;
ghost use Rattle.its_steps.specs.World.{View, took};
ghost use Rattle.owned_parts.specs.Owned.{translator_of};
ghost use Rattle.its_turns.specs.Machines.{setup, view, IsOf};
ghost use Rattle.its_turns.specs.Told.{HasStood};
ghost use Rattle.device_port.specs.ByMaps.{AsksMaps};
ghost use Rattle.device_port.specs.Hands.{one_held};
ghost use Rattle.device_port.specs.Messages.{Sends};

use crate::finish::{drop_signal, fill_signal, off_signal};
use crate::hand::Hand;
use crate::message::Message;
use its_plain::{Call, Signal};
use its_turns::{Attempt, Machine, Pass, Value, put, try_take_maps, try_take_pend, try_take_shard};
use its_types::{Gate, Part, Point, Target};
use owned_parts::{Translator, locate};

/// Makes the call, which is this message, by the maps, and fills the pair's shard where the message
/// is delivered. Tries each turn once.
pub fn send_by_maps<G: Gate>(
    machine: &Machine,
    pass: &mut Pass,
    gate: &G,
    call: &Call,
    message: Message,
) -> Attempt<Signal>
    requires of { IsOf machine.now pass.old }
    requires free { (view pass.old).held ≡ [] }
    requires sends { Sends (setup machine.now) call.now message }
    ensures of { IsOf machine.now pass.new }
    ensures answer { AsksMaps (view pass.old) call.now message (view pass.new) result }
{
    let maps = match try_take_maps(machine, pass, message.its) {
        Ok(maps) => maps,
        Err(busy) => return Attempt::Busy(busy),
    };
    gate.at(pass.number(), Point::MapsTaken);
    match locate(&maps.regs, &maps.maps, message.dev, message.ev) {
        Err(cause) => drop_signal(machine, pass, gate, call, message, maps, cause),
        Ok(target) => send_on(machine, pass, gate, call, message, target, maps),
    }
}

// The maps send it on.
fn send_on<G: Gate>(
    machine: &Machine,
    pass: &mut Pass,
    gate: &G,
    call: &Call,
    message: Message,
    target: Target,
    maps: Box<Translator>,
) -> Attempt<Signal>
    requires of { IsOf machine.now pass.old }
    requires sends { Sends (setup machine.now) call.now message }
    requires held { (view pass.old).held ≡ one_held message.its maps.value }
    requires stood { HasStood (setup machine.now) (part.Maps message.its)
        (content.Maps (translator_of maps.value)) }
    requires goes { located (translator_of maps.value) message.dev.0 message.ev.0 ≡ Ok target }
    ensures of { IsOf machine.now pass.new }
    ensures answer { (v : View) → v.held ≡ [] →
        view pass.old
        ≡ took v (part.Maps message.its) (content.Maps (translator_of maps.value)) →
        AsksMaps v call.now message (view pass.new) result }
{
    let Message { its, dev, ev } = message;
    let number = machine.shard_of(dev, ev);
    let shard = match try_take_shard(machine, pass, its, number) {
        Ok(shard) => shard,
        Err(busy) => {
            put(machine, pass, Part::Maps(its), Value::Maps(maps));
            return Attempt::Busy(busy);
        }
    };
    let pend = match try_take_pend(machine, pass, target.vcpu) {
        Ok(pend) => pend,
        Err(busy) => {
            put(machine, pass, Part::Shard(its, number), Value::Shard(shard));
            put(machine, pass, Part::Maps(its), Value::Maps(maps));
            return Attempt::Busy(busy);
        }
    };
    let hand = Hand {
        number,
        shard,
        target,
        pend,
    };
    if hand.on() {
        fill_signal(machine, pass, gate, call, message, maps, hand)
    } else {
        off_signal(machine, pass, gate, call, message, maps, hand)
    }
}
