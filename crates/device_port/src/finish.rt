//! The last steps of a message by the maps, which has all turns that it needs.
ghost use Rattle.std.specs.Prelude.{◌≡◌, true, false, Ok, Err, Some};
ghost use Rattle.its_plain.specs.Translation.{located};
ghost use Rattle.its_plain.specs.declared.call.Signal.TheVariants as signals;
ghost use Rattle.its_plain.specs.declared.call.Cause.TheVariants as cause;
ghost use Rattle.xlate_cache.specs.Pairs.{shard_number};
ghost use Rattle.its_steps.specs.declared.change.ShardChange.TheVariants as change;
ghost use Rattle.owned_parts.specs.Owned.{translator_of};
ghost use Rattle.its_turns.specs.Machines.{setup, view, IsOf};
ghost use Rattle.device_port.specs.Finishes.{Finishes};
ghost use Rattle.device_port.specs.Hands.{one_held, hand_held, IsHandOf};
ghost use Rattle.device_port.specs.Messages.{Sends};
ghost use Rattle.device_port.specs.Signals.{FindsIfDone};

use crate::hand::Hand;
use crate::home::put_three;
use crate::message::Message;
use its_plain::{Call, Cause, Reply, Signal};
use its_steps::ShardChange;
use its_turns::{Attempt, Machine, Pass, Value, put, try_commit};
use its_types::{Gate, Part, Placed};
use owned_parts::Translator;

/// The maps send it nowhere.
pub fn drop_signal<G: Gate>(
    machine: &Machine,
    pass: &mut Pass,
    gate: &G,
    call: &Call,
    message: Message,
    maps: Box<Translator>,
    cause: Cause,
) -> Attempt<Signal>
    requires of { IsOf machine.now pass.old }
    requires sends { Sends (setup machine.now) call.now message }
    requires held { (view pass.old).held ≡ one_held message.its maps.value }
    requires lost { located (translator_of maps.value) message.dev.0 message.ev.0 ≡ Err cause }
    ensures of { IsOf machine.now pass.new }
    ensures answer { Finishes (view pass.old) call.now (signals.Dropped cause) change.Keep
        (view pass.new) result }
{
    let signal = Signal::Dropped(cause);
    match try_commit(
        machine,
        pass,
        gate,
        call,
        &Reply::Signal(signal),
        ShardChange::Keep,
    ) {
        Ok(word) => {
            put(machine, pass, Part::Maps(message.its), Value::Maps(maps));
            Attempt::Done(Placed {
                place: word.place,
                reply: signal,
            })
        }
        Err(lost) => {
            put(machine, pass, Part::Maps(message.its), Value::Maps(maps));
            lost.attempt()
        }
    }
}

/// The maps send it where LPIs are on: the LPI is pending there, and the pair's translation is in
/// its shard.
pub fn fill_signal<G: Gate>(
    machine: &Machine,
    pass: &mut Pass,
    gate: &G,
    call: &Call,
    message: Message,
    maps: Box<Translator>,
    mut hand: Hand,
) -> Attempt<Signal>
    requires of { IsOf machine.now pass.old }
    requires sends { Sends (setup machine.now) call.now message }
    requires hand { IsHandOf (setup machine.now) message hand }
    requires held { (view pass.old).held
        ≡ hand_held message.its hand (one_held message.its maps.value) }
    requires goes { located (translator_of maps.value) message.dev.0 message.ev.0 ≡ Ok hand.target }
    requires on { hand.pend.value.accepts ≡ true }
    requires looked { ((view pass.old).cache.looked.its ≡ message.its) ×
        ((view pass.old).cache.looked.number
        ≡ shard_number message.dev.0 message.ev.0 (setup machine.now).shards) }
    ensures of { IsOf machine.now pass.new }
    ensures answer { Finishes (view pass.old) call.now
        (signals.Delivered hand.target.vcpu hand.target.intid)
        (change.Fill message.dev message.ev hand.target)
        (view pass.new) result }
    ensures finds { FindsIfDone message (view pass.new) (Some hand.target) result }
{
    let target = hand.target;
    let signal = Signal::Delivered {
        vcpu: target.vcpu,
        intid: target.intid,
    };
    let fill = ShardChange::Fill(message.dev, message.ev, target);
    match try_commit(machine, pass, gate, call, &Reply::Signal(signal), fill) {
        Ok(word) => {
            hand.pend.set(target.intid);
            let stamp = machine.stamp_of(word, message.its);
            hand.shard.fill(message.dev, message.ev, stamp, target);
            put_three(machine, pass, message.its, maps, hand);
            Attempt::Done(Placed {
                place: word.place,
                reply: signal,
            })
        }
        Err(lost) => {
            put_three(machine, pass, message.its, maps, hand);
            lost.attempt()
        }
    }
}

/// The maps send it where LPIs are off.
pub fn off_signal<G: Gate>(
    machine: &Machine,
    pass: &mut Pass,
    gate: &G,
    call: &Call,
    message: Message,
    maps: Box<Translator>,
    hand: Hand,
) -> Attempt<Signal>
    requires of { IsOf machine.now pass.old }
    requires sends { Sends (setup machine.now) call.now message }
    requires hand { IsHandOf (setup machine.now) message hand }
    requires held { (view pass.old).held
        ≡ hand_held message.its hand (one_held message.its maps.value) }
    requires goes { located (translator_of maps.value) message.dev.0 message.ev.0 ≡ Ok hand.target }
    requires off { hand.pend.value.accepts ≡ false }
    ensures of { IsOf machine.now pass.new }
    ensures answer { Finishes (view pass.old) call.now (signals.Dropped cause.LpisOff) change.Keep
        (view pass.new)
        result }
{
    let signal = Signal::Dropped(Cause::LpisOff);
    match try_commit(
        machine,
        pass,
        gate,
        call,
        &Reply::Signal(signal),
        ShardChange::Keep,
    ) {
        Ok(word) => {
            put_three(machine, pass, message.its, maps, hand);
            Attempt::Done(Placed {
                place: word.place,
                reply: signal,
            })
        }
        Err(lost) => {
            put_three(machine, pass, message.its, maps, hand);
            lost.attempt()
        }
    }
}
