//! Messages by the cache or, where that has no translation, by the maps.
ghost use Rattle.std.specs.Prelude.{◌≡◌, ◌<◌, []};
ghost use Rattle.its_steps.specs.Parts.{translator_count};
ghost use Rattle.its_turns.specs.Machines.{setup, view, IsOf};
ghost use Rattle.device_port.specs.Messages as spec;
ghost use Rattle.device_port.specs.Messages.{Sends};
ghost use Rattle.device_port.specs.Signals.{SignalsOnce, Signals};

use crate::hits::{Now, try_send};
use crate::maps::send_by_maps;
use crate::message::Message;
use its_plain::{Call, Signal};
use its_turns::{Attempt, Machine, Pass, Spent, give_way, pause};
use its_types::{DeviceId, EventId, Gate, Placed};
use std::sync::Wait;

/// Signals to translator 0, as `signal_once_at` does.
pub fn signal_once<G: Gate>(
    machine: &Machine,
    pass: &mut Pass,
    gate: &G,
    dev: DeviceId,
    ev: EventId,
) -> Attempt<Signal>
    requires of { IsOf machine.now pass.old }
    requires free { (view pass.old).held ≡ [] }
    ensures of { IsOf machine.now pass.new }
    ensures answer { SignalsOnce (view pass.old) (spec.signal 0 dev ev) (spec.message 0 dev ev)
        (view pass.new) result }
{
    signal_once_at(machine, pass, gate, 0, dev, ev)
}

/// Signals to a translator, and waits for no turn. Tries that of the pair's shard once by the
/// cache. Where the shard has no translation, tries that of the maps once, and then that of the
/// shard once more.
pub fn signal_once_at<G: Gate>(
    machine: &Machine,
    pass: &mut Pass,
    gate: &G,
    its: u8,
    dev: DeviceId,
    ev: EventId,
) -> Attempt<Signal>
    requires of { IsOf machine.now pass.old }
    requires free { (view pass.old).held ≡ [] }
    requires its { its < translator_count (setup machine.now) }
    ensures of { IsOf machine.now pass.new }
    ensures answer { SignalsOnce (view pass.old) (spec.signal its dev ev)
        (spec.message its dev ev) (view pass.new) result }
{
    let call = Call::Signal { its, dev, ev };
    send_once(machine, pass, gate, &call, Message { its, dev, ev })
}

/// Makes the call, which is this message. Tries each turn as `signal_once_at` does.
pub fn send_once<G: Gate>(
    machine: &Machine,
    pass: &mut Pass,
    gate: &G,
    call: &Call,
    message: Message,
) -> Attempt<Signal>
    requires of { IsOf machine.now pass.old }
    requires free { (view pass.old).held ≡ [] }
    requires sends { Sends (setup machine.now) call.now message }
    ensures of { IsOf machine.now pass.new }
    ensures answer { SignalsOnce (view pass.old) call.now message (view pass.new) result }
{
    match try_send(machine, pass, gate, call, message) {
        Now::Done(placed) => Attempt::Done(placed),
        Now::Miss => send_by_maps(machine, pass, gate, call, message),
        Now::Busy(busy) => Attempt::Busy(busy),
        Now::Raced(raced) => Attempt::Raced(raced),
        Now::Spent => Attempt::Spent,
    }
}

/// Signals to translator 0, and waits for the turns that the call needs.
///
/// ```
/// let kicked = match signal(rt, machine, pass, &Open, DeviceId(16), EventId(3))?.reply {
///     Signal::Delivered { vcpu, .. } => Some(vcpu),
///     Signal::Dropped(_) => None,
/// };
/// ```
pub fn signal<R: Wait, G: Gate>(
    rt: &R,
    machine: &Machine,
    pass: &mut Pass,
    gate: &G,
    dev: DeviceId,
    ev: EventId,
) -> Result<Placed<Signal>, Spent>
    requires of { IsOf machine.now pass.old }
    requires free { (view pass.old).held ≡ [] }
    ensures of { IsOf machine.now pass.new }
    ensures answer { Signals (view pass.old) (spec.signal 0 dev ev) (spec.message 0 dev ev)
        (view pass.new) result }
{
    signal_at(rt, machine, pass, gate, 0, dev, ev)
}

/// Signals to a translator, and waits for the turns that the call needs. Tries no turn of another
/// translator's maps or shards.
pub fn signal_at<R: Wait, G: Gate>(
    rt: &R,
    machine: &Machine,
    pass: &mut Pass,
    gate: &G,
    its: u8,
    dev: DeviceId,
    ev: EventId,
) -> Result<Placed<Signal>, Spent>
    requires of { IsOf machine.now pass.old }
    requires free { (view pass.old).held ≡ [] }
    requires its { its < translator_count (setup machine.now) }
    ensures of { IsOf machine.now pass.new }
    ensures answer { Signals (view pass.old) (spec.signal its dev ev) (spec.message its dev ev)
        (view pass.new) result }
{
    let call = Call::Signal { its, dev, ev };
    send(rt, machine, pass, gate, &call, Message { its, dev, ev })
}

/// Makes the call, which is this message, and waits for the turns that it needs.
pub fn send<R: Wait, G: Gate>(
    rt: &R,
    machine: &Machine,
    pass: &mut Pass,
    gate: &G,
    call: &Call,
    message: Message,
) -> Result<Placed<Signal>, Spent>
    requires of { IsOf machine.now pass.old }
    requires free { (view pass.old).held ≡ [] }
    requires sends { Sends (setup machine.now) call.now message }
    ensures of { IsOf machine.now pass.new }
    ensures answer { Signals (view pass.old) call.now message (view pass.new) result }
{
    let mut attempt = 0u8;
    for _ in rt.forever() {
        attempt = attempt.saturating_add(1);
        match send_once(machine, pass, gate, call, message) {
            Attempt::Done(placed) => return Ok(placed),
            Attempt::Spent => return Err(Spent),
            Attempt::Busy(_) => give_way(attempt),
            Attempt::Raced(_) => pause(attempt),
        }
    }
    unreachable!()
}
