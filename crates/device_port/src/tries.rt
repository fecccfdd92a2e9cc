//! Devices' writes by address that wait for nobody.
ghost use Rattle.std.specs.Prelude.{◌≡◌, ◌<◌, ◌∷◌, [], Err, MatchResult};
ghost use Rattle.its_types.specs.declared.machine.Part.TheVariants as part;
ghost use Rattle.its_types.specs.declared.machine.Word.{Word};
ghost use Rattle.its_plain.specs.Doorbells.{dma_of, route_of};
ghost use Rattle.its_plain.specs.declared.call.Route.TheVariants as routes;
ghost use Rattle.its_steps.specs.Calls.{staying, MayLeave};
ghost use Rattle.its_steps.specs.declared.change.ShardChange.TheVariants.{Keep};
ghost use Rattle.its_turns.specs.Calls.{GaveUp};
ghost use Rattle.its_turns.specs.Machines.{setup, view, IsOf};
ghost use Rattle.device_port.specs.Routes.{AreDevices};
ghost use Rattle.device_port.specs.Tries.{DmasOnce, TellsOnce};
ghost use Rattle.guest_port.specs.declared.pages.Unheld.TheVariants.{Full};

use crate::message::Message;
use crate::signals::send_once;
use crate::told::Dma;
use crate::tried::{message_tried, nothing_tried, write_tried};
use dma_routes::route;
use guest_port::{AllPages, PageRule, Unheld, Writer, try_write_within};
use its_plain::{Bytes64, Call, Reply, Route};
use its_steps::ShardChange;
use its_turns::{Attempt, Lost, Machine, Pass, try_commit};
use its_types::{Addr, Gate};
use std::alloc::AllocError;

/// Writes 1 to 64 bytes at an address as the requester of this number, and waits for no turn: a
/// message tries those that `signal_once_at` tries, a write of memory that of memory. Where another
/// pass has one of them, or other calls are made first each time, nothing was done. A write of
/// memory holds the pages that it may need before it is made; where there is no memory for them it
/// isn't made.
///
/// ```
/// let bytes = Bytes64::new(&[3, 0, 0, 0]);
/// let rung = match try_dma(machine, pass, &Open, 0x100, Addr(0x0809_0040), &bytes)? {
///     Attempt::Done(placed) => Some(placed.reply),
///     _ => None,
/// };
/// ```
pub fn try_dma<G: Gate>(
    machine: &Machine,
    pass: &mut Pass,
    gate: &G,
    req: u32,
    addr: Addr,
    bytes: &Bytes64,
) -> Result<Attempt<Dma>, AllocError>
    requires of { IsOf machine.now pass.old }
    requires free { (view pass.old).held ≡ [] }
    requires devices { AreDevices machine.now.desc.requesters }
    ensures of { IsOf machine.now pass.new }
    ensures answer { MatchResult result
        (λ a. DmasOnce (view pass.old) (dma_of machine.now.desc req addr bytes.now)
        (route_of machine.now.desc req addr.0 bytes.now) (view pass.new) a)
        (λ _. (route_of machine.now.desc req addr.0 bytes.now ≡ routes.Poke)
        × GaveUp (view pass.old) (part.Mem ∷ []) (view pass.new)) }
{
    match try_dma_within(machine, pass, gate, req, addr, bytes, &AllPages) {
        Ok(attempt) => Ok(attempt),
        Err(Unheld::NoMemory) => Err(AllocError),
        Err(Unheld::Full) => unreachable!(),
    }
}

/// Writes as `try_dma` does, where the rule allows the pages that a write of memory wants.
pub fn try_dma_within<G: Gate, R: PageRule>(
    machine: &Machine,
    pass: &mut Pass,
    gate: &G,
    req: u32,
    addr: Addr,
    bytes: &Bytes64,
    rule: &R,
) -> Result<Attempt<Dma>, Unheld>
    requires of { IsOf machine.now pass.old }
    requires free { (view pass.old).held ≡ [] }
    requires devices { AreDevices machine.now.desc.requesters }
    ensures of { IsOf machine.now pass.new }
    ensures answer { MatchResult result
        (λ a. DmasOnce (view pass.old) (dma_of machine.now.desc req addr bytes.now)
        (route_of machine.now.desc req addr.0 bytes.now) (view pass.new) a)
        (λ _. (route_of machine.now.desc req addr.0 bytes.now ≡ routes.Poke)
        × GaveUp (view pass.old) (part.Mem ∷ []) (view pass.new)) }
    ensures full { result ≡ Err Full → R.is_limit rule.now }
{
    let route = route(machine.desc(), req, addr, bytes);
    let call = Call::Dma {
        req,
        addr,
        bytes: *bytes,
        route,
    };
    match route {
        Route::Signal { its, dev, ev } => {
            let message = Message { its, dev, ev };
            Ok(message_tried(send_once(machine, pass, gate, &call, message)))
        }
        Route::Poke => {
            let writer = Writer::Requester(req);
            let tried = try_write_within(machine, pass, gate, writer, addr, bytes, rule)?;
            Ok(write_tried(tried))
        }
        Route::NoRequester => {
            let tried = try_tell(machine, pass, gate, &call, &Reply::NoRequester);
            Ok(nothing_tried(tried, Dma::NoRequester))
        }
        Route::Frame => {
            let tried = try_tell(machine, pass, gate, &call, &Reply::Outside);
            Ok(nothing_tried(tried, Dma::Outside))
        }
    }
}

// Makes a call that needs no part, if no other is made first. Answers its place.
fn try_tell<G: Gate>(
    machine: &Machine,
    pass: &mut Pass,
    gate: &G,
    call: &Call,
    reply: &Reply,
) -> Result<u64, Lost>
    requires of { IsOf machine.now pass.old }
    requires free { (view pass.old).held ≡ [] }
    requires may { (w : Word) → w.place < (setup machine.now).limits.place_last →
        MayLeave (setup machine.now) (staying w call.now reply.now Keep) [] [] }
    ensures of { IsOf machine.now pass.new }
    ensures answer { TellsOnce (view pass.old) call.now reply.now (view pass.new) result }
{
    match try_commit(machine, pass, gate, call, reply, ShardChange::Keep) {
        Ok(word) => Ok(word.place),
        Err(lost) => Err(lost),
    }
}
