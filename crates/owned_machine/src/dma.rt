//! Devices' writes by address.
ghost use Rattle.std.specs.Prelude.{◌≡◌, true, IfOk, OnErr};
ghost use Rattle.its_plain.specs.Answer as answers;
ghost use Rattle.owned_parts.specs.Owned.{state_of_parts};
ghost use Rattle.owned_machine.specs.Whole.{IsMachine, GoesOn, pokes_by};

use crate::memory::poke;
use crate::signals::signal;
use its_plain::{Bytes64, Reply, Route};
use its_types::Addr;
use owned_parts::Parts;
use std::alloc::AllocError;

/// A device's write by address, by its route: as a message, as a write of guest memory, or nothing.
pub fn dma(
    parts: &mut Parts,
    addr: Addr,
    bytes: &Bytes64,
    route: Route,
) -> Result<Reply, AllocError>
    requires { IsMachine parts.old }
    ensures reply { IfOk result (λ r.
        r ≡ answers.route_reply (state_of_parts parts.old) addr bytes.now route) }
    ensures left { IfOk result (λ r.
        GoesOn parts.new (answers.route_left (state_of_parts parts.old) addr bytes.now route r)) }
    ensures err { OnErr result (parts.new ≡ parts.old) }
    ensures rare { OnErr result (pokes_by (state_of_parts parts.old) addr.0 bytes.now route
        ≡ true) }
{
    match route {
        Route::Signal { its, dev, ev } => Ok(Reply::Signal(signal(parts, its, dev, ev))),
        Route::Poke => poke(parts, addr, bytes),
        Route::NoRequester => Ok(Reply::NoRequester),
        Route::Frame => Ok(Reply::Outside),
    }
}
