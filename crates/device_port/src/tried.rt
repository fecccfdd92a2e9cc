//! What a device's write by address is answered that was tried once.
ghost use Rattle.std.specs.Prelude.{◌≡◌};
ghost use Rattle.guest_port.specs.Pokes.{IsWriteReply, IfMade};
ghost use Rattle.device_port.specs.Tries as spec;

use crate::told::Dma;
use its_plain::{Reply, Signal};
use its_turns::{Attempt, Lost};
use its_types::Placed;

/// A message, as the write that it is.
pub fn message_tried(tried: Attempt<Signal>) -> Attempt<Dma>
    ensures { result ≡ spec.message_tried tried }
{
    match tried {
        Attempt::Done(placed) => Attempt::Done(Placed {
            place: placed.place,
            reply: Dma::Signal(placed.reply),
        }),
        Attempt::Busy(busy) => Attempt::Busy(busy),
        Attempt::Raced(raced) => Attempt::Raced(raced),
        Attempt::Spent => Attempt::Spent,
    }
}

/// A write of memory.
pub fn write_tried(tried: Attempt<Reply>) -> Attempt<Dma>
    requires { IfMade IsWriteReply tried }
    ensures { result ≡ spec.write_tried tried }
{
    match tried {
        Attempt::Done(placed) => Attempt::Done(Placed {
            place: placed.place,
            reply: match placed.reply {
                Reply::Ok => Dma::Ok,
                _ => Dma::Outside,
            },
        }),
        Attempt::Busy(busy) => Attempt::Busy(busy),
        Attempt::Raced(raced) => Attempt::Raced(raced),
        Attempt::Spent => Attempt::Spent,
    }
}

/// What changes nothing.
pub fn nothing_tried(tried: Result<u64, Lost>, answer: Dma) -> Attempt<Dma>
    ensures { result ≡ spec.nothing_tried tried answer }
{
    match tried {
        Ok(place) => Attempt::Done(Placed {
            place,
            reply: answer,
        }),
        Err(lost) => lost.attempt(),
    }
}
