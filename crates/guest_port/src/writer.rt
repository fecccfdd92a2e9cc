//! Who writes guest memory.
ghost use Rattle.std.specs.Prelude.{◌≡◌};
ghost use Rattle.guest_port.specs.Pokes.{write_of};

use its_plain::{Bytes64, Call, Route};
use its_types::Addr;

/// The guest, or a device that writes by address.
#[derive(Clone, Copy, Debug, PartialEq, Eq)]
pub enum Writer {
    /// The guest itself.
    Guest,
    /// The device of this requester's number, whose write is no message.
    Requester(u32),
}

impl Writer {
    ghost use Rattle.std.specs.Prelude.{◌≡◌};
    ghost use Rattle.guest_port.specs.Pokes.{write_of};

    /// The call of the history.
    pub fn call(self, addr: Addr, bytes: &Bytes64) -> Call
        ensures { result ≡ write_of self addr bytes.now }
    {
        let bytes = *bytes;
        match self {
            Writer::Guest => Call::Poke { addr, bytes },
            Writer::Requester(req) => Call::Dma {
                req,
                addr,
                bytes,
                route: Route::Poke,
            },
        }
    }
}
