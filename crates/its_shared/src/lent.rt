//! The pass of a handle, lent for a call.
ghost use Rattle.std.specs.Prelude.{◌≡◌, Some, IsSome};
ghost use types.Logic.{sem};
ghost use Rattle.its_shared.specs.Lending.{port_follows};

use crate::pass::Pass;
use crate::port::Port;

impl Pass {
    /// The pass, with its machine.
    pub fn lent(&mut self) -> &mut Port
        requires { IsSome self.old.known }
        ensures* writes_back { sem 𝓛 (port_follows self.entry result) }
        ensures value { self.old.known ≡ Some result.now }
    {
        unsafe { &mut *self.at.cast::<Port>() }
    }
}
