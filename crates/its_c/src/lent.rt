//! The machine of a handle, lent for a call.
ghost use Rattle.std.specs.Prelude.{◌≡◌, Some, IsSome};
ghost use types.Logic.{sem};
ghost use Rattle.its_c.specs.Lending.{machine_follows};

use crate::handle::Handle;
use crate::kept::Kept;

impl Handle {
    /// The machine, and what is kept beside it.
    pub fn lent(&mut self) -> &mut Kept
        requires { IsSome self.old.machine }
        ensures* writes_back { sem 𝓛 (machine_follows self.entry result) }
        ensures value { self.old.machine ≡ Some result.now }
    {
        unsafe { &mut *self.at.cast::<Kept>() }
    }
}
