//! Which pages a write of guest memory may take.
ghost use Rattle.std.specs.Prelude.{◌≡◌, true, Err, OnOk};
ghost use Rattle.guest_port.specs.declared.pages.Unheld.TheVariants.{Full};

use crate::answers::prepare;
use guest_windows::Memory;
use its_turns::GuestMemory;
use its_types::Addr;
use thiserror::Error;

/// Which pages of guest memory may be held besides those that are.
pub trait PageRule {
    ghost use Rattle.std.specs.Prelude.{◌≡◌, false};

    // it doesn't allow all
    ghost is_limit: { Self → Type 0 };

    /// Whether the pages that a write of so many bytes wants may be held.
    fn allows(&self, memory: &Memory, addr: Addr, len: u64) -> bool
        ensures { result ≡ false → is_limit self.now };
}

/// All may be.
#[derive(Clone, Copy, Debug)]
pub struct AllPages;

impl PageRule for AllPages {
    ghost is_limit = { λ _. ⊥ };

    fn allows(&self, _memory: &Memory, _addr: Addr, _len: u64) -> bool {
        true
    }
}

/// Why the pages of a write aren't held. Nothing was done.
#[derive(Clone, Copy, Debug, PartialEq, Eq, Error)]
pub enum Unheld {
    /// They would be more than may be.
    #[error("more pages than may be held")]
    Full,
    /// The host's memory ran out.
    #[error("out of memory")]
    NoMemory,
}

/// Holds the pages that a write may need, if the rule allows it.
pub(crate) fn hold<R: PageRule>(
    guest: &mut GuestMemory,
    rule: &R,
    addr: Addr,
    len: u64,
) -> Result<(), Unheld>
    ensures memory { guest.new.memory ≡ guest.old.memory }
    ensures track { guest.new.track ≡ guest.old.track }
    ensures redists { guest.new.redists ≡ guest.old.redists }
    ensures ready { OnOk result (guest.new.spare ≡ true) }
    ensures full { result ≡ Err Full → R.is_limit rule.now }
{
    if !rule.allows(&guest.memory, addr, len) {
        return Err(Unheld::Full);
    }
    match prepare(guest) {
        Ok(()) => Ok(()),
        Err(_) => Err(Unheld::NoMemory),
    }
}
