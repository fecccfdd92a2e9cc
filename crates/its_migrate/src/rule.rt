//! Which saves may be made.
use owned_parts::InPlace;
use std::alloc::{AllocError, Global};

/// Which states may be saved, as by how much of guest memory would be held then.
pub trait SaveRule {
    ghost use Rattle.std.specs.Prelude.{◌≡◌, true, false, Ok};
    ghost use Rattle.its_plain.specs.Plain as plain;
    ghost use Rattle.its_plain.specs.Sound.{IsSound};
    ghost use Rattle.owned_parts.specs.Owned.{AreAllInHand, state_in_place};

    // it allows such a state alone
    ghost is_allowed: { Self → plain.Plain → Type 0 };

    // and forbids such a state alone
    ghost is_forbidden: { Self → plain.Plain → Type 0 };

    /// Whether the state that these parts are of may be saved.
    fn allows(&self, alloc: Global, parts: &InPlace<'_>) -> Result<bool, AllocError>
        requires parts { AreAllInHand parts.now.layout.now.shape parts.now.redists.now }
        requires sound { IsSound (state_in_place parts.now) }
        ensures allowed { result ≡ Ok true → is_allowed self.now (state_in_place parts.now) }
        ensures forbidden { result ≡ Ok false → is_forbidden self.now (state_in_place parts.now) };
}

/// Each may be.
#[derive(Clone, Copy, Debug)]
pub(crate) struct AllSaves;

impl SaveRule for AllSaves {
    ghost is_allowed = { λ _ _. Unit {0} };

    ghost is_forbidden = { λ _ _. ⊥ };

    fn allows(&self, _alloc: Global, _parts: &InPlace<'_>) -> Result<bool, AllocError> {
        Ok(true)
    }
}

/// Why a save wasn't tried. Nothing was done.
#[derive(Clone, Copy, Debug, PartialEq, Eq)]
pub enum Unsaved {
    /// The rule forbids it.
    Full,
    /// The host's memory ran out.
    NoMemory,
}
