//! Which redistributors are wanted.
ghost use Rattle.std.specs.Prelude.{◌≡◌, ℕ, nat_lt};
ghost use Rattle.owned_parts.specs.RedistSets.{is_in};

use owned_parts::RedistSet;

/// All virtual processors of a machine with so many.
pub fn all_of(vcpus: u16) -> RedistSet
    ensures { (v : ℕ) → is_in result v ≡ nat_lt v vcpus }
{
    RedistSet::First(vcpus)
}
