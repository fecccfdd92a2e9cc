//! How a machine is made that threads share.
ghost use Rattle.std.specs.Prelude.{◌≡◌, ◌^◌, ◌<◌, ◌≤◌, IfOk, length};
ghost use Rattle.its_plain.specs.Described.{IsFirstState};
ghost use Rattle.its_plain.specs.Machine.{IsDescription};
ghost use Rattle.its_migrate.specs.Shared.{IsFirst, IsSharedFrom};
ghost use Rattle.its_turns.specs.Machines.{setup};
ghost use Rattle.its_turns.specs.Words.{IsLong};

use its_plain::{Desc, MakeError};
use its_turns::{Machine, Root};
use owned_machine::Machine as Owned;
use std::alloc::{AllocError, Global};

/// The machine that a description makes, restored from memory where the description says so, for
/// threads to share, with its root; or the first thing that is wrong.
pub fn share(alloc: Global, desc: &Desc) -> Result<(Machine, Root), MakeError>
    requires description { IsDescription desc.now }
    requires some_shards { 1 ≤ desc.now.shards }
    requires most_shards { desc.now.shards ≤ 64 }
    requires stamps { desc.now.limits.stamp_last < 2 ^ 24 }
    requires stamps_of_two { length desc.now.translators ≡ 2
        → desc.now.limits.stamp_last < 4096 }
    requires places { desc.now.limits.place_last < 2 ^ 56 }
    requires few_stamps { IsLong desc.now.limits → desc.now.limits.stamp_last < 2 ^ 8 }
    requires alone { IsLong desc.now.limits → length desc.now.translators ≡ 1 }
    ensures { IsSharedFrom desc.now result }
{
    let owned = Owned::new(alloc, desc)?;
    match share_owned(alloc, desc, owned) {
        Ok(made) => Ok(made),
        Err(_) => Err(MakeError::NoMemory),
    }
}

/// The same from the machine of one caller that the description makes.
pub fn share_owned(alloc: Global, desc: &Desc, owned: Owned) -> Result<(Machine, Root), AllocError>
    requires description { IsDescription desc.now }
    requires first { IsFirstState desc.now owned }
    requires some_shards { 1 ≤ desc.now.shards }
    requires most_shards { desc.now.shards ≤ 64 }
    requires stamps { desc.now.limits.stamp_last < 2 ^ 24 }
    requires stamps_of_two { length desc.now.translators ≡ 2
        → desc.now.limits.stamp_last < 4096 }
    requires places { desc.now.limits.place_last < 2 ^ 56 }
    requires few_stamps { IsLong desc.now.limits → desc.now.limits.stamp_last < 2 ^ 8 }
    requires alone { IsLong desc.now.limits → length desc.now.translators ≡ 1 }
    ensures first { IfOk result (λ made. IsFirst desc.now made.0 made.1) }
    ensures start { IfOk result (λ made. (setup made.0).start ≡ owned) }
{
    let parts = owned.into_parts();
    let (machine, root) = Machine::new(alloc, desc, parts)?;
    Ok((machine, root))
}
