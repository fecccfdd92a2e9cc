//! The LPIs that are pending.
ghost use Rattle.std.specs.Prelude.{◌≡◌, ◌≢◌, ◌≤◌, true, false, length};
ghost use Rattle.its_plain.specs.Plain.{pending_of};
ghost use Rattle.its_c.specs.Asked.{has_vcpu as has};
ghost use Rattle.its_numbers.specs.Codes as codes;
ghost use Rattle.its_numbers.specs.Lists.{HasFirst, SameFrom};

use crate::kept::Kept;
use crate::ranges::has_vcpu;
use its_numbers::{DONE, NO_MEMORY, RANGE, put_lpis};
use std::alloc::Global;

/// The LPIs that are pending at a virtual processor, rising, as many as the list takes, whose rest
/// stays; and how many there are.
pub fn pending(kept: &mut Kept, alloc: Global, vcpu: u32, list: &mut [u32], count: &mut u64) -> u32
    ensures range { has kept.old.machine vcpu ≡ false → result ≡ codes.range }
    ensures told { result ≡ codes.done → HasFirst (pending_of kept.old.machine vcpu) list.new }
    ensures rest { result ≡ codes.done
        → SameFrom (length (pending_of kept.old.machine vcpu)) list.old list.new }
    ensures length { length list.new ≡ length list.old }
    ensures count { result ≡ codes.done
        → count.new ≡ length (pending_of kept.old.machine vcpu) }
    ensures only { result ≢ codes.done → (list.new ≡ list.old) × (count.new ≡ count.old) }
    ensures codes { result ≤ codes.range }
    ensures not_outside { result ≢ codes.outside }
    ensures no_other { has kept.old.machine vcpu ≡ true → result ≢ codes.range }
    ensures same { kept.new ≡ kept.old }
{
    if !has_vcpu(kept.machine(), vcpu) {
        return RANGE;
    }
    let Ok(lpis) = kept.machine().pending(alloc, vcpu as usize) else {
        return NO_MEMORY;
    };
    put_lpis(&lpis, list);
    *count = lpis.len() as u64;
    DONE
}
