//! What a machine counts of its calls, by its handle.
ghost use Rattle.std.specs.Prelude.{◌≡◌, None};
ghost use Rattle.its_numbers.specs.Codes as codes;
ghost use Rattle.its_c.specs.Held.{InMachine, InHeld};

use crate::handle::Handle;
use its_numbers::{Counters, DONE, HANDLE};

/// How often signals went where, and commands were refused for which reason.
#[unsafe(no_mangle)]
pub extern "C" fn its_counters(handle: &mut Handle, out: &mut Counters) -> u32
    ensures empty { handle.old.machine ≡ None → (result ≡ codes.handle) × (out.new ≡ out.old) }
    ensures done { InMachine handle.old handle.new (λ u w. result ≡ codes.done) }
    ensures told { InHeld handle.old handle.new (λ h k. out.new ≡ h.counters) }
    ensures same { InHeld handle.old handle.new (λ h k. k ≡ h) }
{
    if handle.is_empty() {
        return HANDLE;
    }
    *out = handle.lent().counters();
    DONE
}
