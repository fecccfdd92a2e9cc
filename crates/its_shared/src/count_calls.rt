//! What a pass counts of its own calls, by its handle.
ghost use Rattle.std.specs.Prelude.{◌≡◌, None};
ghost use Rattle.its_numbers.specs.Codes as codes;
ghost use Rattle.its_shared.specs.Telling.{InPass};

use crate::pass::Pass;
use its_numbers::{Counters, DONE, HANDLE};

/// How often a step or a write of a register, made by this pass, may have ended a translation.
#[unsafe(no_mangle)]
pub extern "C" fn its_pass_routes_changed(pass: &mut Pass, count: &mut u64) -> u32
    ensures empty { pass.old.known ≡ None → (result ≡ codes.handle) × (count.new ≡ count.old) }
    ensures done { InPass pass.old pass.new (λ k l. result ≡ codes.done) }
    ensures told { InPass pass.old pass.new (λ k l. count.new ≡ k.routes) }
    ensures same { InPass pass.old pass.new (λ k l. l ≡ k) }
{
    if pass.is_empty() {
        return HANDLE;
    }
    *count = pass.lent().routes();
    DONE
}

/// How often this pass's signals went where, and its commands were refused for which reason.
#[unsafe(no_mangle)]
pub extern "C" fn its_pass_counters(pass: &mut Pass, out: &mut Counters) -> u32
    ensures empty { pass.old.known ≡ None → (result ≡ codes.handle) × (out.new ≡ out.old) }
    ensures done { InPass pass.old pass.new (λ k l. result ≡ codes.done) }
    ensures told { InPass pass.old pass.new (λ k l. out.new ≡ k.counters) }
    ensures same { InPass pass.old pass.new (λ k l. l ≡ k) }
{
    if pass.is_empty() {
        return HANDLE;
    }
    *out = pass.lent().counters();
    DONE
}
