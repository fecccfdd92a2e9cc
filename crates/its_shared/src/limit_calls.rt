//! How much the guest may take by the calls of a pass.
ghost use Rattle.std.specs.Prelude.{◌≡◌, None, is_some};
ghost use Rattle.its_numbers.specs.Codes as codes;
ghost use Rattle.its_shared.specs.Telling.{InPass};

use crate::pass::Pass;
use its_numbers::{DONE, GuestLimits, HANDLE};

/// How many events and how many devices may be mapped, and how many bytes of guest memory held, by
/// the calls of a pass from now on, and by those of passes that are split off it from now on.
#[unsafe(no_mangle)]
pub extern "C" fn its_pass_limits(pass: &mut Pass, events: u64, devices: u64, memory: u64) -> u32
    ensures empty { pass.old.known ≡ None → result ≡ codes.handle }
    ensures kept { is_some pass.new.known ≡ is_some pass.old.known }
    ensures done { InPass pass.old pass.new (λ k l. result ≡ codes.done) }
    ensures left { InPass pass.old pass.new (λ k l.
        l ≡ record k { limits = record { events = events; devices = devices; memory = memory } }) }
{
    if pass.is_empty() {
        return HANDLE;
    }
    pass.lent().set_limits(GuestLimits {
        events,
        devices,
        memory,
    });
    DONE
}
