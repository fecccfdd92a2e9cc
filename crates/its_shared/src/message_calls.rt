//! The calls of a pass for messages of devices (IHI 0069, section 5.2).
ghost use Rattle.std.specs.Prelude.{◌≡◌, ◌≢◌, false, true, None};
ghost use Rattle.device_port.specs.Dmas.{reply_of};
ghost use Rattle.its_numbers.specs.Codes as codes;
ghost use Rattle.its_numbers.specs.Limits.{no_limit};
ghost use Rattle.its_numbers.specs.Replies.{signal_out};
ghost use Rattle.its_plain.specs.Doorbells.{route_of};
ghost use Rattle.its_plain.specs.declared.call.Reply.TheVariants as reply;
ghost use Rattle.its_shared.specs.Asked as asked;
ghost use Rattle.its_shared.specs.Asked.{is_count};
ghost use Rattle.its_shared.specs.Counting.{Counts};
ghost use Rattle.its_shared.specs.Knowing.{has_translator};
ghost use Rattle.its_shared.specs.Telling.{InPass, Tells, as_told, dma_told, is_done, setting_of};

use crate::messages::{dma, signal};
use crate::pass::Pass;
use its_numbers::{DmaOut, HANDLE, SignalOut};

/// A device's message to a translator.
#[unsafe(no_mangle)]
pub extern "C" fn its_pass_signal(
    pass: &mut Pass,
    translator: u32,
    device: u32,
    event: u32,
    place: &mut u64,
    out: &mut SignalOut,
) -> u32
    ensures empty { pass.old.known ≡ None
        → (result ≡ codes.handle) × (place.new ≡ place.old) × (out.new ≡ out.old) }
    ensures kept { setting_of pass.new ≡ setting_of pass.old }
    ensures range { InPass pass.old pass.new (λ k l. has_translator k translator ≡ false
        → (result ≡ codes.range) × (l ≡ k) × (place.new ≡ place.old) × (out.new ≡ out.old)) }
    ensures told { InPass pass.old pass.new (λ k l. has_translator k translator ≡ true
        → Tells is_done (as_told signal_out) (asked.signal translator device event)
        reply.Signal k l result place.old place.new out.old out.new) }
    ensures counts { InPass pass.old pass.new (λ k l. Counts k l result) }
{
    if pass.is_empty() {
        return HANDLE;
    }
    signal(pass.lent(), translator, device, event, place, out)
}

/// A requester's write of bytes at an address: a message, a write of guest memory, or nothing.
#[unsafe(no_mangle)]
pub extern "C" fn its_pass_dma(
    pass: &mut Pass,
    requester: u32,
    address: u64,
    bytes: &[u8],
    place: &mut u64,
    out: &mut DmaOut,
) -> u32
    ensures empty { pass.old.known ≡ None
        → (result ≡ codes.handle) × (place.new ≡ place.old) × (out.new ≡ out.old) }
    ensures kept { setting_of pass.new ≡ setting_of pass.old }
    ensures range { InPass pass.old pass.new (λ k l. is_count bytes.now ≡ false
        → (result ≡ codes.range) × (l ≡ k) × (place.new ≡ place.old) × (out.new ≡ out.old)) }
    ensures told { InPass pass.old pass.new (λ k l. is_count bytes.now ≡ true
        → Tells is_done (as_told (dma_told (route_of k.desc requester address bytes.now)))
        (asked.dma k requester address bytes.now)
        reply_of k l result place.old place.new out.old out.new) }
    ensures full { InPass pass.old pass.new (λ k l.
        result ≡ codes.full → k.limits.memory ≢ no_limit) }
    ensures counts { InPass pass.old pass.new (λ k l. Counts k l result) }
{
    if pass.is_empty() {
        return HANDLE;
    }
    dma(pass.lent(), requester, address, bytes, place, out)
}
