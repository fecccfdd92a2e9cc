//! Messages of devices (IHI 0069, section 5.2).
ghost use Rattle.std.specs.Prelude.{◌≡◌, ◌≢◌, false, true};
ghost use Rattle.device_port.specs.Dmas.{reply_of};
ghost use Rattle.its_numbers.specs.Codes as codes;
ghost use Rattle.its_numbers.specs.Limits.{no_limit};
ghost use Rattle.its_numbers.specs.Replies.{signal_out};
ghost use Rattle.its_plain.specs.Doorbells.{route_of};
ghost use Rattle.its_plain.specs.declared.call.Reply.TheVariants as reply;
ghost use Rattle.its_shared.specs.Counting.{Counts};
ghost use Rattle.its_shared.specs.Knowing.{has_translator, setting};
ghost use Rattle.its_shared.specs.Asked as asked;
ghost use Rattle.its_shared.specs.Asked.{is_count};
ghost use Rattle.its_shared.specs.Telling.{Tells, as_told, dma_told, is_done};

use crate::port::Port;
use crate::telling::{tell_dma, tell_signal};
use its_numbers::{DmaOut, RANGE, SignalOut};
use its_plain::Bytes64;

/// A device's message to a translator.
pub fn signal(
    port: &mut Port,
    translator: u32,
    device: u32,
    event: u32,
    place: &mut u64,
    out: &mut SignalOut,
) -> u32
    ensures setting { setting port.new ≡ setting port.old }
    ensures range { has_translator port.old translator ≡ false → (result ≡ codes.range)
        × (port.new ≡ port.old) × (place.new ≡ place.old) × (out.new ≡ out.old) }
    ensures told { has_translator port.old translator ≡ true → Tells is_done (as_told signal_out)
        (asked.signal translator device event) reply.Signal
        port.old port.new result place.old place.new out.old out.new }
    ensures counts { Counts port.old port.new result }
{
    if !port.has_translator(translator) {
        return RANGE;
    }
    signal_of(port, translator as u8, device, event, place, out)
}

fn signal_of(
    port: &mut Port,
    its: u8,
    device: u32,
    event: u32,
    place: &mut u64,
    out: &mut SignalOut,
) -> u32
    requires { has_translator port.old its ≡ true }
    ensures setting { setting port.new ≡ setting port.old }
    ensures told { Tells is_done (as_told signal_out) (asked.signal its device event) reply.Signal
        port.old port.new result place.old place.new out.old out.new }
    ensures counts { Counts port.old port.new result }
{
    let answer = port.signal(its, device, event);
    port.count_signal(&answer);
    tell_signal(answer, place, out)
}

/// A requester's write of bytes at an address: a message, a write of guest memory, or nothing.
pub fn dma(
    port: &mut Port,
    requester: u32,
    address: u64,
    bytes: &[u8],
    place: &mut u64,
    out: &mut DmaOut,
) -> u32
    ensures setting { setting port.new ≡ setting port.old }
    ensures range { is_count bytes.now ≡ false → (result ≡ codes.range)
        × (port.new ≡ port.old) × (place.new ≡ place.old) × (out.new ≡ out.old) }
    ensures told { is_count bytes.now ≡ true → Tells is_done (as_told (dma_told (route_of
        port.old.desc requester address bytes.now))) (asked.dma port.old requester address
        bytes.now) reply_of
        port.old port.new result place.old place.new out.old out.new }
    ensures full { result ≡ codes.full → port.old.limits.memory ≢ no_limit }
    ensures counts { Counts port.old port.new result }
{
    if bytes.is_empty() || bytes.len() > 64 {
        return RANGE;
    }
    dma_of(port, requester, address, Bytes64::new(bytes), place, out)
}

fn dma_of(
    port: &mut Port,
    requester: u32,
    address: u64,
    bytes: Bytes64,
    place: &mut u64,
    out: &mut DmaOut,
) -> u32
    ensures setting { setting port.new ≡ setting port.old }
    ensures told { Tells is_done
        (as_told (dma_told (route_of port.old.desc requester address bytes)))
        (asked.dma port.old requester address bytes) reply_of
        port.old port.new result place.old place.new out.old out.new }
    ensures full { result ≡ codes.full → port.old.limits.memory ≢ no_limit }
    ensures counts { Counts port.old port.new result }
{
    let route = port.route(requester, address, &bytes);
    let answer = port.dma(requester, address, bytes);
    port.count_dma(&answer);
    tell_dma(answer, route, place, out)
}
