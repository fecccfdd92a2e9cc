//! Devices' writes by address that wait for the turns that they need.
ghost use Rattle.std.specs.Prelude.{◌≡◌, []};
ghost use Rattle.its_plain.specs.Doorbells.{dma_of, route_of};
ghost use Rattle.its_turns.specs.Machines.{view, IsOf};
ghost use Rattle.device_port.specs.Dmas.{Dmas};
ghost use Rattle.device_port.specs.Routes.{AreDevices};

use crate::told::Dma;
use crate::tries::try_dma;
use its_plain::Bytes64;
use its_turns::{Attempt, Machine, NotMade, Pass, give_way, pause};
use its_types::{Addr, Gate, Placed};
use std::alloc::AllocError;
use std::sync::Wait;

/// Writes 1 to 64 bytes at an address as the requester of this number, and waits for the turns that
/// the call needs. A write of a translator's doorbell is a message of the requester's device; one
/// that meets no frame is a write of memory, which may want pages that nothing was written to so
/// far.
///
/// ```
/// let bytes = Bytes64::new(&[3, 0, 0, 0]);
/// let rung = dma(rt, machine, pass, &Open, 0x100, Addr(0x0809_0040), &bytes)?.reply;
/// ```
pub fn dma<R: Wait, G: Gate>(
    rt: &R,
    machine: &Machine,
    pass: &mut Pass,
    gate: &G,
    req: u32,
    addr: Addr,
    bytes: &Bytes64,
) -> Result<Placed<Dma>, NotMade>
    requires of { IsOf machine.now pass.old }
    requires free { (view pass.old).held ≡ [] }
    requires devices { AreDevices machine.now.desc.requesters }
    ensures of { IsOf machine.now pass.new }
    ensures answer { Dmas (view pass.old) (dma_of machine.now.desc req addr bytes.now)
        (route_of machine.now.desc req addr.0 bytes.now) (view pass.new) result }
{
    let mut attempt = 0u8;
    for _ in rt.forever() {
        attempt = attempt.saturating_add(1);
        match try_dma(machine, pass, gate, req, addr, bytes) {
            Ok(Attempt::Done(placed)) => return Ok(placed),
            Ok(Attempt::Spent) => return Err(NotMade::Spent),
            Ok(Attempt::Busy(_)) => give_way(attempt),
            Ok(Attempt::Raced(_)) => pause(attempt),
            Err(AllocError) => return Err(NotMade::NoMemory),
        }
    }
    unreachable!()
}
