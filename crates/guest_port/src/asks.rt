//! Writes, reads and copies of guest memory that wait for its turn.
ghost use Rattle.std.specs.Prelude.{◌≡◌, [], IfOk};
ghost use Rattle.its_types.specs.declared.machine.Part.TheVariants as part;
ghost use Rattle.its_plain.specs.declared.call.Call.TheVariants as call;
ghost use Rattle.its_plain.specs.declared.call.Reply.TheVariants as reply;
ghost use Rattle.guest_port.specs.Pokes.{write_of, IsWriteReply, Pokes, Writes};
ghost use Rattle.its_turns.specs.Calls.{AsksPart};
ghost use Rattle.its_turns.specs.Machines.{view, IsOf};

use crate::tries::{try_copy, try_peek, try_write};
use crate::writer::Writer;
use its_plain::{Bytes64, Reply};
use its_turns::{Attempt, Machine, NotMade, Pass, Spent, give_way, pause};
use its_types::{Addr, Gate, Placed};
use std::alloc::AllocError;
use std::sync::Wait;

/// Writes 1 to 64 bytes, where one window of memory has them all. Takes memory for pages that
/// nothing was written to so far.
///
/// ```
/// let bytes = Bytes64::new(&[0x01]);
/// let address = Addr(0x8003_0008);
/// let written = poke(rt, machine, pass, &Open, address, &bytes)?.reply == Reply::Ok;
/// ```
pub fn poke<R: Wait, G: Gate>(
    rt: &R,
    machine: &Machine,
    pass: &mut Pass,
    gate: &G,
    addr: Addr,
    bytes: &Bytes64,
) -> Result<Placed<Reply>, NotMade>
    requires of { IsOf machine.now pass.old }
    requires free { (view pass.old).held ≡ [] }
    ensures of { IsOf machine.now pass.new }
    ensures answer { Pokes (view pass.old) addr bytes.now (view pass.new) result }
{
    write(rt, machine, pass, gate, Writer::Guest, addr, bytes)
}

/// Writes as `poke` does, whoever does it.
pub fn write<R: Wait, G: Gate>(
    rt: &R,
    machine: &Machine,
    pass: &mut Pass,
    gate: &G,
    writer: Writer,
    addr: Addr,
    bytes: &Bytes64,
) -> Result<Placed<Reply>, NotMade>
    requires of { IsOf machine.now pass.old }
    requires free { (view pass.old).held ≡ [] }
    ensures of { IsOf machine.now pass.new }
    ensures answer { Writes (view pass.old) (write_of writer addr bytes.now) (view pass.new)
        result }
    ensures reply { IfOk result (λ placed. IsWriteReply placed.reply) }
{
    let mut attempt = 0u8;
    for _ in rt.forever() {
        attempt = attempt.saturating_add(1);
        match try_write(machine, pass, gate, writer, addr, bytes) {
            Ok(Attempt::Done(placed)) => return Ok(placed),
            Ok(Attempt::Spent) => return Err(NotMade::Spent),
            Ok(Attempt::Busy(_)) => give_way(attempt),
            Ok(Attempt::Raced(_)) => pause(attempt),
            Err(AllocError) => return Err(NotMade::NoMemory),
        }
    }
    unreachable!()
}

/// Reads `count` bytes, 1 to 64, where one window of memory has them all.
///
/// ```
/// let first = match peek(rt, machine, pass, &Open, Addr(0x8003_0008), 1)?.reply {
///     Reply::Bytes(bytes) => bytes.as_slice().get(0).copied(),
///     _ => None,
/// };
/// ```
pub fn peek<R: Wait, G: Gate>(
    rt: &R,
    machine: &Machine,
    pass: &mut Pass,
    gate: &G,
    addr: Addr,
    count: u8,
) -> Result<Placed<Reply>, Spent>
    requires of { IsOf machine.now pass.old }
    requires free { (view pass.old).held ≡ [] }
    ensures of { IsOf machine.now pass.new }
    ensures answer { AsksPart (view pass.old) part.Mem (call.Peek addr count) (λ r. r)
        (view pass.new) result }
{
    let mut attempt = 0u8;
    for _ in rt.forever() {
        attempt = attempt.saturating_add(1);
        match try_peek(machine, pass, gate, addr, count) {
            Attempt::Done(placed) => return Ok(placed),
            Attempt::Spent => return Err(Spent),
            Attempt::Busy(_) => give_way(attempt),
            Attempt::Raced(_) => pause(attempt),
        }
    }
    unreachable!()
}

/// Copies the pages of memory that were written since the last copy, and answers how many they
/// were: 0 where the machine has no second memory. Takes no memory of the host.
///
/// ```
/// let pages = copy(rt, machine, pass, &Open)?.reply;
/// ```
pub fn copy<R: Wait, G: Gate>(
    rt: &R,
    machine: &Machine,
    pass: &mut Pass,
    gate: &G,
) -> Result<Placed<u64>, Spent>
    requires of { IsOf machine.now pass.old }
    requires free { (view pass.old).held ≡ [] }
    ensures of { IsOf machine.now pass.new }
    ensures answer { AsksPart (view pass.old) part.Mem call.Copy reply.Copied (view pass.new)
        result }
{
    let mut attempt = 0u8;
    for _ in rt.forever() {
        attempt = attempt.saturating_add(1);
        match try_copy(machine, pass, gate) {
            Attempt::Done(placed) => return Ok(placed),
            Attempt::Spent => return Err(Spent),
            Attempt::Busy(_) => give_way(attempt),
            Attempt::Raced(_) => pause(attempt),
        }
    }
    unreachable!()
}
