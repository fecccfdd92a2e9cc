//! Writes of the LPI registers.
ghost use Rattle.std.specs.Prelude.{◌≡◌, ◌<◌, []};
ghost use Rattle.its_plain.specs.declared.call.Reply.TheVariants as reply;
ghost use Rattle.its_steps.specs.Parts.{vcpu_count};
ghost use Rattle.its_turns.specs.Machines.{setup, view, IsOf};
ghost use Rattle.gicr_lpi.specs.Accesses as spec;
ghost use Rattle.gicr_lpi.specs.Accesses.{write_call};
ghost use Rattle.gicr_lpi.specs.Asking.{Ends};
ghost use Rattle.gicr_lpi.specs.Writing.{Writes};
ghost use Rattle.gicr_lpi.specs.Hands.{state_of, held_of, HasEnough, HasRoom, IsHand};

use crate::access::GicrAccess;
use crate::hand::{Hand, put_hand};
use crate::tries::try_access;
use its_plain::Reply;
use its_steps::ShardChange;
use its_turns::{Attempt, Lost, Machine, NotMade, Pass, give_way, pause, try_commit};
use its_types::{Gate, Placed, Vcpu};
use lpi_pending::LpiRoom;
use std::alloc::AllocError;
use std::sync::Wait;

/// Writes `size` bytes, 4 or 8, at an offset of a virtual processor's LPI registers. A write that
/// turns LPIs on or names LPIs to be read again reads guest memory too, and then its turn is taken;
/// one that turns LPIs on or off takes what is pending. Nothing is written where the guest doesn't
/// program the LPI tables. LPIs can be turned off where the machine is for Linux guests; what was
/// pending is lost then. Turning LPIs on takes memory for the configuration and the pending set,
/// and where there is none, every part is as it was.
///
/// ```
/// // GICR_CTLR, bit 0: EnableLPIs.
/// write_gicr(rt, machine, pass, &Open, Vcpu(2), 0x0, 4, 1)?;
/// ```
pub fn write_gicr<R: Wait, G: Gate>(
    rt: &R,
    machine: &Machine,
    pass: &mut Pass,
    gate: &G,
    vcpu: Vcpu,
    off: u32,
    size: u8,
    value: u64,
) -> Result<Placed<()>, NotMade>
    requires of { IsOf machine.now pass.old }
    requires free { (view pass.old).held ≡ [] }
    requires vcpu { vcpu.0 < vcpu_count (setup machine.now) }
    ensures of { IsOf machine.now pass.new }
    ensures answer { Writes (setup machine.now) (spec.access vcpu off size value) (view pass.old)
        (view pass.new) result }
{
    let access = GicrAccess {
        vcpu,
        off,
        size,
        value,
    };
    let mut attempt = 0u8;
    for _ in rt.forever() {
        attempt = attempt.saturating_add(1);
        match try_access(machine, pass, gate, access) {
            Ok(Attempt::Done(placed)) => return Ok(placed),
            Ok(Attempt::Spent) => return Err(NotMade::Spent),
            Ok(Attempt::Busy(_)) => give_way(attempt),
            Ok(Attempt::Raced(_)) => pause(attempt),
            Err(AllocError) => return Err(NotMade::NoMemory),
        }
    }
    unreachable!()
}

/// Makes the write, which has what it needs in hand. Puts all of it back.
pub fn write_with<G: Gate>(
    machine: &Machine,
    pass: &mut Pass,
    gate: &G,
    access: GicrAccess,
    hand: Hand,
    room: Option<LpiRoom>,
) -> Result<Placed<()>, Lost>
    requires of { IsOf machine.now pass.old }
    requires vcpu { access.vcpu.0 < vcpu_count (setup machine.now) }
    requires held { (view pass.old).held ≡ held_of access.vcpu (state_of hand) }
    requires enough { HasEnough access (state_of hand) }
    requires hand { IsHand (setup machine.now).start.layout.shape hand }
    requires room { HasRoom (setup machine.now).start.layout.gicr
        (setup machine.now).start.layout.shape access (state_of hand) room }
    ensures of { IsOf machine.now pass.new }
    ensures answer { Ends (view pass.old) (write_call access) (λ _. reply.Ok) (view pass.new)
        result }
{
    match try_commit(
        machine,
        pass,
        gate,
        &access.call(),
        &Reply::Ok,
        ShardChange::Keep,
    ) {
        Ok(word) => {
            let desc = machine.desc();
            let programmed = desc.tables.are_programmed();
            let hand = hand.written(access, &desc.shape, programmed, room);
            put_hand(machine, pass, access.vcpu, hand);
            Ok(Placed {
                place: word.place,
                reply: (),
            })
        }
        Err(lost) => {
            put_hand(machine, pass, access.vcpu, hand);
            Err(lost)
        }
    }
}
