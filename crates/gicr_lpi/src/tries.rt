//! Writes of the LPI registers that wait for nobody.
ghost use Rattle.std.specs.Prelude.{◌≡◌, ◌<◌, [], MatchResult};
ghost use Rattle.its_plain.specs.declared.call.Reply.TheVariants as reply;
ghost use Rattle.its_steps.specs.Parts.{vcpu_count};
ghost use Rattle.its_turns.specs.Machines.{setup, view, IsOf};
ghost use Rattle.gicr_lpi.specs.Accesses as spec;
ghost use Rattle.gicr_lpi.specs.Accesses.{IsOfWrite, write_call};
ghost use Rattle.gicr_lpi.specs.Tries.{TriesParts, FoundNoMemory};

use crate::access::GicrAccess;
use crate::free::try_hand;
use crate::hand::put_hand;
use crate::writes::write_with;
use its_turns::{Attempt, Machine, Pass};
use its_types::{Gate, Vcpu};
use std::alloc::AllocError;

/// Writes `size` bytes, 4 or 8, at an offset of a virtual processor's LPI registers, as
/// `write_gicr` does, and waits for no turn. Where another pass has one that the write needs, or
/// other calls are made first each time, nothing was done, and where there is no memory neither.
///
/// ```
/// // GICR_CTLR, bit 0: EnableLPIs.
/// let on = match try_write_gicr(machine, pass, &Open, Vcpu(2), 0x0, 4, 1)? {
///     Attempt::Done(_) => true,
///     _ => false,
/// };
/// ```
pub fn try_write_gicr<G: Gate>(
    machine: &Machine,
    pass: &mut Pass,
    gate: &G,
    vcpu: Vcpu,
    off: u32,
    size: u8,
    value: u64,
) -> Result<Attempt<()>, AllocError>
    requires of { IsOf machine.now pass.old }
    requires free { (view pass.old).held ≡ [] }
    requires vcpu { vcpu.0 < vcpu_count (setup machine.now) }
    ensures of { IsOf machine.now pass.new }
    ensures answer { MatchResult result
        (λ t. TriesParts (IsOfWrite (setup machine.now) (spec.access vcpu off size value))
        (view pass.old) (write_call (spec.access vcpu off size value)) (λ _. reply.Ok)
        (view pass.new) t)
        (λ _. FoundNoMemory (setup machine.now) (spec.access vcpu off size value)
        (view pass.old) (view pass.new)) }
{
    let access = GicrAccess {
        vcpu,
        off,
        size,
        value,
    };
    try_access(machine, pass, gate, access)
}

/// Makes this write.
pub fn try_access<G: Gate>(
    machine: &Machine,
    pass: &mut Pass,
    gate: &G,
    access: GicrAccess,
) -> Result<Attempt<()>, AllocError>
    requires of { IsOf machine.now pass.old }
    requires free { (view pass.old).held ≡ [] }
    requires vcpu { access.vcpu.0 < vcpu_count (setup machine.now) }
    ensures of { IsOf machine.now pass.new }
    ensures answer { MatchResult result
        (λ t. TriesParts (IsOfWrite (setup machine.now) access) (view pass.old)
        (write_call access) (λ _. reply.Ok) (view pass.new) t)
        (λ _. FoundNoMemory (setup machine.now) access (view pass.old) (view pass.new)) }
{
    let hand = match try_hand(machine, pass, access) {
        Ok(hand) => hand,
        Err(busy) => return Ok(Attempt::Busy(busy)),
    };
    let desc = machine.desc();
    match hand.room(access, &desc.shape, desc.tables.are_programmed()) {
        Ok(room) => match write_with(machine, pass, gate, access, hand, room) {
            Ok(placed) => Ok(Attempt::Done(placed)),
            Err(lost) => Ok(lost.attempt()),
        },
        Err(AllocError) => {
            put_hand(machine, pass, access.vcpu, hand);
            Err(AllocError)
        }
    }
}
