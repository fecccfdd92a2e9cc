//! What a write takes that waits for nobody.
ghost use Rattle.std.specs.Prelude.{◌≡◌, ◌<◌, [], true, None, is_some, MatchResult};
ghost use Rattle.gicr_regs.specs.Registers as registers;
ghost use Rattle.its_types.specs.declared.machine.Part.TheVariants as part;
ghost use Rattle.its_steps.specs.Contents as content;
ghost use Rattle.its_steps.specs.Parts.{vcpu_count};
ghost use Rattle.its_turns.specs.Machines.{setup, view, IsOf};
ghost use Rattle.its_turns.specs.Told.{HasStood};
ghost use Rattle.owned_parts.specs.Owned.{conf_state};
ghost use Rattle.gicr_lpi.specs.Accesses.{asked, IsOfWrite, WasAsked};
ghost use Rattle.gicr_lpi.specs.Frees.{HasRegisters, HasHand};
ghost use Rattle.gicr_lpi.specs.Tries.{FoundTaken};

use crate::access::GicrAccess;
use crate::hand::{Hand, put_hand};
use its_turns::{Busy, Machine, Pass, Value, put, try_take_conf, try_take_memory, try_take_pend};
use its_types::Part;

/// Tries all that a write needs: the configuration, and what that says. Where another pass has one
/// of these, it holds none.
pub fn try_hand(machine: &Machine, pass: &mut Pass, access: GicrAccess) -> Result<Hand, Busy>
    requires of { IsOf machine.now pass.old }
    requires free { (view pass.old).held ≡ [] }
    requires vcpu { access.vcpu.0 < vcpu_count (setup machine.now) }
    ensures of { IsOf machine.now pass.new }
    ensures result { MatchResult result
        (λ hand. HasHand (setup machine.now) access (view pass.old) hand (view pass.new))
        (λ b. FoundTaken (IsOfWrite (setup machine.now) access) (view pass.old) b
        (view pass.new)) }
{
    let mut hand = try_registers(machine, pass, access)?;
    if !access.changes_pending(&hand.conf) {
        return Ok(hand);
    }
    match try_take_pend(machine, pass, access.vcpu) {
        Ok(pend) => {
            hand.pend = Some(pend);
            Ok(hand)
        }
        Err(busy) => {
            put_hand(machine, pass, access.vcpu, hand);
            Err(busy)
        }
    }
}

// The configuration, with memory where it says that tables are to be read. It is put back first
// then, since memory is taken before it.
fn try_registers(machine: &Machine, pass: &mut Pass, access: GicrAccess) -> Result<Hand, Busy>
    requires of { IsOf machine.now pass.old }
    requires free { (view pass.old).held ≡ [] }
    requires vcpu { access.vcpu.0 < vcpu_count (setup machine.now) }
    ensures of { IsOf machine.now pass.new }
    ensures result { MatchResult result
        (λ hand. HasRegisters (setup machine.now) access (view pass.old) hand (view pass.new))
        (λ b. FoundTaken (IsOfWrite (setup machine.now) access) (view pass.old) b
        (view pass.new)) }
{
    let conf = try_take_conf(machine, pass, access.vcpu)?;
    if access.reads_tables(&conf) {
        put(machine, pass, Part::Conf(access.vcpu), Value::Conf(conf));
        return try_with_memory(machine, pass, access);
    }
    Ok(Hand {
        memory: None,
        conf,
        pend: None,
    })
}

// Memory, and then the configuration, which may be another by now.
fn try_with_memory(machine: &Machine, pass: &mut Pass, access: GicrAccess) -> Result<Hand, Busy>
    requires of { IsOf machine.now pass.old }
    requires free { (view pass.old).held ≡ [] }
    requires vcpu { access.vcpu.0 < vcpu_count (setup machine.now) }
    requires asked { WasAsked (setup machine.now) access registers.reads_tables }
    ensures of { IsOf machine.now pass.new }
    ensures result { MatchResult result
        (λ hand. HasRegisters (setup machine.now) access (view pass.old) hand (view pass.new))
        (λ b. FoundTaken (IsOfWrite (setup machine.now) access) (view pass.old) b
        (view pass.new)) }
{
    let memory = match try_take_memory(machine, pass) {
        Ok(memory) => memory,
        Err(busy) => return Err(busy),
    };
    match try_take_conf(machine, pass, access.vcpu) {
        Ok(conf) => Ok(Hand {
            memory: Some(memory),
            conf,
            pend: None,
        }),
        Err(busy) => {
            put(machine, pass, Part::Mem, Value::Mem(memory));
            Err(busy)
        }
    }
}
