//! What the LPI registers of a redistributor are restored from, seen through a pass.
ghost use Rattle.std.specs.Prelude.{◌≡◌, ◌<◌, [], if◌then◌else◌};
ghost use Rattle.its_numbers.specs.Stored.{as_given, stored};
ghost use Rattle.its_steps.specs.Parts.{vcpu_count};
ghost use Rattle.its_turns.specs.Machines.{setup, view, IsOf};
ghost use Rattle.its_shared.specs.Seeing.{Sees};

use crate::unseen::Unseen;
use gicr_regs::{GicrRegisters, values_of};
use its_numbers::RedistributorIn;
use its_turns::{Machine, Pass, Value, look, put, try_take_conf};
use its_types::{Part, Placed, Vcpu};

/// The values that the LPI registers of a virtual processor are restored from, all zero where the
/// guest doesn't program them. Takes its configuration at the first try.
pub fn try_stored(
    machine: &Machine,
    pass: &mut Pass,
    vcpu: Vcpu,
) -> Result<Placed<RedistributorIn>, Unseen>
    requires of { IsOf machine.now pass.old }
    requires free { (view pass.old).held ≡ [] }
    requires vcpu { vcpu.0 < vcpu_count (setup machine.now) }
    ensures of { IsOf machine.now pass.new }
    ensures free { (view pass.new).held ≡ [] }
    ensures seen { Sees ⊥ (λ u r. r ≡ stored u vcpu.0) (view pass.old) (view pass.new) result }
{
    let conf = match try_take_conf(machine, pass, vcpu) {
        Ok(conf) => conf,
        Err(_) => return Err(Unseen::Busy),
    };
    let word = look(machine, pass);
    let values = values_of(conf.bases());
    put(machine, pass, Part::Conf(vcpu), Value::Conf(conf));
    Ok(Placed {
        place: word.place,
        reply: given(machine.desc().tables.are_programmed(), values),
    })
}

fn given(programmed: bool, values: GicrRegisters) -> RedistributorIn
    ensures { result ≡ (if programmed then as_given values
        else record { ctlr = 0; propbaser = 0; pendbaser = 0 }) }
{
    if programmed {
        RedistributorIn {
            ctlr: values.ctlr,
            propbaser: values.propbaser,
            pendbaser: values.pendbaser,
        }
    } else {
        RedistributorIn {
            ctlr: 0,
            propbaser: 0,
            pendbaser: 0,
        }
    }
}
