//! The LPIs that are pending at a virtual processor, seen through a pass.
ghost use Rattle.std.specs.Prelude.{◌≡◌, ◌<◌, [], OnErr};
ghost use Rattle.its_plain.specs.Plain.{pending_of};
ghost use Rattle.its_steps.specs.Parts.{vcpu_count};
ghost use Rattle.its_turns.specs.Machines.{setup, view, IsOf};
ghost use Rattle.its_shared.specs.Seeing.{ListsNumbers, Sees};

use crate::unseen::Unseen;
use its_numbers::put_lpis;
use its_turns::{Machine, Pass, Value, look, put, try_take_pend};
use its_types::{Part, Placed, Vcpu};
use std::alloc::Global;

/// The LPIs that are pending at a virtual processor, rising: as many as the list takes, whose rest
/// stays, and how many there are. Takes what is pending there at the first try.
pub fn try_pending(
    alloc: Global,
    machine: &Machine,
    pass: &mut Pass,
    vcpu: Vcpu,
    list: &mut [u32],
) -> Result<Placed<u64>, Unseen>
    requires of { IsOf machine.now pass.old }
    requires free { (view pass.old).held ≡ [] }
    requires vcpu { vcpu.0 < vcpu_count (setup machine.now) }
    ensures of { IsOf machine.now pass.new }
    ensures free { (view pass.new).held ≡ [] }
    ensures seen { Sees (Unit {0})
        (λ u n. ListsNumbers (pending_of u vcpu.0) list.old list.new n)
        (view pass.old) (view pass.new) result }
    ensures only { OnErr result (list.new ≡ list.old) }
{
    let pend = match try_take_pend(machine, pass, vcpu) {
        Ok(pend) => pend,
        Err(_) => return Err(Unseen::Busy),
    };
    let word = look(machine, pass);
    let lpis = pend.lpis(alloc);
    put(machine, pass, Part::Pend(vcpu), Value::Pend(pend));
    match lpis {
        Ok(lpis) => {
            put_lpis(&lpis, list);
            Ok(Placed {
                place: word.place,
                reply: lpis.len() as u64,
            })
        }
        Err(_) => Err(Unseen::NoMemory),
    }
}
