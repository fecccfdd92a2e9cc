//! Translation by the maps (IHI 0069, section 5.2).
ghost use Rattle.std.specs.Prelude.{◌≡◌};
ghost use Rattle.its_plain.specs.Translation as spec;

use gits_regs::Regs;
use its_maps::{LookUp, Maps};
use its_plain::Cause;
use its_types::{DeviceId, EventId, Target};

/// Where registers and maps send an event, whether or not the LPIs of the target are on.
#[tactic(auto, unfolding(its_plain::specs::Translation::located))]
pub fn locate(regs: &Regs, maps: &Maps, dev: DeviceId, ev: EventId) -> Result<Target, Cause>
    ensures { result ≡ spec.located (record { regs = regs.now; maps = maps.now.maps }) dev.0 ev.0 }
{
    if !regs.enabled() {
        return Err(Cause::Disabled);
    }
    let event = match maps.look_up(dev, ev) {
        LookUp::NoDevice => return Err(Cause::NoDevice),
        LookUp::NoEvent(_) => return Err(Cause::NoEvent),
        LookUp::Mapped(_, event) => event,
    };
    let vcpu = maps.collection(event.icid).ok_or(Cause::NoCollection)?;
    Ok(Target {
        vcpu,
        intid: event.intid,
    })
}
