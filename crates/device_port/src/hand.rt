//! What a signal has in hand beside the maps: the pair's shard, and what is pending at the target.
ghost use Rattle.std.specs.Prelude.{◌≡◌};
ghost use Rattle.its_steps.specs.MayCall as spec;

use its_plain::{Cause, Signal};
use its_types::Target;
use lpi_pending::Pend;
use xlate_cache::Shard;

/// Both, taken out of their slots.
#[derive(Drop)]
pub struct Hand {
    /// Of the shard.
    pub number: u32,
    /// The pair's shard.
    pub shard: Shard,
    /// Where the message goes.
    pub target: Target,
    /// What is pending there, and whether LPIs are on.
    pub pend: Box<Pend>,
}

impl Hand {
    ghost use Rattle.std.specs.Prelude.{◌≡◌, true};
    ghost use Rattle.its_types.specs.Ranges.{is_lpi};
    ghost use Rattle.its_types.specs.declared.machine.Shape.{Shape};
    ghost use Rattle.owned_parts.specs.Owned.{pend_state, HasLpisOfPend};
    ghost use Rattle.device_port.specs.Hands.{delivered};

    /// Whether LPIs are on at the target.
    pub fn on(&self) -> bool
        ensures { result ≡ self.now.pend.value.accepts }
    {
        self.pend.accepts()
    }

    /// The LPI is pending, where LPIs are on.
    pub fn deliver(&mut self, on: bool)
        requires lpi { is_lpi self.old.pend.value.pending.lpi_bits self.old.target.intid.0
            ≡ true }
        requires on { on ≡ true → self.old.pend.value.accepts ≡ true }
        ensures number { self.new.number ≡ self.old.number }
        ensures target { self.new.target ≡ self.old.target }
        ensures shard { self.new.shard ≡ self.old.shard }
        ensures left { pend_state self.new.pend.value
            ≡ delivered on (pend_state self.old.pend.value) self.old.target }
        ensures lpis { (s : Shape) → HasLpisOfPend s self.old.pend.value
            → HasLpisOfPend s self.new.pend.value }
    {
        if on {
            self.pend.set(self.target.intid);
        }
    }
}

/// What becomes of a message for a target, by whether its LPIs are on.
pub fn met(on: bool, target: Target) -> Signal
    ensures { result ≡ spec.met on target }
{
    if on {
        Signal::Delivered {
            vcpu: target.vcpu,
            intid: target.intid,
        }
    } else {
        Signal::Dropped(Cause::LpisOff)
    }
}
