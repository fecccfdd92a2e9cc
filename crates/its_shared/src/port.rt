//! A pass with its share of the machine that it is of, the limits that its calls keep to, and what
//! is counted of them.
ghost use Rattle.std.specs.Prelude.{◌≡◌};

use device_port::requesters_are_apart;
use its_migrate::share_owned;
use its_numbers::{Counters, GuestLimits};
use its_plain::Desc;
use its_turns::{Machine, Pass};
use owned_machine::Machine as Owned;
use std::alloc::{AllocError, Global};
use std::marker::Model;
use std::sync::Arc;

/// A pass, and the machine that it is of, which goes with its last pass. Contracts see what it
/// knows.
#[derive(Drop)]
pub struct Port {
    pub(crate) machine: Arc<Machine, Global>,
    pub(crate) pass: Pass,
    pub(crate) limits: GuestLimits,
    pub(crate) routes: u64,
    pub(crate) counters: Counters,
}

impl Model for Port {
    ghost use Rattle.std.specs.Coded.{codes};
    ghost use Rattle.its_plain.specs.Plain.{plain_code, translator_code};
    ghost use Rattle.gicr_regs.specs.Redistributors.{conf_code, pend_code};
    ghost use Rattle.its_shared.specs.Knowing.{Known};

    ghost Value = { Known };

    ghost coded = { Prim.hlevel (codes, plain_code, translator_code, conf_code, pend_code) };

    ghost use Rattle.its_shared.specs.Ports.{known_by, IsPort};

    ghost view = { known_by };

    ghost invariant = { IsPort };
}

impl Port {
    ghost use Rattle.std.specs.Prelude.{◌≡◌, ◌<◌, ◌≤◌, true, length, IfOk, MatchOption};
    ghost use Rattle.its_plain.specs.Described.{IsFirstState};
    ghost use Rattle.its_plain.specs.Machine.{IsDescription};
    ghost use Rattle.its_types.specs.Ranges.{most_vcpus};
    ghost use Rattle.its_shared.specs.Knowing as spec;
    ghost use Rattle.its_shared.specs.Making.{IsFirst, limits_of};
    ghost use Rattle.its_shared.specs.Ports.{Splits};

    /// The root of the machine of one caller that the description makes, whose calls keep to these
    /// limits.
    pub fn new(
        alloc: Global,
        desc: &Desc,
        owned: Owned,
        limits: GuestLimits,
    ) -> Result<Port, AllocError>
        requires description { IsDescription desc.now }
        requires first { IsFirstState desc.now owned }
        requires some_shards { 1 ≤ desc.now.shards }
        requires most_shards { desc.now.shards ≤ 64 }
        requires limits { desc.now.limits ≡ limits_of (length desc.now.translators) }
        ensures made { IfOk result (IsFirst desc.now) }
        ensures start { IfOk result (λ k. k.view.setup.start ≡ owned) }
        ensures limits { IfOk result (λ k. k.limits ≡ limits) }
    {
        requesters_are_apart();
        let (machine, pass) = share_owned(alloc, desc, owned)?;
        let machine = Arc::new(alloc, machine)?;
        Ok(Port {
            machine,
            pass,
            limits,
            routes: 0,
            counters: Counters::new(),
        })
    }

    /// Whether passes can be split off: it is the root, and there are numbers left.
    pub fn can_split(&self) -> bool
        ensures { result ≡ spec.can_split self.now }
    {
        self.pass.number() == 0 && self.pass.made() < 1 << 32
    }

    /// Another pass of the machine, split off the root, which keeps to the root's limits and has
    /// counted nothing. None where the machine has as many as an `Arc` can count.
    pub fn split(&mut self) -> Option<Port>
        requires { spec.can_split self.old ≡ true }
        ensures { MatchOption result (self.new ≡ self.old) (λ p. Splits self.old self.new p) }
    {
        let Ok(machine) = Arc::try_clone(&self.machine) else {
            return None;
        };
        let pass = self.pass.split(&machine);
        Some(Port {
            machine,
            pass,
            limits: self.limits,
            routes: 0,
            counters: Counters::new(),
        })
    }

    /// How much the guest may take by its calls from now on, and by those of passes that are split
    /// off it.
    pub fn set_limits(&mut self, limits: GuestLimits)
        ensures { self.new ≡ record self.old { limits = limits } }
    {
        self.limits = limits;
    }

    /// Whether there is a translator of this number.
    pub fn has_translator(&self, translator: u32) -> bool
        ensures has { result ≡ spec.has_translator self.now translator }
        ensures few { result ≡ true → translator < 2 }
    {
        translator < u32::from(self.machine.translators())
    }

    /// Whether there is a virtual processor of this number.
    pub fn has_vcpu(&self, vcpu: u32) -> bool
        ensures has { result ≡ spec.has_vcpu self.now vcpu }
        ensures few { result ≡ true → vcpu < most_vcpus }
    {
        vcpu < u32::from(self.machine.vcpus())
    }
}
