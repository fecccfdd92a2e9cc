//! What is pending at redistributors, taken the lowest first.
ghost use Rattle.std.specs.Prelude.{◌≡◌, ◌≤◌, List, length};
ghost use Rattle.its_steps.specs.Contents.{Held};
ghost use Rattle.its_steps.specs.Parts.{vcpu_count};
ghost use Rattle.its_turns.specs.Machines.{setup, view, IsOf};
ghost use Rattle.held_parts.specs.Redists.{pends_held, AreNoPends, ArePendsOfSet};
ghost use Rattle.held_parts.specs.Redists.{ArePendsBelow};
ghost use Rattle.held_parts.specs.Redists.{AreBeforePends, IsPendIn};
ghost use Rattle.held_parts.specs.Taking.{TakesOnly, holding};

use crate::getting::take_pend;
use crate::turns::Turns;
use its_turns::{Machine, Pass, Value, put};
use its_types::{Part, Vcpu};
use lpi_pending::Redists;
use owned_parts::RedistSet;

/// Takes what is pending at a set of processors out, so far as the machine has them, the lowest
/// first, and puts it in its places.
#[inline(always)]
pub fn take_pends<T: Turns>(
    how: &T,
    machine: &Machine,
    pass: &mut Pass,
    set: RedistSet,
    redists: &mut Redists,
)
    requires of { IsOf machine.now pass.old }
    requires empty { AreNoPends redists.old }
    requires room { length redists.old.pends ≡ vcpu_count (setup machine.now) }
    requires order { AreBeforePends (view pass.old).held }
    requires allowed { T.allowed (view pass.old) }
    ensures of { IsOf machine.now pass.new }
    ensures takes { TakesOnly (IsPendIn set) (view pass.old) (view pass.new) }
    ensures held { (view pass.new).held ≡ pends_held redists.new (vcpu_count (setup machine.now))
        (view pass.old).held }
    ensures hand { ArePendsOfSet (setup machine.now) set redists.new }
    ensures room { length redists.new.pends ≡ length redists.old.pends }
    ensures confs { redists.new.confs ≡ redists.old.confs }
    ensures allowed { T.allowed (view pass.new) }
{
    let vcpus = machine.vcpus();
    let mut next = 0;
    while let Some(vcpu) = set.next(next, vcpus) {
        let pend = take_pend(how, machine, pass, Vcpu(vcpu));
        redists.place_pend(Vcpu(vcpu), pend);
        next = vcpu + 1;
    }
}

/// Puts it back, the highest first. Its places are empty then.
#[inline(always)]
pub fn put_pends(machine: &Machine, pass: &mut Pass, set: RedistSet, redists: &mut Redists)
    requires of { IsOf machine.now pass.old }
    requires hand { ArePendsOfSet (setup machine.now) set redists.old }
    requires held { (before : List Held) ×
        ((view pass.old).held ≡ pends_held redists.old (vcpu_count (setup machine.now)) before) }
    ensures of { IsOf machine.now pass.new }
    ensures empty { AreNoPends redists.new }
    ensures room { length redists.new.pends ≡ length redists.old.pends }
    ensures confs { redists.new.confs ≡ redists.old.confs }
    ensures home { (before : List Held) →
        (view pass.old).held ≡ pends_held redists.old (vcpu_count (setup machine.now)) before →
        view pass.new ≡ holding (view pass.old) before }
{
    put_first_pends(machine, pass, set, machine.vcpus(), redists);
}

/// What is pending at those of a set below a number, the highest first.
#[inline(always)]
pub(crate) fn put_first_pends(
    machine: &Machine,
    pass: &mut Pass,
    set: RedistSet,
    count: u16,
    redists: &mut Redists,
)
    requires of { IsOf machine.now pass.old }
    requires count { count ≤ vcpu_count (setup machine.now) }
    requires hand { ArePendsBelow (setup machine.now) count set redists.old }
    requires held { (before : List Held) ×
        ((view pass.old).held ≡ pends_held redists.old count before) }
    ensures of { IsOf machine.now pass.new }
    ensures empty { AreNoPends redists.new }
    ensures room { length redists.new.pends ≡ length redists.old.pends }
    ensures confs { redists.new.confs ≡ redists.old.confs }
    ensures home { (before : List Held) →
        (view pass.old).held ≡ pends_held redists.old count before →
        view pass.new ≡ holding (view pass.old) before }
{
    let mut end = count;
    while let Some(vcpu) = set.last(end) {
        let pend = redists.take_pend(Vcpu(vcpu));
        put(machine, pass, Part::Pend(Vcpu(vcpu)), Value::Pend(pend));
        end = vcpu;
    }
}
