//! Configurations of redistributors, taken the lowest first.
ghost use Rattle.std.specs.Prelude.{◌≡◌, ◌≤◌, List, length};
ghost use Rattle.its_steps.specs.Contents.{Held};
ghost use Rattle.its_steps.specs.Parts.{vcpu_count};
ghost use Rattle.its_turns.specs.Machines.{setup, view, IsOf};
ghost use Rattle.held_parts.specs.Redists.{confs_held, AreNoConfs, AreConfsOfSet};
ghost use Rattle.held_parts.specs.Redists.{AreConfsBelow};
ghost use Rattle.held_parts.specs.Redists.{AreBeforeConfs, IsConfIn};
ghost use Rattle.held_parts.specs.Taking.{TakesOnly, holding};

use crate::getting::take_conf;
use crate::turns::Turns;
use its_turns::{Machine, Pass, Value, put};
use its_types::{Part, Vcpu};
use lpi_pending::Redists;
use owned_parts::RedistSet;

/// Takes the configurations of a set out that the machine has, the lowest first, and puts them in
/// their places.
#[inline(always)]
pub fn take_confs<T: Turns>(
    how: &T,
    machine: &Machine,
    pass: &mut Pass,
    set: RedistSet,
    redists: &mut Redists,
)
    requires of { IsOf machine.now pass.old }
    requires empty { AreNoConfs redists.old }
    requires room { length redists.old.confs ≡ vcpu_count (setup machine.now) }
    requires order { AreBeforeConfs (view pass.old).held }
    requires allowed { T.allowed (view pass.old) }
    ensures of { IsOf machine.now pass.new }
    ensures takes { TakesOnly (IsConfIn set) (view pass.old) (view pass.new) }
    ensures held { (view pass.new).held ≡ confs_held redists.new (vcpu_count (setup machine.now))
        (view pass.old).held }
    ensures hand { AreConfsOfSet (setup machine.now) set redists.new }
    ensures room { length redists.new.confs ≡ length redists.old.confs }
    ensures pends { redists.new.pends ≡ redists.old.pends }
    ensures allowed { T.allowed (view pass.new) }
{
    let vcpus = machine.vcpus();
    let mut next = 0;
    while let Some(vcpu) = set.next(next, vcpus) {
        let conf = take_conf(how, machine, pass, Vcpu(vcpu));
        redists.place_conf(Vcpu(vcpu), conf);
        next = vcpu + 1;
    }
}

/// Puts them back, the highest first. Their places are empty then.
#[inline(always)]
pub fn put_confs(machine: &Machine, pass: &mut Pass, set: RedistSet, redists: &mut Redists)
    requires of { IsOf machine.now pass.old }
    requires hand { AreConfsOfSet (setup machine.now) set redists.old }
    requires held { (before : List Held) ×
        ((view pass.old).held ≡ confs_held redists.old (vcpu_count (setup machine.now)) before) }
    ensures of { IsOf machine.now pass.new }
    ensures empty { AreNoConfs redists.new }
    ensures room { length redists.new.confs ≡ length redists.old.confs }
    ensures pends { redists.new.pends ≡ redists.old.pends }
    ensures home { (before : List Held) →
        (view pass.old).held ≡ confs_held redists.old (vcpu_count (setup machine.now)) before →
        view pass.new ≡ holding (view pass.old) before }
{
    put_first_confs(machine, pass, set, machine.vcpus(), redists);
}

/// Of a set those below a number, the highest first.
#[inline(always)]
pub(crate) fn put_first_confs(
    machine: &Machine,
    pass: &mut Pass,
    set: RedistSet,
    count: u16,
    redists: &mut Redists,
)
    requires of { IsOf machine.now pass.old }
    requires count { count ≤ vcpu_count (setup machine.now) }
    requires hand { AreConfsBelow (setup machine.now) count set redists.old }
    requires held { (before : List Held) ×
        ((view pass.old).held ≡ confs_held redists.old count before) }
    ensures of { IsOf machine.now pass.new }
    ensures empty { AreNoConfs redists.new }
    ensures room { length redists.new.confs ≡ length redists.old.confs }
    ensures pends { redists.new.pends ≡ redists.old.pends }
    ensures home { (before : List Held) →
        (view pass.old).held ≡ confs_held redists.old count before →
        view pass.new ≡ holding (view pass.old) before }
{
    let mut end = count;
    while let Some(vcpu) = set.last(end) {
        let conf = redists.take_conf(Vcpu(vcpu));
        put(machine, pass, Part::Conf(Vcpu(vcpu)), Value::Conf(conf));
        end = vcpu;
    }
}
