//! Parts of redistributors, configurations and what is pending, for a call that waits for nobody.
ghost use Rattle.std.specs.Prelude.{◌≡◌, MatchResult, length};
ghost use Rattle.its_steps.specs.Parts.{vcpu_count};
ghost use Rattle.its_turns.specs.Machines.{setup, view, IsOf};
ghost use Rattle.held_parts.specs.Once.{TakesAtOnce, FindsBusy};
ghost use Rattle.held_parts.specs.Redists.{confs_held, AreNoConfs, AreConfsOfSet};
ghost use Rattle.held_parts.specs.Redists.{pends_held, AreNoPends, ArePendsOfSet};
ghost use Rattle.held_parts.specs.Redists.{redists_held, AreNoRedists, AreRedistsOf};
ghost use Rattle.held_parts.specs.Redists.{AreBeforeConfs, AreBeforePends};
ghost use Rattle.held_parts.specs.Redists.{IsConfIn, IsPendIn, IsRedistIn};

use crate::confs::{put_confs, put_first_confs};
use crate::pends::put_first_pends;
use its_turns::{Busy, Machine, Pass, try_take_conf, try_take_pend};
use its_types::Vcpu;
use lpi_pending::Redists;
use owned_parts::RedistSet;

/// Tries the configurations of a set that the machine has, each once and the lowest first, and puts
/// them in their places. Where another pass has one, none of them is held afterwards.
pub fn once_confs(
    machine: &Machine,
    pass: &mut Pass,
    set: RedistSet,
    redists: &mut Redists,
) -> Result<(), Busy>
    requires of { IsOf machine.now pass.old }
    requires empty { AreNoConfs redists.old }
    requires room { length redists.old.confs ≡ vcpu_count (setup machine.now) }
    requires order { AreBeforeConfs (view pass.old).held }
    ensures of { IsOf machine.now pass.new }
    ensures result { MatchResult result
        (λ _. TakesAtOnce (IsConfIn set) (view pass.old) (view pass.new) ×
        ((view pass.new).held ≡ confs_held redists.new (vcpu_count (setup machine.now))
        (view pass.old).held) × AreConfsOfSet (setup machine.now) set redists.new)
        (λ b. FindsBusy (IsConfIn set) (view pass.old) b (view pass.new)
        × AreNoConfs redists.new) }
    ensures room { length redists.new.confs ≡ length redists.old.confs }
    ensures pends { redists.new.pends ≡ redists.old.pends }
{
    let vcpus = machine.vcpus();
    let mut next = 0;
    while let Some(vcpu) = set.next(next, vcpus) {
        match try_take_conf(machine, pass, Vcpu(vcpu)) {
            Ok(conf) => redists.place_conf(Vcpu(vcpu), conf),
            Err(busy) => {
                put_first_confs(machine, pass, set, vcpu, redists);
                return Err(busy);
            }
        }
        next = vcpu + 1;
    }
    Ok(())
}

/// Tries what is pending at a set of processors, so far as the machine has them, each once and the
/// lowest first, and puts it in its places. Where another pass has one of them, none is held
/// afterwards.
pub fn once_pends(
    machine: &Machine,
    pass: &mut Pass,
    set: RedistSet,
    redists: &mut Redists,
) -> Result<(), Busy>
    requires of { IsOf machine.now pass.old }
    requires empty { AreNoPends redists.old }
    requires room { length redists.old.pends ≡ vcpu_count (setup machine.now) }
    requires order { AreBeforePends (view pass.old).held }
    ensures of { IsOf machine.now pass.new }
    ensures result { MatchResult result
        (λ _. TakesAtOnce (IsPendIn set) (view pass.old) (view pass.new) ×
        ((view pass.new).held ≡ pends_held redists.new (vcpu_count (setup machine.now))
        (view pass.old).held) × ArePendsOfSet (setup machine.now) set redists.new)
        (λ b. FindsBusy (IsPendIn set) (view pass.old) b (view pass.new)
        × AreNoPends redists.new) }
    ensures room { length redists.new.pends ≡ length redists.old.pends }
    ensures confs { redists.new.confs ≡ redists.old.confs }
{
    let vcpus = machine.vcpus();
    let mut next = 0;
    while let Some(vcpu) = set.next(next, vcpus) {
        match try_take_pend(machine, pass, Vcpu(vcpu)) {
            Ok(pend) => redists.place_pend(Vcpu(vcpu), pend),
            Err(busy) => {
                put_first_pends(machine, pass, set, vcpu, redists);
                return Err(busy);
            }
        }
        next = vcpu + 1;
    }
    Ok(())
}

/// Tries the configurations of one set, and then what is pending at another, so far as the machine
/// has them, each once and of both the lowest first, and puts them in their places. Where another
/// pass has one, none of them is held afterwards.
pub fn once_redists(
    machine: &Machine,
    pass: &mut Pass,
    confs: RedistSet,
    pends: RedistSet,
    redists: &mut Redists,
) -> Result<(), Busy>
    requires of { IsOf machine.now pass.old }
    requires empty { AreNoRedists (setup machine.now) redists.old }
    requires before_confs { AreBeforeConfs (view pass.old).held }
    requires before_pends { AreBeforePends (view pass.old).held }
    ensures of { IsOf machine.now pass.new }
    ensures result { MatchResult result
        (λ _. TakesAtOnce (IsRedistIn confs pends) (view pass.old) (view pass.new) ×
        ((view pass.new).held ≡ redists_held redists.new (vcpu_count (setup machine.now))
        (view pass.old).held) × AreRedistsOf (setup machine.now) confs pends redists.new)
        (λ b. FindsBusy (IsRedistIn confs pends) (view pass.old) b (view pass.new)
        × AreNoRedists (setup machine.now) redists.new) }
{
    match once_confs(machine, pass, confs, redists) {
        Ok(()) => {}
        Err(busy) => return Err(busy),
    }
    match once_pends(machine, pass, pends, redists) {
        Ok(()) => Ok(()),
        Err(busy) => {
            put_confs(machine, pass, confs, redists);
            Err(busy)
        }
    }
}
