//! Pending LPIs and configurations in hand.
ghost use Rattle.std.specs.Prelude.{◌≡◌, ◌≢◌, ◌<◌, ℕ, true, is_some, IsSome, IfSome, [], ◌∷◌};
ghost use Rattle.lpi_pending.specs.InHand.{pend_in};
ghost use Rattle.its_plain.specs.Commands.{conf_reread_at, conf_all_reread_at};
ghost use Rattle.cmd_exec.specs.InHand.{conf_by, pend_changed, confs_changed};
ghost use Rattle.cmd_exec.specs.InHand.{with_set, with_cleared};
ghost use Rattle.cmd_exec.specs.InHand.{is_on_in, lpi_moved_in, all_moved_in};
ghost use Rattle.cmd_exec.specs.InHand.{takes_lpi, CanReread};
ghost use Rattle.cmd_exec.specs.Ready.{CanEachReread, HaveSameLpis};

use guest_windows::Memory;
use its_types::{Addr, Intid, Vcpu};
use lpi_config::Conf;
use lpi_pending::Redists;

/// Makes an LPI pending at a virtual processor whose LPIs are on. What is pending there is in hand.
#[tactic(auto, unfolding(crate::specs::InHand::pend_changed))]
pub fn set_lpi(redists: &mut Redists, vcpu: Vcpu, intid: Intid)
    requires takes { takes_lpi redists.old vcpu.0 intid.0 ≡ true }
    requires on { is_on_in redists.old vcpu.0 ≡ true }
    ensures { redists.new ≡ pend_changed vcpu.0 (with_set intid.0) redists.old }
{
    let pend = redists.pend_mut(vcpu);
    pend.set(intid);
}

/// Makes an LPI not pending at a virtual processor. What is pending there is in hand.
#[tactic(auto, unfolding(crate::specs::InHand::pend_changed))]
pub fn clear_lpi(redists: &mut Redists, vcpu: Vcpu, intid: Intid)
    requires { takes_lpi redists.old vcpu.0 intid.0 ≡ true }
    ensures { redists.new ≡ pend_changed vcpu.0 (with_cleared intid.0) redists.old }
{
    let pend = redists.pend_mut(vcpu);
    pend.clear(intid);
}

/// Where the LPI is pending at one virtual processor, it becomes pending at the other instead,
/// whose LPIs are on.
pub fn move_lpi(redists: &mut Redists, from: Vcpu, to: Vcpu, intid: Intid)
    requires from { takes_lpi redists.old from.0 intid.0 ≡ true }
    requires to { takes_lpi redists.old to.0 intid.0 ≡ true }
    requires on { is_on_in redists.old to.0 ≡ true }
    ensures { redists.new ≡ lpi_moved_in intid.0 from.0 to.0 redists.old }
{
    if redists.pend(from).has(intid) {
        clear_lpi(redists, from, intid);
        set_lpi(redists, to, intid);
    }
}

/// All pending LPIs go from one virtual processor to the other, whose LPIs are on.
#[tactic(auto, unfolding(crate::specs::InHand::pend_changed))]
pub fn move_all(redists: &mut Redists, from: Vcpu, to: Vcpu)
    requires same { HaveSameLpis (pend_in redists.old from.0) (pend_in redists.old to.0) }
    requires on { is_on_in redists.old to.0 ≡ true }
    ensures { redists.new ≡ all_moved_in from.0 to.0 redists.old }
{
    if from == to {
        return;
    }
    let mut source = redists.take_pend(from);
    let target = redists.pend_mut(to);
    source.move_all(target);
    redists.place_pend(from, source);
}

/// Reads the configuration byte of an LPI again, if LPIs are on.
pub fn reread(conf: &mut Conf, memory: &Memory, intid: Intid)
    requires { CanReread conf.old intid.0 }
    ensures { conf.new ≡ conf_by (conf_reread_at memory.now intid.0) conf.old }
{
    if !conf.bases().on {
        return;
    }
    let place = u64::from(intid.0 - 8192);
    if let Ok(byte) = memory.read_u8(Addr(conf.bases().prop.table.0 + place)) {
        conf.reload(intid, byte);
    }
}

/// Each of the first virtual processors reads it again.
#[tactic(auto, unfolding(crate::specs::InHand::confs_changed))]
pub fn reread_each(redists: &mut Redists, vcpus: u16, memory: &Memory, intid: Intid)
    requires { CanEachReread vcpus redists.old (intid.0 ∷ []) }
    ensures { redists.new ≡ confs_changed vcpus (conf_all_reread_at memory.now (intid.0 ∷ []))
        redists.old }
{
    for vcpu in 0..vcpus {
        let conf = redists.conf_mut(Vcpu(vcpu));
        reread(conf, memory, intid);
    }
}
