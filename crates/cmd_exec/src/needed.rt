//! Which parts a step reads or changes.
ghost use Rattle.std.specs.Prelude.{◌≡◌, ◌⊎◌, ◌<◌, ◌&&◌, ℕ, true, false, nat_lt, IfSome};
ghost use Rattle.its_plain.specs.Parts.{target_of_event};
ghost use Rattle.cmd_exec.specs.Needs.{needs_conf, needs_pend, reads_confs, is_concerned};
ghost use Rattle.cmd_exec.specs.Needs.{is_either, is_moved};
ghost use Rattle.cmd_exec.specs.Needs.{AreTargets, ArePartsOfStep};
ghost use Rattle.owned_parts.specs.RedistSets.{is_in};
ghost use Rattle.owned_parts.specs.declared.redist_set.RedistSet.TheVariants.{Nothing};

use gits_regs::Regs;
use its_command::Command;
use its_maps::{LookUp, Maps};
use its_types::{DeviceId, EventId, Profile, Shape, Vcpu};
use owned_parts::RedistSet;

/// The parts of redistributors that a command reads or changes.
#[derive(Clone, Copy, Debug, PartialEq, Eq)]
pub struct Needed {
    /// The virtual processors whose configurations it does: all, or none.
    pub confs: RedistSet,
    /// Those where it does what is pending.
    pub pends: RedistSet,
}

/// The parts that a step which meets a command reads or changes: its translator's maps and guest
/// memory always, and these of redistributors. They don't depend on the registers.
pub fn needs(command: &Command, _regs: &Regs, maps: &Maps, shape: &Shape) -> Needed
    requires targets { AreTargets shape.now maps.now.maps }
    ensures confs { (vcpu : ℕ) → is_in result.confs vcpu
        ≡ needs_conf shape.now maps.now.maps command.now vcpu }
    ensures pends { (vcpu : ℕ) → is_in result.pends vcpu
        ≡ needs_pend shape.now maps.now.maps command.now vcpu }
    ensures confs_below { (vcpu : ℕ) → is_in result.confs vcpu ≡ true → vcpu < shape.now.vcpus }
    ensures pends_below { (vcpu : ℕ) → is_in result.pends vcpu ≡ true → vcpu < shape.now.vcpus }
    ensures one_kind { (result.confs ≡ Nothing) ⊎ (result.pends ≡ Nothing) }
    ensures parts { ArePartsOfStep shape.now maps.now.maps command.now result }
{
    Needed {
        confs: confs_of(command, shape.vcpus),
        pends: pends_of(command, maps, shape),
    }
}

fn confs_of(command: &Command, vcpus: u16) -> RedistSet
    ensures members { (vcpu : ℕ) → is_in result vcpu
        ≡ (reads_confs command.now && nat_lt vcpu vcpus) }
    ensures none { reads_confs command.now ≡ false → result ≡ Nothing }
{
    match *command {
        Command::Mapti { .. } => every(vcpus),
        Command::Mapi { .. } => every(vcpus),
        Command::Inv { .. } => every(vcpus),
        Command::Invall { .. } => every(vcpus),
        Command::Mapd { .. }
        | Command::Mapc { .. }
        | Command::Movi { .. }
        | Command::Int { .. }
        | Command::Clear { .. }
        | Command::Sync { .. }
        | Command::Movall { .. }
        | Command::Discard { .. }
        | Command::Unknown(_) => RedistSet::Nothing,
    }
}

#[tactic(auto, unfolding(crate::specs::Needs::is_concerned))]
fn pends_of(command: &Command, maps: &Maps, shape: &Shape) -> RedistSet
    requires targets { AreTargets shape.now maps.now.maps }
    ensures members { (vcpu : ℕ) → is_in result vcpu
        ≡ is_concerned shape.now maps.now.maps command.now vcpu }
    ensures none { reads_confs command.now ≡ true → result ≡ Nothing }
{
    let vcpus = u64::from(shape.vcpus);
    match *command {
        Command::Movi { dev, ev, icid } => {
            let old = target_of(maps, shape, dev, ev);
            RedistSet::of_both(old, maps.collection(icid))
        }
        Command::Int { dev, ev } => RedistSet::of(target_of(maps, shape, dev, ev)),
        Command::Clear { dev, ev } => RedistSet::of(target_of(maps, shape, dev, ev)),
        Command::Discard { dev, ev } => RedistSet::of(target_of(maps, shape, dev, ev)),
        Command::Mapc {
            icid,
            target,
            valid,
        } => {
            if valid && target.get() < vcpus {
                let to = Vcpu(target.get() as u16);
                moved(shape.profile, maps.collection(icid), to)
            } else {
                RedistSet::Nothing
            }
        }
        Command::Movall { from, to } => {
            if from.get() < vcpus && to.get() < vcpus {
                either(Vcpu(from.get() as u16), Vcpu(to.get() as u16))
            } else {
                RedistSet::Nothing
            }
        }
        Command::Mapd { .. }
        | Command::Mapti { .. }
        | Command::Mapi { .. }
        | Command::Sync { .. }
        | Command::Inv { .. }
        | Command::Invall { .. }
        | Command::Unknown(_) => RedistSet::Nothing,
    }
}

// The target of an event, if the event and its collection are mapped.
fn target_of(maps: &Maps, shape: &Shape, dev: DeviceId, ev: EventId) -> Option<Vcpu>
    requires { AreTargets shape.now maps.now.maps }
    ensures target { result ≡ target_of_event maps.now.maps dev.0 ev.0 }
    ensures below { IfSome result (λ t. t.0 < shape.now.vcpus) }
{
    let _ = shape;
    match maps.look_up(dev, ev) {
        LookUp::Mapped(_, event) => maps.collection(event.icid),
        _ => None,
    }
}

// The old target and the new one, where in profile 2 a mapped collection gets another.
fn moved(profile: Profile, before: Option<Vcpu>, to: Vcpu) -> RedistSet
    ensures { (vcpu : ℕ) → is_in result vcpu ≡ is_moved profile before to.0 vcpu }
{
    match before {
        Some(from) if profile == Profile::Two && from != to => either(from, to),
        _ => RedistSet::Nothing,
    }
}

fn either(from: Vcpu, to: Vcpu) -> RedistSet
    ensures { (vcpu : ℕ) → is_in result vcpu ≡ is_either from.0 to.0 vcpu }
{
    RedistSet::Two(from, to)
}

fn every(vcpus: u16) -> RedistSet
    ensures { (vcpu : ℕ) → is_in result vcpu ≡ nat_lt vcpu vcpus }
{
    RedistSet::First(vcpus)
}
