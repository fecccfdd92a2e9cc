//! At which processor that a command needs LPIs are off.
ghost use Rattle.std.specs.Prelude.{◌≡◌, ◌++◌, OnOk};
ghost use Rattle.std.specs.String.{string_bytes};
ghost use Rattle.its_explain.specs.Refusals as spec;

use crate::named::{device_of, event_of};
use crate::numbers::push_enclosed;
use crate::replayed::Replayed;
use its_command::Command;
use its_types::{MOST_VCPUS, Vcpu};
use std::alloc::AllocError;

/// Adds the first processor that the command needs and where LPIs are off.
pub fn push_lpis_off(
    out: &mut String,
    machine: &Replayed,
    its: u8,
    command: &Command,
) -> Result<(), AllocError>
    ensures { OnOk result (string_bytes out.new
        ≡ string_bytes out.old ++ spec.lpis_off_text machine.now its command.now) }
{
    let first = first_target(machine, its, command);
    push_off(
        out,
        off_at(machine, first, second_target(machine, its, command)),
    )
}

fn push_off(out: &mut String, vcpu: Option<Vcpu>) -> Result<(), AllocError>
    ensures { OnOk result (string_bytes out.new ≡ string_bytes out.old ++ spec.off_text vcpu) }
{
    match vcpu {
        Some(vcpu) => {
            let after = ": EnableLPIs of GICR_CTLR is 0 (section 12.11)";
            push_enclosed(out, "LPIs are off at processor ", u64::from(vcpu.0), after)
        }
        None => {
            out.push_str("LPIs are off at a processor that the command needs (section 12.11)")
        }
    }
}

/// The first of two processors where LPIs are off.
fn off_at(machine: &Replayed, first: Option<Vcpu>, second: Option<Vcpu>) -> Option<Vcpu>
    ensures { result ≡ spec.off_at machine.now first second }
{
    if is_off(machine, first) {
        first
    } else if is_off(machine, second) {
        second
    } else {
        None
    }
}

fn is_off(machine: &Replayed, vcpu: Option<Vcpu>) -> bool
    ensures { result ≡ spec.is_off machine.now vcpu }
{
    match vcpu {
        Some(vcpu) => match machine.bases(vcpu) {
            Some(bases) => !bases.on,
            None => false,
        },
        None => false,
    }
}

/// The first processor that a command needs.
fn first_target(machine: &Replayed, its: u8, command: &Command) -> Option<Vcpu>
    ensures { result ≡ spec.first_target machine.now its command.now }
{
    match *command {
        Command::Movall { from, .. } => vcpu_of(from.get()),
        _ => machine
            .pair(its, device_of(command), event_of(command))
            .target,
    }
}

/// The other.
fn second_target(machine: &Replayed, its: u8, command: &Command) -> Option<Vcpu>
    ensures { result ≡ spec.second_target machine.now its command.now }
{
    match *command {
        Command::Movall { to, .. } => vcpu_of(to.get()),
        Command::Movi { icid, .. } => machine.collection(its, icid),
        _ => None,
    }
}

fn vcpu_of(number: u64) -> Option<Vcpu>
    ensures { result ≡ spec.vcpu_of number }
{
    if number < u64::from(MOST_VCPUS) {
        Some(Vcpu(number as u16))
    } else {
        None
    }
}
