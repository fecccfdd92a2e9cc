//! The stretches of guest memory that the next step reads, each once.
ghost use Rattle.std.specs.Prelude.{◌≡◌, ◌<◌, ◌^◌, Some, IfOk, OnOk};
ghost use Rattle.std.specs.List.{flat_map, range_with_len};
ghost use Rattle.guest_windows.specs.Fields.{pairs};
ghost use Rattle.its_plain.specs.Sound.{IsShape};
ghost use Rattle.gicr_regs.specs.Registers.{AreLow};
ghost use Rattle.lpi_pending.specs.InHand.{conf_in};
ghost use Rattle.table_save.specs.Areas.{redistributors_of};
ghost use Rattle.step_views.specs.Firsts.{HaveConfs};
ghost use Rattle.step_views.specs.Pairs as spec;
ghost use Rattle.its_shared.specs.Besides.{HaveRead, besides_reads, conf_read, stretches};

use crate::besides::Besides;
use crate::step_reads::StepReads;
use its_types::{Addr, FIRST_LPI, Shape, Vcpu};
use lpi_config::Conf;
use lpi_pending::Redists;
use std::alloc::{AllocError, Global};

/// The stretches that a step reads whose command is known: its 32 bytes, and what it reads besides.
pub fn needed(
    alloc: Global,
    reads: StepReads,
    redists: &Redists,
    shape: Shape,
) -> Result<Vec<(Addr, u64)>, AllocError>
    requires shape { IsShape shape }
    requires there { HaveRead shape.vcpus redists.now reads.besides }
    ensures { IfOk result (λ list. pairs list.items
        ≡ stretches shape (redistributors_of shape redists.now) reads) }
{
    let mut told = Vec::new(alloc);
    if let Some(place) = reads.command {
        told.push((place, 32))?;
        tell_besides(&mut told, redists, shape, reads.besides)?;
    }
    Ok(told)
}

fn tell_besides(
    told: &mut Vec<(Addr, u64)>,
    redists: &Redists,
    shape: Shape,
    what: Besides,
) -> Result<(), AllocError>
    requires shape { IsShape shape }
    requires there { HaveRead shape.vcpus redists.now what }
    ensures { OnOk result (pairs told.new.items ≡ spec.all_told (pairs told.old.items)
        (besides_reads shape (redistributors_of shape redists.now) what)) }
{
    match what {
        Besides::Nothing => Ok(()),
        Besides::Entry(address) => tell(told, address, 8),
        Besides::Byte(intid) => {
            let offset = u64::from(intid.0.saturating_sub(FIRST_LPI));
            tell_configs(told, redists, shape.vcpus, offset, 1)
        }
        Besides::Tables => tell_configs(told, redists, shape.vcpus, 0, shape.lpi_count()),
    }
}

// So many bytes of the configuration table of each redistributor whose LPIs are on.
fn tell_configs(
    told: &mut Vec<(Addr, u64)>,
    redists: &Redists,
    vcpus: u16,
    offset: u64,
    length: u64,
) -> Result<(), AllocError>
    requires there { HaveConfs vcpus redists.now }
    requires near { offset < 2 ^ 32 }
    ensures { OnOk result (pairs told.new.items ≡ spec.all_told (pairs told.old.items)
        (flat_map (λ v. conf_read offset length (conf_in redists.now v))
        (range_with_len 0 vcpus))) }
{
    for vcpu in 0..vcpus {
        tell_config(told, redists.conf(Vcpu(vcpu)), offset, length)?;
    }
    Ok(())
}

fn tell_config(
    told: &mut Vec<(Addr, u64)>,
    conf: &Conf,
    offset: u64,
    length: u64,
) -> Result<(), AllocError>
    requires low { AreLow conf.now.bases }
    requires near { offset < 2 ^ 32 }
    ensures { OnOk result (pairs told.new.items ≡ spec.all_told (pairs told.old.items)
        (conf_read offset length (Some conf.now))) }
{
    let bases = conf.bases();
    if !bases.on {
        return Ok(());
    }
    tell(told, Addr(bases.prop.table.0 + offset), length)
}

// A stretch, if it isn't told yet.
fn tell(told: &mut Vec<(Addr, u64)>, address: Addr, length: u64) -> Result<(), AllocError>
    ensures { OnOk result (pairs told.new.items
        ≡ spec.with_stretch (pairs told.old.items) (address.0, length)) }
{
    if is_told(told, address, length) {
        return Ok(());
    }
    told.push((address, length))?;
    Ok(())
}

fn is_told(told: &[(Addr, u64)], address: Addr, length: u64) -> bool
    ensures { result ≡ spec.is_told (address.0, length) (pairs told.now) }
{
    let mut rest = told;
    while let Some(((at, len), others)) = rest.split_first() {
        if address.0 == at.0 && length == *len {
            return true;
        }
        rest = others;
    }
    false
}
