//! The redistributors, from their tables in memory.
ghost use Rattle.std.specs.Prelude.{◌≡◌, ◌+◌, ◌<◌, ◌≤◌, ◌^◌, ℕ, true, false, IfOk, OnOk, Some};
ghost use Rattle.std.specs.Prelude.{slice_get, length};
ghost use Rattle.guest_windows.specs.Windows.{inside};
ghost use Rattle.its_types.specs.Ranges.{pending_bytes};
ghost use Rattle.its_plain.specs.Sound.{IsShape, IsLayout};
ghost use Rattle.its_plain.specs.Stands.{ArePendingIn};
ghost use Rattle.standing_states.specs.Laws.{bases_to_restore};
ghost use Rattle.table_restore.specs.Outcome.{IsOffRedist, RestoredRedist, RestoredRedists};
ghost use Rattle.table_restore.specs.Outcome.{HasValuesFor};

use crate::error::TableError;
use gicr_regs::{GicrValues, restored_bases};
use guest_windows::Memory;
use its_plain::{Layout, RestoreFault};
use its_types::{Addr, Bases, Shape, Vcpu};
use lpi_config::{Conf, Config};
use lpi_pending::{Pend, Pending, Redists};
use std::alloc::{AllocError, Global};

// The LPIs that a pending table has.
fn pending_of(
    alloc: Global,
    memory: &Memory,
    base: Addr,
    shape: Shape,
) -> Result<Pending, AllocError>
    requires shape { IsShape shape }
    requires inside { inside memory.now base.0 (pending_bytes shape.lpi_bits) ≡ true }
    requires low { base.0 < 2 ^ 53 }
    ensures bits { IfOk result (λ p. p.lpi_bits ≡ shape.lpi_bits) }
    ensures pending { IfOk result (λ p. ArePendingIn shape.lpi_bits memory.now base.0 p.lpis) }
{
    let mut pending = Pending::new(alloc, shape.lpi_bits)?;
    pending.read_table(memory, base);
    Ok(pending)
}

// The two parts of a virtual processor's redistributor, whose LPIs are on at its tables.
fn on_redist(
    alloc: Global,
    memory: &Memory,
    shape: Shape,
    vcpu: Vcpu,
    bases: Bases,
) -> Result<(Conf, Pend), TableError>
    requires shape { IsShape shape }
    requires on { bases.on ≡ true }
    ensures { RestoredRedist shape memory.now vcpu.0 bases result }
{
    if !memory.inside(bases.prop.table, shape.lpi_count()) {
        return Err(TableError::Fault(RestoreFault::BadRedist(vcpu)));
    }
    if !memory.inside(bases.pend.table, shape.pending_bytes()) {
        return Err(TableError::Fault(RestoreFault::BadRedist(vcpu)));
    }
    let config = Config::load(alloc, memory, bases.prop.table, shape.lpi_bits)?;
    let pending = pending_of(alloc, memory, bases.pend.table, shape)?;
    Ok((Conf::on(alloc, config, bases), Pend::on(alloc, pending)))
}

// One whose LPIs are off: its tables aren't read, and it takes no memory for them.
fn off_redist(alloc: Global, shape: Shape, bases: Bases) -> (Conf, Pend)
    requires shape { IsShape shape }
    requires off { bases.on ≡ false }
    ensures { IsOffRedist shape bases result.0 result.1 }
{
    let conf = Conf::off(alloc, shape.lpi_bits, bases);
    (conf, Pend::off(alloc, shape.lpi_bits))
}

fn redist_of(
    alloc: Global,
    memory: &Memory,
    shape: Shape,
    vcpu: Vcpu,
    bases: Bases,
) -> Result<(Conf, Pend), TableError>
    requires shape { IsShape shape }
    ensures { RestoredRedist shape memory.now vcpu.0 bases result }
{
    if bases.on {
        on_redist(alloc, memory, shape, vcpu, bases)
    } else {
        Ok(off_redist(alloc, shape, bases))
    }
}

// The registers with which a virtual processor's redistributor begins.
fn bases_of(gicr: &GicrValues, layout: &Layout, vcpu: u16) -> Bases
    requires layout { IsLayout layout.now }
    requires values { HasValuesFor layout.now gicr.now }
    requires vcpu { vcpu < layout.now.shape.vcpus }
    ensures bases { slice_get (bases_to_restore layout.now gicr.now) vcpu ≡ Some result }
    ensures many { length (bases_to_restore layout.now gicr.now) ≡ layout.now.shape.vcpus }
{
    if layout.gicr {
        restored_bases(&gicr.registers.as_slice()[usize::from(vcpu)])
    } else {
        layout.described.as_slice()[usize::from(vcpu)]
    }
}

/// The redistributors of all virtual processors, or the first of them whose LPIs are on and of
/// which a table doesn't lie in one window.
pub fn redists_of(
    alloc: Global,
    memory: &Memory,
    gicr: &GicrValues,
    layout: &Layout,
) -> Result<Redists, TableError>
    requires layout { IsLayout layout.now }
    requires values { HasValuesFor layout.now gicr.now }
    ensures redists { RestoredRedists layout.now.shape memory.now
        (bases_to_restore layout.now gicr.now) result }
    ensures many { OnOk result
        (length (bases_to_restore layout.now gicr.now) ≡ layout.now.shape.vcpus) }
{
    let shape = layout.shape;
    let mut redists = Redists::with_room(alloc, shape.vcpus)?;
    for vcpu in 0..shape.vcpus {
        let bases = bases_of(gicr, layout, vcpu);
        let (conf, pend) = redist_of(alloc, memory, shape, Vcpu(vcpu), bases)?;
        redists.place_conf(Vcpu(vcpu), Box::new(alloc, conf)?);
        redists.place_pend(Vcpu(vcpu), Box::new(alloc, pend)?);
    }
    Ok(redists)
}
