//! The translators, one after another: each as its tables and the values of its registers say, or
//! at reset.
ghost use Rattle.std.specs.Prelude.{◌≡◌, ◌≤◌, length};
ghost use Rattle.gits_regs.specs.Registers as registers;
ghost use Rattle.its_plain.specs.Plain as plain;
ghost use Rattle.its_plain.specs.Sound.{IsShape};
ghost use Rattle.its_types.specs.Maps.{no_maps};
ghost use Rattle.owned_parts.specs.Owned.{translator_of};
ghost use Rattle.standing_states.specs.Found.{maps_read};
ghost use Rattle.table_restore.specs.Outcome.{RestoredRegs, RestoredMaps, RestoredTranslator};
ghost use Rattle.table_restore.specs.Outcome.{BegunTranslator, BegunTranslators};

use crate::collections::map_collections;
use crate::devices::map_devices;
use crate::error::{RestoreError, TableError};
use gits_regs::{NotValid, RegValues, Regs, restore_regs};
use guest_windows::Memory;
use its_maps::Maps;
use its_plain::RestoreFault;
use its_types::Shape;
use owned_parts::Translator;
use std::alloc::Global;

// The registers that the values give.
fn regs_of(values: RegValues, shape: Shape) -> Result<Regs, RestoreFault>
    requires { IsShape shape }
    ensures { RestoredRegs result (registers.restored values shape.dev_bits) }
{
    match restore_regs(values, shape.dev_bits) {
        Ok(regs) => Ok(regs),
        Err(NotValid(register)) => Err(RestoreFault::NotValid(register)),
    }
}

// The maps that the tables have.
fn maps_of(alloc: Global, regs: &Regs, memory: &Memory, shape: Shape) -> Result<Maps, TableError>
    ensures { RestoredMaps result (maps_read shape memory.now regs.now) }
{
    let mut maps = Maps::new(alloc);
    map_collections(regs, memory, shape, &mut maps)?;
    map_devices(regs, memory, shape.lpi_bits, &mut maps)?;
    Ok(maps)
}

// A translator that is restored.
fn restored(
    alloc: Global,
    values: RegValues,
    memory: &Memory,
    shape: Shape,
) -> Result<Translator, TableError>
    requires { IsShape shape }
    ensures { RestoredTranslator shape memory.now values result }
{
    let regs = regs_of(values, shape)?;
    let maps = maps_of(alloc, &regs, memory, shape)?;
    Ok(Translator { regs, maps })
}

// A translator at reset.
fn at_reset(alloc: Global, shape: Shape) -> Translator
    requires { IsShape shape }
    ensures { translator_of result
        ≡ record { regs = registers.reset shape.dev_bits; maps = no_maps } }
{
    Translator {
        regs: Regs::reset(shape.dev_bits),
        maps: Maps::new(alloc),
    }
}

// A translator by its number.
fn begin(
    alloc: Global,
    its: u8,
    values: Option<RegValues>,
    memory: &Memory,
    shape: Shape,
) -> Result<Translator, RestoreError>
    requires { IsShape shape }
    ensures { BegunTranslator its shape memory.now values result }
{
    let Some(values) = values else {
        return Ok(at_reset(alloc, shape));
    };
    match restored(alloc, values, memory, shape) {
        Ok(translator) => Ok(translator),
        Err(error) => Err(error.of(its)),
    }
}

/// One translator or two, as there are values.
pub fn begin_all(
    alloc: Global,
    values: &[Option<RegValues>],
    memory: &Memory,
    shape: Shape,
) -> Result<(Translator, Option<Translator>), RestoreError>
    requires shape { IsShape shape }
    requires some { 1 ≤ length values.now }
    requires most { length values.now ≤ 2 }
    ensures { BegunTranslators shape memory.now values.now result }
{
    let first = begin(alloc, 0, values[0], memory, shape)?;
    if values.len() == 1 {
        return Ok((first, None));
    }
    let second = begin(alloc, 1, values[1], memory, shape)?;
    Ok((first, Some(second)))
}
