//! The list of what a machine has: its registers, what is mapped, and what is pending.
ghost use Rattle.std.specs.Prelude.{◌≡◌, ◌++◌, ◌<◌, IfOk, OnOk, map, slice_get};
ghost use Rattle.std.specs.FinMap.{entries};
ghost use Rattle.std.specs.String.{string_bytes};
ghost use Rattle.call_facts.specs.Lpis as lpis;
ghost use Rattle.its_plain.specs.Plain.{pending_of, redistributor};
ghost use Rattle.its_types.specs.Maps.{events_at};
ghost use Rattle.owned_machine.specs.Whole.{IsMachine};
ghost use Rattle.owned_parts.specs.Owned.{state_of_parts};
ghost use Rattle.report_places.specs.Lists as spec;

use crate::lines::{push_bases, push_collection, push_device, push_event, push_lpi, push_register};
use call_facts::{LpiState, lpi_state};
use gits_regs::Regs;
use its_maps::Maps;
use its_types::{Bases, DeviceId, Intid, Vcpu};
use owned_machine::Machine;
use owned_parts::Parts;
use std::alloc::{AllocError, Global};

/// Adds the list of what a machine has.
pub fn push_state(alloc: Global, out: &mut String, machine: &Machine) -> Result<(), AllocError>
    ensures { OnOk result (string_bytes out.new
        ≡ string_bytes out.old ++ spec.state_text machine.now) }
{
    push_parts(alloc, out, machine.parts())
}

/// The same, of the parts that a machine is made of.
#[tactic(auto, unfolding(crate::specs::Lists::state_text))]
fn push_parts(alloc: Global, out: &mut String, parts: &Parts) -> Result<(), AllocError>
    requires { IsMachine parts.now }
    ensures { OnOk result (string_bytes out.new
        ≡ string_bytes out.old ++ spec.state_text (state_of_parts parts.now)) }
{
    push_translators(out, parts)?;
    push_processors(alloc, out, parts)
}

#[tactic(auto, unfolding(crate::specs::Lists::translators_text))]
fn push_translators(out: &mut String, parts: &Parts) -> Result<(), AllocError>
    ensures { OnOk result (string_bytes out.new
        ≡ string_bytes out.old ++ spec.translators_text (state_of_parts parts.now)) }
{
    push_translator(out, parts, 0)?;
    push_translator(out, parts, 1)
}

/// Adds a translator, if there is one of this number.
fn push_translator(out: &mut String, parts: &Parts, its: u8) -> Result<(), AllocError>
    ensures { OnOk result (string_bytes out.new ≡ string_bytes out.old
        ++ spec.if_there its (slice_get (state_of_parts parts.now).translators its)) }
{
    match parts.in_place().translator(its) {
        Some(translator) => push_found(out, its, translator.regs, translator.maps),
        None => Ok(()),
    }
}

#[tactic(auto, unfolding(crate::specs::Lists::translator_text))]
fn push_found(out: &mut String, its: u8, regs: &Regs, maps: &Maps) -> Result<(), AllocError>
    ensures { OnOk result (string_bytes out.new ≡ string_bytes out.old
        ++ spec.translator_text its (record { regs = regs.now; maps = maps.now.maps })) }
{
    push_registers(out, its, regs)?;
    push_maps(out, its, maps)
}

#[tactic(auto, unfolding(crate::specs::Lists::registers_text))]
fn push_registers(out: &mut String, its: u8, regs: &Regs) -> Result<(), AllocError>
    ensures { OnOk result (string_bytes out.new
        ≡ string_bytes out.old ++ spec.registers_text its regs.now) }
{
    push_read(out, its, regs, "GITS_CTLR", 0x0, 4)?;
    push_places(out, its, regs)
}

/// Adds a register, by its name, as a guest reads so many bytes at its offset.
#[tactic(auto, unfolding(crate::specs::Lists::read_line))]
fn push_read(
    out: &mut String,
    its: u8,
    regs: &Regs,
    name: &str,
    off: u32,
    size: u8,
) -> Result<(), AllocError>
    ensures { OnOk result (string_bytes out.new
        ≡ string_bytes out.old ++ spec.read_line its regs.now name.now off size) }
{
    let value = regs.read(off, size);
    push_register(out, its, name, value)
}

#[tactic(auto, unfolding(crate::specs::Lists::places_text))]
fn push_places(out: &mut String, its: u8, regs: &Regs) -> Result<(), AllocError>
    ensures { OnOk result (string_bytes out.new
        ≡ string_bytes out.old ++ spec.places_text its regs.now) }
{
    push_queue(out, its, regs)?;
    push_tables(out, its, regs)
}

#[tactic(auto, unfolding(crate::specs::Lists::queue_text))]
fn push_queue(out: &mut String, its: u8, regs: &Regs) -> Result<(), AllocError>
    ensures { OnOk result (string_bytes out.new
        ≡ string_bytes out.old ++ spec.queue_text its regs.now) }
{
    push_read(out, its, regs, "GITS_CBASER", 0x80, 8)?;
    push_offsets(out, its, regs)
}

#[tactic(auto, unfolding(crate::specs::Lists::offsets_text))]
fn push_offsets(out: &mut String, its: u8, regs: &Regs) -> Result<(), AllocError>
    ensures { OnOk result (string_bytes out.new
        ≡ string_bytes out.old ++ spec.offsets_text its regs.now) }
{
    push_read(out, its, regs, "GITS_CWRITER", 0x88, 8)?;
    push_read(out, its, regs, "GITS_CREADR", 0x90, 8)
}

#[tactic(auto, unfolding(crate::specs::Lists::tables_text))]
fn push_tables(out: &mut String, its: u8, regs: &Regs) -> Result<(), AllocError>
    ensures { OnOk result (string_bytes out.new
        ≡ string_bytes out.old ++ spec.tables_text its regs.now) }
{
    push_read(out, its, regs, "GITS_BASER0", 0x100, 8)?;
    push_read(out, its, regs, "GITS_BASER1", 0x108, 8)
}

#[tactic(auto, unfolding(crate::specs::Lists::maps_text))]
fn push_maps(out: &mut String, its: u8, maps: &Maps) -> Result<(), AllocError>
    ensures { OnOk result (string_bytes out.new
        ≡ string_bytes out.old ++ spec.maps_text its maps.now.maps) }
{
    push_devices(out, its, maps)?;
    push_collections(out, its, maps)
}

/// Adds each mapped device with its events.
fn push_devices(out: &mut String, its: u8, maps: &Maps) -> Result<(), AllocError>
    ensures { OnOk result (string_bytes out.new ≡ string_bytes out.old
        ++ spec.devices_text its maps.now.maps (entries maps.now.maps.devices)) }
{
    for (dev, device) in maps.devices() {
        push_device(out, its, dev, device)?;
        push_events(out, its, maps, dev)?;
    }
    Ok(())
}

fn push_events(out: &mut String, its: u8, maps: &Maps, dev: DeviceId) -> Result<(), AllocError>
    ensures { OnOk result (string_bytes out.new ≡ string_bytes out.old
        ++ spec.events_text its dev.0 (events_at maps.now.maps dev.0)) }
{
    for (ev, event) in maps.events(dev) {
        push_event(out, its, dev, ev, event)?;
    }
    Ok(())
}

fn push_collections(out: &mut String, its: u8, maps: &Maps) -> Result<(), AllocError>
    ensures { OnOk result (string_bytes out.new ≡ string_bytes out.old
        ++ spec.collections_text its (entries maps.now.maps.collections)) }
{
    for (icid, vcpu) in maps.collections() {
        push_collection(out, its, icid, vcpu)?;
    }
    Ok(())
}

/// Adds each virtual processor.
fn push_processors(alloc: Global, out: &mut String, parts: &Parts) -> Result<(), AllocError>
    requires { IsMachine parts.now }
    ensures { OnOk result (string_bytes out.new ≡ string_bytes out.old
        ++ spec.processors_text (state_of_parts parts.now) parts.now.layout.shape.vcpus) }
{
    for vcpu in 0..parts.layout.shape.vcpus {
        push_processor(alloc, out, parts, Vcpu(vcpu))?;
    }
    Ok(())
}

/// Adds the LPI registers of a virtual processor, and the LPIs that are pending there.
#[tactic(auto, unfolding(crate::specs::Lists::processor_text))]
fn push_processor(
    alloc: Global,
    out: &mut String,
    parts: &Parts,
    vcpu: Vcpu,
) -> Result<(), AllocError>
    requires whole { IsMachine parts.now }
    requires below { vcpu.0 < parts.now.layout.shape.vcpus }
    ensures { OnOk result (string_bytes out.new
        ≡ string_bytes out.old ++ spec.processor_text (state_of_parts parts.now) vcpu.0) }
{
    push_bases(out, vcpu, &bases_of(parts, vcpu))?;
    let pending = pending_at(alloc, parts, vcpu)?;
    push_lpis(out, parts, vcpu, &pending)
}

fn push_lpis(
    out: &mut String,
    parts: &Parts,
    vcpu: Vcpu,
    pending: &[Intid],
) -> Result<(), AllocError>
    requires whole { IsMachine parts.now }
    requires below { vcpu.0 < parts.now.layout.shape.vcpus }
    ensures { OnOk result (string_bytes out.new ≡ string_bytes out.old
        ++ spec.lpis_text (state_of_parts parts.now) vcpu.0 (map (λ i. i.0) pending.now)) }
{
    for intid in pending {
        push_lpi(out, vcpu, *intid, lpi_at(parts, vcpu, *intid))?;
    }
    Ok(())
}

fn bases_of(parts: &Parts, vcpu: Vcpu) -> Bases
    requires whole { IsMachine parts.now }
    requires below { vcpu.0 < parts.now.layout.shape.vcpus }
    ensures { result ≡ (redistributor (state_of_parts parts.now) vcpu.0).bases }
{
    *parts.redists.conf(vcpu).bases()
}

fn pending_at(alloc: Global, parts: &Parts, vcpu: Vcpu) -> Result<Vec<Intid>, AllocError>
    requires whole { IsMachine parts.now }
    requires below { vcpu.0 < parts.now.layout.shape.vcpus }
    ensures { IfOk result (λ lpis.
        map (λ i. i.0) lpis.items ≡ pending_of (state_of_parts parts.now) vcpu.0) }
{
    parts.redists.pend(vcpu).lpis(alloc)
}

fn lpi_at(parts: &Parts, vcpu: Vcpu, intid: Intid) -> Option<LpiState>
    requires whole { IsMachine parts.now }
    requires below { vcpu.0 < parts.now.layout.shape.vcpus }
    ensures { result ≡ lpis.lpi_state parts.now.layout.shape.lpi_bits
        (redistributor (state_of_parts parts.now) vcpu.0) intid.0 }
{
    let redists = &parts.redists;
    lpi_state(redists.conf(vcpu), redists.pend(vcpu), intid)
}
