//! The lines of a list of what a machine has.
ghost use Rattle.std.specs.Prelude.{◌≡◌, ◌++◌, OnOk};
ghost use Rattle.std.specs.String.{string_bytes};
ghost use Rattle.report_places.specs.Lines as spec;

use call_facts::LpiState;
use its_types::{Bases, Device, DeviceId, Event, EventId, Icid, Intid, Pendbaser, Propbaser, Vcpu};
use std::alloc::AllocError;
use std::fmt::Write;

/// Adds a word and a number.
#[tactic(auto, unfolding(crate::specs::Lines::number_text))]
fn push_number(out: &mut String, word: &str, number: u64) -> Result<(), AllocError>
    ensures { OnOk result (string_bytes out.new
        ≡ string_bytes out.old ++ spec.number_text word.now number) }
{
    write!(out, "{word} {number}")
}

/// Adds a word and a value in hexadecimal digits.
#[tactic(auto, unfolding(crate::specs::Lines::value_text))]
fn push_value(out: &mut String, word: &str, value: u64) -> Result<(), AllocError>
    ensures { OnOk result (string_bytes out.new
        ≡ string_bytes out.old ++ spec.value_text word.now value) }
{
    write!(out, "{word} 0x{value:x}")
}

/// Adds a register of a translator, by its name and what it reads.
#[tactic(auto, unfolding(crate::specs::Lines::register_line))]
pub fn push_register(out: &mut String, its: u8, name: &str, value: u64) -> Result<(), AllocError>
    ensures { OnOk result (string_bytes out.new
        ≡ string_bytes out.old ++ spec.register_line its name.now value) }
{
    push_number(out, "its", its.into())?;
    out.push_str(" ")?;
    push_value(out, name, value)?;
    out.push_str("\n")
}

/// Adds a mapped device.
#[tactic(auto, unfolding(crate::specs::Lines::device_line))]
pub fn push_device(
    out: &mut String,
    its: u8,
    dev: DeviceId,
    device: Device,
) -> Result<(), AllocError>
    ensures { OnOk result (string_bytes out.new
        ≡ string_bytes out.old ++ spec.device_line its dev.0 device) }
{
    push_number(out, "its", its.into())?;
    push_number(out, " device", dev.0.into())?;
    push_value(out, " table", device.itt.0)?;
    push_number(out, " bits", device.bits.into())?;
    out.push_str("\n")
}

/// Adds a mapped event.
#[tactic(auto, unfolding(crate::specs::Lines::event_line))]
pub fn push_event(
    out: &mut String,
    its: u8,
    dev: DeviceId,
    ev: EventId,
    event: Event,
) -> Result<(), AllocError>
    ensures { OnOk result (string_bytes out.new
        ≡ string_bytes out.old ++ spec.event_line its dev.0 ev.0 event) }
{
    push_number(out, "its", its.into())?;
    push_number(out, " device", dev.0.into())?;
    push_number(out, " event", ev.0.into())?;
    push_number(out, " LPI", event.intid.0.into())?;
    push_number(out, " collection", event.icid.0.into())?;
    out.push_str("\n")
}

/// Adds a mapped collection.
#[tactic(auto, unfolding(crate::specs::Lines::collection_line))]
pub fn push_collection(out: &mut String, its: u8, icid: Icid, vcpu: Vcpu) -> Result<(), AllocError>
    ensures { OnOk result (string_bytes out.new
        ≡ string_bytes out.old ++ spec.collection_line its icid.0 vcpu) }
{
    push_icid(out, its, icid)?;
    push_goal(out, vcpu)
}

#[tactic(auto, unfolding(crate::specs::Lines::icid_text))]
fn push_icid(out: &mut String, its: u8, icid: Icid) -> Result<(), AllocError>
    ensures { OnOk result (string_bytes out.new
        ≡ string_bytes out.old ++ spec.icid_text its icid.0) }
{
    push_number(out, "its", its.into())?;
    push_number(out, " collection", icid.0.into())
}

#[tactic(auto, unfolding(crate::specs::Lines::goal_text))]
fn push_goal(out: &mut String, vcpu: Vcpu) -> Result<(), AllocError>
    ensures { OnOk result (string_bytes out.new ≡ string_bytes out.old ++ spec.goal_text vcpu.0) }
{
    push_number(out, " processor", vcpu.0.into())?;
    out.push_str("\n")
}

#[tactic(auto, unfolding(crate::specs::Lines::on_text))]
fn on_text(on: bool) -> &'static str
    ensures { result.now ≡ spec.on_text on }
{
    if on { " LPIs on" } else { " LPIs off" }
}

#[tactic(auto, unfolding(crate::specs::Lines::switch_text))]
fn push_switch(out: &mut String, vcpu: Vcpu, on: bool) -> Result<(), AllocError>
    ensures { OnOk result (string_bytes out.new
        ≡ string_bytes out.old ++ spec.switch_text vcpu.0 on) }
{
    push_number(out, "vcpu", vcpu.0.into())?;
    out.push_str(on_text(on))
}

#[tactic(auto, unfolding(crate::specs::Lines::config_text))]
fn push_config(out: &mut String, prop: Propbaser) -> Result<(), AllocError>
    ensures { OnOk result (string_bytes out.new ≡ string_bytes out.old ++ spec.config_text prop) }
{
    push_value(out, " configuration table", prop.table.0)?;
    push_number(out, " IDbits", prop.id_bits.into())
}

#[tactic(auto, unfolding(crate::specs::Lines::pend_text))]
fn push_pend(out: &mut String, pend: Pendbaser) -> Result<(), AllocError>
    ensures { OnOk result (string_bytes out.new ≡ string_bytes out.old ++ spec.pend_text pend) }
{
    push_value(out, " pending table", pend.table.0)?;
    out.push_str("\n")
}

#[tactic(auto, unfolding(crate::specs::Lines::tables_text))]
fn push_tables(out: &mut String, bases: &Bases) -> Result<(), AllocError>
    ensures { OnOk result (string_bytes out.new
        ≡ string_bytes out.old ++ spec.tables_text bases.now) }
{
    push_config(out, bases.prop)?;
    push_pend(out, bases.pend)
}

/// Adds the LPI registers of a virtual processor.
#[tactic(auto, unfolding(crate::specs::Lines::bases_line))]
pub fn push_bases(out: &mut String, vcpu: Vcpu, bases: &Bases) -> Result<(), AllocError>
    ensures { OnOk result (string_bytes out.new
        ≡ string_bytes out.old ++ spec.bases_line vcpu.0 bases.now) }
{
    push_switch(out, vcpu, bases.on)?;
    push_tables(out, bases)
}

#[tactic(auto, unfolding(crate::specs::Lines::enabled_text))]
fn enabled_text(enabled: bool) -> &'static str
    ensures { result.now ≡ spec.enabled_text enabled }
{
    if enabled {
        ", enabled"
    } else {
        ", not enabled"
    }
}

#[tactic(auto, unfolding(crate::specs::Lines::standing_text))]
fn push_standing(out: &mut String, state: Option<LpiState>) -> Result<(), AllocError>
    ensures { OnOk result (string_bytes out.new
        ≡ string_bytes out.old ++ spec.standing_text state) }
{
    match state {
        Some(state) => {
            out.push_str(enabled_text(state.enabled))?;
            push_value(out, ", priority", state.priority.into())
        }
        None => Ok(()),
    }
}

/// Adds an LPI that is pending.
#[tactic(auto, unfolding(crate::specs::Lines::pending_line))]
pub fn push_lpi(
    out: &mut String,
    vcpu: Vcpu,
    intid: Intid,
    state: Option<LpiState>,
) -> Result<(), AllocError>
    ensures { OnOk result (string_bytes out.new
        ≡ string_bytes out.old ++ spec.pending_line vcpu.0 intid.0 state) }
{
    push_number(out, "vcpu", vcpu.0.into())?;
    push_number(out, " LPI", intid.0.into())?;
    out.push_str(" pending")?;
    push_standing(out, state)?;
    out.push_str("\n")
}
