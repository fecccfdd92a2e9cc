//! What writes of LPI registers came to, for people: what was kept, or the rule by which a write
//! was ignored.
ghost use Rattle.std.specs.Prelude.{◌≡◌, ◌++◌, OnOk};
ghost use Rattle.std.specs.String.{string_bytes};
ghost use Rattle.its_explain.specs.LpiWrites as spec;

use crate::access::{Access, push_ignored, push_kept};
use crate::facts::LpiRegisterFact;
use crate::numbers::{push_count, push_enclosed, push_in_hexadecimal};
use crate::register_values::{lpi_register, push_lpi_value};
use crate::replayed::Replayed;
use call_facts::{LpiRule, lpi_rule};
use its_types::{Bases, Intid, low_half};
use std::alloc::AllocError;

/// Adds what a write of an LPI register came to.
pub fn push_lpi_write(
    out: &mut String,
    machine: &Replayed,
    access: Access,
    fact: &LpiRegisterFact,
) -> Result<(), AllocError>
    ensures { OnOk result (string_bytes out.new
        ≡ string_bytes out.old ++ spec.lpi_write_text machine.now access fact.now) }
{
    match (fact.before, fact.after) {
        (Some(before), Some(after)) => push_between(out, machine, access, fact, before, after),
        _ => out.push_str("ignored: there is no such processor"),
    }
}

fn push_between(
    out: &mut String,
    machine: &Replayed,
    access: Access,
    fact: &LpiRegisterFact,
    before: Bases,
    after: Bases,
) -> Result<(), AllocError>
    ensures { OnOk result (string_bytes out.new
        ≡ string_bytes out.old ++ spec.between machine.now access fact.now before after) }
{
    match lpi_rule(&before, access.off, access.size, access.value) {
        LpiRule::NoRegister => out.push_str("ignored: no LPI register here that can be written"),
        LpiRule::WhileOn => push_while_on(out, access, fact),
        LpiRule::Same => push_same(out, access.off, fact.value),
        LpiRule::TurnsOn => push_turned_on(out, after, fact),
        LpiRule::TurnsOff => push_turned_off(out, after, fact),
        LpiRule::SetsBase => push_base(out, access, fact),
        LpiRule::Rereads => push_reread_if(out, before.on, machine, access),
    }
}

#[tactic(auto, unfolding(crate::specs::LpiWrites::while_on_text))]
fn push_while_on(out: &mut String, access: Access, fact: &LpiRegisterFact) -> Result<(), AllocError>
    ensures { OnOk result
        (string_bytes out.new ≡ string_bytes out.old ++ spec.while_on_text access fact.now) }
{
    push_ignored(out, lpi_register(access.off))?;
    let words = " can't be written while LPIs are on; it reads ";
    push_in_hexadecimal(out, words, access.part(fact.value))
}

#[tactic(auto, unfolding(crate::specs::LpiWrites::same_text))]
fn push_same(out: &mut String, off: u32, value: u64) -> Result<(), AllocError>
    ensures { OnOk result
        (string_bytes out.new ≡ string_bytes out.old ++ spec.same_text off value) }
{
    push_lpi_value(out, off, value)?;
    out.push_str(", as before")
}

fn push_turned_on(out: &mut String, after: Bases, fact: &LpiRegisterFact) -> Result<(), AllocError>
    ensures { OnOk result
        (string_bytes out.new ≡ string_bytes out.old ++ spec.turned_on_text after fact.now) }
{
    if after.on {
        push_on(out, fact.has as u64)
    } else {
        push_stay_off(out, after)
    }
}

#[tactic(auto, unfolding(crate::specs::LpiWrites::on_text))]
fn push_on(out: &mut String, pending: u64) -> Result<(), AllocError>
    ensures { OnOk result
        (string_bytes out.new ≡ string_bytes out.old ++ spec.on_text pending) }
{
    out.push_str("GICR_CTLR: LPIs are on, with ")?;
    push_count(out, pending, "pending LPI")
}

#[tactic(auto, unfolding(crate::specs::LpiWrites::stay_off_text))]
fn push_stay_off(out: &mut String, after: Bases) -> Result<(), AllocError>
    ensures { OnOk result
        (string_bytes out.new ≡ string_bytes out.old ++ spec.stay_off_text after) }
{
    let (config, pending) = (after.prop.table, after.pend.table);
    push_in_hexadecimal(
        out,
        "ignored: LPIs stay off, since their tables at ",
        config.0,
    )?;
    push_in_hexadecimal(out, " and ", pending.0)?;
    out.push_str(" don't both lie in one window each (section 12.11)")
}

fn push_turned_off(out: &mut String, after: Bases, fact: &LpiRegisterFact) -> Result<(), AllocError>
    ensures { OnOk result
        (string_bytes out.new ≡ string_bytes out.old ++ spec.turned_off_text after fact.now) }
{
    if after.on {
        out.push_str("ignored: LPIs stay on; they can be turned off with `linux` alone")
    } else {
        push_off(out, fact.had)
    }
}

#[tactic(auto, unfolding(crate::specs::LpiWrites::off_text))]
fn push_off(out: &mut String, had: usize) -> Result<(), AllocError>
    ensures { OnOk result
        (string_bytes out.new ≡ string_bytes out.old ++ spec.off_text had) }
{
    out.push_str("GICR_CTLR: LPIs are off")?;
    push_without_if(out, had as u64)
}

fn push_without_if(out: &mut String, count: u64) -> Result<(), AllocError>
    ensures { OnOk result
        (string_bytes out.new ≡ string_bytes out.old ++ spec.without_if count) }
{
    if count > 0 {
        push_without(out, count)
    } else {
        Ok(())
    }
}

#[tactic(auto, unfolding(crate::specs::LpiWrites::without_text))]
fn push_without(out: &mut String, count: u64) -> Result<(), AllocError>
    ensures { OnOk result
        (string_bytes out.new ≡ string_bytes out.old ++ spec.without_text count) }
{
    out.push_str(", without ")?;
    push_count(out, count, "LPI")?;
    push_pending(out, count)
}

fn push_pending(out: &mut String, count: u64) -> Result<(), AllocError>
    ensures { OnOk result
        (string_bytes out.new ≡ string_bytes out.old ++ spec.pending_text count) }
{
    out.push_str(if count == 1 {
        " that was pending"
    } else {
        " that were pending"
    })
}

#[tactic(auto, unfolding(crate::specs::LpiWrites::base_text))]
fn push_base(out: &mut String, access: Access, fact: &LpiRegisterFact) -> Result<(), AllocError>
    ensures { OnOk result
        (string_bytes out.new ≡ string_bytes out.old ++ spec.base_text access fact.now) }
{
    push_lpi_value(out, access.off, fact.value)?;
    push_kept(out, access, fact.value)
}

/// Adds which configurations were read again, where LPIs were on.
fn push_reread_if(
    out: &mut String,
    on: bool,
    machine: &Replayed,
    access: Access,
) -> Result<(), AllocError>
    ensures { OnOk result (string_bytes out.new ≡ string_bytes out.old
        ++ spec.reread_if on machine.now.layout.shape.lpi_bits access) }
{
    if on {
        push_reread(out, machine.shape().lpi_bits, access)
    } else {
        out.push_str("ignored: LPIs are off, so no configuration is read")
    }
}

fn push_reread(out: &mut String, bits: u8, access: Access) -> Result<(), AllocError>
    ensures { OnOk result
        (string_bytes out.new ≡ string_bytes out.old ++ spec.reread_text bits access) }
{
    if access.off == 0xa0 {
        push_one_reread(out, bits, Intid(low_half(access.value)))
    } else {
        out.push_str("the configurations of all LPIs are read again")
    }
}

fn push_one_reread(out: &mut String, bits: u8, intid: Intid) -> Result<(), AllocError>
    ensures { OnOk result
        (string_bytes out.new ≡ string_bytes out.old ++ spec.one_reread_text bits intid.0) }
{
    let number = u64::from(intid.0);
    if intid.in_range(bits) {
        push_enclosed(out, "the configuration of LPI ", number, " is read again")
    } else {
        push_enclosed(
            out,
            "ignored: ",
            number,
            " is no LPI's number (section 2.2)",
        )
    }
}
