//! Why a state can't be saved or restored, as it is printed.
ghost use Rattle.std.specs.Prelude.{◌≡◌, ◌++◌, IfOk, OnOk, codes};
ghost use Rattle.std.specs.Fmt.{decimal};
ghost use Rattle.std.specs.String.{string_bytes};
ghost use Rattle.its_history.specs.Texts as spec;

use crate::numbers::push_decimal;
use crate::text::its_mark;
use gits_regs::Register;
use its_plain::{Region, RestoreFault, SaveFault, Table};
use std::alloc::{AllocError, Global};
use std::fmt::Write;

/// The cause of a refused save or migration, as `overlap itt 16 itt 17`.
pub fn save_fault_text(alloc: Global, fault: &SaveFault) -> Result<String, AllocError>
    ensures { IfOk result (λ text. string_bytes text ≡ spec.save_fault_text fault.now) }
{
    let mut out = String::new(alloc);
    push_save_fault(&mut out, *fault)?;
    Ok(out)
}

/// The cause of a refused restore, as `bad-target 1 4`.
pub fn restore_fault_text(alloc: Global, fault: &RestoreFault) -> Result<String, AllocError>
    ensures { IfOk result (λ text. string_bytes text ≡ spec.restore_fault_text fault.now) }
{
    let mut out = String::new(alloc);
    push_restore_fault(&mut out, *fault)?;
    Ok(out)
}

/// The first reason why a state can't be saved.
#[tactic(auto, unfolding(crate::specs::Texts::save_fault_text))]
fn push_save_fault(out: &mut String, fault: SaveFault) -> Result<(), AllocError>
    ensures { OnOk result (string_bytes out.new ≡ string_bytes out.old
        ++ spec.save_fault_text fault) }
{
    match fault {
        SaveFault::NoPlace(its, dev) => {
            out.push_str("no-place ")?;
            push_numbered(out, its_mark(its), dev.0.into())
        }
        SaveFault::Outside(region) => {
            out.push_str("outside ")?;
            push_region(out, region)
        }
        SaveFault::Overlap(first, second) => {
            out.push_str("overlap ")?;
            push_region(out, first)?;
            out.push_str(" ")?;
            push_region(out, second)
        }
    }
}

/// What a refused save is answered.
pub fn push_refused_save(out: &mut String, fault: SaveFault) -> Result<(), AllocError>
    ensures { OnOk result (string_bytes out.new
        ≡ string_bytes out.old ++ codes "save-fault " ++ spec.save_fault_text fault) }
{
    out.push_str("save-fault ")?;
    push_save_fault(out, fault)
}

#[tactic(auto, unfolding(crate::specs::Texts::region_text))]
fn push_region(out: &mut String, region: Region) -> Result<(), AllocError>
    ensures { OnOk result (string_bytes out.new ≡ string_bytes out.old ++ spec.region_text region) }
{
    match region {
        Region::Devices(its) => push_table(out, its, "devices"),
        Region::Level1(its) => push_table(out, its, "level1"),
        Region::Page(its, k) => {
            push_table(out, its, "page ")?;
            push_decimal(out, k.into())
        }
        Region::Collections(its) => push_table(out, its, "collections"),
        Region::Itt(its, dev) => {
            push_table(out, its, "itt ")?;
            push_decimal(out, dev.0.into())
        }
        Region::Pending(vcpu) => push_numbered(out, "pending ", vcpu.0.into()),
        Region::Config => out.push_str("config"),
        Region::ConfigOf(vcpu) => push_numbered(out, "config ", vcpu.0.into()),
        Region::Queue(its) => push_table(out, its, "queue"),
    }
}

/// The name of a translator's table.
fn push_table(out: &mut String, its: u8, name: &str) -> Result<(), AllocError>
    ensures { OnOk result (string_bytes out.new
        ≡ string_bytes out.old ++ spec.table_mark its ++ name.now) }
{
    out.push_str(table_mark(its))?;
    out.push_str(name)
}

/// What the name of a translator's table begins with.
#[tactic(auto, unfolding(crate::specs::Texts::table_mark))]
fn table_mark(its: u8) -> &'static str
    ensures { result.now ≡ spec.table_mark its }
{
    if its == 0 { "" } else { "b-" }
}

/// The first fault of memory and registers.
#[tactic(auto, unfolding(crate::specs::Texts::restore_fault_text))]
fn push_restore_fault(out: &mut String, fault: RestoreFault) -> Result<(), AllocError>
    ensures { OnOk result (string_bytes out.new ≡ string_bytes out.old
        ++ spec.restore_fault_text fault) }
{
    match fault {
        RestoreFault::NotValid(register) => write!(out, "not-valid {}", register_name(register)),
        RestoreFault::OutsideTable(addr) => write!(out, "outside-table 0x{:x}", addr.0),
        RestoreFault::BadCollection(icid) => write!(out, "bad-collection {}", icid.0),
        RestoreFault::BadTarget(icid, number) => write!(out, "bad-target {} {number}", icid.0),
        RestoreFault::DoubleCollection(icid) => write!(out, "double-collection {}", icid.0),
        RestoreFault::BadSize(dev) => write!(out, "bad-size {}", dev.0),
        RestoreFault::PastEnd(table, entry, next) => push_past_end(out, table, entry, next),
        RestoreFault::BadIntid(dev, ev, intid) => {
            write!(out, "bad-intid {} {} {}", dev.0, ev.0, intid.0)
        }
        RestoreFault::BadRedist(vcpu) => write!(out, "bad-redist {}", vcpu.0),
    }
}

#[tactic(auto, unfolding(crate::specs::Texts::register_text))]
fn register_name(register: Register) -> &'static str
    ensures { result.now ≡ spec.register_text register }
{
    match register {
        Register::Cbaser => "cbaser",
        Register::Creadr => "creadr",
        Register::Cwriter => "cwriter",
        Register::Baser0 => "baser0",
        Register::Baser1 => "baser1",
    }
}

#[tactic(auto, unfolding(crate::specs::Texts::past_end_text))]
fn push_past_end(out: &mut String, table: Table, entry: u32, next: u32) -> Result<(), AllocError>
    ensures { OnOk result
        (string_bytes out.new ≡ string_bytes out.old ++ spec.past_end_text table entry next) }
{
    match table {
        Table::Devices => write!(out, "past-end devices {entry} {next}"),
        Table::Itt(dev) => write!(out, "past-end itt {} {entry} {next}", dev.0),
    }
}

/// A number after a text.
fn push_numbered(out: &mut String, text: &str, number: u64) -> Result<(), AllocError>
    ensures { OnOk result (string_bytes out.new ≡ string_bytes out.old ++ text.now
        ++ decimal number) }
{
    out.push_str(text)?;
    push_decimal(out, number)
}
