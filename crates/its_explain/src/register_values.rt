//! Values of registers by their fields, for people.
ghost use Rattle.std.specs.Prelude.{◌≡◌, ◌++◌, OnOk};
ghost use Rattle.std.specs.Option.{option_map};
ghost use Rattle.std.specs.String.{string_bytes};
ghost use Rattle.gits_regs.specs.Registers as regs;
ghost use Rattle.its_explain.specs.RegisterValues as spec;

use crate::numbers::{push_enclosed, push_in_hexadecimal, push_numbered};
use its_types::{bit_of, field};
use std::alloc::AllocError;

/// The name of a translator's register at an offset, or at its upper half's.
#[tactic(auto, unfolding(crate::specs::RegisterValues::translator_register))]
pub fn translator_register(off: u32) -> Option<&'static str>
    ensures { option_map (λ n. n.now) result ≡ spec.translator_register off }
{
    match off {
        0x0 => Some("GITS_CTLR"),
        0x4 => Some("GITS_IIDR"),
        0x8 | 0xc => Some("GITS_TYPER"),
        0x80 | 0x84 => Some("GITS_CBASER"),
        0x88 | 0x8c => Some("GITS_CWRITER"),
        0x90 | 0x94 => Some("GITS_CREADR"),
        0x100 | 0x104 => Some("GITS_BASER0"),
        0x108 | 0x10c => Some("GITS_BASER1"),
        0xffe8 => Some("GITS_PIDR2"),
        _ => None,
    }
}

/// The name of an LPI register at an offset, or at its upper half's.
#[tactic(auto, unfolding(crate::specs::RegisterValues::lpi_register))]
pub fn lpi_register(off: u32) -> Option<&'static str>
    ensures { option_map (λ n. n.now) result ≡ spec.lpi_register off }
{
    match off {
        0x0 => Some("GICR_CTLR"),
        0x70 | 0x74 => Some("GICR_PROPBASER"),
        0x78 | 0x7c => Some("GICR_PENDBASER"),
        0xa0 | 0xa4 => Some("GICR_INVLPIR"),
        0xb0 | 0xb4 => Some("GICR_INVALLR"),
        0xc0 => Some("GICR_SYNCR"),
        _ => None,
    }
}

/// Adds the name and the fields of a translator's register, of which this is the whole value.
pub fn push_translator_value(out: &mut String, off: u32, value: u64) -> Result<(), AllocError>
    ensures { OnOk result
        (string_bytes out.new ≡ string_bytes out.old ++ spec.translator_text off value) }
{
    match translator_register(off) {
        Some(name) => push_translator_named(out, name, off, value),
        None => out.push_str("no register here: it reads zero and ignores writes"),
    }
}

#[tactic(auto, unfolding(crate::specs::RegisterValues::named_text))]
fn push_translator_named(
    out: &mut String,
    name: &str,
    off: u32,
    value: u64,
) -> Result<(), AllocError>
    ensures { OnOk result (string_bytes out.new ≡ string_bytes out.old
        ++ spec.named_text name.now (spec.translator_fields off value)) }
{
    push_name(out, name)?;
    push_translator_fields(out, off, value)
}

#[tactic(auto, unfolding(crate::specs::RegisterValues::name_text))]
fn push_name(out: &mut String, name: &str) -> Result<(), AllocError>
    ensures { OnOk result
        (string_bytes out.new ≡ string_bytes out.old ++ spec.name_text name.now) }
{
    out.push_str(name)?;
    out.push_str(": ")
}

#[tactic(auto, unfolding(crate::specs::RegisterValues::translator_fields))]
fn push_translator_fields(out: &mut String, off: u32, value: u64) -> Result<(), AllocError>
    ensures { OnOk result
        (string_bytes out.new ≡ string_bytes out.old ++ spec.translator_fields off value) }
{
    match off {
        0x0 => push_enabled(out, value),
        0x4 => out.push_str("who made the translator"),
        0x8 | 0xc => push_typer(out, value),
        0x80 | 0x84 => push_queue(out, value),
        0x88 | 0x8c => push_offset(out, "commands stand up to offset ", value),
        0x90 | 0x94 => push_offset(out, "the next command stands at offset ", value),
        0x100 | 0x104 => push_table(out, "the device table at ", value),
        0x108 | 0x10c => push_table(out, "the collection table at ", value),
        _ => push_version(out, value),
    }
}

fn push_enabled(out: &mut String, value: u64) -> Result<(), AllocError>
    ensures { OnOk result
        (string_bytes out.new ≡ string_bytes out.old ++ spec.enabled_text value) }
{
    out.push_str(if bit_of(value, 0) {
        "the translator is enabled"
    } else {
        "the translator isn't enabled"
    })
}

#[tactic(auto, unfolding(crate::specs::RegisterValues::offset_text))]
fn push_offset(out: &mut String, words: &str, value: u64) -> Result<(), AllocError>
    ensures { OnOk result
        (string_bytes out.new ≡ string_bytes out.old ++ spec.offset_text words.now value) }
{
    push_in_hexadecimal(out, words, value)?;
    out.push_str(" of the queue")
}

fn push_version(out: &mut String, value: u64) -> Result<(), AllocError>
    ensures { OnOk result
        (string_bytes out.new ≡ string_bytes out.old ++ spec.version_text value) }
{
    push_enclosed(out, "version ", field(value, 4, 4), " of the architecture")
}

#[tactic(auto, unfolding(crate::specs::RegisterValues::typer_text))]
fn push_typer(out: &mut String, value: u64) -> Result<(), AllocError>
    ensures { OnOk result
        (string_bytes out.new ≡ string_bytes out.old ++ spec.typer_text value) }
{
    push_numbered(out, "DeviceIDs of ", field(value, 13, 5) + 1)?;
    push_numbered(out, " bits, EventIDs of ", field(value, 8, 5) + 1)?;
    push_numbered(out, ", and ", field(value, 4, 4) + 1)?;
    out.push_str(" bytes of table for each event")
}

#[tactic(auto, unfolding(crate::specs::RegisterValues::queue_text))]
fn push_queue(out: &mut String, value: u64) -> Result<(), AllocError>
    ensures { OnOk result
        (string_bytes out.new ≡ string_bytes out.old ++ spec.queue_text value) }
{
    push_in_hexadecimal(out, "the queue at ", field(value, 16, 36) * 0x1_0000)?;
    push_in_hexadecimal(out, " has ", queue_bytes(value))?;
    out.push_str(" bytes")?;
    push_validity(out, value)
}

/// How many bytes the command queue of a GITS_CBASER has.
pub fn queue_bytes(cbaser: u64) -> u64
    ensures { result ≡ regs.size_of cbaser }
{
    (field(cbaser, 0, 8) + 1) * 4096
}

#[tactic(auto, unfolding(crate::specs::RegisterValues::table_text))]
fn push_table(out: &mut String, words: &str, value: u64) -> Result<(), AllocError>
    ensures { OnOk result
        (string_bytes out.new ≡ string_bytes out.old ++ spec.table_text words.now value) }
{
    push_in_hexadecimal(out, words, table_base(value))?;
    push_numbered(out, " has ", table_pages(value))?;
    out.push_str(" x 64 KiB")?;
    push_levels(out, value)?;
    push_validity(out, value)
}

fn table_base(baser: u64) -> u64
    ensures { result ≡ regs.table_base baser }
{
    field(baser, 12, 4) * 0x1_0000_0000_0000 + field(baser, 16, 32) * 0x1_0000
}

/// How many pages of 64 KiB the table of a GITS_BASERn has.
pub fn table_pages(baser: u64) -> u64
    ensures { result ≡ regs.pages baser }
{
    field(baser, 0, 8) + 1
}

fn push_levels(out: &mut String, value: u64) -> Result<(), AllocError>
    ensures { OnOk result
        (string_bytes out.new ≡ string_bytes out.old ++ spec.levels_text value) }
{
    if bit_of(value, 62) {
        out.push_str(", in two levels")
    } else {
        Ok(())
    }
}

/// Adds what bit 63 says.
fn push_validity(out: &mut String, value: u64) -> Result<(), AllocError>
    ensures { OnOk result
        (string_bytes out.new ≡ string_bytes out.old ++ spec.validity_text value) }
{
    out.push_str(if bit_of(value, 63) {
        ", valid"
    } else {
        ", not valid"
    })
}

/// Adds the name and the fields of an LPI register, of which this is the whole value.
pub fn push_lpi_value(out: &mut String, off: u32, value: u64) -> Result<(), AllocError>
    ensures { OnOk result
        (string_bytes out.new ≡ string_bytes out.old ++ spec.lpi_text off value) }
{
    match lpi_register(off) {
        Some(name) => push_lpi_named(out, name, off, value),
        None => out.push_str("no LPI register: it reads zero and ignores writes"),
    }
}

#[tactic(auto, unfolding(crate::specs::RegisterValues::named_text))]
fn push_lpi_named(out: &mut String, name: &str, off: u32, value: u64) -> Result<(), AllocError>
    ensures { OnOk result (string_bytes out.new ≡ string_bytes out.old
        ++ spec.named_text name.now (spec.lpi_fields off value)) }
{
    push_name(out, name)?;
    push_lpi_fields(out, off, value)
}

#[tactic(auto, unfolding(crate::specs::RegisterValues::lpi_fields))]
fn push_lpi_fields(out: &mut String, off: u32, value: u64) -> Result<(), AllocError>
    ensures { OnOk result
        (string_bytes out.new ≡ string_bytes out.old ++ spec.lpi_fields off value) }
{
    match off {
        0x0 => push_on(out, value),
        0x70 | 0x74 => push_config_table(out, value),
        0x78 | 0x7c => {
            push_in_hexadecimal(
                out,
                "the pending table at ",
                field(value, 16, 36) * 0x1_0000,
            )
        }
        _ => out.push_str("it reads zero"),
    }
}

fn push_on(out: &mut String, value: u64) -> Result<(), AllocError>
    ensures { OnOk result (string_bytes out.new ≡ string_bytes out.old ++ spec.on_text value) }
{
    out.push_str(if bit_of(value, 0) {
        "LPIs are on"
    } else {
        "LPIs are off"
    })
}

#[tactic(auto, unfolding(crate::specs::RegisterValues::config_table_text))]
fn push_config_table(out: &mut String, value: u64) -> Result<(), AllocError>
    ensures { OnOk result
        (string_bytes out.new ≡ string_bytes out.old ++ spec.config_table_text value) }
{
    push_in_hexadecimal(
        out,
        "the configuration table at ",
        field(value, 12, 40) * 4096,
    )?;
    push_numbered(out, ", IDbits ", field(value, 0, 5))
}
