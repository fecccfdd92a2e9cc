//! The description that numbers stand for.
ghost use Rattle.std.specs.Prelude.{◌≡◌, true, IfOk, length, map};
ghost use Rattle.std.specs.List.{list_all};
ghost use Rattle.its_plain.specs.Machine.{IsDescription, HasTablesFor};
ghost use Rattle.its_plain.specs.Sound.{IsShape};
ghost use Rattle.its_numbers.specs.Descriptions as spec;

use crate::numbers::{
    DescriptionIn, FillIn, RedistributorIn, RequestersIn, TranslatorIn, WindowIn,
};
use gicr_regs::{GicrRegisters, GicrValues};
use gits_regs::RegValues;
use its_plain::{Desc, Fill, Its, LpiTables, RequesterRanges, Requesters};
use its_types::{Addr, DeviceId, Limits, Listed, MOST_VCPUS, Profile, Shape};
use std::alloc::{AllocError, Global};

/// Whether all numbers are in their ranges, of so many pending tables, redistributors' registers
/// and bytes.
pub fn is_in_range(
    description: &DescriptionIn,
    translators: &[TranslatorIn],
    pending: usize,
    redistributors: usize,
    fills: &[FillIn],
    bytes: usize,
) -> bool
    ensures { result
        ≡ spec.is_in_range description.now translators.now pending redistributors fills.now
        bytes }
{
    numbers_in_range(description)
        && translators_in_range(translators)
        && counts_in_range(description, pending, redistributors)
        && lengths_fit(fills, bytes)
}

fn numbers_in_range(description: &DescriptionIn) -> bool
    ensures { result ≡ spec.numbers_in_range description.now }
{
    between(1, u32::from(MOST_VCPUS), description.vcpus)
        && between(16, 20, description.device_bits)
        && between(14, 20, description.lpi_bits)
        && between(1, 2, description.profile)
        && description.programmed < 2
        && description.restored < 3
        && description.linux_guest < 2
}

fn translators_in_range(translators: &[TranslatorIn]) -> bool
    ensures { result ≡ spec.translators_in_range translators.now }
{
    let count = translators.len();
    1 <= count && count <= 2 && all_in_range(translators)
}

fn all_in_range(translators: &[TranslatorIn]) -> bool
    ensures { result ≡ list_all spec.translator_in_range translators.now }
{
    translators
        .iter()
        .all(|translator| translator.has_frames < 2)
}

fn between(least: u32, most: u32, number: u32) -> bool
    ensures { result ≡ spec.between least most number }
{
    least <= number && number <= most
}

fn counts_in_range(description: &DescriptionIn, pending: usize, redistributors: usize) -> bool
    ensures { result ≡ spec.counts_in_range description.now pending redistributors }
{
    let count = if description.programmed == 0 {
        pending
    } else {
        redistributors
    };
    count == description.vcpus as usize
}

// Whether the fills take so many bytes together.
fn lengths_fit(fills: &[FillIn], bytes: usize) -> bool
    ensures { result ≡ spec.lengths_fit fills.now bytes }
{
    let mut left = bytes as u64;
    let mut rest = fills;
    while let [fill, others @ ..] = rest {
        if fill.length > left {
            return false;
        }
        left -= fill.length;
        rest = others;
    }
    left == 0
}

/// The description.
pub fn description(
    alloc: Global,
    numbers: &DescriptionIn,
    translators: &[TranslatorIn],
    windows: &[WindowIn],
    pending: &[u64],
    redistributors: &[RedistributorIn],
    requesters: &[RequestersIn],
    fills: &[FillIn],
    bytes: &[u8],
) -> Result<Desc, AllocError>
    requires numbers { spec.numbers_in_range numbers.now ≡ true }
    requires translators { spec.translators_in_range translators.now ≡ true }
    requires counts { spec.counts_in_range numbers.now (length pending.now)
        (length redistributors.now) ≡ true }
    requires lengths { spec.lengths_fit fills.now (length bytes.now) ≡ true }
    ensures described { IfOk result IsDescription }
    ensures count { IfOk result (λ d. length d.translators ≡ length translators.now) }
    ensures described_by { IfOk result (λ d. d
        ≡ spec.description_of numbers.now translators.now windows.now pending.now
        redistributors.now requesters.now fills.now bytes.now) }
{
    Ok(Desc {
        shape: shape(numbers),
        shards: 1,
        limits: limits_of(translators.len()),
        windows: Listed::from_vec(windows_of(alloc, windows)?),
        memory_limit: u64::MAX,
        tables: tables(alloc, numbers, pending, redistributors)?,
        fills: fills_of(alloc, fills, bytes)?,
        translators: Listed::from_vec(translators_of(alloc, numbers, translators)?),
        requesters: ranges_of(alloc, requesters)?,
        from_kvm: numbers.restored == 2,
        track: false,
    })
}

// The stamps of two translators have fewer bits.
fn limits_of(translators: usize) -> Limits
    ensures { result ≡ spec.limits_of translators }
{
    Limits {
        stamp_last: if translators == 1 { 16_777_215 } else { 4095 },
        place_last: 1_099_511_627_775,
    }
}

fn shape(numbers: &DescriptionIn) -> Shape
    requires { spec.numbers_in_range numbers.now ≡ true }
    ensures shape { result ≡ spec.shape_of numbers.now }
    ensures ranges { IsShape result }
{
    Shape {
        vcpus: numbers.vcpus as u16,
        dev_bits: numbers.device_bits as u8,
        lpi_bits: numbers.lpi_bits as u8,
        profile: if numbers.profile == 1 {
            Profile::One
        } else {
            Profile::Two
        },
        linux: numbers.linux_guest == 1,
    }
}

fn windows_of(alloc: Global, windows: &[WindowIn]) -> Result<Vec<(Addr, u64)>, AllocError>
    ensures { IfOk result (λ v. v.items ≡ map spec.window_of windows.now) }
{
    windows
        .iter()
        .map(|window| (Addr(window.base), window.length))
        .collect(alloc)
}

fn tables(
    alloc: Global,
    numbers: &DescriptionIn,
    pending: &[u64],
    redistributors: &[RedistributorIn],
) -> Result<LpiTables, AllocError>
    requires { spec.counts_in_range numbers.now (length pending.now) (length redistributors.now)
        ≡ true }
    ensures counts { IfOk result (HasTablesFor numbers.now.vcpus) }
    ensures tables { IfOk result (λ t. t
        ≡ spec.tables_of numbers.now pending.now redistributors.now) }
{
    if numbers.programmed == 0 {
        Ok(LpiTables::Described {
            config: Addr(numbers.config),
            pending: Listed::from_vec(addresses(alloc, pending)?),
        })
    } else {
        Ok(LpiTables::Registers(registers_of(alloc, redistributors)?))
    }
}

fn addresses(alloc: Global, words: &[u64]) -> Result<Vec<Addr>, AllocError>
    ensures { IfOk result (λ v. v.items ≡ map spec.address_of words.now) }
{
    words.iter().map(|word| Addr(*word)).collect(alloc)
}

fn registers_of(alloc: Global, redistributors: &[RedistributorIn]) -> Result<GicrValues, AllocError>
    ensures { IfOk result (λ values. values ≡ spec.registers_of redistributors.now) }
{
    Ok(GicrValues {
        registers: Listed::from_vec(registers_in(alloc, redistributors)?),
    })
}

fn registers_in(
    alloc: Global,
    redistributors: &[RedistributorIn],
) -> Result<Vec<GicrRegisters>, AllocError>
    ensures { IfOk result (λ v. v.items ≡ map spec.registers_in redistributors.now) }
{
    redistributors
        .iter()
        .map(|given| GicrRegisters {
            ctlr: given.ctlr,
            propbaser: given.propbaser,
            pendbaser: given.pendbaser,
        })
        .collect(alloc)
}

fn fills_of(alloc: Global, fills: &[FillIn], bytes: &[u8]) -> Result<Listed<Fill>, AllocError>
    requires { spec.lengths_fit fills.now (length bytes.now) ≡ true }
    ensures { IfOk result (λ list. list ≡ spec.fills_of fills.now bytes.now) }
{
    let mut list = Listed::new(alloc);
    let mut rest = fills;
    let mut left = bytes;
    while let [fill, others @ ..] = rest {
        let (own, more) = left.split_at(fill.length as usize);
        list.push(Fill {
            addr: Addr(fill.address),
            bytes: Listed::from_vec(Vec::from_slice(alloc, own)?),
        })?;
        rest = others;
        left = more;
    }
    Ok(list)
}

fn translators_of(
    alloc: Global,
    numbers: &DescriptionIn,
    translators: &[TranslatorIn],
) -> Result<Vec<Its>, AllocError>
    ensures { IfOk result (λ v. v.items ≡ spec.translators_of numbers.now translators.now) }
{
    translators
        .iter()
        .map(|given| translator_of(numbers, given))
        .collect(alloc)
}

fn translator_of(numbers: &DescriptionIn, given: &TranslatorIn) -> Its
    ensures { result ≡ spec.translator_of numbers.now given.now }
{
    Its {
        restore: restore(numbers, given),
        frames: frames(given),
    }
}

fn frames(given: &TranslatorIn) -> Option<Addr>
    ensures { result ≡ spec.frames_of given.now }
{
    if given.has_frames == 0 {
        None
    } else {
        Some(Addr(given.frames))
    }
}

fn ranges_of(alloc: Global, requesters: &[RequestersIn]) -> Result<RequesterRanges, AllocError>
    ensures { IfOk result (λ ranges. ranges ≡ map spec.requesters_of requesters.now) }
{
    let lines = requesters_of(alloc, requesters)?;
    RequesterRanges::from_slice(alloc, &lines)
}

fn requesters_of(alloc: Global, requesters: &[RequestersIn]) -> Result<Vec<Requesters>, AllocError>
    ensures { IfOk result (λ v. v.items ≡ map spec.requesters_of requesters.now) }
{
    requesters
        .iter()
        .map(|some| Requesters {
            first: some.first,
            last: some.last,
            dev: DeviceId(some.device),
        })
        .collect(alloc)
}

fn restore(numbers: &DescriptionIn, given: &TranslatorIn) -> Option<RegValues>
    ensures { result ≡ spec.restore_of numbers.now given.now }
{
    if numbers.restored == 0 {
        return None;
    }
    Some(RegValues {
        ctlr: given.ctlr,
        cbaser: given.cbaser,
        creadr: given.creadr,
        cwriter: given.cwriter,
        baser0: given.baser0,
        baser1: given.baser1,
    })
}
