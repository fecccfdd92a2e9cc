//! What becomes of a write of a translator's registers, and by which rule.
ghost use Rattle.std.specs.Prelude.{◌≡◌, false};
ghost use Rattle.call_facts.specs.Writes as spec;
ghost use Rattle.gits_regs.specs.Registers as regs;

use gits_regs::{Regs, offsets};
use its_types::{bit_of, high_half, join_halves, low_half};

/// The rule by which a write of a translator's register is taken or ignored (IHI 0069, section
/// 12.19).
#[derive(Clone, Copy, Debug, PartialEq, Eq)]
pub enum WriteRule {
    /// It is taken.
    Taken,
    /// No register stands there.
    NoRegister,
    /// The register can't be written.
    ReadOnly,
    /// The register can't be written while the translator is enabled.
    WhileEnabled,
    /// The translator can be enabled with three valid bases alone.
    NoBases,
    /// The offset is at or past the queue's size.
    PastQueue,
    /// It is so already.
    Same,
}

/// The rule for a write of `size` bytes at an offset. But where it is taken, the write changes no
/// register.
#[tactic(auto, unfolding(crate::specs::Writes::rule, gits_regs::specs::Registers::write_reg))]
pub fn write_rule(registers: &Regs, off: u32, size: u8, value: u64) -> WriteRule
    ensures rule { result ≡ spec.rule registers.now off size value }
    ensures ignored { spec.is_taken result ≡ false
        → regs.write_reg registers.now off size value ≡ regs.unchanged registers.now }
{
    match size {
        8 => rule_64(registers, off, value),
        4 => rule_word(registers, off, low_half(value)),
        _ => WriteRule::NoRegister,
    }
}

#[tactic(auto, unfolding(crate::specs::Writes::rule_word, gits_regs::specs::Registers::write_word, gits_regs::specs::Registers::read_reg))]
fn rule_word(registers: &Regs, off: u32, value: u32) -> WriteRule
    ensures rule { result ≡ spec.rule_word registers.now off value }
    ensures ignored { spec.is_taken result ≡ false
        → regs.write_word registers.now off value ≡ regs.unchanged registers.now }
{
    if off == offsets::CTLR || off == offsets::IIDR || off == offsets::PIDR2 {
        if off == offsets::CTLR {
            rule_ctlr(registers, u64::from(value))
        } else {
            WriteRule::ReadOnly
        }
    } else if off % 8 == 0 {
        let whole = registers.read(off, 8);
        rule_64(registers, off, join_halves(value, high_half(whole)))
    } else if off % 8 == 4 {
        let whole = registers.read(off - 4, 8);
        rule_64(registers, off - 4, join_halves(low_half(whole), value))
    } else {
        WriteRule::NoRegister
    }
}

#[tactic(auto, unfolding(crate::specs::Writes::rule_64, gits_regs::specs::Registers::write_64))]
fn rule_64(registers: &Regs, off: u32, value: u64) -> WriteRule
    ensures rule { result ≡ spec.rule_64 registers.now off value }
    ensures ignored { spec.is_taken result ≡ false
        → regs.write_64 registers.now off value ≡ regs.unchanged registers.now }
{
    match off {
        offsets::CBASER => rule_cbaser(registers, value),
        offsets::CWRITER => rule_cwriter(registers, value),
        offsets::BASER0 => rule_baser0(registers, value),
        offsets::BASER1 => rule_baser1(registers, value),
        offsets::TYPER | offsets::CREADR => WriteRule::ReadOnly,
        _ => WriteRule::NoRegister,
    }
}

#[tactic(auto, unfolding(crate::specs::Writes::rule_ctlr, gits_regs::specs::Registers::write_ctlr))]
fn rule_ctlr(registers: &Regs, value: u64) -> WriteRule
    ensures rule { result ≡ spec.rule_ctlr registers.now value }
    ensures ignored { spec.is_taken result ≡ false
        → regs.write_ctlr registers.now value ≡ regs.unchanged registers.now }
{
    match (bit_of(value, 0), registers.enabled()) {
        (true, true) | (false, false) => WriteRule::Same,
        (false, true) => WriteRule::Taken,
        (true, false) => {
            if has_bases(registers) {
                WriteRule::Taken
            } else {
                WriteRule::NoBases
            }
        }
    }
}

fn has_bases(registers: &Regs) -> bool
    ensures { result ≡ regs.has_bases registers.now }
{
    registers.queue_valid() && registers.table_valid(0) && registers.table_valid(1)
}

#[tactic(auto, unfolding(crate::specs::Writes::rule_cbaser, gits_regs::specs::Registers::write_cbaser))]
fn rule_cbaser(registers: &Regs, value: u64) -> WriteRule
    ensures rule { result ≡ spec.rule_cbaser registers.now value }
    ensures ignored { spec.is_taken result ≡ false
        → regs.write_cbaser registers.now value ≡ regs.unchanged registers.now }
{
    if registers.enabled() {
        WriteRule::WhileEnabled
    } else if is_same_queue(registers, value & 0xB8EF_FFFF_FFFF_0CFF) {
        WriteRule::Same
    } else {
        WriteRule::Taken
    }
}

#[tactic(auto, unfolding(gits_regs::specs::Registers::read_reg, gits_regs::specs::Registers::read_64))]
fn is_same_queue(registers: &Regs, base: u64) -> bool
    ensures { result ≡ regs.is_same_queue registers.now base }
{
    registers.read(offsets::CBASER, 8) == base
        && registers.read(offsets::CREADR, 8) == 0
        && registers.read(offsets::CWRITER, 8) == 0
}

#[tactic(auto, unfolding(crate::specs::Writes::rule_cwriter, gits_regs::specs::Registers::write_cwriter))]
fn rule_cwriter(registers: &Regs, value: u64) -> WriteRule
    ensures rule { result ≡ spec.rule_cwriter registers.now value }
    ensures ignored { spec.is_taken result ≡ false
        → regs.write_cwriter registers.now value ≡ regs.unchanged registers.now }
{
    let offset = value & 0xF_FFE0;
    if offset >= registers.queue_size() {
        WriteRule::PastQueue
    } else if is_written(registers, offset) {
        WriteRule::Same
    } else {
        WriteRule::Taken
    }
}

#[tactic(auto, unfolding(gits_regs::specs::Registers::read_reg, gits_regs::specs::Registers::read_64))]
fn is_written(registers: &Regs, offset: u64) -> bool
    ensures { result ≡ spec.is_written registers.now offset }
{
    registers.read(offsets::CWRITER, 8) == offset
}

#[tactic(auto, unfolding(gits_regs::specs::Registers::write_baser0))]
fn rule_baser0(registers: &Regs, value: u64) -> WriteRule
    ensures rule { result ≡ spec.rule_baser registers.now }
    ensures ignored { spec.is_taken result ≡ false
        → regs.write_baser0 registers.now value ≡ regs.unchanged registers.now }
{
    let _value = value;
    if registers.enabled() {
        WriteRule::WhileEnabled
    } else {
        WriteRule::Taken
    }
}

#[tactic(auto, unfolding(gits_regs::specs::Registers::write_baser1))]
fn rule_baser1(registers: &Regs, value: u64) -> WriteRule
    ensures rule { result ≡ spec.rule_baser registers.now }
    ensures ignored { spec.is_taken result ≡ false
        → regs.write_baser1 registers.now value ≡ regs.unchanged registers.now }
{
    let _value = value;
    if registers.enabled() {
        WriteRule::WhileEnabled
    } else {
        WriteRule::Taken
    }
}
