//! What becomes of a write of the LPI registers of a redistributor, and by which rule.
ghost use Rattle.std.specs.Prelude.{◌≡◌, false};
ghost use Rattle.call_facts.specs.LpiWrites as spec;
ghost use Rattle.gicr_regs.specs.Registers as regs;
ghost use Rattle.gicr_regs.specs.declared.write.GicrWrite.TheVariants as writes;

use gicr_regs::offsets;
use its_types::{Bases, bit_of, low_half};

/// The rule for a write of an LPI register (IHI 0069, section 12.11).
#[derive(Clone, Copy, Debug, PartialEq, Eq)]
pub enum LpiRule {
    /// No register stands there that can be written.
    NoRegister,
    /// The register can't be written while LPIs are on.
    WhileOn,
    /// LPIs are so already.
    Same,
    /// LPIs are to be turned on, where both tables lie in memory.
    TurnsOn,
    /// LPIs are to be turned off, where the machine lets them.
    TurnsOff,
    /// A base is written.
    SetsBase,
    /// Configurations are to be read again, where LPIs are on.
    Rereads,
}

/// The rule for a write of `size` bytes at an offset.
#[tactic(auto, unfolding(crate::specs::LpiWrites::rule, gicr_regs::specs::Registers::asked_by))]
pub fn lpi_rule(bases: &Bases, off: u32, size: u8, value: u64) -> LpiRule
    ensures rule { result ≡ spec.rule bases.now off size value }
    ensures ignored { spec.may_change result ≡ false
        → regs.asked_by bases.now off size value ≡ writes.Ignored }
{
    match size {
        8 => rule_64(bases, off, value),
        4 => rule_word(bases, off, low_half(value)),
        _ => LpiRule::NoRegister,
    }
}

#[tactic(auto, unfolding(crate::specs::LpiWrites::rule_64, gicr_regs::specs::Registers::asked_by_64))]
fn rule_64(bases: &Bases, off: u32, value: u64) -> LpiRule
    ensures rule { result ≡ spec.rule_64 bases.now off }
    ensures ignored { spec.may_change result ≡ false
        → regs.asked_by_64 bases.now off value ≡ writes.Ignored }
{
    let _value = value;
    match off {
        offsets::PROPBASER | offsets::PENDBASER => rule_base(bases),
        offsets::INVLPIR | offsets::INVALLR => LpiRule::Rereads,
        _ => LpiRule::NoRegister,
    }
}

#[tactic(auto, unfolding(crate::specs::LpiWrites::rule_word, gicr_regs::specs::Registers::asked_by_word))]
fn rule_word(bases: &Bases, off: u32, value: u32) -> LpiRule
    ensures rule { result ≡ spec.rule_word bases.now off value }
    ensures ignored { spec.may_change result ≡ false
        → regs.asked_by_word bases.now off value ≡ writes.Ignored }
{
    match off {
        offsets::CTLR => rule_ctlr(bases, u64::from(value)),
        offsets::PROPBASER | offsets::PROPBASER_HIGH => rule_base(bases),
        offsets::PENDBASER | offsets::PENDBASER_HIGH => rule_base(bases),
        offsets::INVLPIR | offsets::INVALLR | offsets::INVALLR_HIGH => LpiRule::Rereads,
        _ => LpiRule::NoRegister,
    }
}

fn rule_base(bases: &Bases) -> LpiRule
    ensures { result ≡ spec.rule_base bases.now }
{
    if bases.on {
        LpiRule::WhileOn
    } else {
        LpiRule::SetsBase
    }
}

fn rule_ctlr(bases: &Bases, value: u64) -> LpiRule
    ensures { result ≡ spec.rule_ctlr bases.now value }
{
    match (bit_of(value, 0), bases.on) {
        (true, false) => LpiRule::TurnsOn,
        (false, true) => LpiRule::TurnsOff,
        _ => LpiRule::Same,
    }
}
