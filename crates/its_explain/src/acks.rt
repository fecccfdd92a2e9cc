//! What acknowledgements came to, for people.
ghost use Rattle.std.specs.Prelude.{◌≡◌, ◌++◌, OnOk};
ghost use Rattle.std.specs.String.{string_bytes};
ghost use Rattle.its_explain.specs.Acks as spec;
ghost use Rattle.its_explain.specs.Chosen.{ack_text};

use crate::facts::Fact;
use crate::numbers::{push_enclosed, push_hex_byte, push_small, push_wide};
use crate::sources::Sources;
use call_facts::{LpiState, Waiting};
use its_plain::{Ack, Call};
use its_types::{Bases, Intid, Vcpu};
use std::alloc::AllocError;

/// Adds what an acknowledgement, or a look at what there is to acknowledge, came to.
pub fn push_ack(
    out: &mut String,
    sources: &Sources,
    call: &Call,
    ack: Ack,
) -> Result<(), AllocError>
    ensures { OnOk result (string_bytes out.new ≡ string_bytes out.old
        ++ ack_text sources.now.machine.now sources.now.fact call.now ack) }
{
    let (machine, fact) = (sources.machine, &sources.fact);
    match *call {
        Call::Take(vcpu) => push_take(out, machine.bases(vcpu), fact, vcpu, ack),
        Call::Show(vcpu) => push_show(out, machine.bases(vcpu), fact, vcpu, ack),
        Call::Best { vcpu, mask } => push_best(out, machine.bases(vcpu), fact, vcpu, mask, ack),
        Call::Claim { vcpu, intid } => push_claim(out, fact, vcpu, intid, ack),
        _ => Ok(()),
    }
}

/// Adds what the acknowledgement of the lowest came to.
pub fn push_take(
    out: &mut String,
    bases: Option<Bases>,
    fact: &Fact,
    vcpu: Vcpu,
    ack: Ack,
) -> Result<(), AllocError>
    ensures { OnOk result (string_bytes out.new
        ≡ string_bytes out.old ++ spec.take_text bases fact.now vcpu.0 ack) }
{
    match ack {
        Ack::Some { .. } => push_lowest(out, vcpu, ", and not pending any more"),
        Ack::None => push_none_of(out, bases, vcpu, None, fact.waiting()),
    }
}

/// Adds what a look at the lowest came to.
pub fn push_show(
    out: &mut String,
    bases: Option<Bases>,
    fact: &Fact,
    vcpu: Vcpu,
    ack: Ack,
) -> Result<(), AllocError>
    ensures { OnOk result (string_bytes out.new
        ≡ string_bytes out.old ++ spec.show_text bases fact.now vcpu.0 ack) }
{
    match ack {
        Ack::Some { .. } => push_lowest(out, vcpu, ""),
        Ack::None => push_none_of(out, bases, vcpu, None, fact.waiting()),
    }
}

/// Adds what a look at the first by priority came to, of those below a mask.
pub fn push_best(
    out: &mut String,
    bases: Option<Bases>,
    fact: &Fact,
    vcpu: Vcpu,
    mask: u8,
    ack: Ack,
) -> Result<(), AllocError>
    ensures { OnOk result (string_bytes out.new
        ≡ string_bytes out.old ++ spec.first_below_text bases fact.now vcpu.0 mask ack) }
{
    match ack {
        Ack::Some { .. } => push_first_below(out, vcpu, mask),
        Ack::None => push_none_of(out, bases, vcpu, Some(mask), fact.waiting()),
    }
}

#[tactic(auto, unfolding(crate::specs::Acks::best_text))]
fn push_first_below(out: &mut String, vcpu: Vcpu, mask: u8) -> Result<(), AllocError>
    ensures { OnOk result
        (string_bytes out.new ≡ string_bytes out.old ++ spec.best_text vcpu.0 mask) }
{
    push_small(out, "the first by priority at processor ", vcpu.0)?;
    push_hex_byte(out, ", of those below ", mask)
}

fn push_lowest(out: &mut String, vcpu: Vcpu, words: &str) -> Result<(), AllocError>
    ensures { OnOk result
        (string_bytes out.new ≡ string_bytes out.old ++ spec.lowest_text vcpu.0 words.now) }
{
    push_enclosed(
        out,
        "the lowest that is pending and enabled at processor ",
        u64::from(vcpu.0),
        words,
    )
}

/// Adds why there is no LPI to acknowledge.
fn push_none_of(
    out: &mut String,
    bases: Option<Bases>,
    vcpu: Vcpu,
    mask: Option<u8>,
    waiting: Option<Waiting>,
) -> Result<(), AllocError>
    ensures { OnOk result (string_bytes out.new
        ≡ string_bytes out.old ++ spec.none_of bases vcpu.0 mask waiting) }
{
    match waiting {
        Some(waiting) => push_none(out, bases, vcpu, mask, waiting),
        None => Ok(()),
    }
}

fn push_none(
    out: &mut String,
    bases: Option<Bases>,
    vcpu: Vcpu,
    mask: Option<u8>,
    waiting: Waiting,
) -> Result<(), AllocError>
    ensures { OnOk result (string_bytes out.new
        ≡ string_bytes out.old ++ spec.none_text bases vcpu.0 mask waiting) }
{
    match waiting {
        Waiting::Nothing => push_nothing(out, bases, vcpu),
        Waiting::NotEnabled(intid) => push_not_enabled(out, vcpu, intid),
        Waiting::Enabled { intid, priority } => push_first(out, vcpu, intid, priority, mask),
    }
}

#[tactic(auto, unfolding(crate::specs::Acks::first_text))]
fn push_first(
    out: &mut String,
    vcpu: Vcpu,
    intid: Intid,
    priority: u8,
    mask: Option<u8>,
) -> Result<(), AllocError>
    ensures { OnOk result (string_bytes out.new
        ≡ string_bytes out.old ++ spec.first_text vcpu.0 intid.0 priority mask) }
{
    push_small(out, "the first at processor ", vcpu.0)?;
    push_wide(out, " is LPI ", intid.0)?;
    push_hex_byte(out, " of priority ", priority)?;
    push_mask(out, mask)
}

fn push_mask(out: &mut String, mask: Option<u8>) -> Result<(), AllocError>
    ensures { OnOk result (string_bytes out.new ≡ string_bytes out.old ++ spec.below_text mask) }
{
    match mask {
        Some(mask) => push_hex_byte(out, ", which isn't below ", mask),
        None => Ok(()),
    }
}

#[tactic(auto, unfolding(crate::specs::Acks::nothing_text))]
fn push_nothing(out: &mut String, bases: Option<Bases>, vcpu: Vcpu) -> Result<(), AllocError>
    ensures { OnOk result
        (string_bytes out.new ≡ string_bytes out.old ++ spec.nothing_text bases vcpu.0) }
{
    push_small(out, "no LPI is pending at processor ", vcpu.0)?;
    push_off(out, bases)
}

fn push_off(out: &mut String, bases: Option<Bases>) -> Result<(), AllocError>
    ensures { OnOk result (string_bytes out.new ≡ string_bytes out.old ++ spec.off_text bases) }
{
    match bases {
        Some(bases) => push_switch(out, bases.on),
        None => push_switch(out, true),
    }
}

fn push_switch(out: &mut String, on: bool) -> Result<(), AllocError>
    ensures { OnOk result (string_bytes out.new ≡ string_bytes out.old ++ spec.switch_text on) }
{
    if on {
        out.push_str(" (section 5.1)")
    } else {
        out.push_str(": LPIs are off there (EnableLPIs of GICR_CTLR, section 12.11)")
    }
}

#[tactic(auto, unfolding(crate::specs::Acks::not_enabled_text))]
fn push_not_enabled(out: &mut String, vcpu: Vcpu, intid: Intid) -> Result<(), AllocError>
    ensures { OnOk result
        (string_bytes out.new ≡ string_bytes out.old ++ spec.not_enabled_text vcpu.0 intid.0) }
{
    push_wide(out, "LPI ", intid.0)?;
    push_small(out, " is pending at processor ", vcpu.0)?;
    out.push_str(", and not enabled: ")?;
    out.push_str("bit 0 of its configuration byte was 0 when that was last read (section 5.1.1)")
}

/// Adds what the acknowledgement of one LPI came to.
pub fn push_claim(
    out: &mut String,
    fact: &Fact,
    vcpu: Vcpu,
    intid: Intid,
    ack: Ack,
) -> Result<(), AllocError>
    ensures { OnOk result (string_bytes out.new
        ≡ string_bytes out.old ++ spec.claim_text fact.now vcpu.0 intid.0 ack) }
{
    match ack {
        Ack::Some { .. } => push_enclosed(
            out,
            "it was pending and enabled at processor ",
            u64::from(vcpu.0),
            ", and isn't pending any more",
        ),
        Ack::None => push_not_claimed(out, vcpu, intid, fact.claimed()),
    }
}

fn push_not_claimed(
    out: &mut String,
    vcpu: Vcpu,
    intid: Intid,
    state: Option<LpiState>,
) -> Result<(), AllocError>
    ensures { OnOk result (string_bytes out.new
        ≡ string_bytes out.old ++ spec.not_claimed_text vcpu.0 intid.0 state) }
{
    match state {
        Some(state) => {
            if state.pending {
                push_not_enabled(out, vcpu, intid)
            } else {
                push_not_pending(out, vcpu, intid)
            }
        }
        None => push_enclosed(
            out,
            "",
            u64::from(intid.0),
            " is no LPI's number (section 2.2)",
        ),
    }
}

#[tactic(auto, unfolding(crate::specs::Acks::not_pending_text))]
fn push_not_pending(out: &mut String, vcpu: Vcpu, intid: Intid) -> Result<(), AllocError>
    ensures { OnOk result
        (string_bytes out.new ≡ string_bytes out.old ++ spec.not_pending_text vcpu.0 intid.0) }
{
    push_wide(out, "LPI ", intid.0)?;
    push_small(out, " isn't pending at processor ", vcpu.0)
}
