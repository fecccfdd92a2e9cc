//! The summary of a generated run.
ghost use Rattle.std.specs.Prelude.{◌≡◌, ◌+◌, ◌++◌, OnOk, IfOk};
ghost use Rattle.std.specs.String.{string_bytes};
ghost use Rattle.script_gen.specs.Summary as spec;

use crate::counts::Counts;
use std::alloc::{AllocError, Global};
use std::fmt::Write;

/// The summary of a run with one migration: its counts, and how many LPIs were pending at each
/// virtual processor after the migration.
#[tactic(auto, unfolding(crate::specs::Summary::summary))]
pub fn summary_text(alloc: Global, counts: &Counts, pending: &[u64]) -> Result<String, AllocError>
    ensures { IfOk result (λ text. string_bytes text ≡ spec.summary counts.now pending.now) }
{
    let mut out = String::new(alloc);
    push_signals(&mut out, counts)?;
    push_commands(&mut out, counts)?;
    out.push_str("migrated 1\n")?;
    for (vcpu, count) in pending.iter().enumerate() {
        push_vcpu(&mut out, vcpu, *count)?;
    }
    Ok(out)
}

#[tactic(auto, unfolding(crate::specs::Summary::signals_line))]
fn push_signals(out: &mut String, counts: &Counts) -> Result<(), AllocError>
    ensures { OnOk result (string_bytes out.new
        ≡ string_bytes out.old ++ spec.signals_line counts.now) }
{
    let sent = counts.signals;
    let delivered = counts.delivered;
    write!(out, "signals {sent} delivered {delivered}\n")
}

#[tactic(auto, unfolding(crate::specs::Summary::commands_line))]
fn push_commands(out: &mut String, counts: &Counts) -> Result<(), AllocError>
    ensures { OnOk result (string_bytes out.new
        ≡ string_bytes out.old ++ spec.commands_line counts.now) }
{
    let made = counts.commands;
    let ran = counts.ran;
    write!(out, "commands {made} ran {ran}\n")
}

fn push_vcpu(out: &mut String, vcpu: usize, count: u64) -> Result<(), AllocError>
    ensures { OnOk result (string_bytes out.new
        ≡ string_bytes out.old ++ spec.vcpu_line vcpu count) }
{
    write!(out, "vcpu {vcpu} pending {count}\n")
}
