//! Why memory and registers stand for no state, for people.
use crate::call_lines::{line_of_processor, nth_line};
use crate::machine_fault::push_described;
use its_plain::RestoreFault;
use std::alloc::AllocError;
use std::fmt::Write;

/// Adds the line of the registers that are restored, what is wrong, and the rule.
pub fn push_restore_fault(
    out: &mut String,
    input: &[u8],
    its: u8,
    fault: RestoreFault,
) -> Result<(), AllocError> {
    let name = if its == 0 { "restore" } else { "brestore" };
    let found = match fault {
        RestoreFault::BadRedist(vcpu) => line_of_processor(input, "rrestore", vcpu.0),
        _ => nth_line(input, name, 0),
    };
    push_described(out, found)?;
    writeln!(out, "{fault}")?;
    writeln!(out, "{} (KVM, arm-vgic-its).", rule(fault))
}

fn rule(fault: RestoreFault) -> &'static str {
    match fault {
        RestoreFault::OutsideTable(_) =>
            "Each entry that the walk reaches has to lie in one window",
        RestoreFault::BadSize(_) => "A device's EventIDs have 1 to 16 bits",
        RestoreFault::BadIntid(_, _, _) => "The INTID of an event is 8192 to 2^N - 1",
        RestoreFault::PastEnd(_, _, _) => {
            "`next` of an entry leads to another entry of its table, or is 0 after the last"
        }
        RestoreFault::BadTarget(_, _) => "A collection goes to one of the machine's processors",
        RestoreFault::DoubleCollection(_) => "A collection has one valid entry",
        RestoreFault::NotValid(_) => {
            "Where CTLR enables, its bases are valid, and offsets lie inside the queue"
        }
        RestoreFault::BadCollection(_) => "A collection's ICID has a place in its table",
        RestoreFault::BadRedist(_) => {
            "Where LPIs are on, each of their tables lies in one window"
        }
    }
}
