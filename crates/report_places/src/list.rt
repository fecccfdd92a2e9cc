//! The list of what the machine has at a place of a report.
ghost use Rattle.std.specs.Prelude.{◌≡◌, IfOk};
ghost use Rattle.std.specs.String.{string_bytes};
ghost use Rattle.report_places.specs.Lists.{ListsAt, state_text};

use crate::listing::push_state;
use crate::place::machine_at;
use event_script::Leg;
use its_history::Trace;
use owned_machine::Machine;
use std::alloc::{AllocError, Global};

/// The list of what the machine has after so many calls of a leg of a run, in the order of its
/// report: a line each, of at most 100 columns. The legs are counted from 0. Where the report has
/// no such place, that is what the text says. Nothing is compared: of a report that is that of no
/// run the list is any. The machine given stands in the script's first state.
pub fn list_at(
    alloc: Global,
    machine: Machine,
    legs: &[Leg],
    trace: &Trace,
    leg: usize,
    place: usize,
) -> Result<String, AllocError>
    ensures { IfOk result (λ text.
        ListsAt machine legs.now trace.now.legs leg place (string_bytes text)) }
{
    let reached = machine_at(alloc, machine, legs, trace, leg, place)?;
    match reached {
        Some(there) => {
            let text = list_of(alloc, &there)?;
            Ok(text)
        }
        None => {
            let text = String::from_str(alloc, "The report has no such place.\n")?;
            Ok(text)
        }
    }
}

/// The list of what a machine has.
fn list_of(alloc: Global, machine: &Machine) -> Result<String, AllocError>
    ensures { IfOk result (λ text. string_bytes text ≡ state_text machine.now) }
{
    let mut out = String::new(alloc);
    push_state(alloc, &mut out, machine)?;
    Ok(out)
}
