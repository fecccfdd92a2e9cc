//! A line that is one more than there may be.
ghost use Rattle.std.specs.Prelude.{◌≡◌, ◌++◌, OnOk};
ghost use Rattle.std.specs.Str.{bytes_eq};
ghost use Rattle.std.specs.String.{string_bytes};
ghost use Rattle.its_explain.specs.Many as spec;

use crate::numbers::push_enclosed;
use crate::script_fault::Faulty;
use std::alloc::AllocError;

/// Adds how many there may be.
pub fn push_many(out: &mut String, faulty: &Faulty) -> Result<(), AllocError> {
    faulty.push_at(out, 0)?;
    push_most(out, faulty.text(0))
}

#[tactic(auto, unfolding(crate::specs::Many::most_text))]
fn push_most(out: &mut String, first: &[u8]) -> Result<(), AllocError>
    ensures { OnOk result
        (string_bytes out.new ≡ string_bytes out.old ++ spec.most_text first.now) }
{
    if is("window", first) {
        push_enclosed(out, "a machine has at most ", 16, " windows\n")
    } else if is("requester", first) {
        push_enclosed(
            out,
            "a description has at most ",
            64,
            " lines `requester`\n",
        )
    } else if is("phase", first) {
        push_enclosed(out, "a leg has at most ", 256, " phases\n")
    } else if is("thread", first) {
        push_enclosed(out, "a phase has at most ", 64, " threads\n")
    } else if is("migrate", first) || is("precopy", first) {
        push_migrations(out)
    } else {
        push_enclosed(out, "a thread has at most ", 65_536, " calls\n")
    }
}

#[tactic(auto, unfolding(crate::specs::Many::migrations_text))]
fn push_migrations(out: &mut String) -> Result<(), AllocError>
    ensures { OnOk result
        (string_bytes out.new ≡ string_bytes out.old ++ spec.migrations_text) }
{
    push_enclosed(out, "a script has at most ", 64, " legs, ")?;
    push_enclosed(out, "so at most ", 63, " migrations\n")
}

fn is(word: &str, first: &[u8]) -> bool
    ensures { result ≡ bytes_eq word.now first.now }
{
    word.as_bytes() == first
}
