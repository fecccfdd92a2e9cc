//! Writes of registers, and what they left of the value, for people.
ghost use Rattle.std.specs.Prelude.{◌≡◌, ◌++◌, OnOk};
ghost use Rattle.std.specs.Option.{option_map};
ghost use Rattle.std.specs.String.{string_bytes};
ghost use Rattle.its_explain.specs.Accesses as spec;

use crate::numbers::push_in_hexadecimal;
use its_types::field;
use std::alloc::AllocError;

/// A write of a register.
#[derive(Clone, Copy)]
pub struct Access {
    /// Where it begins.
    pub off: u32,
    /// How many bytes it has.
    pub size: u8,
    /// What is written.
    pub value: u64,
}

impl Access {
    /// What a whole register has where the write goes.
    pub fn part(&self, whole: u64) -> u64
        ensures { result ≡ spec.part self.now whole }
    {
        if self.size == 8 {
            whole
        } else if self.off % 8 == 4 && self.off != 4 {
            field(whole, 32, 32)
        } else {
            field(whole, 0, 32)
        }
    }

    /// What is written there.
    fn written(&self) -> u64
        ensures { result ≡ spec.written self.now }
    {
        if self.size == 8 {
            self.value
        } else {
            field(self.value, 0, 32)
        }
    }
}

/// Adds what a register has of the value that was written, if that isn't the same.
pub fn push_kept(out: &mut String, access: Access, after: u64) -> Result<(), AllocError>
    ensures { OnOk result
        (string_bytes out.new ≡ string_bytes out.old ++ spec.kept_text access after) }
{
    if access.part(after) == access.written() {
        Ok(())
    } else {
        push_reads(out, access.value, access.part(after))
    }
}

#[tactic(auto, unfolding(crate::specs::Accesses::reads_text))]
fn push_reads(out: &mut String, value: u64, kept: u64) -> Result<(), AllocError>
    ensures { OnOk result
        (string_bytes out.new ≡ string_bytes out.old ++ spec.reads_text value kept) }
{
    push_in_hexadecimal(out, "; written ", value)?;
    push_in_hexadecimal(out, ", it reads ", kept)
}

/// Adds that a write was ignored, of a register that has this name or none.
#[tactic(auto, unfolding(crate::specs::Accesses::ignored_text))]
pub fn push_ignored(out: &mut String, name: Option<&'static str>) -> Result<(), AllocError>
    ensures { OnOk result (string_bytes out.new ≡ string_bytes out.old
        ++ spec.ignored_text (option_map (λ n. n.now) name.entry)) }
{
    out.push_str("ignored: ")?;
    out.push_str(name_or(name))
}

/// The name of a register, if it has one.
fn name_or(name: Option<&'static str>) -> &'static str
    ensures { result.now ≡ spec.name_or (option_map (λ n. n.now) name.entry) }
{
    match name {
        Some(name) => name,
        None => "this register",
    }
}
