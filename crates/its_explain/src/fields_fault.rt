//! A line with the wrong number of fields, or of no command.
use crate::grammar::{COMMANDS, Form, call_form, command_form, line_form};
use crate::lines::word;
use crate::near::near;
use crate::script_fault::Faulty;
use crate::show::{push_names, push_quoted};
use std::alloc::AllocError;
use std::fmt::Write;

/// A line's form, and how many fields stand before those that it says.
#[derive(Clone, Copy)]
pub struct Meant {
    /// As the line is written.
    pub form: Form,
    /// The place of its first word.
    pub first: usize,
}

impl<'a> Faulty<'a> {
    /// The form that the line has by its words, if they are those of a line.
    pub fn meant(&self) -> Option<Meant> {
        let first = if self.text(0) == b"b".as_slice() {
            1
        } else {
            0
        };
        let form = self.form_at(first)?;
        Some(Meant { form, first })
    }

    fn form_at(&self, first: usize) -> Option<Form> {
        let name = word(self.text(first));
        if name == "command" {
            if let Some(form) = command_form(word(self.text(2))) {
                return Some(form);
            }
        }
        match call_form(name) {
            Some(form) => Some(form),
            None => line_form(name),
        }
    }

    /// Whether its word of a command is none.
    fn has_no_command(&self) -> bool {
        self.text(0) == b"command".as_slice() && command_form(word(self.text(2))).is_none()
    }
}

/// Adds which field is too many or missing, or which word is no command.
pub fn push_fields(out: &mut String, faulty: &Faulty) -> Result<(), AllocError> {
    if faulty.has_no_command() {
        return push_no_command(out, faulty);
    }
    match faulty.meant() {
        Some(meant) => push_count(out, faulty, &meant),
        None => {
            faulty.push_at(out, 1)?;
            out.push_str("after `b` stands a call of the second translator: ")?;
            out.push_str("signal, read, write, step\n")
        }
    }
}

fn push_no_command(out: &mut String, faulty: &Faulty) -> Result<(), AllocError> {
    faulty.push_field(out, 2)?;
    if faulty.text(2).is_empty() {
        out.push_str("no command stands here")?;
    } else {
        push_quoted(out, faulty.text(2))?;
        out.push_str(" is no command")?;
    }
    if let Some(meant) = near(&COMMANDS, faulty.text(2)) {
        write!(out, "; maybe `{meant}` is meant")?;
    }
    out.push_str("; commands are\n")?;
    push_names(out, &COMMANDS)
}

fn push_count(out: &mut String, faulty: &Faulty, meant: &Meant) -> Result<(), AllocError> {
    let slots = meant.form.slots.len();
    let wanted = slots.saturating_add(1).saturating_add(meant.first);
    push_which(out, faulty, wanted)?;
    let mark = if meant.first == 0 { "" } else { "b " };
    writeln!(out, "; the line is `{mark}{}`", meant.form.text)?;
    if faulty.text(wanted).first() == Some(&b'#') {
        out.push_str("A remark stands on a line of its own.\n")?;
    }
    Ok(())
}

/// Adds which field is one more than so many, or is missing.
fn push_which(out: &mut String, faulty: &Faulty, wanted: usize) -> Result<(), AllocError> {
    faulty.push_at(out, wanted)?;
    let count = faulty.fields.len();
    if count > wanted {
        push_quoted(out, faulty.text(wanted))?;
        return out.push_str(" is a field too many");
    }
    write!(out, "field {} is missing", count.saturating_add(1))
}
