//! A whole script, line by line.
ghost use Rattle.std.specs.Prelude.{◌≡◌, ◌<◌, ◌+◌, ◌∷◌, [], ◌==◌, true, Err, map, position, drop};
ghost use Rattle.std.specs.Prelude.{length, IfOk, IfNone, IfSome};
ghost use Rattle.event_script.specs.Outcome.{Gives};
ghost use Rattle.event_script.specs.Description as description;
ghost use Rattle.event_script.specs.Script as spec;
ghost use Rattle.event_script.specs.Text as text_of;
ghost use Rattle.event_script.specs.Text.{parts};

use crate::draft::{Draft, Stage};
use crate::fault::{Kind, LineError, ParseError, ScriptFault, ensure};
use crate::fields::arg;
use crate::script::{CheckInput, Script};
use crate::text;
use crate::words::{call_word_of, keyword_of};
use std::alloc::{AllocError, Global};

/// The script that the bytes are, or their first faulty line and what is wrong with it.
#[tactic(auto, unfolding(crate::specs::Script::script_of))]
pub fn parse(alloc: Global, bytes: &[u8]) -> Result<Script, ParseError>
    ensures { spec.IsAnswer result (spec.script_of bytes.now) }
{
    let mut draft = Draft::new(alloc);
    let read = read_script(alloc, &mut draft, bytes);
    drop(draft);
    read
}

/// Reads all lines, of which none was read so far.
fn read_script(alloc: Global, draft: &mut Draft, bytes: &[u8]) -> Result<Script, ParseError>
    ensures { spec.IsAnswer result (spec.parts_from 1 draft.old (parts bytes.now)) }
{
    let mut rest = bytes;
    let mut fields = Vec::new(alloc);
    let mut number = 1;
    while let Some((line, more)) = split_line(rest) {
        if let Err(error) = draft.line(alloc, number, line, &mut fields) {
            return Err(error.at(number));
        }
        rest = more;
        number += 1;
    }
    finish(alloc, number, draft, rest)
}

/// The script that the bytes begin with, and the report that follows it after a line `trace`, or
/// their first faulty line and what is wrong with it.
#[tactic(auto, unfolding(crate::specs::Script::check_of))]
pub fn parse_check(alloc: Global, bytes: &[u8]) -> Result<CheckInput<'_>, ParseError>
    ensures { spec.IsCheckAnswer result (spec.check_of bytes.now) }
{
    let mut draft = Draft::new(alloc);
    let read = read_check(alloc, &mut draft, bytes);
    drop(draft);
    read
}

/// Reads the lines up to `trace`, of which none was read so far.
fn read_check<'a>(
    alloc: Global,
    draft: &mut Draft,
    bytes: &'a [u8],
) -> Result<CheckInput<'a>, ParseError>
    ensures { spec.IsCheckAnswer result (spec.check_from 1 draft.old (parts bytes.now)) }
{
    let mut rest = bytes;
    let mut fields = Vec::new(alloc);
    let mut number = 1;
    while let Some((line, more)) = split_line(rest) {
        if draft.begins_report(line, &mut fields)? {
            return trace_line(alloc, number, draft, &fields, more);
        }
        if let Err(error) = draft.line(alloc, number, line, &mut fields) {
            return Err(error.at(number));
        }
        rest = more;
        number += 1;
    }
    Err(ParseError::Fault(ScriptFault {
        line: number,
        kind: without_report(rest),
    }))
}

/// What is wrong where no line `trace` came.
fn without_report(last: &[u8]) -> Kind
    ensures { spec.without_report last.now ≡ Err result }
{
    if last.is_empty() {
        Kind::Missing
    } else {
        Kind::Cut
    }
}

/// The script of a draft that ended, at a line `trace` that has these fields, and the report after
/// it.
fn trace_line<'a>(
    alloc: Global,
    number: u64,
    draft: &mut Draft,
    fields: &[&[u8]],
    report: &'a [u8],
) -> Result<CheckInput<'a>, ParseError>
    ensures { spec.IsCheckAnswer result
        (spec.report_line number draft.old (map (λ f. f.now) fields.now) (parts report.now)) }
{
    match trace_with(alloc, draft, fields) {
        Ok(script) => Ok(CheckInput { script, report }),
        Err(error) => Err(error.at(number)),
    }
}

#[tactic(auto, unfolding(crate::specs::Script::trace_with))]
fn trace_with(alloc: Global, draft: &mut Draft, fields: &[&[u8]]) -> Result<Script, LineError>
    ensures { Gives (λ script. script) result
        (spec.trace_with draft.old (map (λ f. f.now) fields.now)) }
{
    ensure(fields.len() == 1, Kind::Fields)?;
    script_from(alloc, draft)
}

/// The first line, without its end, and what follows it.
fn split_line(text: &[u8]) -> Option<(&[u8], &[u8])>
    ensures last { IfNone result (parts text.now ≡ text.now ∷ []) }
    ensures first { IfSome result (λ p. parts text.now ≡ p.0.now ∷ parts p.1.now) }
    ensures shorter { IfSome result (λ p. length p.1.now < length text.now) }
{
    let end = line_end(text)?;
    Some((&text[..end], after(text, end)))
}

/// What follows a place.
fn after(text: &[u8], end: usize) -> &[u8]
    requires { end < length text.now }
    ensures rest { result.now ≡ drop (end + 1) text.now }
    ensures shorter { length result.now < length text.now }
{
    &text[end + 1..]
}

/// Where the first line ends.
fn line_end(text: &[u8]) -> Option<usize>
    ensures place { result ≡ position (λ b. b == 10) text.now }
    ensures inside { IfSome result (λ end. end < length text.now) }
{
    text.iter().position(|b| *b == b'\n')
}

/// The script of a draft, if it ended and nothing stands after its last line end.
fn finish(alloc: Global, number: u64, draft: &mut Draft, last: &[u8]) -> Result<Script, ParseError>
    ensures { spec.IsAnswer result (spec.at_line number (spec.finished draft.old last.now)) }
{
    match finished(alloc, draft, last) {
        Ok(script) => Ok(script),
        Err(error) => Err(error.at(number)),
    }
}

#[tactic(auto, unfolding(crate::specs::Script::finished))]
fn finished(alloc: Global, draft: &mut Draft, last: &[u8]) -> Result<Script, LineError>
    ensures { Gives (λ script. script) result (spec.finished draft.old last.now) }
{
    ensure(last.is_empty(), Kind::Cut)?;
    script_from(alloc, draft)
}

#[tactic(auto, unfolding(crate::specs::Script::script_from))]
fn script_from(alloc: Global, draft: &mut Draft) -> Result<Script, LineError>
    ensures { Gives (λ script. script) result (spec.script_from draft.old) }
{
    ensure(draft.is_ended(), Kind::Missing)?;
    draft.script(alloc)
}

impl Draft {
    fn is_ended(&self) -> bool
        ensures { result ≡ description.is_ended self.now.stage }
    {
        self.stage == Stage::Ended
    }

    /// Whether it is a line `trace` after the script. The list is for its fields.
    fn begins_report<'a>(
        &self,
        line: &'a [u8],
        fields: &mut Vec<&'a [u8]>,
    ) -> Result<bool, AllocError>
        ensures value { IfOk result (λ b. b ≡ spec.begins_report self.now line.now) }
        ensures split { IfOk result (λ b.
            b ≡ true → map (λ f. f.now) fields.new.items ≡ text_of.fields line.now) }
    {
        if !self.is_ended() || !text::is_text(line) {
            return Ok(false);
        }
        text::split_fields(fields, line)?;
        Ok(arg(fields, 0) == b"trace".as_slice())
    }

    /// Reads the line with a number, without its line end. The list is for its fields.
    #[tactic(auto, unfolding(crate::specs::Script::line))]
    fn line<'a>(
        &mut self,
        alloc: Global,
        number: u64,
        line: &'a [u8],
        fields: &mut Vec<&'a [u8]>,
    ) -> Result<(), LineError>
        ensures { Gives (λ _. self.new) result (spec.line self.old number line.now) }
    {
        ensure(text::is_text(line), Kind::Text)?;
        text::split_fields(fields, line)?;
        if is_skipped(fields) {
            return Ok(());
        }
        self.words_line(alloc, number, fields)
    }

    #[tactic(auto, unfolding(crate::specs::Script::words_line))]
    fn words_line(&mut self, alloc: Global, number: u64, fields: &[&[u8]]) -> Result<(), LineError>
        ensures { Gives (λ _. self.new) result
            (spec.words_line self.old number (map (λ f. f.now) fields.now)) }
    {
        match call_word_of(arg(fields, 0)) {
            Some(word) => self.call_word_line(alloc, number, word, fields),
            None => self.other_line(alloc, number, fields),
        }
    }

    /// A line that is no call's.
    #[tactic(auto, unfolding(crate::specs::Script::other_line))]
    fn other_line(&mut self, alloc: Global, number: u64, fields: &[&[u8]]) -> Result<(), LineError>
        ensures { Gives (λ _. self.new) result
            (spec.other_line self.old number (map (λ f. f.now) fields.now)) }
    {
        let keyword = keyword_of(arg(fields, 0))?;
        self.keyword_line(alloc, number, keyword, fields)
    }
}

/// Blank, or a remark.
fn is_skipped(fields: &[&[u8]]) -> bool
    ensures { result ≡ spec.is_skipped (map (λ f. f.now) fields.now) }
{
    fields.is_empty() || arg(fields, 0).first() == Some(&b'#')
}
