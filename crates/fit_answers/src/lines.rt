//! The lines of what threads were told, one after another.
ghost use Rattle.std.specs.Prelude.{◌≡◌, ◌<◌, true, IfOk, IfSome, length, option_map};
ghost use Rattle.its_history.specs.Reading as reading;
ghost use Rattle.fit_answers.specs.ToldText as spec;

use crate::left::Lines;
use crate::words::{CallLine, call_in, cut_at, is_printed, pending_in};
use front_search::Span;
use its_fit::Answered;
use its_history::{Text, TraceError};
use its_types::Listed;
use std::alloc::{AllocError, Global};
use std::str;

/// A text of bytes that print.
fn copied(alloc: Global, bytes: &[u8]) -> Result<Text, AllocError>
    requires { reading.is_printed bytes.now ≡ true }
    ensures { IfOk result (λ text. text ≡ bytes.now) }
{
    match str::from_utf8(bytes) {
        Ok(text) => Ok(Text::new(String::from_str(alloc, text)?)),
        Err(_) => unreachable!(),
    }
}

/// Whether a call began once the one before it had returned, and returned no earlier than it began.
fn is_in_order(last: u64, span: Span) -> bool
    ensures { result ≡ spec.is_in_order last span }
{
    last <= span.begin && span.begin <= span.end
}

impl<'a> Lines<'a> {
    /// The next line, if it has an end and each of its bytes prints, and the lines after it.
    fn next(&self) -> Option<(&'a [u8], Lines<'a>)>
        ensures next { option_map (λ p. (p.0.now, spec.left p.1)) result ≡ reading.next_line
            (spec.left self.now) }
        ensures shorter { IfSome result (λ p. length p.1.rest.now < length self.now.rest.now) }
        ensures printed { IfSome result (λ p. reading.is_printed p.0.now ≡ true) }
    {
        let (line, rest) = cut_at(self.rest, b'\n')?;
        if is_printed(line) {
            let number = self.number + 1;
            Some((line, Lines { number, rest }))
        } else {
            None
        }
    }

    /// What the next line says of a call of a thread, if it does, and the lines after it.
    fn call(&self, thread: u64) -> Option<(CallLine<'a>, Lines<'a>)>
        ensures said { option_map (λ p. (spec.answered_by p.0, spec.left p.1)) result
            ≡ reading.said (spec.call_in thread) (spec.left self.now) }
        ensures shorter { IfSome result (λ p. length p.1.rest.now < length self.now.rest.now) }
        ensures printed { IfSome result (λ p. reading.is_printed p.0.text.now ≡ true) }
    {
        let (line, after) = self.next()?;
        let call = call_in(line, thread)?;
        Some((call, after))
    }

    /// Takes the calls of a thread, up to a line that isn't one.
    fn calls(&mut self, alloc: Global, thread: u64) -> Result<Listed<Answered>, TraceError>
        ensures { reading.Reads (λ calls. calls) result (spec.left self.new)
            (spec.calls_from thread 0 self.old.number (reading.parts self.old.rest.now)) }
    {
        let mut calls = Listed::new(alloc);
        let mut last = 0;
        while let Some((line, after)) = self.call(thread) {
            if !is_in_order(last, line.span) {
                return Err(TraceError::BadLine(self.number));
            }
            let text = copied(alloc, line.text)?;
            let span = line.span;
            calls.push(Answered { span, text })?;
            last = span.end;
            *self = after;
        }
        Ok(calls)
    }

    /// Takes the calls of so many threads.
    pub fn threads(
        &mut self,
        alloc: Global,
        count: usize,
    ) -> Result<Listed<Listed<Answered>>, TraceError>
        ensures { reading.Reads (λ threads. threads) result (spec.left self.new)
            (spec.threads_from 0 count (spec.left self.old)) }
    {
        let mut threads = Listed::new(alloc);
        for index in 0..count {
            let calls = self.calls(alloc, index as u64 + 1)?;
            threads.push(calls)?;
        }
        Ok(threads)
    }

    /// Takes the line of a virtual processor.
    fn pending(&mut self, alloc: Global, vcpu: u16) -> Result<Text, TraceError>
        ensures { reading.Reads (λ text. text) result (spec.left self.new)
            (reading.read (reading.pending_in vcpu) (spec.left self.old)) }
    {
        let bad = TraceError::BadLine(self.number);
        let Some((line, after)) = self.next() else {
            return Err(bad);
        };
        let Some(pending) = pending_in(line, vcpu) else {
            return Err(bad);
        };
        let text = copied(alloc, pending)?;
        *self = after;
        Ok(text)
    }

    /// Takes the lines of so many virtual processors.
    pub fn pending_lists(&mut self, alloc: Global, vcpus: u16) -> Result<Listed<Text>, TraceError>
        ensures { reading.Reads (λ lists. lists) result (spec.left self.new)
            (reading.pending_from 0 vcpus (spec.left self.old)) }
    {
        let mut lists = Listed::new(alloc);
        for vcpu in 0..vcpus {
            let text = self.pending(alloc, vcpu)?;
            lists.push(text)?;
        }
        Ok(lists)
    }
}
