//! The calls of a leg that aren't made yet.
ghost use Rattle.std.specs.Prelude.{◌≡◌, ◌<◌, ◌+◌, IfSome, slice_get};
ghost use Rattle.std.specs.Option.{option_map};

use crate::call_lines::CallLine;
use event_script::{Calls, Leg};
use its_plain::Call;
use std::alloc::{AllocError, Global};

/// The calls of a thread that aren't made yet, and their lines.
#[derive(Clone, Copy)]
struct ThreadLeft<'a> {
    calls: &'a Calls,
    /// How many of them were made.
    made: usize,
    lines: &'a [CallLine],
}

/// A call that is made next, and its line.
#[derive(Clone, Copy)]
pub struct Next {
    /// What it asks.
    pub call: Call,
    /// Where it stands.
    pub line: CallLine,
}

/// Why a thread has no call that can be made next.
#[derive(Clone, Copy)]
pub enum Missing {
    /// The leg has so many phases.
    Phase(usize),
    /// The phase has so many threads.
    Thread(usize),
    /// The thread's calls were all made.
    Over,
    /// A call of an earlier phase is left, in this line.
    Earlier(u64),
}

/// The calls of a leg that aren't made yet.
#[derive(Drop)]
pub struct Left<'a> {
    /// Those of all phases, one after another.
    threads: Vec<ThreadLeft<'a>>,
    /// How many threads stand before each phase.
    starts: Vec<usize>,
    /// How many threads are over, as far as it is known.
    over: usize,
}

impl<'a> Left<'a> {
    /// No calls.
    pub fn none(alloc: Global) -> Left<'a> {
        Left {
            threads: Vec::new(alloc),
            starts: Vec::new(alloc),
            over: 0,
        }
    }

    /// All calls of a leg. The lines are those of its calls, in their order, and maybe more.
    pub fn new(alloc: Global, leg: &'a Leg, lines: &'a [CallLine]) -> Result<Left<'a>, AllocError> {
        let mut threads = Vec::new(alloc);
        let mut starts = Vec::new(alloc);
        let mut rest = lines;
        for phase in leg.as_slice() {
            starts.push(threads.len())?;
            for thread in phase.as_slice() {
                let (own, later) = cut(rest, thread.len());
                threads.push(ThreadLeft {
                    calls: thread,
                    made: 0,
                    lines: own,
                })?;
                rest = later;
            }
        }
        Ok(Left {
            threads,
            starts,
            over: 0,
        })
    }

    /// Takes the next call of a thread of a phase, both counted from 1, if it has one and no
    /// earlier phase has calls left.
    pub fn take(&mut self, phase: usize, thread: usize) -> Option<Next> {
        let start = *self.starts.get(phase.checked_sub(1)?)?;
        let at = start.checked_add(thread.checked_sub(1)?)?;
        if !self.reaches(start) {
            return None;
        }
        let end = self
            .starts
            .get(phase)
            .copied()
            .unwrap_or(self.threads.len());
        if at >= end {
            return None;
        }
        let thread = self.threads.get_mut(at)?;
        thread.next()
    }

    /// Why a thread of a phase, both counted from 1, has no call to be taken.
    pub fn missing(&self, phase: usize, thread: usize) -> Missing {
        let phases = self.starts.len();
        let Some(start) = self.starts.get(phase.saturating_sub(1)) else {
            return Missing::Phase(phases);
        };
        let end = self
            .starts
            .get(phase)
            .copied()
            .unwrap_or(self.threads.len());
        let threads = end.saturating_sub(*start);
        if phase == 0 || thread == 0 || thread > threads {
            return Missing::Thread(threads);
        }
        match self
            .threads
            .get(start.saturating_add(thread).saturating_sub(1))
        {
            Some(own) if own.is_over() => Missing::Over,
            _ => Missing::Earlier(self.first_line().unwrap_or(0)),
        }
    }

    /// Whether no thread before a place has calls left.
    fn reaches(&mut self, start: usize) -> bool {
        for at in self.over..start {
            match self.threads.get(at) {
                Some(thread) if thread.is_over() => self.over = at.saturating_add(1),
                _ => return false,
            }
        }
        true
    }

    /// Whether calls are left.
    pub fn has_more(&self) -> bool {
        self.first_line().is_some()
    }

    /// Where the first thread that has calls left goes on.
    pub fn first_line(&self) -> Option<u64> {
        for thread in &self.threads {
            if !thread.is_over() {
                return Some(match thread.lines.first() {
                    Some(line) => line.number,
                    None => 0,
                });
            }
        }
        None
    }
}

impl<'a> ThreadLeft<'a> {
    fn is_over(&self) -> bool {
        self.made >= self.calls.len()
    }

    fn next(&mut self) -> Option<Next>
        ensures call { option_map (λ n. n.call) result
            ≡ slice_get self.old.calls.now self.old.made }
        ensures goes_on { IfSome result (λ _. self.new.made ≡ self.old.made + 1) }
        ensures calls { self.new.calls ≡ self.old.calls }
    {
        if self.made >= self.calls.len() {
            return None;
        }
        let call = self.calls.get(self.made)?;
        self.made += 1;
        let line = match self.lines.split_first() {
            Some((line, lines)) => {
                self.lines = lines;
                *line
            }
            None => CallLine::UNKNOWN,
        };
        Some(Next { call, line })
    }
}

/// The first elements, as far as there are so many, and the others.
pub fn cut<'a>(lines: &'a [CallLine], count: usize) -> (&'a [CallLine], &'a [CallLine]) {
    match (lines.get(..count), lines.get(count..)) {
        (Some(first), Some(later)) => (first, later),
        _ => (lines, &[]),
    }
}

/// How many calls a leg has.
pub fn count_calls(leg: &Leg) -> usize {
    let mut count = 0usize;
    for phase in leg.as_slice() {
        for thread in phase.as_slice() {
            count = count.saturating_add(thread.len());
        }
    }
    count
}
