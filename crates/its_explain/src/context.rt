//! What the lines before a faulty one said.
use crate::lines::{first_words, is_skipped, number, word};
use std::alloc::{AllocError, Global};

/// Where in a script a line stands.
#[derive(Clone, Copy, PartialEq, Eq)]
pub enum Stage {
    /// Among those of the description.
    Description,
    /// After the line that ended a leg.
    Leg,
    /// After `phase`.
    Phase,
    /// After `thread`.
    Thread,
    /// After `end`.
    Ended,
}

/// The first line that began with a word.
#[derive(Clone, Copy)]
struct Seen<'a> {
    word: &'a [u8],
    /// The number that its second field is, if it is one.
    number: Option<u64>,
    line: u64,
}

/// What the lines before a line said.
#[derive(Drop)]
pub struct Context<'a> {
    /// Where the line stands.
    pub stage: Stage,
    /// The line that began the stage; 0 at first.
    pub opened: u64,
    /// How many virtual processors there are; none before their line.
    pub vcpus: u64,
    /// The first line of each word of a description, and each that gives a processor's tables.
    seen: Vec<Seen<'a>>,
}

impl<'a> Context<'a> {
    /// Of the line with a number.
    pub fn before(alloc: Global, input: &'a [u8], line: u64) -> Result<Context<'a>, AllocError> {
        let mut context = Context {
            stage: Stage::Description,
            opened: 0,
            vcpus: 0,
            seen: Vec::new(alloc),
        };
        let mut at = 1u64;
        for text in input.split(|b| *b == b'\n') {
            if at == line {
                break;
            }
            context.read(at, text)?;
            at = at.saturating_add(1);
        }
        Ok(context)
    }

    fn read(&mut self, at: u64, line: &'a [u8]) -> Result<(), AllocError> {
        let (first, second) = first_words(line);
        let begins = stage_after(word(first));
        match begins {
            Some(stage) => {
                self.stage = stage;
                self.opened = at;
            }
            None => {
                if self.stage == Stage::Description && !is_skipped(first) {
                    self.note(at, first, second)?;
                }
            }
        }
        Ok(())
    }

    /// Keeps the line, if none like it came.
    fn note(&mut self, line: u64, word: &'a [u8], second: &'a [u8]) -> Result<(), AllocError> {
        let number = number(second);
        if is_count(word) {
            self.vcpus = number.unwrap_or(0);
        }
        let known = if is_of_processor(word) {
            self.line_of_processor(word, number)
        } else {
            self.line_of(word)
        };
        if known.is_none() {
            self.seen.push(Seen { word, number, line })?;
        }
        Ok(())
    }

    /// The first line that began with a word.
    pub fn line_of(&self, word: &[u8]) -> Option<u64> {
        for seen in &self.seen {
            if seen.word == word {
                return Some(seen.line);
            }
        }
        None
    }

    /// The line that said how many virtual processors there are.
    pub fn line_of_count(&self) -> Option<u64> {
        for seen in &self.seen {
            if is_count(seen.word) {
                return Some(seen.line);
            }
        }
        None
    }

    /// The first line of a word that named a processor.
    pub fn line_of_processor(&self, word: &[u8], processor: Option<u64>) -> Option<u64> {
        for seen in &self.seen {
            if seen.word == word && seen.number == processor {
                return Some(seen.line);
            }
        }
        None
    }
}

/// Whether a line with this word says how many virtual processors there are.
fn is_count(word: &[u8]) -> bool {
    word == b"vcpus".as_slice() || word == b"processors".as_slice()
}

/// Whether each processor has a line of its own with this word.
fn is_of_processor(word: &[u8]) -> bool {
    word == b"pending".as_slice() || word == b"rrestore".as_slice()
}

/// The stage that a line begins.
fn stage_after(word: &str) -> Option<Stage> {
    match word {
        "phase" => Some(Stage::Phase),
        "thread" => Some(Stage::Thread),
        "migrate" | "precopy" => Some(Stage::Leg),
        "end" => Some(Stage::Ended),
        _ => None,
    }
}
