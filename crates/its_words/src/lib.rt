//! The words of the command line, by the kit's parser of command lines.
#![tactic(auto)]

mod command;
mod help;
mod words;

pub use help::{help_text, version_text};
pub use words::{Asked, WordsError, parse_words};
