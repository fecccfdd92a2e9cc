//! All that comes from a source, and all that goes to a sink.
ghost use Rattle.std.specs.Prelude.{◌≡◌, ◌<◌, ◌≤◌, ◌^◌, ◌++◌, ℕ, IfOk, OnOk, OnErr, IsErrOf};
ghost use Rattle.std.specs.Prelude.{IfSome, length, take};
ghost use Rattle.its_io.specs.Bytes.{Appends};
ghost use Rattle.its_io.specs.Count.{Rose, HasCause};
ghost use Rattle.its_answers.specs.Streams.{Tells};
ghost use Rattle.its_top.specs.Streams.{IsAtEnd};
ghost use Rattle.its_top.specs.declared.streams.ReadAllError.TheVariants.{Memory};

use its_io::{Failed, Sink, Source};
use std::alloc::{AllocError, Global};
use thiserror::Error;

/// Why not all was read.
#[derive(Clone, Copy, Debug, PartialEq, Eq, Error)]
pub enum ReadAllError {
    /// The host ran out of memory.
    #[error("out of memory")]
    Memory,
    /// A read of the source failed.
    #[error("a read of the source failed")]
    Failed,
    /// The source has more bytes than the limit.
    #[error("the source has more bytes than the limit")]
    TooLong,
}

impl From<AllocError> for ReadAllError {
    ghost from_gives = { λ _ e. e ≡ Memory };

    fn from(_: AllocError) -> Self {
        ReadAllError::Memory
    }
}

/// All that the source has left, if it isn't longer than the limit.
pub fn read_all<S: Source>(
    alloc: Global,
    source: &mut S,
    limit: usize,
) -> Result<Vec<u8>, ReadAllError>
    requires { limit < 2 ^ 32 }
    ensures all { IfOk result (λ input. Tells (S.left source.old) input.items) }
    ensures to_the_end { OnOk result (IsAtEnd (S.left source.old) (S.left source.new)) }
    ensures short { IfOk result (λ input. length input.items ≤ limit) }
    ensures too_long { IsErrOf result ReadAllError.TooLong
        → IfSome (S.left source.old) (λ all. limit < length all) }
    ensures failed { IsErrOf result ReadAllError.Failed
        → Rose (S.faults source.old) (S.faults source.new) }
    ensures later { S.faults source.old ≤ S.faults source.new }
{
    let mut input = Vec::new(alloc);
    let mut buffer = [0; 4096];
    while input.len() <= limit {
        let Ok(count) = source.read(&mut buffer) else {
            return Err(ReadAllError::Failed);
        };
        if count == 0 {
            return Ok(input);
        }
        input.extend_from_slice(&buffer[..count])?;
    }
    Err(ReadAllError::TooLong)
}

/// Writes the whole text. Where the sink fails, it has a prefix of it.
fn write_all<K: Sink>(sink: &mut K, text: &[u8]) -> Result<(), Failed>
    ensures ok { OnOk result (Appends (K.held sink.old) (K.held sink.new) text.now) }
    ensures err { OnErr result ((k : ℕ) × Appends (K.held sink.old) (K.held sink.new)
        (take k text.now)) }
    ensures cause { HasCause (K.faults sink.old) (K.faults sink.new) result }
{
    let mut at = 0;
    while at < text.len() {
        at += sink.write(&text[at..])?;
    }
    Ok(())
}

/// Writes a text and then another. Where the sink fails, it has a prefix of both.
pub fn write_both<K: Sink>(sink: &mut K, first: &[u8], second: &[u8]) -> Result<(), Failed>
    ensures ok { OnOk result
        (Appends (K.held sink.old) (K.held sink.new) (first.now ++ second.now)) }
    ensures err { OnErr result ((k : ℕ) ×
        Appends (K.held sink.old) (K.held sink.new) (take k (first.now ++ second.now))) }
    ensures cause { HasCause (K.faults sink.old) (K.faults sink.new) result }
{
    write_all(sink, first)?;
    write_all(sink, second)
}
