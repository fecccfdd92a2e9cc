//! Standard input and standard output.
ghost use Rattle.std.specs.Prelude.{◌<◌, ◌^◌};

use crate::errors::Failed;
use crate::traits::{Sink, Source};
use std::io::{Read, Write};

/// A reader, as standard input. It tells no bytes.
#[derive(Drop)]
pub struct StdSource<R: Read + Drop> {
    reader: R,
    faults: u64,
    ghost counted: { faults < 2 ^ 64 },
}

impl<R: Read + Drop> StdSource<R> {
    ghost use Rattle.std.specs.Prelude.{◌≡◌};

    /// No read of it has failed yet.
    pub fn new(reader: R) -> Self
        ensures { ⟦<StdSource<R> as Source>⟧.faults result ≡ 0 }
    {
        StdSource { reader, faults: 0 }
    }
}

impl<R: Read + Drop> Source for StdSource<R> {
    ghost use Rattle.std.specs.Prelude.{IfOk, None};
    ghost use Rattle.std.specs.Io.KnownBytes.{ReadConsumes};
    ghost use Rattle.its_io.specs.Bytes.{Reads};
    ghost use Rattle.its_io.specs.Count.{HasCause};

    ghost left = { λ s. None };

    ghost faults = { λ s. s.faults };

    ghost faults_fit = { λ s. s.counted };

    fn read(&mut self, buf: &mut [u8]) -> Result<usize, Failed>
        ensures read { IfOk result (λ n. Reads None None buf.old buf.new n) }
        ensures cause { HasCause self.old.faults self.new.faults result }
        // What its reader is known to give, it gives.
        ensures reader { ReadConsumes (R.remaining self.old.reader) (R.remaining self.new.reader)
            result buf.new }
    {
        match self.reader.read(buf) {
            Ok(count) => Ok(count),
            Err(_) => {
                self.faults = self.faults.saturating_add(1);
                Err(Failed)
            }
        }
    }
}

/// A writer, as standard output. It tells no bytes.
#[derive(Drop)]
pub struct StdSink<W: Write + Drop> {
    writer: W,
    faults: u64,
    ghost counted: { faults < 2 ^ 64 },
}

impl<W: Write + Drop> StdSink<W> {
    ghost use Rattle.std.specs.Prelude.{◌≡◌};

    /// No write of it has failed yet.
    pub fn new(writer: W) -> Self
        ensures { ⟦<StdSink<W> as Sink>⟧.faults result ≡ 0 }
    {
        StdSink { writer, faults: 0 }
    }
}

impl<W: Write + Drop> Sink for StdSink<W> {
    ghost use Rattle.std.specs.Prelude.{IfOk, None};
    ghost use Rattle.std.specs.Io.KnownBytes.{WriteAppends};
    ghost use Rattle.its_io.specs.Bytes.{Writes};
    ghost use Rattle.its_io.specs.Count.{HasCause};

    ghost held = { λ s. None };

    ghost faults = { λ s. s.faults };

    ghost faults_fit = { λ s. s.counted };

    /// A writer that takes nothing of a piece that isn't empty has failed.
    fn write(&mut self, piece: &[u8]) -> Result<usize, Failed>
        ensures written { IfOk result (λ n. Writes None None piece.now n) }
        ensures cause { HasCause self.old.faults self.new.faults result }
        // What its writer is known to take, it takes.
        ensures writer { WriteAppends (W.contents self.old.writer) (W.contents self.new.writer)
            result piece.now }
    {
        match self.writer.write(piece) {
            Ok(count) if count > 0 || piece.is_empty() => Ok(count),
            _ => {
                self.faults = self.faults.saturating_add(1);
                Err(Failed)
            }
        }
    }
}
