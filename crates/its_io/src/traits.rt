//! Where bytes come from, and where they go.
ghost use Rattle.std.specs.Prelude.{◌≡◌, ◌<◌, ◌^◌, ℕ, List, Option, IfOk, OnErr, length};
ghost use Rattle.its_io.specs.Bytes.{Reads, Writes};
ghost use Rattle.its_io.specs.Count.{HasCause};

use crate::errors::Failed;

/// Where bytes come from.
pub trait Source {
    /// The bytes that are left, where it tells them.
    ghost left: { Self → Option (List ℕ) };

    /// How often it has failed.
    ghost faults: { Self → ℕ };

    /// Puts the next bytes at the beginning of the buffer, and says how many. None, into a buffer
    /// that has room, is the end of input.
    fn read(&mut self, buf: &mut [u8]) -> Result<usize, Failed>
        ensures read { IfOk result (λ n. Reads (left self.old) (left self.new) buf.old buf.new n) }
        ensures failed { OnErr result (left self.new ≡ left self.old) }
        ensures cause { HasCause (faults self.old) (faults self.new) result };

    ghost faults_fit: { (source : Self) → faults source < 2 ^ 64 };
}

/// Where bytes go.
pub trait Sink {
    /// The bytes that it holds, where it tells them.
    ghost held: { Self → Option (List ℕ) };

    /// How often it has failed.
    ghost faults: { Self → ℕ };

    /// Appends a prefix of the piece, at least one byte where there is one, and says how many.
    fn write(&mut self, piece: &[u8]) -> Result<usize, Failed>
        ensures written { IfOk result (λ n. Writes (held self.old) (held self.new) piece.now n) }
        ensures failed { OnErr result (held self.new ≡ held self.old) }
        ensures cause { HasCause (faults self.old) (faults self.new) result };

    ghost faults_fit: { (sink : Self) → faults sink < 2 ^ 64 };
}
