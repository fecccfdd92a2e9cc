//! Sources and sinks in memory that never fail.
ghost use Rattle.std.specs.Prelude.{◌≤◌};
ghost use Rattle.std.specs.Vec.{vec_len, vec_capacity};

use crate::errors::Failed;
use crate::traits::{Sink, Source};
use std::alloc::{AllocError, Global};

/// Bytes in memory. No read fails.
#[derive(Drop)]
pub struct SureSource {
    bytes: Vec<u8>,
    at: usize,
    ghost inside: { at ≤ vec_len bytes },
}

impl SureSource {
    ghost use Rattle.std.specs.Prelude.{◌≡◌, IfOk};
    ghost use Rattle.its_io.specs.Ends.{sure_left};

    /// Copies the bytes, and reads them from the first one on.
    pub fn new(alloc: Global, bytes: &[u8]) -> Result<SureSource, AllocError>
        ensures { IfOk result (λ s. sure_left s ≡ bytes.now) }
    {
        Ok(SureSource {
            bytes: Vec::from_slice(alloc, bytes)?,
            at: 0,
        })
    }
}

impl Source for SureSource {
    ghost use Rattle.std.specs.Prelude.{◌≡◌, IfOk, OnErr, Some, Ok, Err, length, min};
    ghost use Rattle.std.proofs.Common.{lit<};
    ghost use Rattle.its_io.specs.Bytes.{Reads};
    ghost use Rattle.its_io.specs.Ends.{sure_left};

    ghost left = { λ s. Some (sure_left s) };

    ghost faults = { λ s. 0 };

    ghost faults_fit = { λ s. lit< tt };

    fn read(&mut self, buf: &mut [u8]) -> Result<usize, Failed>
        ensures read { IfOk result (λ n.
            Reads (Some (sure_left self.old)) (Some (sure_left self.new)) buf.old buf.new n) }
        ensures answer { result ≡ Ok (min (length (sure_left self.old)) (length buf.old)) }
    {
        let rest = &self.bytes[self.at..];
        let count = rest.len().min(buf.len());
        buf[..count].copy_from_slice(&rest[..count]);
        self.at += count;
        Ok(count)
    }
}

/// Memory for so many bytes. No write fails: bytes past its room are taken without being kept, and
/// from then on it tells no bytes.
#[derive(Drop)]
pub struct SureSink {
    bytes: Vec<u8>,
    room: usize,
    over: bool,
    ghost within: { vec_len bytes ≤ room },
    ghost reserved: { room ≤ vec_capacity bytes },
}

impl SureSink {
    ghost use Rattle.std.specs.Prelude.{◌≡◌, [], IfOk, Some};
    ghost use Rattle.std.specs.Option.{option_copied};
    ghost use Rattle.its_io.specs.Ends.{sure_held, sure_room};

    /// A sink with room for so many bytes. All its memory is taken here.
    pub fn new(alloc: Global, room: usize) -> Result<SureSink, AllocError>
        ensures bytes { IfOk result (λ s. sure_held s ≡ Some []) }
        ensures room { IfOk result (λ s. sure_room s ≡ room) }
    {
        Ok(SureSink {
            bytes: Vec::with_capacity(alloc, room)?,
            room,
            over: false,
        })
    }

    /// The bytes that it holds, or none where more came than there was room for.
    pub fn bytes(&self) -> Option<&[u8]>
        ensures { option_copied result ≡ sure_held self.now }
    {
        if self.over { None } else { Some(&self.bytes) }
    }
}

impl Sink for SureSink {
    ghost use Rattle.std.specs.Prelude.{◌≡◌, ◌++◌, ◌-◌, nat_lt, IfOk, OnErr, Some, None, Ok, Err};
    ghost use Rattle.std.specs.Prelude.{length, if◌then◌else◌, IfSome};
    ghost use Rattle.std.proofs.Common.{lit<};
    ghost use Rattle.its_io.specs.Bytes.{Writes};
    ghost use Rattle.its_io.specs.Ends.{sure_held, sure_room};

    ghost held = { λ s. sure_held s };

    ghost faults = { λ s. 0 };

    ghost faults_fit = { λ s. lit< tt };

    fn write(&mut self, piece: &[u8]) -> Result<usize, Failed>
        ensures written { IfOk result
            (λ n. Writes (sure_held self.old) (sure_held self.new) piece.now n) }
        ensures answer { result ≡ Ok (length piece.now) }
        ensures bytes { IfSome (sure_held self.old) (λ held.
            sure_held self.new
            ≡ (if nat_lt (sure_room self.old) (length piece.now) then None else Some
            (held ++ piece.now))) }
        ensures room { sure_room self.new ≡ sure_room self.old - length piece.now }
    {
        let kept = piece.len().min(self.room - self.bytes.len());
        self.bytes.extend_from_slice(&piece[..kept]).unwrap();
        if kept < piece.len() {
            self.over = true;
        }
        Ok(piece.len())
    }
}
