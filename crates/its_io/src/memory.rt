//! Sources and sinks in memory, of which some calls fail.
ghost use Rattle.std.specs.Prelude.{◌≤◌, ◌<◌, ◌^◌};
ghost use Rattle.std.specs.Vec.{vec_len, vec_capacity};

use crate::errors::Failed;
use crate::script::Script;
use crate::traits::{Sink, Source};
use std::alloc::{AllocError, Global};

/// Bytes in memory, read with some of the calls failing.
#[derive(Drop)]
pub struct MemSource {
    bytes: Vec<u8>,
    at: usize,
    script: Script,
    ghost inside: { at ≤ vec_len bytes },
    ghost moves: { 0 < script.most },
    ghost counted: { script.faults < 2 ^ 64 },
}

impl MemSource {
    ghost use Rattle.std.specs.Prelude.{◌≡◌, ◌<◌, IfOk};
    ghost use Rattle.its_io.specs.Ends.{bytes_left, source_script};

    /// A source of these bytes. A call moves at most `most` of them, and the calls whose numbers,
    /// counted from 1, stand in `fail` fail.
    pub fn new(
        alloc: Global,
        bytes: &[u8],
        most: usize,
        fail: &[u64],
    ) -> Result<MemSource, AllocError>
        requires { 0 < most }
        ensures bytes { IfOk result (λ s. bytes_left s ≡ bytes.now) }
        ensures script { IfOk result (λ s.
            source_script s ≡ record { most = most; fail = fail.now; calls = 0; faults = 0 }) }
    {
        Ok(MemSource {
            bytes: Vec::from_slice(alloc, bytes)?,
            at: 0,
            script: Script::new(alloc, most, fail)?,
        })
    }
}

impl Source for MemSource {
    ghost use Rattle.std.specs.Prelude.{◌≡◌, IfOk, OnErr, Some, Ok, Err, length, if◌then◌else◌};
    ghost use Rattle.its_io.specs.Bytes.{Reads};
    ghost use Rattle.its_io.specs.Count.{HasCause};
    ghost use Rattle.its_io.specs.Script.{refuses};
    ghost use Rattle.its_io.specs.Ends.{bytes_left, source_script, read_count, after_call};

    ghost left = { λ s. Some (bytes_left s) };

    ghost faults = { λ s. (source_script s).faults };

    ghost faults_fit = { λ s. s.counted };

    fn read(&mut self, buf: &mut [u8]) -> Result<usize, Failed>
        ensures read { IfOk result (λ n.
            Reads (Some (bytes_left self.old)) (Some (bytes_left self.new)) buf.old buf.new n) }
        ensures failed { OnErr result (Some (bytes_left self.new) ≡ Some (bytes_left self.old)) }
        ensures cause { HasCause (source_script self.old).faults (source_script self.new).faults
            result }
        ensures answer { result
            ≡ (if refuses (source_script self.old) then Err (record {}) else Ok
            (read_count self.old (length buf.old))) }
        ensures script { source_script self.new
            ≡ after_call (source_script self.old) (refuses (source_script self.old)) }
    {
        if self.script.refuses_call() {
            return Err(self.script.fault());
        }
        let rest = &self.bytes[self.at..];
        let count = rest.len().min(buf.len()).min(self.script.most());
        buf[..count].copy_from_slice(&rest[..count]);
        self.at += count;
        Ok(count)
    }
}

/// Memory for so many bytes, written with some of the calls failing.
#[derive(Drop)]
pub struct MemSink {
    bytes: Vec<u8>,
    room: usize,
    script: Script,
    ghost within: { vec_len bytes ≤ room },
    ghost reserved: { room ≤ vec_capacity bytes },
    ghost moves: { 0 < script.most },
    ghost counted: { script.faults < 2 ^ 64 },
}

impl MemSink {
    ghost use Rattle.std.specs.Prelude.{◌≡◌, ◌<◌, [], IfOk};
    ghost use Rattle.its_io.specs.Ends.{bytes_held, sink_room, sink_script};

    /// A sink with room for so many bytes. A call moves at most `most` of them, and the calls whose
    /// numbers, counted from 1, stand in `fail` fail. All its memory is taken here.
    pub fn new(alloc: Global, room: usize, most: usize, fail: &[u64]) -> Result<MemSink, AllocError>
        requires { 0 < most }
        ensures bytes { IfOk result (λ s. bytes_held s ≡ []) }
        ensures room { IfOk result (λ s. sink_room s ≡ room) }
        ensures script { IfOk result (λ s.
            sink_script s ≡ record { most = most; fail = fail.now; calls = 0; faults = 0 }) }
    {
        Ok(MemSink {
            bytes: Vec::with_capacity(alloc, room)?,
            room,
            script: Script::new(alloc, most, fail)?,
        })
    }

    /// The bytes that it holds.
    pub fn bytes(&self) -> &[u8]
        ensures { result.now ≡ bytes_held self.now }
    {
        &self.bytes
    }
}

impl Sink for MemSink {
    ghost use Rattle.std.specs.Prelude.{◌≡◌, ◌+◌, IfOk, OnErr, Some, Ok, Err, length};
    ghost use Rattle.std.specs.Prelude.{if◌then◌else◌};
    ghost use Rattle.its_io.specs.Bytes.{Writes};
    ghost use Rattle.its_io.specs.Count.{HasCause};
    ghost use Rattle.its_io.specs.Ends.{bytes_held, sink_room, sink_script, write_count};
    ghost use Rattle.its_io.specs.Ends.{fails_to_write, after_call};

    ghost held = { λ s. Some (bytes_held s) };

    ghost faults = { λ s. (sink_script s).faults };

    ghost faults_fit = { λ s. s.counted };

    fn write(&mut self, piece: &[u8]) -> Result<usize, Failed>
        ensures written { IfOk result (λ n.
            Writes (Some (bytes_held self.old)) (Some (bytes_held self.new)) piece.now n) }
        ensures failed { OnErr result (Some (bytes_held self.new) ≡ Some (bytes_held self.old)) }
        ensures cause { HasCause (sink_script self.old).faults (sink_script self.new).faults
            result }
        ensures answer { result
            ≡ (if fails_to_write self.old (length piece.now) then Err (record {}) else Ok
            (write_count self.old (length piece.now))) }
        ensures room { IfOk result (λ n. sink_room self.new + n ≡ sink_room self.old) }
        ensures script { sink_script self.new
            ≡ after_call (sink_script self.old) (fails_to_write self.old (length piece.now)) }
    {
        let room = self.room - self.bytes.len();
        if self.script.refuses_call() || (room == 0 && !piece.is_empty()) {
            return Err(self.script.fault());
        }
        let count = piece.len().min(room).min(self.script.most());
        self.bytes.extend_from_slice(&piece[..count]).unwrap();
        Ok(count)
    }
}
