//! The command over streams in memory, and what the tests of it share.
use its_io::{SureSink, SureSource};
use its_top::{Status, its};
use its_types::Open;
use std::alloc::{AllocError, Global};
use std::fmt::Write;
use std::str;
use std::sync::Wait;
use std::thread::Threads;

/// A machine with four processors.
pub const MACHINE: &str = "vcpus 4
shards 4
window 0x80000000 0x200000
config 0x80030000
pending 0 0x80040000
pending 1 0x80050000
pending 2 0x80060000
pending 3 0x80070000
bytes 0x80030008 a1
";

/// A phase that enables its translator, and maps event 3 of device 16 to LPI 8200 by collection 1,
/// which goes to processor 2.
pub const MAPPED: &str = "phase
thread
write 0x100 8 0x8107000080000200
write 0x108 8 0x8407000080010200
write 0x80 8 0x8000000080020000
write 0 4 1
run mapd 0x10 5 0x800c0000
run mapc 1 2
run mapti 0x10 3 8200 1
";

/// A script of these parts, in which a line `run C` stands for the command C at the queue's next
/// place, CWRITER moved past it, and a step.
pub fn script(alloc: Global, parts: &[&str]) -> Result<String, AllocError> {
    let mut text = String::new(alloc);
    let mut place = 0u64;
    for part in parts {
        for line in part.lines() {
            match line.strip_prefix("run ") {
                Some(command) => {
                    let at = place.wrapping_add(0x8002_0000);
                    place = place.wrapping_add(32) % 4096;
                    writeln!(text, "command {at} {command}\nwrite 0x88 8 {place}\nstep")?;
                }
                None => writeln!(text, "{line}")?,
            }
        }
    }
    Ok(text)
}

/// The words of a command line, between spaces.
pub fn words(alloc: Global, line: &str) -> Result<Vec<String>, AllocError> {
    let mut words = Vec::new(alloc);
    for word in line.split(' ') {
        words.push(String::from_str(alloc, word)?)?;
    }
    Ok(words)
}

/// How the command of a line ends, and the sink with what it printed.
pub fn answer<R: Threads + Wait + Sync>(
    rt: &R,
    alloc: Global,
    line: &str,
    input: &[u8],
) -> Option<(Status, SureSink)> {
    let words = words(alloc, line).ok()?;
    let mut source = SureSource::new(alloc, input).ok()?;
    let mut sink = SureSink::new(alloc, 32_768).ok()?;
    let status = its(rt, alloc, &words, &mut source, &mut sink, &Open);
    Some((status, sink))
}

/// What a report tells beside `ok`, the numbers of its legs and processors where nothing is
/// pending, line by line.
fn told(alloc: Global, printed: &str) -> Result<String, AllocError> {
    let mut told = String::new(alloc);
    for line in printed.lines() {
        let reply = match line.split_once(" -> ") {
            Some((_, reply)) => reply,
            None => line,
        };
        let dull = reply == "ok" || reply.starts_with("leg ") || line.ends_with("pending none");
        if !dull {
            writeln!(told, "{reply}")?;
        }
    }
    Ok(told)
}

/// Whether the run of a script ends with this status, and tells this at its end.
pub fn tells<R: Threads + Wait + Sync>(
    rt: &R,
    alloc: Global,
    parts: &[&str],
    status: Status,
    end: &str,
) -> Option<bool> {
    let input = script(alloc, parts).ok()?;
    let (ended, sink) = answer(rt, alloc, "its run", input.as_bytes())?;
    let printed = str::from_utf8(sink.bytes()?).ok()?;
    let told = told(alloc, printed).ok()?;
    Some(ended == status && told.ends_with(end))
}

/// Whether the run of a script ends well, and prints this.
pub fn prints<R: Threads + Wait + Sync>(
    rt: &R,
    alloc: Global,
    script: &str,
    report: &str,
) -> Option<bool> {
    let (ended, sink) = answer(rt, alloc, "its run", script.as_bytes())?;
    Some(ended == Status::Ok && sink.bytes()? == report.as_bytes())
}
