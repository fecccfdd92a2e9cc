//! The command `its`.
#![tactic(auto)]

ghost use Rattle.std.specs.Prelude.{◌≢◌};

use its_io::{StdSink, StdSource};
use its_top::{Status, its, refuse};
use its_types::Open;
use std::io::ErrorKind;
use std::process::ExitCode;
use std::{env, io};

fn main(rt: HostRuntime) -> ExitCode {
    let mut sink = StdSink::new(rt.stdout());
    let status = match words(&rt) {
        Ok(words) => {
            let mut source = StdSource::new(rt.stdin());
            its(&rt, rt.alloc(), &words, &mut source, &mut sink, &Open)
        }
        Err(error) => refuse(&mut sink, status_of(&error)),
    };
    ExitCode::from(status as u8)
}

/// The words of the command line.
fn words(rt: &HostRuntime) -> io::Result<Vec<String>> {
    let mut words = Vec::new(rt.alloc());
    for word in env::args(rt)? {
        words.push(word)?;
    }
    Ok(words)
}

/// How the command ends where its words can't be had: one isn't UTF-8, or memory ran out.
fn status_of(error: &io::Error) -> Status
    ensures { result ≢ Status.WriteFault }
{
    if error.kind() == ErrorKind::InvalidData {
        Status::WordsRefused
    } else {
        Status::Memory
    }
}
