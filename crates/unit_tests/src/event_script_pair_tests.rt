//! Lines of second translators, of second memories, and of devices that write by address.
use crate::event_script_tests::{HEAD, Told, reads};
use event_script::{Move, Script};
use its_plain::{Call, Route};
use std::alloc::AllocError;
use std::fmt::Write;
use std::test::Fail;

const FIRST_LINES: &str = "track/ -> 1 Order
pair/ -> 1 Order
brestore/ -> 1 Order
its-base/ -> 1 Order
b-base/ -> 1 Order
requester/ -> 1 Order
b/ -> 1 Order
precopy/ -> 1 Order
";

const DESCRIPTIONS: &str = "track x/ -> 2 Fields
track/track x/ -> 3 Order
pair 2/ -> 2 Fields
pair/pair x/ -> 3 Order
pair/limits 4096 1/ -> 3 Number
limits 4096 1/pair/ -> 3 Number
limits 4096 1/pair x/ -> 3 Fields
brestore 0 0 0 0 0 0/pair/ -> 2 Order
pair/brestore 0 0 0 0 0/ -> 3 Fields
pair/brestore 0 0 0 0 0 x/ -> 3 Number
pair/brestore 0 0 0 0 0 0/brestore/ -> 4 Order
gicr/pair/brestore 0 0 0 0 0 0/rrestore 0 0 0 0/ -> 5 Order
its-base 0x1000/ -> 2 Number
its-base 0 0/ -> 2 Fields
its-base 0/its-base x/ -> 3 Order
b-base 0/pair/ -> 2 Order
pair/b-base 0x18000/ -> 3 Number
pair/b-base 0/b-base x/ -> 4 Order
requester 0 0/ -> 2 Fields
requester 0x100000000 0 0/ -> 2 Number
requester 0 0x100000000 0/ -> 2 Number
requester 0 0 0x100000000/ -> 2 Number
pair/b/ -> 3 Order
copy/ -> 2 Order
dma 0 0 00/ -> 2 Order
precopy x/ -> 2 Order
track/precopy x/ -> 3 Missing
";

const BODIES: &str = "end/ -> 1 16777215
pair/end/ -> 2 4095
limits 4095 1/pair/end/ -> 2 4095
track/phase/thread/copy/precopy/migrate/precopy/end/ \
-> 1 16777215 copy precopy migrate precopy
pair/phase/thread/b signal 0 0/b read 0 4/b write 0 4 0/b step/step/end/ -> 2 4095 1 1 1 1 0
its-base 0x8080000/# a remark/requester 0x100 0x1ff 0x10/phase/thread/\
dma 256 0x8090040 03000000/dma 257 0x8090040 03000000/dma 512 0x8090040 03000000/\
dma 256 0x8090040 0300/dma 256 0x8090040 030000/dma 256 0x8090042 0300/dma 512 0x80030008 40/end/ \
-> 1 16777215 8 0:16:3 0:17:3 no-requester 0:16:3 frame frame poke
pair/b-base 0x8080000/requester 0 1 0xffffffff/requester 0 9 5/phase/thread/\
dma 0 0x8090040 0300/dma 1 0x8090040 0300/dma 9 0x8090040 0300/dma 0 0x807ffff 0300/end/ \
-> 2 4095 8 9 1:4294967295:3 no-requester 1:14:3 frame
phase/thread/copy x/ -> 8 Order
track/phase/copy/ -> 8 Order
track/phase/thread/copy x/ -> 9 Fields
precopy/ -> 6 Order
track/precopy x/ -> 7 Fields
track/phase/precopy x/ -> 8 Missing
track/end/precopy/ -> 8 Order
phase/thread/b/ -> 8 Order
phase/thread/b step/ -> 8 Order
pair/phase/b/ -> 8 Order
pair/phase/thread/b/ -> 9 Fields
pair/phase/thread/b walk/ -> 9 Order
pair/phase/thread/b take 0/ -> 9 Order
pair/phase/thread/b save x/ -> 9 Order
pair/phase/thread/b b step/ -> 9 Order
pair/phase/thread/b signal 16/ -> 9 Fields
pair/phase/thread/b signal 16 x/ -> 9 Number
pair/phase/thread/b read 0 5/ -> 9 Number
pair/phase/thread/b write 0 4/ -> 9 Fields
pair/phase/thread/b step x/ -> 9 Fields
phase/thread/dma 0 0/ -> 8 Fields
phase/thread/dma 0x100000000 0 00/ -> 8 Number
phase/thread/dma 0 x 00/ -> 8 Number
phase/thread/dma 0 0 0/ -> 8 Hex
phase/requester 0 0 0/ -> 7 Order
phase/pair/ -> 7 Order
 + 65 requester 0 0 0/ -> 70 Many
track/ + 64 precopy/ -> 70 Many
";

fn push_route(said: &mut String, route: Route) -> Result<(), AllocError> {
    match route {
        Route::Signal { its, dev, ev } => write!(said, " {its}:{}:{}", dev.0, ev.0),
        Route::Poke => said.push_str(" poke"),
        Route::NoRequester => said.push_str(" no-requester"),
        Route::Frame => said.push_str(" frame"),
    }
}

fn push_call(said: &mut String, call: &Call) -> Result<(), AllocError> {
    match call {
        Call::Dma { route, .. } => push_route(said, *route),
        Call::Copy => said.push_str(" copy"),
        Call::Signal { its, .. }
        | Call::ReadReg { its, .. }
        | Call::WriteReg { its, .. }
        | Call::Step { its } => write!(said, " {its}"),
        _ => said.push_str(" other"),
    }
}

fn push_calls(said: &mut String, script: &Script) -> Result<(), AllocError> {
    for leg in script.legs.as_slice() {
        for phase in leg.as_slice() {
            for thread in phase.as_slice() {
                for call in thread.iter() {
                    push_call(said, &call)?;
                }
            }
        }
    }
    Ok(())
}

/// Appends the number of translators, the last stamp, the lines of requesters, the calls, and how
/// legs end.
pub fn push_pair(said: &mut String, script: &Script) -> Result<(), AllocError> {
    let desc = &script.desc;
    let stamp_last = desc.limits.stamp_last;
    write!(said, "{} {stamp_last}", desc.translators.len())?;
    for line in script.requester_lines.as_slice() {
        write!(said, " {line}")?;
    }
    push_calls(said, script)?;
    for how in script.moves.as_slice() {
        said.push_str(match how {
            Move::Migrate => " migrate",
            Move::Precopy => " precopy",
        })?;
    }
    Ok(())
}

#[test]
fn scripts_are_read(rt: HostRuntime) -> Result<(), Fail> {
    for (head, rows) in [
        ("", FIRST_LINES),
        ("vcpus 4/", DESCRIPTIONS),
        (HEAD, BODIES),
    ] {
        assert_eq!(rt; reads(rt.alloc(), Told::Pair, head, rows)?.as_str(), rows);
    }
    Ok(())
}
