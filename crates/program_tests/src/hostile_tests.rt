//! Scripts, machines and tables that are refused, and streams that fail.
use crate::runs::{MACHINE, MAPPED, answer, script, tells, words};
use its_io::{MemSink, MemSource, SureSink, SureSource};
use its_top::{Status, its, refuse};
use its_types::Open;
use std::alloc::Global;
use std::sync::Wait;
use std::test::Fail;
use std::thread::Threads;

#[test]
fn scripts_are_refused(rt: HostRuntime) {
    for (input, line) in [
        ("", "refused script 1 missing\n"),
        ("shards 4\n", "refused script 1 order\n"),
        ("vcpus 17\n", "refused script 1 number\n"),
        ("processors 16\n", "refused script 1 number\n"),
        ("processors 513\n", "refused script 1 number\n"),
        ("vcpus 2\nprocessors 20\n", "refused script 2 order\n"),
        ("processors 20\nvcpus 2\n", "refused script 2 order\n"),
        ("vcpus 4 4\n", "refused script 1 fields\n"),
        ("vcpus 4\nshards 3\n", "refused script 2 number\n"),
        ("vcpus 4\nwalk\n", "refused script 2 word\n"),
        ("vcpus 4\nphase\n", "refused script 2 missing\n"),
        ("vcpus 4\nbytes 0x0 abc\n", "refused script 2 hex\n"),
        ("vcpus 4\nshards\t4\n", "refused script 2 text\n"),
        ("vcpus 4\nthread\n", "refused script 2 order\n"),
    ] {
        let ended = tells(&rt, rt.alloc(), &[input], Status::ScriptRefused, line);
        assert_eq!(rt; ended, Some(true), "{input}");
    }
}

#[test]
fn lines_of_what_a_machine_lacks_are_refused(rt: HostRuntime) {
    for (lines, body, text) in [
        ("pair\npair", "", "refused script 11 order\n"),
        ("track\ntrack", "", "refused script 11 order\n"),
        ("b-base 0x8080000", "", "refused script 10 order\n"),
        ("brestore 0 0 0 0 0 0", "", "refused script 10 order\n"),
        (
            "its-base 0x8080000\nits-base 0x8080000",
            "",
            "refused script 11 order\n",
        ),
        ("its-base 0x8080001", "", "refused script 10 number\n"),
        ("its-base", "", "refused script 10 fields\n"),
        ("limits 4096 10\npair", "", "refused script 11 number\n"),
        ("pair\nlimits 4096 10", "", "refused script 11 number\n"),
        ("requester 0 1", "", "refused script 10 fields\n"),
        ("requester 0 4294967296 0", "", "refused script 10 number\n"),
        ("", "copy", "refused script 12 order\n"),
        ("", "precopy", "refused script 12 order\n"),
        ("", "b step", "refused script 12 order\n"),
        ("pair", "b take 2", "refused script 13 order\n"),
        ("pair", "b walk", "refused script 13 order\n"),
        ("pair", "b", "refused script 13 fields\n"),
        ("pair", "b signal 16", "refused script 13 fields\n"),
        ("", "dma 256 0x8090040", "refused script 12 fields\n"),
        ("", "dma 256 0x8090040 0", "refused script 12 hex\n"),
        (
            "",
            "dma 4294967296 0x8090040 00",
            "refused script 12 number\n",
        ),
    ] {
        let parts = [MACHINE, lines, "phase\nthread", body, "end"];
        let ended = tells(&rt, rt.alloc(), &parts, Status::ScriptRefused, text);
        assert_eq!(rt; ended, Some(true), "{lines} {body}");
    }
}

/// Lines of a description whose last is `restore`.
const FLAT: &str = "restore 1 0x8000000080020000 0 0 0x8107000080000200 0x8407000080010200\n";

#[test]
fn tables_are_refused(rt: HostRuntime) {
    for (lines, restore, cause) in [
        ("word 0x80000000 0x8000000010018010", FLAT, "bad-size 0\n"),
        (
            "word 0x80010000 0x8000000000040001",
            FLAT,
            "bad-target 1 4\n",
        ),
        (
            "word 0x80010000 0x8000ffffffff0001",
            FLAT,
            "bad-target 1 4294967295\n",
        ),
        (
            "word 0x80010000 0x8000000000020001\nword 0x80010008 0x8000000000030001",
            FLAT,
            "double-collection 1\n",
        ),
        (
            "word 0x80010000 0x8000000000022000",
            FLAT,
            "bad-collection 8192\n",
        ),
        (
            "word 0x80000000 0x8000000010018004\nword 0x800c0000 0x000000001fff0001",
            FLAT,
            "bad-intid 0 0 8191\n",
        ),
        (
            "word 0x8000fff8 0x8002000010018004",
            FLAT,
            "past-end devices 8191 1\n",
        ),
        (
            "word 0x80000080 0x8000000010018004\nword 0x800c0018 0x001d000020080001",
            FLAT,
            "past-end itt 16 3 29\n",
        ),
        (
            "word 0x80000000 0x8000000012000004",
            FLAT,
            "outside-table 0x90000000\n",
        ),
        (
            "",
            "restore 1 0 0 0 0x8107000080000200 0x8407000080010200",
            "not-valid cbaser\n",
        ),
        (
            "",
            "restore 0 0x8000000080020000 0x1000 0 0x8107000080000200 0x8407000080010200",
            "not-valid creadr\n",
        ),
    ] {
        let parts = [MACHINE, lines, restore, "end"];
        let ended = tells(&rt, rt.alloc(), &parts, Status::MachineRefused, cause);
        assert_eq!(rt; ended, Some(true), "{lines}");
    }
}

#[test]
fn machines_are_refused(rt: HostRuntime) {
    for (lines, text) in [
        (
            "window 0xffffffffffff0000 0x20000\nconfig 0\npending 0 0x10000",
            "refused machine windows\n",
        ),
        (
            "window 0 0x20000\nwindow 0x1ffff 1\nconfig 0\npending 0 0x10000",
            "refused machine windows\n",
        ),
        (
            "window 0 0x2000000\nwindow 0x10000000000 0x2000001\nconfig 0\npending 0 0x10000",
            "refused machine windows\n",
        ),
        (
            "window 0 0xdfff\nconfig 0\npending 0 0x10000",
            "refused machine config\n",
        ),
        (
            "window 0 0x11fff\nconfig 0\npending 0 0x10000",
            "refused machine pending 0\n",
        ),
        (
            "ids 16 20\nwindow 0 0xfe000\nconfig 0\npending 0 0xdf000",
            "refused machine pending 0\n",
        ),
        (
            "window 0 0x20000\nwindow 0x20000 0x1000\nconfig 0\npending 0 0x10000\n# skipped\n\nword 0x1fffc 0",
            "refused machine bytes 9\n",
        ),
        // The page of the device table leaves its window after 256 places without an entry.
        (
            "window 0x80000000 0x40000\nwindow 0x90000000 0x800\nconfig 0x80000000\npending 0 0x80010000\nrestore 1 0x8000000080020000 0 0 0x8107000090000200 0x8407000080030200",
            "refused machine restore outside-table 0x90000800\n",
        ),
    ] {
        let parts = ["vcpus 1\nshards 1", lines, "end"];
        let ended = tells(&rt, rt.alloc(), &parts, Status::MachineRefused, text);
        assert_eq!(rt; ended, Some(true), "{lines}");
    }
}

#[test]
fn a_script_cut_anywhere_is_refused(rt: HostRuntime) -> Result<(), Fail> {
    let alloc = rt.alloc();
    let calls = "signal 0x10 3\nshow 2\ntake 2\ntake 2\nend\n# after the end\n";
    let whole = script(alloc, &[MACHINE, MAPPED, calls])?;
    let script_len = whole.len().saturating_sub(16);
    for len in 0..whole.len() {
        let cut = &whole.as_bytes()[..len];
        let (status, _) = answer(&rt, alloc, "its run", cut).ok_or("no memory")?;
        let expected = if len == script_len {
            Status::Ok
        } else {
            Status::ScriptRefused
        };
        assert_eq!(rt; status, expected, "{len} bytes");
    }
    Ok(())
}

/// The command `its run` over a source and a sink of which these calls fail. A sink that ran full
/// fails too. Gives the status, and what the sink holds.
fn over<R: Threads + Wait + Sync>(
    rt: &R,
    alloc: Global,
    input: &[u8],
    failing_read: u64,
    room: usize,
    failing_write: u64,
) -> Option<(Status, MemSink)> {
    let words = words(alloc, "its run").ok()?;
    let mut source = MemSource::new(alloc, input, 64, &[failing_read]).ok()?;
    let mut sink = MemSink::new(alloc, room, 64, &[failing_write]).ok()?;
    let status = its(rt, alloc, &words, &mut source, &mut sink, &Open);
    Some((status, sink))
}

#[test]
fn each_read_and_each_write_fails_in_turn(rt: HostRuntime) -> Result<(), Fail> {
    let alloc = rt.alloc();
    let calls = "step\nsignal 0x10 3\nshow 2\ntake 2\ntake 2\nend";
    let text = script(alloc, &[MACHINE, MAPPED, calls])?;
    let input = text.as_bytes();
    let (status, whole) = over(&rt, alloc, input, 0, 32_768, 0).ok_or("no memory")?;
    assert_eq!(rt; status, Status::Ok);
    let report = whole.bytes();
    let mut refused = 0;
    for number in 1..100 {
        let (status, sink) = over(&rt, alloc, input, number, 32_768, 0).ok_or("no memory")?;
        if status == Status::Ok {
            break;
        }
        assert_eq!(rt; status, Status::ReadFault, "read {number}");
        assert_eq!(rt; sink.bytes(), b"refused read\n".as_slice(), "read {number}");
        refused = number;
    }
    assert!(rt; refused > 5);
    for number in 1..100 {
        let (status, sink) = over(&rt, alloc, input, 0, 32_768, number).ok_or("no memory")?;
        if status == Status::Ok {
            break;
        }
        assert_eq!(rt; status, Status::WriteFault, "write {number}");
        assert!(rt; report.starts_with(sink.bytes()));
        refused = number;
    }
    assert!(rt; refused > 5);
    for (failing_read, room, failing_write, held) in [
        (0, 5, 0, "leg 1"),
        (0, 0, 0, ""),
        (3, 64, 1, ""),
        (3, 7, 0, "refused"),
    ] {
        let (status, sink) = over(&rt, alloc, input, failing_read, room, failing_write).ok_or(
            "no memory",
        )?;
        assert_eq!(rt; status, Status::WriteFault, "{room}");
        assert_eq!(rt; sink.bytes(), held.as_bytes(), "{room}");
    }
    Ok(())
}

#[test]
fn inputs_and_words_are_refused(rt: HostRuntime) -> Result<(), Fail> {
    let alloc = rt.alloc();
    let long = vec![in alloc; b'#'; 16_777_217]?;
    for (line, input, status, text) in [
        (
            "its run",
            long.as_slice(),
            Status::TooLong,
            "refused long\n",
        ),
        (
            "its check",
            long.as_slice(),
            Status::TooLong,
            "refused long\n",
        ),
        (
            "its explain",
            b"vcpus 17\n".as_slice(),
            Status::ScriptRefused,
            "refused script 1 number
    vcpus 17
          ^
line 1, field 2: \"17\" is out of range
Here stands the count (for more see `processors N`), 1 to 16.
The line is `vcpus N`.
",
        ),
        (
            "its walk",
            b"".as_slice(),
            Status::WordsRefused,
            "refused words\n",
        ),
        (
            "its gen 20 64",
            b"".as_slice(),
            Status::WordsRefused,
            "refused words\n",
        ),
    ] {
        let mut source = SureSource::new(alloc, input)?;
        let mut sink = SureSink::new(alloc, 256)?;
        let ended = its(
            &rt,
            alloc,
            &words(alloc, line)?,
            &mut source,
            &mut sink,
            &Open,
        );
        assert_eq!(rt; ended, status, "{line}");
        assert_eq!(rt; sink.bytes(), Some(text.as_bytes()), "{line}");
    }
    let mut sink = SureSink::new(alloc, 64)?;
    assert_eq!(rt; refuse(&mut sink, Status::Memory), Status::Memory);
    assert_eq!(rt; sink.bytes(), Some(b"refused memory\n".as_slice()));
    Ok(())
}
