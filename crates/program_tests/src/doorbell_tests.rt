//! Devices that write by address, by short runs.
use crate::runs::{MACHINE, MAPPED, tells};
use its_top::Status;
use std::alloc::{AllocError, Global};
use std::fmt::Write;
use std::test::Fail;

/// The first translator's frames, and 256 requesters of which the first is device 16.
const DOORBELL: &str = "its-base 0x8080000
requester 0x100 0x1ff 0x10
";

#[test]
fn writes_go_by_their_address(rt: HostRuntime) {
    for (described, body, end) in [
        (
            "",
            "dma 256 0x8090040 03000000
dma 257 0x8090040 03000000
dma 512 0x8090040 03000000
dma 256 0x8090040 0300
dma 256 0x8090040 030000
dma 256 0x8090042 0300
dma 512 0x80030008 40
peek 0x80030008 1
end",
            "delivered 2 8200
dropped no-device
dropped no-requester
delivered 2 8200
outside
outside
bytes 40
vcpu 2 pending 8200
done
",
        ),
        // Any byte of a frame is one that no memory has.
        (
            "",
            "dma 256 0x807ffff 0000
dma 256 0x809ffff 00
dma 256 0x80a0000 00
dma 256 0x801fffff 0102
dma 256 0x8090040 03000000
take 2
end",
            "outside
outside
outside
outside
delivered 2 8200
lpi 8200 0xa0
done
",
        ),
        // A write of memory leaves its pages to be copied.
        (
            "track",
            "copy
dma 256 0x8090040 03000000
copy
dma 256 0x80030fff 4040
copy
end",
            "copied 512
delivered 2 8200
copied 0
copied 2
vcpu 2 pending 8200
done
",
        ),
        // Each translator has a doorbell of its own.
        (
            "pair\nb-base 0x80a0000",
            "dma 256 0x8090040 03000000
dma 256 0x80b0040 03000000
b write 0x100 8 0x8107000080100200
b write 0x108 8 0x8407000080110200
b write 0x80 8 0x8000000080120000
b write 0 4 1
dma 256 0x80b0040 03000000
migrate
phase
thread
dma 256 0x8090040 03000000
dma 256 0x80b0040 03000000
end",
            "delivered 2 8200
dropped disabled
dropped no-device
vcpu 2 pending 8200
migrated
delivered 2 8200
dropped no-device
vcpu 2 pending 8200
done
",
        ),
    ] {
        let parts = [MACHINE, DOORBELL, described, MAPPED, body];
        let ended = tells(&rt, rt.alloc(), &parts, Status::Ok, end);
        assert_eq!(rt; ended, Some(true), "{body}");
    }
}

#[test]
fn frames_and_requesters_are_refused(rt: HostRuntime) {
    for (lines, text) in [
        ("its-base 0x80000000", "refused machine its-base\n"),
        ("its-base 0x7ff0000", ""),
        ("its-base 0xfffffffff0000", "refused machine its-base\n"),
        ("pair\nits-base 0x7ffe0000\nb-base 0x80200000", ""),
        ("pair\nb-base 0xffffffffe0000", ""),
        ("pair\nb-base 0x801f0000", "refused machine b-base\n"),
        (
            "pair\nits-base 0x8080000\nb-base 0x8090000",
            "refused machine its-base\n",
        ),
        (
            "pair\nb-base 0x8090000\nits-base 0x8080000",
            "refused machine its-base\n",
        ),
        ("requester 256 511 16\nrequester 512 512 0xffffffff", ""),
        (
            "requester 512 512 0xffffffff\nrequester 256 511 16\nrequester 512 600 0",
            "refused machine requester 12\n",
        ),
        (
            "requester 256 511 16\nrequester 511 600 0",
            "refused machine requester 11\n",
        ),
        ("requester 5 4 0", "refused machine requester 10\n"),
        ("requester 0 1 4294967295", "refused machine requester 10\n"),
        (
            "requester 0 9 0\n# no overlap\nrequester 9 10 0x100",
            "refused machine requester 12\n",
        ),
        // What is wrong with the frames comes before it, and what is restored after it.
        (
            "requester 5 4 0\nits-base 0x80000000",
            "refused machine its-base\n",
        ),
        (
            "restore 1 0 0 0 0 0\nrequester 5 4 0",
            "refused machine requester 11\n",
        ),
    ] {
        let (status, text) = if text.is_empty() {
            (Status::Ok, "done\n")
        } else {
            (Status::MachineRefused, text)
        };
        let parts = [MACHINE, lines, "end"];
        let ended = tells(&rt, rt.alloc(), &parts, status, text);
        assert_eq!(rt; ended, Some(true), "{lines}");
    }
}

// So many requesters, each in a line of its own.
fn requesters(alloc: Global, count: u32) -> Result<String, AllocError> {
    let mut text = String::new(alloc);
    for number in 0..count {
        writeln!(text, "requester {number} {number} {number}")?;
    }
    Ok(text)
}

#[test]
fn there_are_64_lines_of_requesters_at_most(rt: HostRuntime) -> Result<(), Fail> {
    let alloc = rt.alloc();
    for (count, status, text) in [
        (
            64,
            Status::Ok,
            "dropped no-device\ndropped no-requester\ndone\n",
        ),
        (65, Status::ScriptRefused, "refused script 75 many\n"),
    ] {
        let lines = requesters(alloc, count)?;
        let body = "phase
thread
write 0x100 8 0x8107000080000200
write 0x108 8 0x8407000080010200
write 0x80 8 0x8000000080020000
write 0 4 1
dma 63 0x8090040 00000000
dma 64 0x8090040 00000000
end";
        let parts = [MACHINE, "its-base 0x8080000", lines.as_str(), body];
        let ended = tells(&rt, alloc, &parts, status, text);
        assert_eq!(rt; ended, Some(true), "{count}");
    }
    Ok(())
}

// A phase of so many threads, which ring this often.
fn ringing(alloc: Global, threads: u32, calls: u32) -> Result<String, AllocError> {
    let mut text = String::from_str(alloc, "phase\n")?;
    for _ in 0..threads {
        text.push_str("thread\n")?;
        for _ in 0..calls {
            text.push_str("dma 256 0x8090040 03000000\ndma 257 0x80030008 40\n")?;
        }
    }
    Ok(text)
}

#[test]
fn devices_ring_beside_each_other(rt: HostRuntime) -> Result<(), Fail> {
    let alloc = rt.alloc();
    let beside = ringing(alloc, 4, 25)?;
    let after = "phase
thread
take 2
take 2
peek 0x80030008 1
end";
    let end = "lpi 8200 0xa0
none
bytes 40
done
";
    let parts = [MACHINE, DOORBELL, MAPPED, beside.as_str(), after];
    let ended = tells(&rt, alloc, &parts, Status::Ok, end);
    assert_eq!(rt; ended, Some(true));
    Ok(())
}
