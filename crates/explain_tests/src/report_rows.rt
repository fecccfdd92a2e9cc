//! Reports that differ, with both lines and what the state was, and reports that are told.
use crate::explained::{REPORT, SCRIPT, is_checked_so, is_told_so};

#[test]
fn differences_are_explained(rt: HostRuntime) {
    for (old, new, explained) in [
        (
            "delivered 1 8192",
            "delivered 0 8192",
            "The report says
    11 2.1 signal 7 2 -> delivered 0 8192
and a run's line is
    11 2.1 signal 7 2 -> delivered 1 8192
        line 23: device 7 is mapped by line 14, event 2 is LPI 8192 of collection 0 by line 16,
        which goes to processor 1 by line 15
",
        ),
        (
            "ran mapti",
            "refused mapti no-device",
            "The report says
    10 1.1 step -> refused mapti no-device
and a run's line is
    10 1.1 step -> ran mapti
        line 20: by line 16 event 2 of device 7 is LPI 8192 of collection 0
",
        ),
        (
            "11 2.1",
            "11 2.2",
            "The report says
    11 2.2 signal 7 2 -> delivered 1 8192
and phase 2 of the leg has one thread.
",
        ),
        (
            "11 2.1",
            "11 3.1",
            "The report says
    11 3.1 signal 7 2 -> delivered 1 8192
and the leg has 2 phases.
",
        ),
        (
            "11 2.1",
            "11 1.1",
            "The report says
    11 1.1 signal 7 2 -> delivered 1 8192
and all calls of thread 1.1 are told already.
",
        ),
        (
            "0 1.1 write",
            "0 2.1 write",
            "The report says
    0 2.1 write 0x100 8 0x8107000080000200 -> ok
and the call of line 10 is left, whose phase comes before phase 2.
",
        ),
        (
            "12 2.1 take 1 -> lpi 8192 0xa0\n",
            "",
            "The report says
    vcpu 0 pending none
and calls of the leg are left, from line 24 on.
",
        ),
        (
            "vcpu 1 pending none",
            "vcpu 1 pending 8192",
            "The report says
    vcpu 1 pending 8192
and a run's line is
    vcpu 1 pending none
",
        ),
        (
            "12 2.1",
            "13 2.1",
            "Line 14 of the report is
    13 2.1 take 1 -> lpi 8192 0xa0
Its place is 13, and places rise by one: the next is 12.
Here stands `12 PHASE.THREAD CALL -> REPLY`, or after the leg's last call
`vcpu 0 pending INTIDS`, with `none` for no INTID.
",
        ),
        (
            "12 2.1",
            "12 21",
            "Line 14 of the report is
    12 21 take 1 -> lpi 8192 0xa0
After its place stands PHASE.THREAD, each counted from 1.
Here stands `12 PHASE.THREAD CALL -> REPLY`, or after the leg's last call
`vcpu 0 pending INTIDS`, with `none` for no INTID.
",
        ),
        (
            "vcpu 1 pending none\n",
            "",
            "Line 16 of the report is
    done
Here stands `vcpu 1 pending INTIDS`, with `none` for no INTID.
",
        ),
        (
            "done\n",
            "",
            "The report stops before its line 17.
Here stands `done`, after the script's last leg.
",
        ),
        (
            "-> delivered 1 8192",
            "-> delivered 1 8192 ",
            "The report says
    11 2.1 signal 7 2 -> delivered 1 8192 
and a run's line is
    11 2.1 signal 7 2 -> delivered 1 8192
without the spaces at its end.
        line 23: device 7 is mapped by line 14, event 2 is LPI 8192 of collection 0 by line 16,
        which goes to processor 1 by line 15
",
        ),
        (
            "leg 1\n",
            "agrees\n",
            "Line 1 of the report is
    agrees
This is what `its` says of an input, and no line of a report.
Here stands `leg 1`.
",
        ),
        (
            "delivered 1",
            "del\u{1}ivered 1",
            "Line 13 of the report is
    11 2.1 signal 7 2 -> del.ivered 1 8192
It has bytes that don't print, for which dots stand above.
Here stands `11 PHASE.THREAD CALL -> REPLY`, or after the leg's last call
`vcpu 0 pending INTIDS`, with `none` for no INTID.
",
        ),
        (
            "leg 1\n",
            "leg 1\r\n",
            "Line 1 of the report is
    leg 1.
It ends with CR LF, and a report's lines end with LF (byte 0x0A) alone.
Here stands `leg 1`.
",
        ),
        (
            "leg 1\n",
            "leg 1\n\n",
            "Line 2 of the report has no bytes, and a report has no blank lines.
Here stands `0 PHASE.THREAD CALL -> REPLY`, or after the leg's last call
`vcpu 0 pending INTIDS`, with `none` for no INTID.
",
        ),
        (
            "leg 1\n",
            "# mine\nleg 1\n",
            "Line 1 of the report is
    # mine
A report has no remarks.
Here stands `leg 1`.
",
        ),
    ] {
        let right = is_checked_so(rt.alloc(), old, new, explained);
        assert_eq!(rt; right, Some(true), "{new}");
    }
}

/// The report, with what came of each call.
pub const TOLD: &str = "leg 1
0 1.1 write 0x100 8 0x8107000080000200 -> ok
        line 10: GITS_BASER0: the device table at 0x80000000 has 1 x 64 KiB, valid
1 1.1 write 0x108 8 0x8407000080010200 -> ok
        line 11: GITS_BASER1: the collection table at 0x80010000 has 1 x 64 KiB, valid
2 1.1 write 0x80 8 0x8000000080020000 -> ok
        line 12: GITS_CBASER: the queue at 0x80020000 has 0x1000 bytes, valid
3 1.1 write 0x0 4 0x1 -> ok
        line 13: GITS_CTLR: the translator is enabled
4 1.1 poke 0x80020000 0800000007000000030000000000000000000c80000000800000000000000000 -> ok
        line 14: `command 0x80020000 mapd 7 4 0x800c0000`
5 1.1 poke 0x80020020 0900000000000000000000000000000000000100000000800000000000000000 -> ok
        line 15: `command 0x80020020 mapc 0 1`
6 1.1 poke 0x80020040 0a00000007000000020000000020000000000000000000000000000000000000 -> ok
        line 16: `command 0x80020040 mapti 7 2 8192 0`
7 1.1 write 0x88 8 0x60 -> ok
        line 17: GITS_CWRITER: commands stand up to offset 0x60 of the queue
8 1.1 step -> ran mapd
        line 18: by line 14 device 7 is mapped, with 4 EventID bits and its table at 0x800c0000
9 1.1 step -> ran mapc
        line 19: by line 15 collection 0 goes to processor 1
10 1.1 step -> ran mapti
        line 20: by line 16 event 2 of device 7 is LPI 8192 of collection 0
11 2.1 signal 7 2 -> delivered 1 8192
        line 23: device 7 is mapped by line 14, event 2 is LPI 8192 of collection 0 by line 16,
        which goes to processor 1 by line 15
12 2.1 take 1 -> lpi 8192 0xa0
        line 24: the lowest that is pending and enabled at processor 1, and not pending any more
vcpu 0 pending none
vcpu 1 pending none
done
";

#[test]
fn each_call_is_told(rt: HostRuntime) {
    let alloc = rt.alloc();
    assert_eq!(rt; is_told_so(alloc, SCRIPT, REPORT, TOLD), Some(true));
    assert_eq!(rt; is_checked_so(alloc, "", "", TOLD), Some(true));
}

/// A machine whose tables aren't set up.
const BARE: &str = "vcpus 1
shards 4
limits 100 3
window 0x80000000 0x200000
config 0x80030000
pending 0 0x80040000
phase
thread
signal 7 2
take 0
peek 0x801fffff 2
step
end
";

/// The report of its run, which ends after three places.
const CUT: &str = "leg 1
0 1.1 signal 7 2 -> dropped disabled
1 1.1 take 0 -> none
2 1.1 peek 0x801fffff 2 -> outside
";

#[test]
fn the_end_of_a_run_is_told(rt: HostRuntime) {
    let told = "leg 1
0 1.1 signal 7 2 -> dropped disabled
        line 9: the translator isn't enabled: bit 0 of GITS_CTLR is 0 (section 12.19.6)
1 1.1 take 0 -> none
        line 10: no LPI is pending at processor 0 (section 5.1)
2 1.1 peek 0x801fffff 2 -> outside
        line 11: the bytes don't all lie in one window
The leg has calls left, and the `limits` line gives a leg 3 places.
";
    assert_eq!(rt; is_told_so(rt.alloc(), BARE, CUT, told), Some(true));
}
