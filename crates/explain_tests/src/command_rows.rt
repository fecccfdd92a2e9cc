//! What commands and acknowledgements are told to have done: what changed, and what was so already.
use crate::explained::is_told_after;
use crate::report_rows::TOLD;

// After the script's signal LPI 8192 is pending at processor 1. Calls begin at line 24.
#[test]
fn commands_are_told_by_what_changed(rt: HostRuntime) {
    for (calls, entries, told) in [
        (
            "command 0x80020060 mapti 7 2 8200 1
write 0x88 8 0x80
step
signal 7 2
",
            "
12 2.1 poke 0x80020060 0a00000007000000020000000820000001000000000000000000000000000000 -> ok
13 2.1 write 0x88 8 0x80 -> ok
14 2.1 step -> ran mapti
15 2.1 signal 7 2 -> delivered 1 8192
",
            "
12 2.1 poke 0x80020060 0a00000007000000020000000820000001000000000000000000000000000000 -> ok
        line 24: `command 0x80020060 mapti 7 2 8200 1`
13 2.1 write 0x88 8 0x80 -> ok
        line 25: GITS_CWRITER: commands stand up to offset 0x80 of the queue
14 2.1 step -> ran mapti
        line 26: by line 24 event 2 of device 7 stays LPI 8192 of collection 0, as it was mapped by
        line 16: a mapped event isn't mapped again
15 2.1 signal 7 2 -> delivered 1 8192
        line 27: device 7 is mapped by line 14, event 2 is LPI 8192 of collection 0 by line 16,
        which goes to processor 1 by line 15; it was pending there already
",
        ),
        (
            "command 0x80020060 mapc 1 0
command 0x80020080 movi 7 2 1
command 0x800200a0 movi 7 2 0
write 0x88 8 0xa0
step
step
take 0
write 0x88 8 0xc0
step
signal 7 2
",
            "
12 2.1 poke 0x80020060 0900000000000000000000000000000001000000000000800000000000000000 -> ok
13 2.1 poke 0x80020080 0100000007000000020000000000000001000000000000000000000000000000 -> ok
14 2.1 poke 0x800200a0 0100000007000000020000000000000000000000000000000000000000000000 -> ok
15 2.1 write 0x88 8 0xa0 -> ok
16 2.1 step -> ran mapc
17 2.1 step -> ran movi
18 2.1 take 0 -> lpi 8192 0xa0
19 2.1 write 0x88 8 0xc0 -> ok
20 2.1 step -> ran movi
21 2.1 signal 7 2 -> delivered 1 8192
",
            "
12 2.1 poke 0x80020060 0900000000000000000000000000000001000000000000800000000000000000 -> ok
        line 24: `command 0x80020060 mapc 1 0`
13 2.1 poke 0x80020080 0100000007000000020000000000000001000000000000000000000000000000 -> ok
        line 25: `command 0x80020080 movi 7 2 1`
14 2.1 poke 0x800200a0 0100000007000000020000000000000000000000000000000000000000000000 -> ok
        line 26: `command 0x800200a0 movi 7 2 0`
15 2.1 write 0x88 8 0xa0 -> ok
        line 27: GITS_CWRITER: commands stand up to offset 0xa0 of the queue
16 2.1 step -> ran mapc
        line 28: by line 24 collection 1 goes to processor 0
17 2.1 step -> ran movi
        line 29: by line 25 event 2 of device 7 goes to collection 1, from processor 1 to processor
        0, and its pending LPI 8192 too
18 2.1 take 0 -> lpi 8192 0xa0
        line 30: the lowest that is pending and enabled at processor 0, and not pending any more
19 2.1 write 0x88 8 0xc0 -> ok
        line 31: GITS_CWRITER: commands stand up to offset 0xc0 of the queue
20 2.1 step -> ran movi
        line 32: by line 26 event 2 of device 7 goes to collection 0, from processor 0 to processor
        1; its LPI 8192 isn't pending
21 2.1 signal 7 2 -> delivered 1 8192
        line 33: device 7 is mapped by line 14, event 2 is LPI 8192 of collection 0 by line 26,
        which goes to processor 1 by line 15
",
        ),
        (
            "command 0x80020060 unmapc 0
command 0x80020080 discard 7 2
write 0x88 8 0xa0
step
step
show 1
signal 7 2
",
            "
12 2.1 poke 0x80020060 0900000000000000000000000000000000000000000000000000000000000000 -> ok
13 2.1 poke 0x80020080 0f00000007000000020000000000000000000000000000000000000000000000 -> ok
14 2.1 write 0x88 8 0xa0 -> ok
15 2.1 step -> ran mapc
16 2.1 step -> ran discard
17 2.1 show 1 -> lpi 8192 0xa0
18 2.1 signal 7 2 -> dropped no-event
",
            "
12 2.1 poke 0x80020060 0900000000000000000000000000000000000000000000000000000000000000 -> ok
        line 24: `command 0x80020060 unmapc 0`
13 2.1 poke 0x80020080 0f00000007000000020000000000000000000000000000000000000000000000 -> ok
        line 25: `command 0x80020080 discard 7 2`
14 2.1 write 0x88 8 0xa0 -> ok
        line 26: GITS_CWRITER: commands stand up to offset 0xa0 of the queue
15 2.1 step -> ran mapc
        line 27: by line 24 collection 0 is unmapped
16 2.1 step -> ran discard
        line 28: by line 25 event 2 of device 7 is unmapped; its collection 0 isn't mapped, so no
        LPI is cleared; LPI 8192 stays pending at processor 1
17 2.1 show 1 -> lpi 8192 0xa0
        line 29: the lowest that is pending and enabled at processor 1
18 2.1 signal 7 2 -> dropped no-event
        line 30: event 2 of device 7 isn't mapped since line 25 (section 5.2.4)
",
        ),
        (
            "command 0x80020060 mapd 7 5 0x800c0000
command 0x80020080 mapc 0 7
write 0x88 8 0xa0
step
step
signal 7 2
",
            "
12 2.1 poke 0x80020060 0800000007000000040000000000000000000c80000000800000000000000000 -> ok
13 2.1 poke 0x80020080 0900000000000000000000000000000000000700000000800000000000000000 -> ok
14 2.1 write 0x88 8 0xa0 -> ok
15 2.1 step -> ran mapd
16 2.1 step -> refused mapc target-range
17 2.1 signal 7 2 -> dropped no-event
",
            "
12 2.1 poke 0x80020060 0800000007000000040000000000000000000c80000000800000000000000000 -> ok
        line 24: `command 0x80020060 mapd 7 5 0x800c0000`
13 2.1 poke 0x80020080 0900000000000000000000000000000000000700000000800000000000000000 -> ok
        line 25: `command 0x80020080 mapc 0 7`
14 2.1 write 0x88 8 0xa0 -> ok
        line 26: GITS_CWRITER: commands stand up to offset 0xa0 of the queue
15 2.1 step -> ran mapd
        line 27: by line 24 device 7 is mapped, with 5 EventID bits and its table at 0x800c0000; it
        was mapped by line 14, and its 1 event is unmapped
16 2.1 step -> refused mapc target-range
        line 28: not done, of line 25: 7: there are processors 0 to 1 (section 5.3)
17 2.1 signal 7 2 -> dropped no-event
        line 29: event 2 of device 7 isn't mapped since line 24 (section 5.2.4)
",
        ),
    ] {
        let right = is_told_after(rt.alloc(), calls, entries, TOLD, told);
        assert_eq!(rt; right, Some(true), "{calls}");
    }
}

#[test]
fn what_waits_is_told(rt: HostRuntime) {
    for (calls, entries, told) in [
        (
            "step
take 0
claim 0 8192
best 1 0xa0
write 0x0 4 0
step
",
            "
12 2.1 step -> idle
13 2.1 take 0 -> none
14 2.1 claim 0 8192 -> none
15 2.1 best 1 0xa0 -> none
16 2.1 write 0x0 4 0x0 -> ok
17 2.1 step -> idle
",
            "
12 2.1 step -> idle
        line 24: the queue is empty: CREADR and CWRITER are both 0x60
13 2.1 take 0 -> none
        line 25: no LPI is pending at processor 0 (section 5.1)
14 2.1 claim 0 8192 -> none
        line 26: LPI 8192 isn't pending at processor 0
15 2.1 best 1 0xa0 -> none
        line 27: the first at processor 1 is LPI 8192 of priority 0xa0, which isn't below 0xa0
16 2.1 write 0x0 4 0x0 -> ok
        line 28: GITS_CTLR: the translator isn't enabled
17 2.1 step -> idle
        line 29: the translator isn't enabled: bit 0 of GITS_CTLR is 0 (section 12.19.6)
",
        ),
        (
            "word 0x80030000 0xa0
command 0x80020060 inv 7 2
write 0x88 8 0x80
step
take 1
",
            "
12 2.1 poke 0x80030000 a000000000000000 -> ok
13 2.1 poke 0x80020060 0c00000007000000020000000000000000000000000000000000000000000000 -> ok
14 2.1 write 0x88 8 0x80 -> ok
15 2.1 step -> ran inv
16 2.1 take 1 -> none
",
            "
12 2.1 poke 0x80030000 a000000000000000 -> ok
        line 24: `word 0x80030000 0xa0`
13 2.1 poke 0x80020060 0c00000007000000020000000000000000000000000000000000000000000000 -> ok
        line 25: `command 0x80020060 inv 7 2`
14 2.1 write 0x88 8 0x80 -> ok
        line 26: GITS_CWRITER: commands stand up to offset 0x80 of the queue
15 2.1 step -> ran inv
        line 27: by line 25 the configuration of LPI 8192 of event 2 of device 7 is read again at
        processor 1: not enabled of priority 0xa0, before enabled of priority 0xa0
16 2.1 take 1 -> none
        line 28: LPI 8192 is pending at processor 1, and not enabled: bit 0 of its configuration
        byte was 0 when that was last read (section 5.1.1)
",
        ),
    ] {
        let right = is_told_after(rt.alloc(), calls, entries, TOLD, told);
        assert_eq!(rt; right, Some(true), "{calls}");
    }
}
