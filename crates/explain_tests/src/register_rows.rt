//! What writes of registers are told to have kept, or the rule by which they were ignored.
use crate::explained::{is_told_after, is_told_so};
use crate::report_rows::TOLD;

#[test]
fn writes_while_enabled_are_told(rt: HostRuntime) {
    let calls = "write 0x88 8 0x20000
write 0x100 8 0
write 0x80 4 0
write 0x90 8 0
write 0x20 8 0
read 0x100 4
read 0x104 4
read 0x8 8
write 0x0 4 0
write 0x100 8 0x8000000080100001
write 0x104 4 0x81070000
";
    let entries = "
12 2.1 write 0x88 8 0x20000 -> ok
13 2.1 write 0x100 8 0x0 -> ok
14 2.1 write 0x80 4 0x0 -> ok
15 2.1 write 0x90 8 0x0 -> ok
16 2.1 write 0x20 8 0x0 -> ok
17 2.1 read 0x100 4 -> value 0x80000200
18 2.1 read 0x104 4 -> value 0x81070000
19 2.1 read 0x8 8 -> value 0x1ef71
20 2.1 write 0x0 4 0x0 -> ok
21 2.1 write 0x100 8 0x8000000080100001 -> ok
22 2.1 write 0x104 4 0x81070000 -> ok
";
    let told = "
12 2.1 write 0x88 8 0x20000 -> ok
        line 24: ignored: CWRITER 0x20000 is past the queue of 0x1000: kept 0x60
13 2.1 write 0x100 8 0x0 -> ok
        line 25: ignored: GITS_BASER0 can't be written while the translator is enabled; kept
        0x8107000080000200
14 2.1 write 0x80 4 0x0 -> ok
        line 26: ignored: GITS_CBASER can't be written while the translator is enabled; kept
        0x80020000
15 2.1 write 0x90 8 0x0 -> ok
        line 27: ignored: GITS_CREADR can only be read
16 2.1 write 0x20 8 0x0 -> ok
        line 28: ignored: no register here
17 2.1 read 0x100 4 -> value 0x80000200
        line 29: GITS_BASER0: the device table at 0x80000000 has 1 x 64 KiB, valid
18 2.1 read 0x104 4 -> value 0x81070000
        line 30: GITS_BASER0: the device table at 0x80000000 has 1 x 64 KiB, valid
19 2.1 read 0x8 8 -> value 0x1ef71
        line 31: GITS_TYPER: DeviceIDs of 16 bits, EventIDs of 16, and 8 bytes of table for each
        event
20 2.1 write 0x0 4 0x0 -> ok
        line 32: GITS_CTLR: the translator isn't enabled
21 2.1 write 0x100 8 0x8000000080100001 -> ok
        line 33: GITS_BASER0: the device table at 0x80100000 has 2 x 64 KiB, valid; written
        0x8000000080100001, it reads 0x8107000080100201; unmapped: 1 device with 1 event
22 2.1 write 0x104 4 0x81070000 -> ok
        line 34: GITS_BASER0: the device table at 0x80100000 has 2 x 64 KiB, valid
";
    let right = is_told_after(rt.alloc(), calls, entries, TOLD, told);
    assert_eq!(rt; right, Some(true));
}

/// A machine whose guest programs all registers.
const BARE: &str = "vcpus 1
shards 4
window 0x80000000 0x200000
gicr
phase
thread
write 0x0 4 1
write 0x80 8 0x8000000080020000
write 0x0 4 1
rwrite 0 0x0 4 1
rwrite 0 0x70 8 0x8003000f
rwrite 0 0x78 8 0x80040000
rwrite 0 0x0 4 1
rwrite 0 0x70 8 0x8005000f
rwrite 0 0x0 4 1
rwrite 0 0x0 4 0
rwrite 0 0xa0 8 5
rread 0 0x70 8
take 0
end
";

/// The report of its run.
const REPORT: &str = "leg 1
0 1.1 write 0x0 4 0x1 -> ok
1 1.1 write 0x80 8 0x8000000080020000 -> ok
2 1.1 write 0x0 4 0x1 -> ok
3 1.1 rwrite 0 0x0 4 0x1 -> ok
4 1.1 rwrite 0 0x70 8 0x8003000f -> ok
5 1.1 rwrite 0 0x78 8 0x80040000 -> ok
6 1.1 rwrite 0 0x0 4 0x1 -> ok
7 1.1 rwrite 0 0x70 8 0x8005000f -> ok
8 1.1 rwrite 0 0x0 4 0x1 -> ok
9 1.1 rwrite 0 0x0 4 0x0 -> ok
10 1.1 rwrite 0 0xa0 8 0x5 -> ok
11 1.1 rread 0 0x70 8 -> value 0x8003000f
12 1.1 take 0 -> none
vcpu 0 pending none
done
";

#[test]
fn registers_that_are_not_ready_are_told(rt: HostRuntime) {
    let told = "leg 1
0 1.1 write 0x0 4 0x1 -> ok
        line 7: ignored: the translator can be enabled with valid bases alone; bit 63 is 0 in
        GITS_CBASER, GITS_BASER0, GITS_BASER1 (section 12.19)
1 1.1 write 0x80 8 0x8000000080020000 -> ok
        line 8: GITS_CBASER: the queue at 0x80020000 has 0x1000 bytes, valid
2 1.1 write 0x0 4 0x1 -> ok
        line 9: ignored: the translator can be enabled with valid bases alone; bit 63 is 0 in
        GITS_BASER0, GITS_BASER1 (section 12.19)
3 1.1 rwrite 0 0x0 4 0x1 -> ok
        line 10: ignored: LPIs stay off, since their tables at 0x0 and 0x0 don't both lie in one
        window each (section 12.11)
4 1.1 rwrite 0 0x70 8 0x8003000f -> ok
        line 11: GICR_PROPBASER: the configuration table at 0x80030000, IDbits 15
5 1.1 rwrite 0 0x78 8 0x80040000 -> ok
        line 12: GICR_PENDBASER: the pending table at 0x80040000
6 1.1 rwrite 0 0x0 4 0x1 -> ok
        line 13: GICR_CTLR: LPIs are on, with 0 pending LPIs
7 1.1 rwrite 0 0x70 8 0x8005000f -> ok
        line 14: ignored: GICR_PROPBASER can't be written while LPIs are on; it reads 0x8003000f
8 1.1 rwrite 0 0x0 4 0x1 -> ok
        line 15: GICR_CTLR: LPIs are on, as before
9 1.1 rwrite 0 0x0 4 0x0 -> ok
        line 16: ignored: LPIs stay on; they can be turned off with `linux` alone
10 1.1 rwrite 0 0xa0 8 0x5 -> ok
        line 17: ignored: 5 is no LPI's number (section 2.2)
11 1.1 rread 0 0x70 8 -> value 0x8003000f
        line 18: GICR_PROPBASER: the configuration table at 0x80030000, IDbits 15
12 1.1 take 0 -> none
        line 19: no LPI is pending at processor 0 (section 5.1)
vcpu 0 pending none
done
";
    assert_eq!(rt; is_told_so(rt.alloc(), BARE, REPORT, told), Some(true));
}
