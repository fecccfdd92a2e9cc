//! Machines that can't be: which window or table, and the rule that it breaks.
use crate::explained::is_refused_so;

#[test]
fn places_in_memory_are_explained(rt: HostRuntime) {
    for (old, new, explained) in [
        (
            "config",
            "window 0xffffffffff000 0x1001\nconfig",
            "    window 0xffffffffff000 0x1001
line 4: the window ends past 2^52 (0x10000000000000)
",
        ),
        (
            "config",
            "window 0x801ff000 0x2000\nconfig",
            "    window 0x801ff000 0x2000
line 4: the window shares bytes with that of 0x80000000 to 0x801fffff
",
        ),
        (
            "config",
            "window 0x100000000 0x3e00001\nconfig",
            "    window 0x100000000 0x3e00001
line 4: with this window the windows have more than 67108864 bytes (64 MiB) together
",
        ),
        (
            "config 0x80030000",
            "config 0x801f3000",
            "    config 0x801f3000
line 4: the configuration table has a byte for each LPI, 0xe000 bytes (section 5.1.1)
All of it has to lie in one window; windows are
    0x80000000 to 0x801fffff
",
        ),
        (
            "pending 1 0x80050000",
            "pending 1 0x90000000",
            "    pending 1 0x90000000
line 6: this pending table has a bit for each INTID, 0x2000 bytes (section 5.1.2)
All of it has to lie in one window; windows are
    0x80000000 to 0x801fffff
",
        ),
        (
            "bytes 0x80030000 a1",
            "word 0x801ffff9 0",
            "    word 0x801ffff9 0
line 7: these bytes, from 0x801ffff9 on, have to lie in one window; windows are
    0x80000000 to 0x801fffff
",
        ),
        (
            "bytes 0x80030000 a1",
            "its-base 0x801f0000",
            "    its-base 0x801f0000
line 7: the two frames there have 0x20000 bytes (section 12.19), end at or below 2^52,
and share no byte with a window or with the other translator's frames; windows are
    0x80000000 to 0x801fffff
",
        ),
    ] {
        let right = is_refused_so(rt.alloc(), old, new, explained);
        assert_eq!(rt; right, Some(true), "{new}");
    }
}

#[test]
fn requesters_and_tables_are_explained(rt: HostRuntime) {
    for (new, explained) in [
        (
            "requester 0 8 0\nrequester 8 9 0",
            "    requester 8 9 0
line 8: line 7 names some of them already: 0 to 8
",
        ),
        (
            "restore 1 0 0 0 0x8107000080000200 0x8407000080010200",
            "    restore 1 0 0 0 0x8107000080000200 0x8407000080010200
line 7: the value of GITS_CBASER cannot stand beside the others
Where CTLR enables, its bases are valid, and offsets lie inside the queue (KVM, arm-vgic-its).
",
        ),
        (
            "word 0x80010000 0x8000000000020000
restore 1 0x8000000080020000 0 0 0x8107000080000200 0x8407000080010200",
            "    restore 1 0x8000000080020000 0 0 0x8107000080000200 0x8407000080010200
line 8: collection 0 goes to processor 2, which is none
A collection goes to one of the machine's processors (KVM, arm-vgic-its).
",
        ),
    ] {
        let right = is_refused_so(rt.alloc(), "bytes 0x80030000 a1", new, explained);
        assert_eq!(rt; right, Some(true), "{new}");
    }
}
