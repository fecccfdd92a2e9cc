//! Scripts that are refused: the word, its field, and what may stand there.
use crate::explained::is_refused_so;

#[test]
fn fields_are_explained(rt: HostRuntime) {
    for (old, new, explained) in [
        (
            "mapti",
            "mapit",
            "    command 0x80020040 mapit 7 2 8192 0
                       ^
line 16, field 3: \"mapit\" is no command; maybe `mapti` is meant; commands are
    mapd, unmapd, mapc, unmapc, mapti, mapi, movi, movall, int, clear, discard,
    inv, invall, sync
",
        ),
        (
            "signal 7 2",
            "signal 7",
            "    signal 7
            ^
line 23: field 3 is missing; the line is `signal DEV EV`
",
        ),
        (
            "signal 7 2",
            "signal 7 2 1",
            "    signal 7 2 1
               ^
line 23: \"1\" is a field too many; the line is `signal DEV EV`
",
        ),
        (
            "mapd 7 4",
            "mapd 18446744073709551616 4",
            "    command 0x80020000 mapd 18446744073709551616 4 0x800c0000
                            ^
line 14, field 4: \"18446744073709551616\" is past 2^64 - 1
Here stands a DeviceID, 0 to 4294967295.
The line is `command ADDR mapd DEV BITS ITT`.
",
        ),
        (
            "mapd 7 4",
            "mapd seven 4",
            "    command 0x80020000 mapd seven 4 0x800c0000
                            ^
line 14, field 4: \"seven\" is no number
Here stands a DeviceID, 0 to 4294967295.
Numbers are decimal digits, or 0x and 1 to 16 hexadecimal digits.
The line is `command ADDR mapd DEV BITS ITT`.
",
        ),
        (
            "mapd 7 4",
            "mapd 7 33",
            "    command 0x80020000 mapd 7 33 0x800c0000
                              ^
line 14, field 5: \"33\" is out of range
Here stands a count of EventID bits, 1 to 32.
The line is `command ADDR mapd DEV BITS ITT`.
",
        ),
        (
            "0x800c0000",
            "0x800c0010",
            "    command 0x80020000 mapd 7 4 0x800c0010
                                ^
line 14, field 6: \"0x800c0010\" is no multiple of 256
Here stands a table's address, a multiple of 256, at most 0xfffffffffff00.
The line is `command ADDR mapd DEV BITS ITT`.
",
        ),
        (
            "take 1",
            "take 2",
            "    take 2
         ^
line 24, field 2: \"2\" is out of range
Here stands a virtual processor; they are 0 and 1.
The line is `take V`.
",
        ),
        (
            "write 0x0 4 1",
            "write 0x0 4 0x100000000",
            "    write 0x0 4 0x100000000
                ^
line 13, field 4: \"0x100000000\" is out of range
Here stands a value of 4 bytes, 0 to 0xffffffff.
The line is `write OFF SIZE VALUE`.
",
        ),
        (
            "write 0x0 4 1",
            "write 0x0 2 1",
            "    write 0x0 2 1
              ^
line 13, field 3: \"2\" is neither 4 nor 8
Here stands the size of the access in bytes, 4 or 8.
The line is `write OFF SIZE VALUE`.
",
        ),
        (
            "vcpus 2",
            "processors 16",
            "    processors 16
               ^
line 1, field 2: \"16\" is out of range
Here stands the count (for fewer see `vcpus N`), 17 to 512.
The line is `processors N`.
",
        ),
        (
            "shards 4",
            "shards 3",
            "    shards 3
           ^
line 2, field 2: \"3\" is no power of 2 from 1 to 64
Here stands 1, 2, 4, 8, 16, 32 or 64.
The line is `shards N`.
",
        ),
        (
            "bytes 0x80030000 a1",
            "bytes 0x80030000 a1a",
            "    bytes 0x80030000 a1a
                     ^
line 7, field 3: \"a1a\" has 3 digits, and each byte has two
Here stand 1 to 4096 bytes, without 0x.
The line is `bytes ADDR HEX`.
",
        ),
        (
            "bytes 0x80030000 a1",
            "bytes 0x80030000 0xa1",
            "    bytes 0x80030000 0xa1
                     ^
line 7, field 3: \"0xa1\" has \"x\", no hexadecimal digit
Here stand 1 to 4096 bytes, without 0x.
The line is `bytes ADDR HEX`.
",
        ),
    ] {
        let right = is_refused_so(rt.alloc(), old, new, explained);
        assert_eq!(rt; right, Some(true), "{new}");
    }
}

#[test]
fn places_of_lines_are_explained(rt: HostRuntime) {
    for (old, new, explained) in [
        (
            "vcpus 2\n",
            "",
            "    shards 4
    ^
line 1: `vcpus` or `processors` has to come first
",
        ),
        (
            "shards 4\n",
            "shards 4\nshards 4\n",
            "    shards 4
    ^
line 3: line 2 has `shards` already, and it stands once
",
        ),
        (
            "pending 1",
            "pending 0x0",
            "    pending 0x0 0x80050000
    ^
line 6: line 5 has `pending 0` already
",
        ),
        (
            "shards 4\n",
            "processors 20\nshards 4\n",
            "    processors 20
    ^
line 2: line 1 says already how many processors there are
",
        ),
        (
            "vcpus 2\n",
            "processors 512\n",
            "    phase
    ^
line 8: the description isn't whole; these are missing:
    `pending 2 ADDR`, `pending 3 ADDR`, `pending 4 ADDR`, `pending 5 ADDR`,
    `pending 6 ADDR`, `pending 7 ADDR`, `pending 8 ADDR`, `pending 9 ADDR`,
    `pending 10 ADDR`, `pending 11 ADDR`, `pending 12 ADDR`, `pending 13 ADDR`,
    `pending 14 ADDR`, `pending 15 ADDR`, `pending 16 ADDR`, `pending 17 ADDR`,
    and those of 494 more
",
        ),
        (
            "config 0x80030000\npending 0 0x80040000\n",
            "",
            "    phase
    ^
line 6: the description isn't whole; these are missing:
    `config ADDR`,
    `pending 0 ADDR`
",
        ),
        (
            "bytes 0x80030000 a1\n",
            "pair\nlimits 4096 10\n",
            "    limits 4096 10
    ^
line 8: with the `pair` of line 7 the last stamp is 1 to 4095
",
        ),
        (
            "write 0x0 4 1",
            "rread 0 0x0 4",
            "    rread 0 0x0 4
    ^
line 13: `rread` needs a line `gicr` in the description
",
        ),
        (
            "write 0x0 4 1",
            "shards 4",
            "    shards 4
    ^
line 13: `shards` describes the machine, and stands before the first `phase` or `migrate`
",
        ),
        (
            "phase\nthread\nsignal",
            "phase\nsignal",
            "    signal 7 2
    ^
line 22: `signal` stands in a thread, after `phase` and `thread`
",
        ),
        (
            "write 0x0 4 1",
            "mapd 7 4 0x800c0000",
            "    mapd 7 4 0x800c0000
    ^
line 13: \"mapd\" begins no line
It is the word of a command, which stands after `command ADDR`.
Lines of the description begin with
    vcpus, processors, shards, limits, ids, profile, window, config, pending, gicr,
    linux, pair, track, its-base, b-base, requester, bytes, word, restore, brestore,
    rrestore, from-kvm
those of the body with
    phase, thread, migrate, precopy, end
calls with
    signal, take, show, best, claim, poke, word, command, peek, read, write, rread,
    rwrite, step, save, copy, dma, b
and remarks with #
",
        ),
        (
            "end\n",
            "end\nTrace\n",
            "    Trace
    ^
line 26: \"Trace\" begins no line
Maybe `trace` is meant.
After `end` a line `trace` and a report may follow, or remarks.
",
        ),
        (
            "vcpus 2",
            "vcpu 2",
            "    vcpu 2
    ^
line 1: \"vcpu\" begins no line
Maybe `vcpus` is meant.
Lines of the description begin with
    vcpus, processors, shards, limits, ids, profile, window, config, pending, gicr,
    linux, pair, track, its-base, b-base, requester, bytes, word, restore, brestore,
    rrestore, from-kvm
those of the body with
    phase, thread, migrate, precopy, end
calls with
    signal, take, show, best, claim, poke, word, command, peek, read, write, rread,
    rwrite, step, save, copy, dma, b
and remarks with #
",
        ),
        (
            "take 1",
            "take 1\r",
            "    take 1.
          ^
line 24: byte 0x0D (CR): lines end with LF (0x0A) alone
",
        ),
        (
            "take 1",
            "take\t1",
            "    take.1
        ^
line 24: byte 0x09 (tab): fields are separated by spaces
",
        ),
        (
            "end\n",
            "",
            "line 25: the input stops here, and `end` is missing
",
        ),
        (
            "end\n",
            "end",
            "    end
       ^
line 25: the input ends here, and each line ends with LF (byte 0x0A)
",
        ),
        (
            "end\n",
            "end\ntake 1\n",
            "    take 1
    ^
line 26: nothing follows the `end` of line 25 but a line `trace` and a report, or remarks
",
        ),
        (
            "end\n",
            "end\nleg 1\n",
            "    leg 1
    ^
line 26: a report begins here, and the line `trace` has to stand before it
",
        ),
        (
            "vcpus 2\n",
            "leg 1\n",
            "    leg 1
    ^
line 1: this begins a report, as `its run` prints it, and a script was expected
A report is read after its script and a line `trace`, by `its check` or here.
",
        ),
        (
            "step\nstep\nstep\n",
            "step 1\ntake 2\nstep\nshards 4\nstep 1\n",
            "    step 1
         ^
line 18: \"1\" is a field too many; the line is `step`

    take 2
         ^
line 19, field 2: \"2\" is out of range
Here stands a virtual processor; they are 0 and 1.
The line is `take V`.

    shards 4
    ^
line 21: `shards` describes the machine, and stands before the first `phase` or `migrate`
",
        ),
    ] {
        let right = is_refused_so(rt.alloc(), old, new, explained);
        assert_eq!(rt; right, Some(true), "{new}");
    }
}
