//! Registers and commands, by short runs.
use crate::runs::{MACHINE, MAPPED, tells};
use its_top::Status;

#[test]
fn registers_answer(rt: HostRuntime) {
    for (body, end) in [
        (
            "read 0x8 8
read 0x4 4
read 0xffe8 4
read 0x100 8
read 0x108 8
read 0x110 8
read 0x0 8
write 0x0 4 0x1
read 0x0 4
step
peek 0x801fffff 2
end",
            "value 0x1ef71
value 0x4b00043b
value 0x30
value 0x107000000000200
value 0x407000000000200
value 0x0
value 0x0
value 0x80000000
idle
outside
done
",
        ),
        (
            "write 0x104 4 0x80000000
read 0x100 8
read 0x104 4
read 0x100 4
read 0xc 4
write 0x108 8 0xffffffffffffffff
read 0x108 8
end",
            "value 0x8107000000000200
value 0x81070000
value 0x200
value 0x0
value 0xbce7fffffffffeff
done
",
        ),
        (
            "write 0x100 8 0x8107000080000200
write 0x108 8 0x8407000080010200
write 0x80 8 0x8000000090000000
write 0 4 1
write 0x88 8 0x20
step
read 0x90 8
end",
            "queue-fault 0x90000000
value 0x0
done
",
        ),
    ] {
        let parts = [MACHINE, "phase\nthread", body];
        let ended = tells(&rt, rt.alloc(), &parts, Status::Ok, end);
        assert_eq!(rt; ended, Some(true), "{body}");
    }
}

#[test]
fn commands_are_run_or_refused(rt: HostRuntime) {
    for (described, body, end) in [
        (
            "",
            "run mapd 0x11 14 0x80100000
run mapi 0x11 8191 1
run mapi 0x11 8192 1
run mapi 0x11 16384 1
run mapti 0x10 3 8201 1
signal 16 3
end",
            "ran mapd
refused mapi intid-range
ran mapi
refused mapi event-range
ran mapti
delivered 2 8200
vcpu 2 pending 8200
done
",
        ),
        (
            "",
            "run mapc 2 3
signal 16 3
run movi 0x10 3 2
show 2
take 3
run movi 0x10 3 1
show 2
signal 16 3
run discard 0x10 3
take 2
signal 16 3
run discard 0x10 3
end",
            "ran mapc
delivered 2 8200
ran movi
none
lpi 8200 0xa0
ran movi
none
delivered 2 8200
ran discard
none
dropped no-event
refused discard no-event
done
",
        ),
        (
            "",
            "signal 16 3
run unmapc 1
signal 16 3
run mapc 1 0
signal 16 3
run mapc 1 4
write 0x0 4 0x0
signal 16 3
read 0x0 4
write 0x0 4 0x1
end",
            "delivered 2 8200
ran mapc
dropped no-collection
ran mapc
delivered 0 8200
refused mapc target-range
dropped disabled
value 0x80000000
vcpu 0 pending 8200
vcpu 2 pending 8200
done
",
        ),
        (
            "",
            "run int 0x10 3
poke 0x80030008 40
show 2
run invall 1
show 2
run invall 9
run movall 2 0
run movall 2 4
poke 0x80030008 a1
run inv 0x10 3
show 0
run clear 0x10 3
end",
            "ran int
lpi 8200 0xa0
ran invall
none
refused invall no-collection
ran movall
refused movall target-range
ran inv
lpi 8200 0xa0
ran clear
vcpu 0 pending 8200
done
",
        ),
        // What is mapped goes with a write of a base register, whatever is written.
        (
            "",
            "write 0x0 4 0x0
write 0x108 8 0x8407000080010200
write 0x0 4 0x1
signal 16 3
write 0x0 4 0x0
write 0x100 8 0x8107000080000200
write 0x0 4 0x1
signal 16 3
end",
            "dropped no-collection
dropped no-device
done
",
        ),
        // For a Linux guest it stays where the register's own value is written, whole or by halves.
        (
            "linux",
            "write 0x0 4 0x0
write 0x100 8 0x8107000080000200
write 0x108 8 0x8407000080010200
write 0x104 4 0x81070000
write 0x0 4 0x1
signal 16 3
end",
            "delivered 2 8200
vcpu 2 pending 8200
done
",
        ),
        (
            "linux",
            "write 0x0 4 0x0
write 0x108 8 0x8407000080110200
write 0x108 8 0x8407000080010200
write 0x0 4 0x1
signal 16 3
write 0x0 4 0x0
write 0x100 8 0x8107000080100200
write 0x100 8 0x8107000080000200
write 0x0 4 0x1
signal 16 3
end",
            "dropped no-collection
dropped no-device
done
",
        ),
        // The first by priority, and one that is named.
        (
            "bytes 0x80030009 4140",
            "best 2 255
run mapti 0x10 4 8201 1
run mapti 0x10 5 8202 1
signal 16 3
signal 16 4
signal 16 5
best 2 255
best 2 0x40
show 2
claim 2 8202
claim 2 8201
claim 2 8201
best 2 0xa0
best 2 0xa1
claim 2 0xffffffff
claim 2 8200
end",
            "none
ran mapti
ran mapti
delivered 2 8200
delivered 2 8201
delivered 2 8202
lpi 8201 0x40
none
lpi 8200 0xa0
none
lpi 8201 0x40
none
none
lpi 8200 0xa0
none
lpi 8200 0xa0
vcpu 2 pending 8202
done
",
        ),
        (
            "ids 16 14",
            "run mapti 0x10 4 16384 1
run mapti 0x10 4 16383 1
end",
            "refused mapti intid-range
ran mapti
done
",
        ),
        (
            "",
            "signal 16 3
run mapc 1 3
show 2
take 3
end",
            "delivered 2 8200
ran mapc
lpi 8200 0xa0
none
vcpu 2 pending 8200
done
",
        ),
        (
            "profile 2",
            "signal 16 3
run mapc 1 3
show 2
take 3
signal 16 3
run unmapc 1
signal 16 3
run mapc 1 0
signal 16 3
end",
            "delivered 2 8200
ran mapc
none
lpi 8200 0xa0
delivered 3 8200
ran mapc
dropped no-collection
ran mapc
delivered 0 8200
vcpu 0 pending 8200
vcpu 3 pending 8200
done
",
        ),
    ] {
        let parts = [MACHINE, described, MAPPED, body];
        let ended = tells(&rt, rt.alloc(), &parts, Status::Ok, end);
        assert_eq!(rt; ended, Some(true), "{body}");
    }
}

/// A machine with one processor, DeviceIDs of 20 bits and LPIs of 20 bits. Its device table has two
/// levels, and a page for the last devices; the last LPI is enabled.
const WIDE: &str = "vcpus 1
shards 4
ids 20 20
window 0x80000000 0x1000000
config 0x80400000
pending 0 0x80600000
bytes 0x804fdfff a1
word 0x800003f8 0x8000000080080000
phase
thread
write 0x100 8 0xc107000080000200
write 0x108 8 0x8407000080010200
write 0x80 8 0x8000000080020000
write 0 4 1
";

#[test]
fn identifiers_have_20_bits(rt: HostRuntime) {
    let body = "read 0x8 8
run mapd 0xfffff 5 0x800c0000
run mapc 1 0
run mapti 0xfffff 3 1048575 1
signal 0xfffff 3
run mapti 0xfffff 4 1048576 1
run mapd 0x100000 5 0x800c0100
migrate
phase
thread
peek 0x8008fff8 8
peek 0x800c0018 8
peek 0x8061ffff 1
take 0
end";
    let end = "value 0x26f71
ran mapd
ran mapc
ran mapti
delivered 0 1048575
refused mapti intid-range
refused mapd device-range
vcpu 0 pending 1048575
migrated
bytes 0480011000000080
bytes 0100ffff0f000000
bytes 80
lpi 1048575 0xa0
done
";
    let ended = tells(&rt, rt.alloc(), &[WIDE, body], Status::Ok, end);
    assert_eq!(rt; ended, Some(true));
}
