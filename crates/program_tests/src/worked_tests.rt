//! Each refusal and each effect of the commands, in a few long runs.
use crate::runs::{MACHINE, tells};
use its_top::Status;

/// LPIs 8201 and 8202 are enabled too, and the translator is, with nothing mapped.
const ENABLED: &str = "bytes 0x80030009 b1c1
phase
thread
write 0x100 8 0x8107000080000200
write 0x108 8 0x8407000080010200
write 0x80 8 0x8000000080020000
write 0 4 1
";

#[test]
fn each_refusal_has_its_reason(rt: HostRuntime) {
    // The last command is unknown: its bytes are zero.
    let body = "run movi 16 1 1
run int 16 1
run clear 16 1
run discard 16 1
run inv 16 1
run mapti 16 1 8200 1
run mapi 17 8202 1
run mapd 0x2000 5 0x800c0000
run mapd 0x10000 5 0x800c0000
run unmapd 0x10000
run mapd 16 17 0x800c0000
run mapc 1 4
run mapc 0x2000 1
run mapd 16 5 0x800c0000
run mapd 17 14 0x80100000
run mapti 16 32 8200 1
run mapti 16 1 8191 1
run mapti 16 1 65536 1
run mapti 16 1 8200 0x2000
run mapi 17 16384 1
run mapi 17 8191 1
run mapi 17 8202 0x2000
run movi 16 32 1
run int 16 32
run clear 16 32
run discard 16 32
run inv 16 32
run movi 16 1 1
run int 16 1
run clear 16 1
run discard 16 1
run inv 16 1
run mapti 16 1 8200 1
run mapc 2 1
run movi 16 1 2
run int 16 1
run clear 16 1
run invall 1
run mapc 1 0
run movi 16 1 3
run movall 0 4
run movall 4 0
write 0x88 8 0x560
step
step
end";
    let end = "refused movi no-device
refused int no-device
refused clear no-device
refused discard no-device
refused inv no-device
refused mapti no-device
refused mapi no-device
refused mapd device-range
refused mapd device-range
refused mapd device-range
refused mapd size-range
refused mapc target-range
refused mapc collection-range
ran mapd
ran mapd
refused mapti event-range
refused mapti intid-range
refused mapti intid-range
refused mapti collection-range
refused mapi event-range
refused mapi intid-range
refused mapi collection-range
refused movi event-range
refused int event-range
refused clear event-range
refused discard event-range
refused inv event-range
refused movi no-event
refused int no-event
refused clear no-event
refused discard no-event
refused inv no-event
ran mapti
ran mapc
refused movi no-collection
refused int no-collection
refused clear no-collection
refused invall no-collection
ran mapc
refused movi no-collection
refused movall target-range
refused movall target-range
refused 0x0 unknown-command
idle
done
";
    let ended = tells(&rt, rt.alloc(), &[MACHINE, ENABLED, body], Status::Ok, end);
    assert_eq!(rt; ended, Some(true));
}

#[test]
fn commands_take_effect_in_both_profiles(rt: HostRuntime) {
    for (body, end) in [
        // Where signals go and LPIs are pending, command by command.
        (
            "run mapd 16 5 0x800c0000
run mapc 1 2
run mapc 2 0
run mapti 16 1 8200 1
run mapti 16 2 8201 2
run mapti 16 1 8201 2
signal 16 1
run movi 16 1 2
show 2
show 0
run movall 0 0
run movall 0 3
show 0
show 3
signal 16 1
run int 16 1
run clear 16 1
show 0
run mapc 2 1
signal 16 1
run mapc 2 1
show 1
signal 16 2
run discard 16 1
show 1
signal 16 1
run unmapc 2
signal 16 2
run discard 16 2
show 1
run unmapc 5
run sync 1
run mapti 16 1 8200 1
run mapd 16 6 0x800c0000
signal 16 1
run mapti 16 33 8200 1
signal 16 33
run unmapd 16
signal 16 33
take 2
run unmapd 16
end",
            "ran mapd
ran mapc
ran mapc
ran mapti
ran mapti
ran mapti
delivered 2 8200
ran movi
none
lpi 8200 0xa0
ran movall
ran movall
none
lpi 8200 0xa0
delivered 0 8200
ran int
ran clear
none
ran mapc
delivered 1 8200
ran mapc
lpi 8200 0xa0
delivered 1 8201
ran discard
lpi 8201 0xb0
dropped no-event
ran mapc
dropped no-collection
ran discard
lpi 8201 0xb0
ran mapc
ran sync
ran mapti
ran mapd
dropped no-event
ran mapti
delivered 2 8200
ran mapd
dropped no-device
lpi 8200 0xa0
ran mapd
vcpu 1 pending 8201
vcpu 3 pending 8200
done
",
        ),
        // An LPI is known by its configuration byte as it was read last.
        (
            "run mapd 16 5 0x800c0000
run mapd 17 14 0x80100000
run mapc 1 2
run mapc 3 1
run mapti 16 1 8200 1
signal 16 1
show 2
poke 0x80030008 40
show 2
run inv 16 1
show 2
take 2
poke 0x80030008 d1
show 2
run invall 3
show 2
run invall 1
show 2
take 2
poke 0x8003000a e1
run mapi 17 8202 3
signal 17 8202
show 1
run mapi 17 8202 1
signal 17 8202
take 1
poke 0x80030009 91
run mapti 16 2 8201 3
signal 16 2
take 1
end",
            "ran mapd
ran mapd
ran mapc
ran mapc
ran mapti
delivered 2 8200
lpi 8200 0xa0
lpi 8200 0xa0
ran inv
none
none
none
ran invall
none
ran invall
lpi 8200 0xd0
lpi 8200 0xd0
ran mapi
delivered 1 8202
lpi 8202 0xe0
ran mapi
delivered 1 8202
lpi 8202 0xe0
ran mapti
delivered 1 8201
lpi 8201 0x90
done
",
        ),
        // The first by priority, as the configuration was read last.
        (
            "run mapd 16 5 0x800c0000
run mapc 1 2
run mapti 16 1 8201 1
run mapti 16 2 8200 1
signal 16 1
signal 16 2
best 2 255
best 2 0xa0
poke 0x80030008 c1
run inv 16 2
show 2
best 2 255
best 2 0xb4
claim 2 8200
claim 2 8200
claim 2 5
claim 2 8201
best 2 255
end",
            "delivered 2 8201
delivered 2 8200
lpi 8200 0xa0
none
ran inv
lpi 8200 0xc0
lpi 8201 0xb0
lpi 8201 0xb0
lpi 8200 0xc0
none
none
lpi 8201 0xb0
none
done
",
        ),
    ] {
        for profile in ["profile 1", "profile 2"] {
            let parts = [MACHINE, profile, ENABLED, body];
            let ended = tells(&rt, rt.alloc(), &parts, Status::Ok, end);
            assert_eq!(rt; ended, Some(true), "{profile} {body}");
        }
    }
}
