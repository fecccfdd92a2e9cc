//! A machine that KVM of Linux 6.12 saved, restored here, with what KVM answered: examples/kvm_saved.
use crate::runs::prints;

/// Tables of KVM with an entry of a collection that isn't mapped, and with a bit of an earlier save.
const SCRIPT: &str =
    "# What KVM of Linux 6.12.118 saved, restored here. Event 2's collection 5 was never mapped: its entry has target 0xffffffff.
# LPI 8210 was pending at processor 2 at an earlier save, then it was cleared and its event moved. KVM left the bit there, and
# doesn't count it; with the line from-kvm nor does this translator.
# At the end collection 5 is mapped, and the event's LPI goes where KVM's went.
vcpus 4
shards 16
window 0x80000000 0x240000
gicr
linux
profile 2
restore 0x80000001 0xb8000000800c0400 0x120 0x120 0xb907000080000600 0xbc07000080040600
from-kvm
rrestore 0 1 0x800d078f 0x800e0780
rrestore 1 1 0x800d078f 0x800f0780
rrestore 2 1 0x800d078f 0x80100780
rrestore 3 1 0x800d078f 0x80110780
word 0x80000080 0x8000000010032002
word 0x80040000 0x8000000000010001
word 0x80040008 0x8000000000020002
word 0x80040010 0x8000000000030003
word 0x80040018 0x8000ffffffff0005
word 0x800d0000 0xa1a1a1a1a1a1a1a1
word 0x800d0008 0xa1a1a1a1a1a1a1a1
word 0x800d0010 0xa1a1a1a1a1a1a1a1
word 0x800d0018 0xa1a1a1a1a1a1a1a1
word 0x800d0020 0xa1a1a1a1a1a1a1a1
word 0x800d0028 0xa1a1a1a1a1a1a1a1
word 0x800d0030 0xa1a1a1a1a1a1a1a1
word 0x800d0038 0xa1a1a1a1a1a1a1a1
word 0x800d0040 0xa1a1a1a1a1a1a1a1
word 0x800d0048 0xa1a1a1a1a1a1a1a1
word 0x800d0050 0xa1a1a1a1a1a1a1a1
word 0x800d0058 0xa1a1a1a1a1a1a1a1
word 0x800f0400 0x100
word 0x80100400 0x40000
word 0x80190000 0x1000020080001
word 0x80190008 0x1000020120003
word 0x80190010 0x201c0005
phase
thread
save
peek 0x80000080 8
peek 0x80190000 64
peek 0x80040000 64
peek 0x80040040 64
peek 0x800e0400 12
peek 0x800f0400 12
peek 0x80100400 12
peek 0x80110400 12
command 0x800c0120 clear 16 0
write 0x88 8 0x140
step
signal 16 0
command 0x800c0140 clear 16 1
write 0x88 8 0x160
step
signal 16 1
command 0x800c0160 clear 16 2
write 0x88 8 0x180
step
signal 16 2
command 0x800c0180 mapc 5 1
write 0x88 8 0x1a0
step
command 0x800c01a0 clear 16 2
write 0x88 8 0x1c0
step
signal 16 2
end
";

/// What KVM answered once it had restored them itself, as a report.
const REPORT: &str = "leg 1
0 1.1 save -> saved
1 1.1 peek 0x80000080 8 -> bytes 0220031000000080
2 1.1 peek 0x80190000 64 -> bytes 0100082000000100030012200000010005001c200000000000000000000000000000000000000000000000000000000000000000000000000000000000000000
3 1.1 peek 0x80040000 64 -> bytes 0100010000000080020002000000008003000300000000800500ffffffff00800000000000000000000000000000000000000000000000000000000000000000
4 1.1 peek 0x80040040 64 -> bytes 00000000000000000000000000000000000000000000000000000000000000000000000000000000000000000000000000000000000000000000000000000000
5 1.1 peek 0x800e0400 12 -> bytes 000000000000000000000000
6 1.1 peek 0x800f0400 12 -> bytes 000100000000000000000000
7 1.1 peek 0x80100400 12 -> bytes 000000000000000000000000
8 1.1 peek 0x80110400 12 -> bytes 000000000000000000000000
9 1.1 poke 0x800c0120 0400000010000000000000000000000000000000000000000000000000000000 -> ok
10 1.1 write 0x88 8 0x140 -> ok
11 1.1 step -> ran clear
12 1.1 signal 16 0 -> delivered 1 8200
13 1.1 poke 0x800c0140 0400000010000000010000000000000000000000000000000000000000000000 -> ok
14 1.1 write 0x88 8 0x160 -> ok
15 1.1 step -> ran clear
16 1.1 signal 16 1 -> delivered 3 8210
17 1.1 poke 0x800c0160 0400000010000000020000000000000000000000000000000000000000000000 -> ok
18 1.1 write 0x88 8 0x180 -> ok
19 1.1 step -> refused clear no-collection
20 1.1 signal 16 2 -> dropped no-collection
21 1.1 poke 0x800c0180 0900000000000000000000000000000005000100000000800000000000000000 -> ok
22 1.1 write 0x88 8 0x1a0 -> ok
23 1.1 step -> ran mapc
24 1.1 poke 0x800c01a0 0400000010000000020000000000000000000000000000000000000000000000 -> ok
25 1.1 write 0x88 8 0x1c0 -> ok
26 1.1 step -> ran clear
27 1.1 signal 16 2 -> delivered 1 8220
vcpu 0 pending none
vcpu 1 pending 8200 8220
vcpu 2 pending none
vcpu 3 pending 8210
done
";

#[test]
fn tables_that_kvm_saved(rt: HostRuntime) {
    let same = prints(&rt, rt.alloc(), SCRIPT, REPORT);
    assert_eq!(rt; same, Some(true));
}
