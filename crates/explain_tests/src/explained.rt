//! A script with its report, and changes of them that are explained.
use its_explain::{explain_check, explain_run};
use std::alloc::Global;

/// A script whose one signal is acknowledged.
pub const SCRIPT: &str = "vcpus 2
shards 4
window 0x80000000 0x200000
config 0x80030000
pending 0 0x80040000
pending 1 0x80050000
bytes 0x80030000 a1
phase
thread
write 0x100 8 0x8107000080000200
write 0x108 8 0x8407000080010200
write 0x80 8 0x8000000080020000
write 0x0 4 1
command 0x80020000 mapd 7 4 0x800c0000
command 0x80020020 mapc 0 1
command 0x80020040 mapti 7 2 8192 0
write 0x88 8 0x60
step
step
step
phase
thread
signal 7 2
take 1
end
";

/// The report of its run.
pub const REPORT: &str = "leg 1
0 1.1 write 0x100 8 0x8107000080000200 -> ok
1 1.1 write 0x108 8 0x8407000080010200 -> ok
2 1.1 write 0x80 8 0x8000000080020000 -> ok
3 1.1 write 0x0 4 0x1 -> ok
4 1.1 poke 0x80020000 0800000007000000030000000000000000000c80000000800000000000000000 -> ok
5 1.1 poke 0x80020020 0900000000000000000000000000000000000100000000800000000000000000 -> ok
6 1.1 poke 0x80020040 0a00000007000000020000000020000000000000000000000000000000000000 -> ok
7 1.1 write 0x88 8 0x60 -> ok
8 1.1 step -> ran mapd
9 1.1 step -> ran mapc
10 1.1 step -> ran mapti
11 2.1 signal 7 2 -> delivered 1 8192
12 2.1 take 1 -> lpi 8192 0xa0
vcpu 0 pending none
vcpu 1 pending none
done
";

/// A text in which `new` stands for the first `old`, if that is there.
fn changed(alloc: Global, text: &str, old: &str, new: &str) -> Option<String> {
    let (before, after) = text.split_once(old)?;
    let mut changed = String::from_str(alloc, before).ok()?;
    changed.push_str(new).ok()?;
    changed.push_str(after).ok()?;
    Some(changed)
}

/// Whether this is said of the script in which `new` stands for `old`, and which is refused.
pub fn is_refused_so(alloc: Global, old: &str, new: &str, explained: &str) -> Option<bool> {
    let script = changed(alloc, SCRIPT, old, new)?;
    let said = explain_run(alloc, script.as_bytes(), "").ok()?;
    Some(said.as_str() == explained)
}

/// Whether this is said of a script and a report that printed so far.
pub fn is_told_so(alloc: Global, script: &str, report: &str, told: &str) -> Option<bool> {
    let said = explain_run(alloc, script.as_bytes(), report).ok()?;
    Some(said.as_str() == told)
}

/// Whether this is told of calls that stand for the acknowledgement, with these entries, after what
/// is told of the calls before.
pub fn is_told_after(
    alloc: Global,
    calls: &str,
    entries: &str,
    before: &str,
    told: &str,
) -> Option<bool> {
    let script = changed(alloc, SCRIPT, "take 1\n", calls)?;
    let report = ended(alloc, REPORT, entries)?;
    let right = ended(alloc, before, told)?;
    is_told_so(alloc, script.as_str(), report.as_str(), right.as_str())
}

/// A text whose part from the acknowledgement on is another.
fn ended(alloc: Global, text: &str, end: &str) -> Option<String> {
    let (before, _) = text.split_once("\n12 2.1 ")?;
    let mut ended = String::from_str(alloc, before).ok()?;
    ended.push_str(end).ok()?;
    Some(ended)
}

/// Whether a check of the script and of its report, in which `new` stands for `old`, is explained
/// so.
pub fn is_checked_so(alloc: Global, old: &str, new: &str, explained: &str) -> Option<bool> {
    let report = changed(alloc, REPORT, old, new)?;
    let mut input = String::from_str(alloc, SCRIPT).ok()?;
    input.push_str("trace\n").ok()?;
    input.push_str(report.as_str()).ok()?;
    let said = explain_check(alloc, input.as_bytes()).ok()?;
    Some(said.as_str() == explained)
}
