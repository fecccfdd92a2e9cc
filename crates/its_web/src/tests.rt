//! Two threads that take turns.
use crate::calls::{its_web_check, its_web_explain, its_web_run};
use std::alloc::Global;

const SCRIPT: &str = "vcpus 1
shards 4
window 0x80000000 0x200000
config 0x80030000
pending 0 0x80040000
phase
thread
show 0
thread
take 0
end
";

const IN_ORDER: &str = "leg 1
0 1.1 show 0 -> none
1 1.2 take 0 -> none
vcpu 0 pending none
done
";

const TURNED: &str = "leg 1
0 1.2 take 0 -> none
1 1.1 show 0 -> none
vcpu 0 pending none
done
";

fn says(alloc: Global, order: u64, report: &str) -> bool {
    let mut out = [0u8; 128];
    let mut len = 0;
    let status = its_web_run(alloc, SCRIPT.as_bytes(), order, &mut out, &mut len);
    status == 0 && len == report.len() && out.starts_with(report.as_bytes())
}

#[test]
fn an_order_says_whose_call_comes(rt: HostRuntime) {
    let alloc = rt.alloc();
    assert!(rt; says(alloc, 0, IN_ORDER));
    assert!(rt; says(alloc, 1, TURNED) || says(alloc, 2, TURNED) || says(alloc, 3, TURNED));
}

#[test]
fn a_script_without_its_report_is_explained_and_not_checked(rt: HostRuntime) {
    let alloc = rt.alloc();
    let mut out = [0u8; 16];
    let mut len = 0;
    assert!(rt; its_web_explain(alloc, SCRIPT.as_bytes(), 0, &mut out, &mut len) == 0);
    assert!(rt; len > IN_ORDER.len());
    assert!(rt; out.starts_with(b"leg 1\n"));
    assert!(rt; its_web_check(alloc, SCRIPT.as_bytes(), &mut out, &mut len) == 1);
    assert!(rt; out.starts_with(b"refused script"));
}
