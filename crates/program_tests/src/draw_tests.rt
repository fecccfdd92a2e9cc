//! Reports that are drawn.
use crate::runs::{MACHINE, answer, script};
use its_top::Status;
use std::alloc::{AllocError, Global};
use std::str;
use std::sync::Wait;
use std::test::Fail;
use std::thread::Threads;

/// One message to a translator that isn't enabled.
const CALLS: &str = "phase
thread
signal 0x10 3
end
";

/// What its report's picture has after its style and its signs.
const PICTURE: &str = "<line class='lane' x1='112' y1='68' x2='406' y2='68'/>
<text class='name' x='8' y='68'>thread 1</text>
<line class='lane' x1='112' y1='114' x2='406' y2='114'/>
<text class='v0' x='8' y='114'>vCPU 0</text>
<line class='lane' x1='112' y1='134' x2='406' y2='134'/>
<text class='v1' x='8' y='134'>vCPU 1</text>
<line class='lane' x1='112' y1='154' x2='406' y2='154'/>
<text class='v2' x='8' y='154'>vCPU 2</text>
<line class='lane' x1='112' y1='174' x2='406' y2='174'/>
<text class='v3' x='8' y='174'>vCPU 3</text>
<line class='wall' x1='112' y1='4' x2='112' y2='196'/>
<text class='dim' x='116' y='14'>phase 1</text>
<g class='call'><title>1.1 signal 16 3 -> dropped disabled</title>
<use class='lost' x='124' y='68' href='#dot'/>
<use class='cross' x='124' y='68' href='#cross'/>
</g>
<text class='small' x='148' y='114'>none</text>
<text class='small' x='148' y='134'>none</text>
<text class='small' x='148' y='154'>none</text>
<text class='small' x='148' y='174'>none</text>
</svg>
";

/// Whether the picture of a run's report, in which `old` is replaced, is answered so; of a picture
/// what follows its signs.
fn is_drawn<R: Threads + Wait + Sync>(
    rt: &R,
    alloc: Global,
    old: &str,
    new: &str,
    expected: (Status, &str),
) -> Option<bool> {
    let mut input = script(alloc, &[MACHINE, CALLS]).ok()?;
    let (_, printed) = answer(rt, alloc, "its run", input.as_bytes())?;
    let report = str::from_utf8(printed.bytes()?).ok()?;
    let (before, after) = report.split_once(old)?;
    for part in ["trace\n", before, new, after] {
        input.push_str(part).ok()?;
    }
    let (status, said) = answer(rt, alloc, "its draw", input.as_bytes())?;
    let said = str::from_utf8(said.bytes()?).ok()?;
    let text = match said.split_once("</defs>\n") {
        Some((_, text)) => text,
        None => said,
    };
    Some(status == expected.0 && text == expected.1)
}

#[test]
fn a_report_is_drawn(rt: HostRuntime) -> Result<(), Fail> {
    let alloc = rt.alloc();
    for (old, new, status, text) in [
        ("", "", Status::Ok, PICTURE),
        (
            "dropped disabled",
            "dropped no-device",
            Status::TraceDiffers,
            "differs 1 0 said 1.1 signal 16 3 -> dropped no-device is 1.1 signal 16 3 -> dropped disabled\n",
        ),
        ("done", "over", Status::BadTrace, "refused trace 7\n"),
    ] {
        let expected = (status, text);
        assert_eq!(rt;
            is_drawn(&rt, alloc, old, new, expected),
            Some(true),
            "{old} {new}"
        );
    }
    Ok(())
}
