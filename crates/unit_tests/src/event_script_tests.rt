//! Scripts that are read, and those that aren't. A table is a text with a row in each line. There
//! `/` ends each line of a script, and after ` + 64 ` stand lines that are there 64 times.
use crate::event_script_pair_tests::push_pair;
use event_script::{CheckInput, Leg, ParseError, Script, ScriptFault, parse, parse_check};
use its_plain::{Its, LpiTables};
use std::alloc::{AllocError, Global};
use std::fmt::Write;
use std::test::Fail;

/// A whole description of a machine with one processor.
pub const HEAD: &str =
    "vcpus 1/shards 4/window 0x80000000 0x200000/config 0x80030000/pending 0 0x80040000/";

/// A whole description of a machine with two processors whose guest programs the redistributors.
const PROGRAMMED: &str = "vcpus 2/gicr/shards 4/window 0x80000000 0x200000/";

/// One of a machine with as many processors as there may be.
const MANY: &str = "processors 512/gicr/shards 4/window 0x80000000 0x200000/";

// Lines, as often as is said before them.
fn push_again(text: &mut String, again: &str) -> Result<(), AllocError> {
    let (count, lines) = again.split_once(' ').unwrap_or((again, ""));
    for _ in 0..count.parse::<u32>().unwrap_or(0) {
        text.push_str(lines)?;
    }
    Ok(())
}

fn push_lines(text: &mut String, head: &str, body: &str) -> Result<(), AllocError> {
    let (once, again) = body.split_once(" + ").unwrap_or((body, ""));
    text.push_str(head)?;
    text.push_str(once)?;
    push_again(text, again)
}

// The script of a head and what follows it.
fn script_text(alloc: Global, head: &str, body: &str) -> Result<String, AllocError> {
    let mut text = String::new(alloc);
    push_lines(&mut text, head, body)?;
    text.replace(alloc, "/", "\n")
}

fn push_tables(said: &mut String, tables: &LpiTables) -> Result<(), AllocError> {
    let LpiTables::Registers(values) = tables else {
        return Ok(());
    };
    match values.registers.as_slice().last() {
        Some(last) => write!(
            said,
            " gicr {} {:x} {:x}",
            last.ctlr, last.propbaser, last.pendbaser
        ),
        None => Ok(()),
    }
}

fn push_restored(said: &mut String, translators: &[Its]) -> Result<(), AllocError> {
    for its in translators {
        if let Some(values) = its.restore {
            write!(said, " restore {} {:x}", values.creadr, values.baser1)?;
        }
    }
    Ok(())
}

fn push_legs(said: &mut String, legs: &[Leg]) -> Result<(), AllocError> {
    for leg in legs {
        said.push_str(" leg")?;
        for phase in leg.as_slice() {
            for thread in phase.as_slice() {
                write!(said, " {}", thread.len())?;
            }
        }
    }
    Ok(())
}

fn push_machine(said: &mut String, script: &Script) -> Result<(), AllocError> {
    let shape = script.desc.shape;
    write!(
        said,
        "{} {} {} {:?}",
        shape.vcpus, shape.dev_bits, shape.lpi_bits, shape.profile
    )?;
    if shape.linux {
        said.push_str(" linux")?;
    }
    push_tables(said, &script.desc.tables)?;
    push_restored(said, script.desc.translators.as_slice())?;
    push_legs(said, script.legs.as_slice())
}

// The number of legs, and which report follows.
fn push_input(said: &mut String, script: &Script, report: &[u8]) -> Result<(), AllocError> {
    write!(said, "{} leg", script.legs.len())?;
    if report == b"leg 1\ntrace".as_slice() {
        said.push_str(" and leg 1/trace")?;
    }
    Ok(())
}

// The first faulty line, and what is wrong with it.
fn push_error(said: &mut String, error: ParseError) -> Result<(), AllocError> {
    match error {
        ParseError::Fault(ScriptFault { line, kind }) => write!(said, "{line} {kind:?}"),
        ParseError::NoMemory => Err(AllocError),
    }
}

/// What is told of a script.
#[derive(Drop)]
pub enum Told {
    /// The shape of its machine, the registers to restore, and the number of calls of each thread,
    /// by phases and legs.
    Machine,
    /// What it says of a second translator, a second memory and devices.
    Pair,
    /// That a report follows.
    Report,
}

fn push_checked(said: &mut String, alloc: Global, text: &str) -> Result<(), AllocError> {
    match parse_check(alloc, text.as_bytes()) {
        Ok(CheckInput { script, report }) => push_input(said, &script, report),
        Err(error) => push_error(said, error),
    }
}

fn push_told(said: &mut String, told: &Told, script: &Script) -> Result<(), AllocError> {
    match told {
        Told::Pair => push_pair(said, script),
        _ => push_machine(said, script),
    }
}

fn push_read(said: &mut String, alloc: Global, told: &Told, text: &str) -> Result<(), AllocError> {
    if let Told::Report = told {
        return push_checked(said, alloc, text);
    }
    match parse(alloc, text.as_bytes()) {
        Ok(script) => push_told(said, told, &script),
        Err(error) => push_error(said, error),
    }
}

// A row as it has to be: what follows the head, and what is read.
fn push_row(
    said: &mut String,
    alloc: Global,
    told: &Told,
    head: &str,
    row: &str,
) -> Result<(), AllocError> {
    let (body, _) = row.split_once(" -> ").unwrap_or((row, ""));
    let text = script_text(alloc, head, body)?;
    said.push_str(body)?;
    said.push_str(" -> ")?;
    push_read(said, alloc, told, text.as_str())?;
    said.push('\n')
}

fn push_rows(
    said: &mut String,
    alloc: Global,
    told: &Told,
    head: &str,
    rows: &str,
) -> Result<(), AllocError> {
    for row in rows.lines() {
        push_row(said, alloc, told, head, row)?;
    }
    Ok(())
}

/// The rows as they have to be: in each what follows the head, and what is told of the script.
pub fn reads(alloc: Global, told: Told, head: &str, rows: &str) -> Result<String, AllocError> {
    let mut said = String::new(alloc);
    push_rows(&mut said, alloc, &told, head, rows)?;
    Ok(said)
}

const DESCRIPTIONS: &str = " -> 1 Missing
shards 4/ -> 1 Order
vcpus 17/ -> 1 Number
vcpus 4 4/ -> 1 Fields
processors 16/ -> 1 Number
processors 513/ -> 1 Number
processors 512 1/ -> 1 Fields
vcpus 2/processors 20/ -> 2 Order
processors 20/vcpus 2/ -> 2 Order
processors 20/processors 20/ -> 2 Order
shards 4/processors 20/ -> 1 Order
processors 512/pending 511 0/pending 511 0/ -> 3 Order
processors 512/pending 511 0/pending 512 0/ -> 3 Number
vcpus 4/shards 3/ -> 2 Number
vcpus 4/walk/ -> 2 Word
vcpus 4/phase/ -> 2 Missing
vcpus 4/bytes 0x0 abc/ -> 2 Hex
vcpus 4/shards\t4/ -> 2 Text
vcpus 4/thread/ -> 2 Order
vcpus 4/shards 4/wind -> 3 Cut
vcpus 4\r/ -> 1 Text
phase/ -> 1 Order
vcpus 4/phase x/ -> 2 Missing
vcpus 4/shards 4/shards 3/ -> 3 Order
vcpus 4/pending 0 0/pending 0x0/ -> 3 Order
vcpus 4/pending 4 0/ -> 2 Number
vcpus 0X4/ -> 1 Number
vcpus +4/ -> 1 Number
vcpus 0x/ -> 1 Number
vcpus 4/bytes 0 0x00/ -> 2 Hex
vcpus 4/restore x 0 0 0 0/ -> 2 Fields
vcpus 4/restore 0 0 0 0 0 0/restore 0/ -> 3 Order
vcpus 4/ids 15 16/ -> 2 Number
vcpus 4/ids 20 21/ -> 2 Number
vcpus 4/ids 20 13/ -> 2 Number
vcpus 4/ids 16/ -> 2 Fields
vcpus 4/ids 16 16/ids 16 16/ -> 3 Order
vcpus 4/profile 3/ -> 2 Number
vcpus 4/profile 1/profile 2/ -> 3 Order
linux/ -> 1 Order
vcpus 4/linux x/ -> 2 Fields
vcpus 4/linux/linux x/ -> 3 Order
vcpus 4/window 0x11111111111111111 1/ -> 2 Number
vcpus 4/window 18446744073709551616 1/ -> 2 Number
trace/ -> 1 Order
gicr/ -> 1 Order
vcpus 2/gicr x/ -> 2 Fields
vcpus 2/gicr/gicr/ -> 3 Order
vcpus 2/config 0/gicr/ -> 3 Order
vcpus 2/pending 1 0/gicr x/ -> 3 Order
vcpus 2/gicr/config/ -> 3 Order
vcpus 2/gicr/pending 2/ -> 3 Order
vcpus 2/gicr/phase/ -> 3 Missing
vcpus 2/rrestore 0 0 0 0/ -> 2 Order
vcpus 2/gicr/rrestore 0 0 0 0/ -> 3 Order
vcpus 2/restore 0 0 0 0 0 0/rrestore 0 0 0 0/ -> 3 Order
vcpus 2/gicr/restore 0 0 0 0 0 0/rrestore 0 0 0/ -> 4 Fields
vcpus 2/gicr/restore 0 0 0 0 0 0/rrestore 2 0 0 0/ -> 4 Number
vcpus 2/gicr/restore 0 0 0 0 0 0/rrestore 2 0 0 0 0/ -> 4 Fields
vcpus 2/gicr/restore 0 0 0 0 0 0/rrestore 1 x 0 0/ -> 4 Number
vcpus 2/gicr/restore 0 0 0 0 0 0/rrestore 1 0 0 0/rrestore 0x1/ -> 5 Order
vcpus 1/ + 17 window 0 1/ -> 18 Many
";

const OF_ONE_PROCESSOR: &str = " -> 6 Missing
step/ -> 6 Order
phase x/ -> 6 Fields
phase/end/ -> 7 Missing
phase/word 0 0/ -> 7 Order
phase/ids 16 16/ -> 7 Order
migrate/phase/migrate/ -> 8 Missing
migrate/thread/ -> 7 Order
phase/thread/take 1/ -> 8 Number
phase/thread/best 1 0/ -> 8 Number
phase/thread/best 0 256/ -> 8 Number
phase/thread/best 0/ -> 8 Fields
phase/thread/claim 1 8200/ -> 8 Number
phase/thread/claim 0 0x100000000/ -> 8 Number
phase/thread/claim 0 8200 1/ -> 8 Fields
claim 0 8200/ -> 6 Order
phase/linux/ -> 7 Order
phase/thread/read 0 5/ -> 8 Number
phase/thread/write 0 4 0x100000000/ -> 8 Number
phase/thread/peek 0 65/ -> 8 Number
phase/thread/command 0 walk/ -> 8 Fields
phase/thread/command 0 mapd 0 1 0x10/ -> 8 Number
end/step/ -> 7 Order
end/# no line end -> 7 Cut
end/#\t/ -> 7 Text
phase/thread/rread 0 0 4/ -> 8 Order
phase/thread/rwrite 0/ -> 8 Order
phase/thread/ + 64 migrate/ -> 71 Many
 + 257 phase/thread/ -> 518 Many
phase/ + 65 thread/ -> 71 Many
phase/thread/ + 65537 step/ -> 65544 Many
end/ -> 1 16 16 One leg
ids 20 14/end/ -> 1 20 14 One leg
profile 2/end/ -> 1 16 16 Two leg
restore 1 0x8000000080020000 0x20 64 0 18446744073709551615/end/ \
-> 1 16 16 One restore 32 ffffffffffffffff leg
# a remark//phase/thread/  signal  0x10 0003 /word 0x0 0xffffFFFF/step/phase/thread/end// \
-> 1 16 16 One leg 3 0
phase/thread/step/migrate/# nothing/migrate/phase/thread/save/end/ -> 1 16 16 One leg 1 leg leg 1
linux/phase/thread/best 0 255/claim 0 0xffffffff/end/ -> 1 16 16 One linux leg 2
";

const OF_A_PROGRAMMING_GUEST: &str = "rread 0 0 4/ -> 5 Order
phase/rwrite 0 0 4 1/ -> 6 Order
phase/gicr/ -> 6 Order
phase/thread/rread 0 4/ -> 7 Fields
phase/thread/rread 2 0 4/ -> 7 Number
phase/thread/rread 1 0 2/ -> 7 Number
phase/thread/rread 1 0x100000000 4/ -> 7 Number
phase/thread/rwrite 1 0 4/ -> 7 Fields
phase/thread/rwrite 1 0 4 0x100000000/ -> 7 Number
linux/end/ -> 2 16 16 One linux gicr 0 0 0 leg
end/ -> 2 16 16 One gicr 0 0 0 leg
restore 0 0 0 0 0 0/rrestore 0x1 1 0x8003000f 2147876864/end/ \
-> 2 16 16 One gicr 1 8003000f 80060000 restore 0 0 leg
phase/thread/rread 1 0x70 8/rwrite 0 0x78 8 0xffffffffffffffff/end/ -> 2 16 16 One gicr 0 0 0 leg 2
";

const OF_MANY_PROCESSORS: &str = "phase/thread/take 511/take 512/ -> 8 Number
phase/thread/rread 512 0 4/ -> 7 Number
restore 0 0 0 0 0 0/rrestore 512 0 0 0/ -> 6 Number
restore 0 0 0 0 0 0/rrestore 511 0 0 0/rrestore 0x1ff/ -> 7 Order
end/ -> 512 16 16 One gicr 0 0 0 leg
restore 0 0 0 0 0 0/rrestore 511 1 0x8003000f 2147876864/end/ \
-> 512 16 16 One gicr 1 8003000f 80060000 restore 0 0 leg
phase/thread/rread 511 0x70 8/show 256/end/ -> 512 16 16 One gicr 0 0 0 leg 2
";

const BEFORE_A_REPORT: &str = "end/ -> 7 Missing
end/trace -> 7 Cut
trace/end/ -> 6 Order
end/step/trace/ -> 7 Order
end/trace x/ -> 7 Fields
end/# nothing/  trace /leg 1/trace -> 1 leg and leg 1/trace
";

#[test]
fn scripts_are_read(rt: HostRuntime) -> Result<(), Fail> {
    for (told, head, rows) in [
        (Told::Machine, "", DESCRIPTIONS),
        (Told::Machine, HEAD, OF_ONE_PROCESSOR),
        (Told::Machine, PROGRAMMED, OF_A_PROGRAMMING_GUEST),
        (Told::Machine, MANY, OF_MANY_PROCESSORS),
        (Told::Report, HEAD, BEFORE_A_REPORT),
    ] {
        assert_eq!(rt; reads(rt.alloc(), told, head, rows)?.as_str(), rows);
    }
    Ok(())
}
