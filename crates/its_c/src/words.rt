//! The words of numbers, as docs/FORMATS.md prints them.
ghost use Rattle.std.specs.Prelude.{◌≡◌, length};
ghost use Rattle.its_numbers.specs.Lists.{HasFirst, SameFrom};
ghost use Rattle.its_c.specs.Words as spec;

/// The word of a number in one of the eight lists of words; the empty one where the list has no
/// such number.
#[tactic(auto, unfolding(crate::specs::Words::word))]
pub fn word(list: u32, number: u32) -> &'static str
    ensures { result.now ≡ spec.word list number }
{
    match list {
        1 => answer(number),
        2 => make_fault(number),
        3 => save_fault(number),
        4 => region(number),
        5 => cause(number),
        6 => reason(number),
        7 => outcome(number),
        8 => table(number),
        _ => "",
    }
}

// What a call answers.
fn answer(number: u32) -> &'static str
    ensures { result.now ≡ spec.word_from 0 spec.answers number }
{
    match number {
        0 => "done",
        1 => "no-memory",
        2 => "outside",
        3 => "range",
        4 => "fault",
        5 => "handle",
        6 => "full",
        7 => "busy",
        8 => "spent",
        _ => "",
    }
}

// Why a description makes no machine.
fn make_fault(number: u32) -> &'static str
    ensures { result.now ≡ spec.word_from 1 spec.make_faults number }
{
    match number {
        1 => "windows",
        2 => "config",
        3 => "pending",
        4 => "bytes",
        5 => "outside-table",
        6 => "bad-size",
        7 => "bad-intid",
        8 => "past-end",
        9 => "bad-target",
        10 => "double-collection",
        11 => "not-valid",
        12 => "bad-collection",
        13 => "bad-redist",
        14 => "its-base",
        15 => "requester",
        _ => "",
    }
}

// Why a state can't be saved.
fn save_fault(number: u32) -> &'static str
    ensures { result.now ≡ spec.word_from 1 spec.save_faults number }
{
    match number {
        1 => "no-place",
        2 => "outside",
        3 => "overlap",
        _ => "",
    }
}

// A stretch that a save looks at.
fn region(number: u32) -> &'static str
    ensures { result.now ≡ spec.word_from 1 spec.regions number }
{
    match number {
        1 => "devices",
        2 => "level1",
        3 => "page",
        4 => "collections",
        5 => "itt",
        6 => "pending",
        7 => "config",
        8 => "config",
        9 => "queue",
        _ => "",
    }
}

// Where a signal went, or why nowhere.
fn cause(number: u32) -> &'static str
    ensures { result.now ≡ spec.word_from 0 spec.causes number }
{
    match number {
        0 => "delivered",
        1 => "disabled",
        2 => "no-device",
        3 => "no-event",
        4 => "no-collection",
        5 => "lpis-off",
        _ => "",
    }
}

// Why a command was refused.
fn reason(number: u32) -> &'static str
    ensures { result.now ≡ spec.word_from 1 spec.reasons number }
{
    match number {
        1 => "unknown-command",
        2 => "device-range",
        3 => "size-range",
        4 => "target-range",
        5 => "collection-range",
        6 => "no-device",
        7 => "event-range",
        8 => "intid-range",
        9 => "no-event",
        10 => "no-collection",
        11 => "lpis-off",
        _ => "",
    }
}

// What became of a step.
fn outcome(number: u32) -> &'static str
    ensures { result.now ≡ spec.word_from 0 spec.outcomes number }
{
    match number {
        0 => "idle",
        1 => "ran",
        2 => "refused",
        3 => "queue-fault",
        _ => "",
    }
}

// A table whose entries lead from one to the next.
fn table(number: u32) -> &'static str
    ensures { result.now ≡ spec.word_from 1 spec.tables number }
{
    match number {
        1 => "devices",
        2 => "itt",
        _ => "",
    }
}

/// As much of a word as the buffer takes.
pub fn put_word(word: &[u8], buffer: &mut [u8])
    ensures copied { HasFirst word.now buffer.new }
    ensures rest { SameFrom (length word.now) buffer.old buffer.new }
    ensures length { length buffer.new ≡ length buffer.old }
{
    let mut at = 0;
    while at < word.len() && at < buffer.len() {
        buffer[at] = word[at];
        at += 1;
    }
}
