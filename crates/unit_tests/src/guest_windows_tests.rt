//! Guest memory.
use guest_windows::{Draft, Memory, NewError, Outside, WriteError, are_windows};
use its_types::Addr;
use std::alloc::Global;
use std::test::Fail;

const LAST: Addr = Addr((1 << 52) - 16);

// Pairs of windows, and whether a memory may have them.
const WINDOWS: [([(Addr, u64); 2], bool); 8] = [
    ([(Addr(0), 16), (Addr(16), 16)], true),
    ([(Addr(0), 17), (Addr(16), 16)], false),
    ([(Addr(16), 16), (Addr(8), 9)], false),
    ([(Addr(0), 16), (Addr(16), 0)], false),
    ([(Addr(0), 16), (LAST, 16)], true),
    ([(Addr(0), 16), (LAST, 17)], false),
    ([(Addr(0), (1 << 52) - 16), (LAST, 16)], true),
    ([(Addr(0), (1 << 52) - 15), (LAST, 16)], false),
];

// The first of them that is answered otherwise.
fn wrong_windows() -> Option<usize> {
    for (at, (windows, want)) in WINDOWS.iter().enumerate() {
        if are_windows(windows) != *want {
            return Some(at);
        }
    }
    None
}

#[test]
fn windows_of_a_memory(rt: HostRuntime) {
    assert_eq!(rt; wrong_windows(), None);
    assert!(rt; matches!(Memory::new(rt.alloc(), &[]), Err(NewError::BadWindows)));
}

const TWO: [(Addr, u64); 2] = [(Addr(0x8000_0000), 0x1000), (Addr(0x8000_1000), 0x20)];

// What memory is asked, with the answer.
enum Act {
    Writes(u64, &'static [u8], Result<(), WriteError>),
    WritesWord(u64, u64),
    Byte(u64, Result<u8, Outside>),
    Word(u64, Result<u64, Outside>),
    // A read of five bytes that fails, and leaves the buffer as it was.
    ReadsNothing(u64),
    Inside(u64, u64, bool),
}

fn reads_nothing(memory: &Memory, addr: u64) -> bool {
    let mut buf = [7; 5];
    let failed = memory.read(Addr(addr), &mut buf) == Err(Outside(Addr(addr)));
    failed && buf == [7; 5]
}

// Whether the memory does as the act says.
fn does(memory: &mut Memory, act: &Act) -> bool {
    match act {
        Act::Writes(addr, bytes, want) => memory.write(Addr(*addr), bytes) == *want,
        Act::WritesWord(addr, word) => memory.write_u64(Addr(*addr), *word) == Ok(()),
        Act::Byte(addr, want) => memory.read_u8(Addr(*addr)) == *want,
        Act::Word(addr, want) => memory.read_u64(Addr(*addr)) == *want,
        Act::ReadsNothing(addr) => reads_nothing(memory, *addr),
        Act::Inside(addr, len, want) => memory.inside(Addr(*addr), *len) == *want,
    }
}

// How many of the acts the memory does as they say, up to the first that it doesn't.
fn play(memory: &mut Memory, acts: &[Act]) -> usize {
    for (at, act) in acts.iter().enumerate() {
        if !does(memory, act) {
            return at;
        }
    }
    acts.len()
}

const WRITTEN: [Act; 6] = [
    Act::Writes(0x8000_0ffc, &[1, 2, 3, 4], Ok(())),
    Act::Writes(
        0x8000_0ffc,
        &[9; 5],
        Err(WriteError::Outside(Addr(0x8000_0ffc))),
    ),
    Act::Byte(0x8000_0fff, Ok(4)),
    Act::Byte(0x8000_1020, Err(Outside(Addr(0x8000_1020)))),
    Act::WritesWord(0x8000_1018, 0x0102_0304_0506_0708),
    Act::Byte(0x8000_1018, Ok(8)),
];

const COPIED: [Act; 5] = [
    Act::Word(0x8000_1018, Ok(0x0102_0304_0506_0708)),
    Act::Word(0x8000_0ffc, Err(Outside(Addr(0x8000_0ffc)))),
    Act::ReadsNothing(0x8000_0ffc),
    Act::Inside(0x8000_0ffc, 4, true),
    Act::Inside(0x8000_0ffc, 5, false),
];

#[test]
fn bytes_are_what_was_written(rt: HostRuntime) -> Result<(), Fail> {
    let mut memory = Memory::new(rt.alloc(), &TWO)?;
    let written = play(&mut memory, &WRITTEN);
    let mut copy = memory.copy(rt.alloc())?;
    let written_again = play(&mut memory, &[Act::WritesWord(0x8000_1018, 0)]);
    let copied = play(&mut copy, &COPIED);
    assert_eq!(rt; [written, written_again, copied], [6, 1, 5]);
    Ok(())
}

// Two chunks of 256 MiB.
const CHUNKS: [(Addr, u64); 1] = [(Addr(0x8000_0000), 0x2000_0000)];

// A memory that holds its first two pages.
fn two_pages(alloc: Global) -> Result<Memory, Fail> {
    let mut memory = Memory::new(alloc, &CHUNKS)?;
    memory.write(Addr(0x8000_0000), &[1; 8])?;
    memory.write(Addr(0x8001_0000), &[2; 8])?;
    Ok(memory)
}

// A draft over it: bytes of a page that is held and of three that aren't, one of them in the other
// chunk, zeros where no page is, a page that is given back, and bytes outside.
fn drafted(alloc: Global, memory: &Memory) -> Result<(Draft, bool), Fail> {
    let mut draft = Draft::new(alloc);
    draft.write(memory, Addr(0x8001_0004), &[3; 2])?;
    draft.write(memory, Addr(0x8003_fffe), &[4, 5, 6, 7])?;
    draft.write_u64(memory, Addr(0x9000_0000), 0x0102_0304_0506_0708)?;
    draft.write(memory, Addr(0x8006_0000), &[0; 16])?;
    draft.forget(memory, Addr(0x8000_0000), 0x1_0000)?;
    draft.forget(memory, Addr(0x8003_ffff), 2)?;
    let outside = draft.write(memory, Addr(0x9fff_ffff), &[8; 2]);
    let refused = outside == Err(WriteError::Outside(Addr(0x9fff_ffff)));
    Ok((draft, refused))
}

// The pages that a memory holds, up to four, and 0 where there are fewer.
fn held(memory: &Memory) -> [u64; 4] {
    let mut pages = [0; 4];
    let mut from = Addr(0);
    for page in &mut pages {
        let Some((at, len)) = memory.next_page(from) else {
            return pages;
        };
        *page = at.0;
        from = Addr(at.0.saturating_add(len));
    }
    pages
}

const OLD: [Act; 3] = [
    Act::Byte(0x8000_0007, Ok(1)),
    Act::Byte(0x8001_0004, Ok(2)),
    Act::Byte(0x8003_fffe, Ok(0)),
];

const ADOPTED: [Act; 8] = [
    Act::Byte(0x8000_0007, Ok(0)),
    Act::Byte(0x8001_0003, Ok(2)),
    Act::Byte(0x8001_0004, Ok(3)),
    Act::Byte(0x8001_0006, Ok(2)),
    Act::Byte(0x8003_fffe, Ok(4)),
    Act::Byte(0x8003_ffff, Ok(0)),
    Act::Byte(0x8004_0001, Ok(7)),
    Act::Word(0x9000_0000, Ok(0x0102_0304_0506_0708)),
];

#[test]
fn a_draft_is_laid_over_memory(rt: HostRuntime) -> Result<(), Fail> {
    let mut memory = two_pages(rt.alloc())?;
    let (draft, refused) = drafted(rt.alloc(), &memory)?;
    let before = held(&memory);
    let old = play(&mut memory, &OLD);
    memory.adopt(draft);
    let adopted = play(&mut memory, &ADOPTED);
    assert!(rt; refused);
    assert_eq!(rt; [old, adopted], [3, 8]);
    assert_eq!(rt; before, [0x8000_0000, 0x8001_0000, 0, 0]);
    assert_eq!(rt;
        held(&memory),
        [0x8001_0000, 0x8003_0000, 0x8004_0000, 0x9000_0000]
    );
    Ok(())
}

// A window of 2^48 bytes, which has 1,024 groups of 256 GiB.
const WIDE: [(Addr, u64); 1] = [(Addr(0x1_0000_0000), 1 << 48)];

// What is written at its ends, and read from there and in between.
const FAR: [Act; 8] = [
    Act::WritesWord(0x1_0000_0000, 5),
    Act::WritesWord(0x1_0000_ffff_fff8, 6),
    Act::Word(0x1_0000_0000, Ok(5)),
    Act::Word(0x1_0000_ffff_fff8, Ok(6)),
    Act::Word(0x1_0001_0000, Ok(0)),
    Act::Word(0x8000_0000_0000, Ok(0)),
    Act::Byte(0x1_0000_ffff_ffff, Ok(0)),
    Act::Byte(0x1_0001_0000_0000, Err(Outside(Addr(0x1_0001_0000_0000)))),
];

// The same is read of a copy.
const FAR_COPIED: [Act; 3] = [
    Act::Word(0x1_0000_0000, Ok(5)),
    Act::Word(0x1_0000_ffff_fff8, Ok(6)),
    Act::Word(0x8000_0000_0000, Ok(0)),
];

#[test]
fn both_ends_of_a_wide_window_are_held(rt: HostRuntime) -> Result<(), Fail> {
    let mut memory = Memory::new(rt.alloc(), &WIDE)?;
    let empty = held(&memory);
    let written = play(&mut memory, &FAR);
    let mut copy = memory.copy(rt.alloc())?;
    let both = held(&copy);
    copy.forget(Addr(0x1_0000_0000), 1 << 47)?;
    let last = held(&copy);
    let copied = play(&mut memory, &FAR_COPIED);
    assert_eq!(rt; [written, copied], [8, 3]);
    assert_eq!(rt; empty, [0; 4]);
    assert_eq!(rt; both, [0x1_0000_0000, 0x1_0000_ffff_0000, 0, 0]);
    assert_eq!(rt; last, [0x1_0000_ffff_0000, 0, 0, 0]);
    Ok(())
}

// Windows that are added to those two, in order, with the answers: one that touches the second,
// four that share a byte with one or more, two that end past 2^52, one that is empty, and the last
// that memory may have.
const ADDED: [(Addr, u64, Result<(), NewError>); 9] = [
    (Addr(0x8000_1020), 0x10, Ok(())),
    (Addr(0x8000_102f), 1, Err(NewError::BadWindows)),
    (Addr(0x7fff_ffff), 2, Err(NewError::BadWindows)),
    (Addr(0x8000_0fff), 2, Err(NewError::BadWindows)),
    (Addr(0), 1 << 52, Err(NewError::BadWindows)),
    (LAST, 17, Err(NewError::BadWindows)),
    (Addr(0xffff_ffff_ffff_ffff), 2, Err(NewError::BadWindows)),
    (Addr(0), 0, Err(NewError::BadWindows)),
    (LAST, 16, Ok(())),
];

// The first of them that is answered otherwise.
fn wrong_addition(memory: &mut Memory) -> Option<usize> {
    for (at, (base, len, want)) in ADDED.iter().enumerate() {
        if memory.add_window(*base, *len) != *want {
            return Some(at);
        }
    }
    None
}

// What was written before, and what is in the windows that were added.
const PLUGGED: [Act; 6] = [
    Act::Word(0x8000_1018, Ok(7)),
    Act::Word(0x8000_1020, Ok(0)),
    Act::WritesWord(0x8000_1028, 8),
    Act::Word(0x8000_1028, Ok(8)),
    Act::Inside(0x8000_1018, 9, false),
    Act::Inside(LAST.0, 16, true),
];

#[test]
fn windows_are_added(rt: HostRuntime) -> Result<(), Fail> {
    let mut memory = Memory::new(rt.alloc(), &TWO)?;
    let written = play(&mut memory, &[Act::WritesWord(0x8000_1018, 7)]);
    let wrong = wrong_addition(&mut memory);
    let plugged = play(&mut memory, &PLUGGED);
    let windows = memory.windows(rt.alloc())?;
    assert_eq!(rt; wrong, None);
    assert_eq!(rt; [written, plugged, windows.len()], [1, 6, 4]);
    Ok(())
}

// Windows of a byte each, as many as memory may have and one more.
fn add_many(memory: &mut Memory) -> u64 {
    for at in 0..17 {
        if memory.add_window(Addr(2 * at), 1) != Ok(()) {
            return at;
        }
    }
    17
}

#[test]
fn a_memory_has_sixteen_windows_at_most(rt: HostRuntime) -> Result<(), Fail> {
    let mut memory = Memory::new(rt.alloc(), &TWO)?;
    assert_eq!(rt; add_many(&mut memory), 14);
    Ok(())
}
