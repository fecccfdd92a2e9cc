//! Words of a table, written one by one or a block at once.
ghost use Rattle.guest_windows.specs.Drafts.{laid};
ghost use Rattle.std.specs.Prelude.{◌≡◌, ◌<◌, ◌≤◌, ◌^◌, OnOk, length, slice_index};
ghost use Rattle.its_plain.specs.Saved.{put_word, put_words};

use byteorder::{ByteOrder, LittleEndian};
use guest_windows::{Draft, Memory, WriteError};
use its_types::Addr;
use std::alloc::AllocError;

/// How many words a block has at most.
pub const BLOCK: u32 = 512;

// Writes eight bytes, where they lie in one window.
fn put_word(draft: &mut Draft, under: &Memory, address: u64, word: u64) -> Result<(), AllocError>
    ensures { OnOk result (laid draft.new under.now
        ≡ put_word (laid draft.old under.now) address word) }
{
    match draft.write_u64(under, Addr(address), word) {
        Err(WriteError::NoMemory) => Err(AllocError),
        Ok(()) | Err(WriteError::Outside(_)) => Ok(()),
    }
}

// Writes words one by one, those that lie in one window each.
fn put_each(draft: &mut Draft, under: &Memory, base: u64, words: &[u64]) -> Result<(), AllocError>
    requires low { base < 2 ^ 54 }
    requires few { length words.now ≤ 512 }
    ensures { OnOk result (laid draft.new under.now
        ≡ put_words (laid draft.old under.now) base (slice_index words.now) (length words.now)) }
{
    for i in 0..words.len() {
        put_word(draft, under, base + 8 * i as u64, words[i])?;
    }
    Ok(())
}

/// Writes a block of words, those of them that lie in one window each.
pub fn put_block(
    draft: &mut Draft,
    under: &Memory,
    base: u64,
    words: &[u64],
) -> Result<(), AllocError>
    requires low { base < 2 ^ 54 }
    requires few { length words.now ≤ 512 }
    ensures { OnOk result (laid draft.new under.now
        ≡ put_words (laid draft.old under.now) base (slice_index words.now) (length words.now)) }
{
    let size = 8 * words.len();
    if !under.inside(Addr(base), size as u64) {
        return put_each(draft, under, base, words);
    }
    let mut bytes = [0u8; 8 * BLOCK as usize];
    let bytes = &mut bytes[..size];
    LittleEndian::write_u64_into(words, bytes);
    let Ok(()) = draft.write(under, Addr(base), bytes) else {
        return Err(AllocError);
    };
    Ok(())
}

/// Writes zeros, those of them that lie in one window each. Where all lie in one, a page that isn't
/// held takes one step, and not one for each word.
pub fn put_zeros(draft: &mut Draft, under: &Memory, base: u64, count: u32) -> Result<(), AllocError>
    requires low { base < 2 ^ 54 }
    ensures { OnOk result (laid draft.new under.now
        ≡ put_words (laid draft.old under.now) base (λ _. 0) count) }
{
    let size = 8 * u64::from(count);
    if under.inside(Addr(base), size) {
        let Ok(()) = draft.forget(under, Addr(base), size) else {
            return Err(AllocError);
        };
        return Ok(());
    }
    for i in 0..count {
        put_word(draft, under, base + 8 * u64::from(i), 0)?;
    }
    Ok(())
}
