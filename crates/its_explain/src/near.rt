//! The word that was maybe meant.

/// The word of a list that differs from what is written in a letter, in two that are swapped, or in
/// capitals.
pub fn near(words: &[&'static str], written: &[u8]) -> Option<&'static str> {
    for word in words {
        if is_near(word.as_bytes(), written) {
            return Some(*word);
        }
    }
    None
}

fn is_near(word: &[u8], written: &[u8]) -> bool {
    let most = written.len().saturating_add(1);
    if word.len() < 3 || word.len() > most || written.len() > word.len().saturating_add(1) {
        return false;
    }
    let start = same_start(word, written);
    let alike = start.saturating_add(same_end(word, written));
    let has_one = word.len() <= alike.saturating_add(1) && written.len() <= alike.saturating_add(1);
    has_one || has_swap(word, written, start, alike)
}

/// Whether two letters are swapped from a place on, of words of which so many are the same.
fn has_swap(word: &[u8], written: &[u8], start: usize, alike: usize) -> bool {
    let next = start.saturating_add(1);
    word.len() == written.len()
        && word.len() <= alike.saturating_add(2)
        && word.get(start).is_some()
        && word.get(start) == written.get(next)
        && word.get(next) == written.get(start)
}

/// How many letters are the same from the first on.
fn same_start(word: &[u8], written: &[u8]) -> usize {
    let mut count = 0usize;
    for (a, b) in word.iter().zip(written) {
        if *a != b.to_ascii_lowercase() {
            return count;
        }
        count = count.saturating_add(1);
    }
    count
}

/// How many are the same up to the last.
fn same_end(word: &[u8], written: &[u8]) -> usize {
    let mut count = 0usize;
    for (a, b) in word.iter().rev().zip(written.iter().rev()) {
        if *a != b.to_ascii_lowercase() {
            return count;
        }
        count = count.saturating_add(1);
    }
    count
}
