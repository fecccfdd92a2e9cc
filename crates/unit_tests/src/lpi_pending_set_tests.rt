//! Pending sets: their words, and LPIs that are moved or listed.
use crate::lpi_pending_acts::put;
use its_types::Intid;
use lpi_pending::{Pending, first_nonzero};
use std::alloc::{AllocError, Global};
use std::test::Fail;

// Words, and the place of the first that isn't zero.
const WORDS: [(&[u64], Option<usize>); 10] = [
    (&[], None),
    (&[0], None),
    (&[1 << 63], Some(0)),
    (&[0, 0, 0], None),
    (&[0, 0, 7], Some(2)),
    (&[0, 0, 0, 0], None),
    (&[0, 1 << 32, 0, 1], Some(1)),
    (&[0, 0, 0, 1], Some(3)),
    (&[0, 0, 0, 0, 0], None),
    (&[0, 0, 0, 0, 2], Some(4)),
];

// How many of the rows are right, up to the first that isn't.
fn right_rows() -> usize {
    for (at, (words, first)) in WORDS.iter().enumerate() {
        if first_nonzero(words) != *first {
            return at;
        }
    }
    WORDS.len()
}

// Whether each word that is no longer zero is found before those after it.
fn is_found_before_others() -> bool {
    let mut words = [0; 14];
    let none = first_nonzero(&words);
    for at in [13, 12, 11, 8, 7, 6, 5, 4, 0] {
        words[at] = 1 << at;
        if first_nonzero(&words) != Some(at) {
            return false;
        }
    }
    none.is_none()
}

#[test]
fn first_words_that_are_not_zero(rt: HostRuntime) {
    assert_eq!(rt; right_rows(), WORDS.len());
    assert!(rt; is_found_before_others());
}

#[test]
fn all_pending_lpis_are_moved(rt: HostRuntime) -> Result<(), Fail> {
    let mut pending = Pending::new(rt.alloc(), 14)?;
    let mut other = Pending::new(rt.alloc(), 14)?;
    pending.set(Intid(8201));
    pending.set(Intid(16383));
    other.set(Intid(8200));
    pending.move_all(&mut other);
    let left = [pending.has(Intid(8201)), pending.has(Intid(16383))];
    let moved = [other.byte(1025), other.byte(2047), other.lpi_bits()];
    assert_eq!(rt; (left, moved), ([false, false], [0x03, 0x80, 14]));
    Ok(())
}

// The list that these LPIs make where they become pending one after another.
fn listed(alloc: Global, lpis: &[u32]) -> Result<Vec<Intid>, AllocError> {
    let mut pending = Pending::new(alloc, 14)?;
    for lpi in lpis {
        put(&mut pending, *lpi, true);
    }
    pending.lpis(alloc)
}

#[test]
fn lists_of_pending_lpis(rt: HostRuntime) -> Result<(), Fail> {
    let none = listed(rt.alloc(), &[])?;
    let lpis = listed(rt.alloc(), &[8192, 12288, 16383, 8256, 8255, 12287])?;
    let intids = [8192, 8255, 8256, 12287, 12288, 16383].map(Intid);
    assert!(rt; none.is_empty() && lpis.as_slice() == intids.as_slice());
    Ok(())
}
