//! The word that commits exchange, as one number: a stamp over a place.
ghost use Rattle.std.specs.Prelude.{◌≡◌};
ghost use Rattle.its_turns.specs.Words as spec;

use its_types::{Limits, Word};

/// How many bits of the word the stamp has, and how many the place.
#[derive(Clone, Copy)]
pub(crate) enum Packing {
    /// 24 and 40.
    Place40,
    /// 8 and 56.
    Place56,
}

/// The packing of a machine: its place has 40 bits, where its last one fits in them.
pub(crate) fn packing_of(limits: Limits) -> Packing
    ensures { result ≡ spec.packing_of limits }
{
    if limits.place_last < 1 << 40 {
        Packing::Place40
    } else {
        Packing::Place56
    }
}

pub(crate) fn unpack(packing: Packing, word: u64) -> Word
    ensures { result ≡ spec.unpacked packing word }
{
    match packing {
        Packing::Place40 => Word {
            stamp: (word >> 40) as u32,
            place: word & 0xff_ffff_ffff,
        },
        Packing::Place56 => Word {
            stamp: (word >> 56) as u32,
            place: word & 0xff_ffff_ffff_ffff,
        },
    }
}

pub(crate) fn pack(packing: Packing, word: Word) -> u64
    requires { spec.IsRoomFor packing word }
    ensures { spec.unpacked packing result ≡ word }
{
    match packing {
        Packing::Place40 => (word.stamp as u64) << 40 | word.place,
        Packing::Place56 => (word.stamp as u64) << 56 | word.place,
    }
}
