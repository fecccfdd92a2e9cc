//! What a pass saw, as a caller in another language is told it.
ghost use Rattle.std.specs.Prelude.{◌≡◌};
ghost use Rattle.its_shared.specs.Seeing.{seen_code, seen_out, seen_place, unseen_code};

use crate::unseen::Unseen;
use its_numbers::{BUSY, DONE, NO_MEMORY};
use its_types::Placed;

/// What was seen, and the place at which it is so; or why it wasn't seen.
pub fn told<T: Copy>(seen: Result<Placed<T>, Unseen>, place: &mut u64, out: &mut T) -> u32
    ensures code { result ≡ seen_code seen }
    ensures place { place.new ≡ seen_place seen place.old }
    ensures out { out.new ≡ seen_out seen out.old }
{
    match seen {
        Ok(placed) => {
            *place = placed.place;
            *out = placed.reply;
            DONE
        }
        Err(unseen) => number_of(unseen),
    }
}

fn number_of(unseen: Unseen) -> u32
    ensures { result ≡ unseen_code unseen }
{
    match unseen {
        Unseen::Busy => BUSY,
        Unseen::NoMemory => NO_MEMORY,
    }
}
