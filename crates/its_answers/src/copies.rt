//! Which migrations pages are copied before.
ghost use Rattle.std.specs.Prelude.{◌≡◌, IfOk};
ghost use Rattle.trace_check.specs.Verdicts.{copies_for, copies_of};

use event_script::Move;
use std::alloc::{AllocError, Global};

/// For each move whether pages are copied before it.
pub fn copies(alloc: Global, moves: &[Move]) -> Result<Vec<bool>, AllocError>
    ensures { IfOk result (λ copies. copies.items ≡ copies_of moves.now) }
{
    moves.iter().map(|way| copied(*way)).collect(alloc)
}

fn copied(way: Move) -> bool
    ensures { result ≡ copies_for way }
{
    match way {
        Move::Migrate => false,
        Move::Precopy => true,
    }
}
