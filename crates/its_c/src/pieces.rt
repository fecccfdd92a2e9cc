//! Guest memory in pieces of 64 bytes, each of which has to lie in one window.
ghost use Rattle.std.specs.Prelude.{◌≡◌, ◌<◌, ◌≤◌, ◌+◌, ◌*◌, ◌^◌, true, false, List, ℕ, Some};
ghost use Rattle.std.specs.Prelude.{length};
ghost use Rattle.guest_windows.specs.Windows.{read_at, inside};
ghost use Rattle.guest_windows.proofs.Splices.{splice};
ghost use Rattle.its_c.specs.Pieces.{AreInside, IsStretch, IsRead};
ghost use Rattle.owned_machine.specs.Pieces as pieces;

use guest_windows::Memory;
use its_types::Addr;

// How many pieces there are.
fn piece_count(count: usize) -> usize
    ensures { result ≡ pieces.piece_count count }
{
    count / 64 + usize::from(count % 64 != 0)
}

// How long a piece of `count` bytes is.
fn piece_length(count: usize, i: usize) -> usize
    requires { i < pieces.piece_count count }
    ensures length { result ≡ pieces.piece_length count i }
    ensures some { 0 < result }
    ensures fits { result ≤ 64 }
    ensures ends { 64 * i + result ≤ count }
{
    (count - 64 * i).min(64)
}

/// Whether so many bytes lie in guest memory.
#[tactic(auto, using(crate::proofs::PieceSteps::all_inside))]
pub fn is_stretch(memory: &Memory, address: u64, count: usize) -> bool
    ensures yes { result ≡ true → IsStretch memory.now address count }
    ensures no { result ≡ false → IsStretch memory.now address count → ⊥ }
{
    if address.checked_add(count as u64).is_none() {
        return false;
    }
    memory.inside(Addr(address), count as u64) || are_inside(memory, address, count)
}

// Whether each piece lies in one window.
fn are_inside(memory: &Memory, address: u64, count: usize) -> bool
    requires { address + count < 2 ^ 64 }
    ensures yes { result ≡ true
        → AreInside memory.now address count (pieces.piece_count count) }
    ensures no { result ≡ false
        → AreInside memory.now address count (pieces.piece_count count) → ⊥ }
{
    for i in 0..piece_count(count) {
        let at = address + 64 * i as u64;
        if !memory.inside(Addr(at), piece_length(count, i) as u64) {
            return false;
        }
    }
    true
}

// Reads a piece to a place of the buffer.
fn read_piece(memory: &Memory, address: u64, buffer: &mut [u8], at: usize, count: usize)
    requires { at + count ≤ length buffer.old }
    ensures { (bytes : List ℕ) → read_at memory.now address count ≡ Some bytes
        → buffer.new ≡ splice at bytes buffer.old }
{
    let _ = memory.read(Addr(address), &mut buffer[at..at + count]);
}

// Reads bytes piece by piece.
fn read_pieces(memory: &Memory, address: u64, buffer: &mut [u8])
    requires { IsStretch memory.now address (length buffer.old) }
    ensures read { IsRead memory.now address buffer.new }
    ensures length { length buffer.new ≡ length buffer.old }
{
    let count = buffer.len();
    for i in 0..piece_count(count) {
        let at = address + 64 * i as u64;
        read_piece(memory, at, buffer, 64 * i, piece_length(count, i));
    }
}

/// Reads bytes that lie in guest memory: at once, where one window has them all.
pub fn read(memory: &Memory, address: u64, buffer: &mut [u8])
    requires { IsStretch memory.now address (length buffer.old) }
    ensures read { IsRead memory.now address buffer.new }
    ensures length { length buffer.new ≡ length buffer.old }
{
    if memory.inside(Addr(address), buffer.len() as u64) {
        let Ok(()) = memory.read(Addr(address), buffer) else {
            unreachable!()
        };
        return;
    }
    read_pieces(memory, address, buffer);
}
