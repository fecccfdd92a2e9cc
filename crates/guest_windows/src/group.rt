//! Groups of chunks, which take memory from the first chunk on that is held.
ghost use Rattle.std.specs.Prelude.{◌≡◌, ◌==◌, ◌||◌, ℕ, true, [], IfOk, length, slice_index_or};
ghost use Rattle.std.specs.Vec.{vec_len};
ghost use Rattle.guest_windows.specs.Groups.{group_rows};

use crate::chunk::Chunk;
use std::alloc::{AllocError, Global};

/// How many chunks a group has.
pub const CHUNKS: u64 = 1024;

/// How many bytes its pages have.
pub const GROUP: u64 = 274_877_906_944;

/// The chunks of a group that is held, or none, which stand for chunks that aren't held.
#[derive(Drop)]
pub struct Group {
    /// All of them, or none.
    pub chunks: Vec<Chunk>,
    ghost sized: { (vec_len chunks == 0 || vec_len chunks == 1024) ≡ true },
}

impl Group {
    ghost use Rattle.std.specs.Prelude.{◌≡◌, ℕ, [], true, false, IfOk, OnOk, IfSome, length};
    ghost use Rattle.std.specs.Prelude.{slice_index_or};
    ghost use Rattle.guest_windows.specs.Groups.{group_rows, IsBlankGroup};

    /// One that isn't held.
    pub fn none(alloc: Global) -> Group
        ensures { result.chunks.items ≡ [] }
    {
        Group {
            chunks: Vec::new(alloc),
        }
    }

    /// One that is held, of chunks that aren't.
    pub fn blank(alloc: Global) -> Result<Group, AllocError>
        ensures { IfOk result (λ g. IsBlankGroup (group_rows g.chunks.items)) }
    {
        let chunks = no_chunks(alloc, CHUNKS)?;
        Ok(Group { chunks })
    }

    /// Another with the same chunks and bytes, which are held where these are.
    pub fn copy(&self, alloc: Global) -> Result<Group, AllocError>
        ensures { IfOk result (λ g. group_rows g.chunks.items ≡ group_rows self.now.chunks.items) }
    {
        if !self.is_held() {
            return Ok(Group::none(alloc));
        }
        let chunks = copies(alloc, &self.chunks)?;
        Ok(Group { chunks })
    }

    /// Whether it is held.
    #[inline(always)]
    pub fn is_held(&self) -> bool
        ensures none { result ≡ false → self.now.chunks.items ≡ [] }
        ensures whole { result ≡ true → length self.now.chunks.items ≡ 1024 }
    {
        !self.chunks.is_empty()
    }

    /// Holds it.
    pub fn hold(&mut self, alloc: Global) -> Result<(), AllocError>
        ensures held { OnOk result (length self.new.chunks.items ≡ 1024) }
        ensures same { (k : ℕ) → slice_index_or (group_rows self.new.chunks.items) k []
            ≡ slice_index_or (group_rows self.old.chunks.items) k [] }
    {
        if !self.is_held() {
            *self = Group::blank(alloc)?;
        }
        Ok(())
    }

    /// Holds it: as this one, if it isn't held. Answers it otherwise.
    pub fn hold_with(&mut self, fresh: Group) -> Option<Group>
        requires { IsBlankGroup (group_rows fresh.chunks.items) }
        ensures left { IfSome result (λ g. IsBlankGroup (group_rows g.chunks.items)) }
        ensures held { length self.new.chunks.items ≡ 1024 }
        ensures same { (k : ℕ) → slice_index_or (group_rows self.new.chunks.items) k []
            ≡ slice_index_or (group_rows self.old.chunks.items) k [] }
    {
        if self.is_held() {
            return Some(fresh);
        }
        *self = fresh;
        None
    }
}

// So many chunks, of which none is held.
fn no_chunks(alloc: Global, count: u64) -> Result<Vec<Chunk>, AllocError>
    ensures count { IfOk result (λ v. vec_len v ≡ count) }
    ensures none { IfOk result (λ v. (k : ℕ) → slice_index_or (group_rows v.items) k [] ≡ []) }
{
    let mut chunks = Vec::with_capacity(alloc, count as usize)?;
    for _ in 0..count {
        chunks.push(Chunk::none(alloc))?;
    }
    Ok(chunks)
}

fn copies(alloc: Global, chunks: &[Chunk]) -> Result<Vec<Chunk>, AllocError>
    ensures { IfOk result (λ v. group_rows v.items ≡ group_rows chunks.now) }
{
    let mut copies = Vec::with_capacity(alloc, chunks.len())?;
    for chunk in chunks {
        copies.push(chunk.copy(alloc)?)?;
    }
    Ok(copies)
}
