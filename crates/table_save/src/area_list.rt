//! Stretches in a list whose room was made beforehand.
use crate::area::Stretch;
use std::alloc::{AllocError, Global};
use std::marker::Model;

/// Areas in a list whose room was made beforehand.
#[derive(Drop)]
pub struct AreaList {
    list: Vec<Stretch>,
}

impl Model for AreaList {
    ghost use Rattle.std.specs.Vec.{vec_capacity};
    ghost use Rattle.table_save.specs.Rooms as spec;

    ghost Value = { spec.AreaList };

    ghost view = { λ a. record { items = a.list.items; capacity = vec_capacity a.list } };
}

impl AreaList {
    ghost use Rattle.std.specs.Prelude.{◌≡◌, ◌≤◌, ◌<◌, ◌+◌, ◌++◌, ◌∷◌, [], IfOk, length};

    /// Room for so many areas.
    pub fn new(alloc: Global, count: usize) -> Result<AreaList, AllocError>
        ensures { IfOk result (λ a. count ≤ a.capacity) }
    {
        let list = Vec::with_capacity(alloc, count)?;
        Ok(AreaList { list })
    }

    /// Takes all areas away, and keeps the room.
    pub fn clear(&mut self)
        ensures items { self.new.items ≡ [] }
        ensures capacity { self.old.capacity ≤ self.new.capacity }
    {
        self.list.clear();
    }

    /// Appends an area that there is room for.
    pub fn push(&mut self, area: Stretch)
        requires { length self.old.items < self.old.capacity }
        ensures items { self.new.items ≡ self.old.items ++ area ∷ [] }
        ensures one { length self.new.items ≡ length self.old.items + 1 }
        ensures capacity { self.old.capacity ≤ self.new.capacity }
    {
        if self.list.push(area).is_err() {
            unreachable!()
        }
    }

    /// The areas, in the order in which they were appended.
    pub fn as_slice(&self) -> &[Stretch]
        ensures { result.now ≡ self.now.items }
    {
        &self.list
    }
}
