//! Places in a call where a test may hold it.
/// A place in a call where a test may hold it. It answers nothing and can't fail.
pub trait Gate {
    /// Called where the pass of this number stands at the point. A test may let it wait.
    fn at(&self, pass: u32, point: Point);
}

/// Where in a call it is held.
#[derive(Clone, Copy, Debug, PartialEq, Eq)]
pub enum Point {
    /// Right after the call got the maps, and before it asks for any other part.
    MapsTaken,
    /// Before each try to commit.
    BeforeCommit,
    /// After a commit that succeeded, before any part is given back.
    AfterCommit,
}

/// The gate that returns at once.
#[derive(Clone, Copy, Debug)]
pub struct Open;

impl Gate for Open {
    fn at(&self, _pass: u32, _point: Point) {}
}
