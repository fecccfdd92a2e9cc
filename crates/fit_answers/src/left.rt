//! What is left of a text that is read line by line.
ghost use Rattle.std.specs.Prelude.{◌<◌, ◌+◌, ◌^◌, length};

/// The lines of a text that are left.
#[derive(Clone, Copy)]
pub struct Lines<'a> {
    /// That of the first of them.
    pub number: u64,
    /// From the beginning of a line on.
    pub rest: &'a [u8],
    ghost numbers_fit: { number + length rest.now < 2 ^ 64 },
}
