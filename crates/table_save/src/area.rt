//! Stretches of guest memory that a save looks at.
use guest_windows::Memory;
use its_plain::{Area, Region};
use its_types::Addr;
use std::marker::Model;

/// An area that has a byte, and whose end fits 64 bits.
#[derive(Drop)]
pub struct Stretch {
    area: Area,
}

impl Model for Stretch {
    ghost use Rattle.std.specs.Prelude.{◌+◌, ◌<◌, ◌^◌};
    ghost use Rattle.its_plain.specs.declared.area.Area as plain;

    ghost Value = { plain.Area };

    ghost view = { λ s. s.area };

    ghost invariant = { λ s. (0 < s.area.size) × (s.area.base + s.area.size < 2 ^ 64) };
}

impl Stretch {
    ghost use Rattle.std.specs.Prelude.{◌≡◌, ◌+◌, ◌<◌, ◌^◌, true, false};
    ghost use Rattle.its_plain.specs.Regions as spec;
    ghost use Rattle.table_save.specs.Edges.{end_of};

    /// One that a save writes.
    pub fn written(region: Region, base: u64, size: u64) -> Stretch
        requires some { 0 < size }
        requires fits { base + size < 2 ^ 64 }
        ensures { result ≡ record { region = region; base = base; size = size; is_written = true } }
    {
        Stretch {
            area: Area {
                region,
                base,
                size,
                is_written: true,
            },
        }
    }

    /// One that a save doesn't write.
    pub fn read_only(region: Region, base: u64, size: u64) -> Stretch
        requires some { 0 < size }
        requires fits { base + size < 2 ^ 64 }
        ensures { result ≡ record {
          region = region;
          base = base;
          size = size;
          is_written = false;
        } }
    {
        Stretch {
            area: Area {
                region,
                base,
                size,
                is_written: false,
            },
        }
    }

    /// What stands there.
    pub fn region(&self) -> Region
        ensures { result ≡ self.now.region }
    {
        self.area.region
    }

    /// Whether a save writes it.
    pub fn is_written(&self) -> bool
        ensures { result ≡ self.now.is_written }
    {
        self.area.is_written
    }

    /// The first address.
    pub fn base(&self) -> u64
        ensures { result ≡ self.now.base }
    {
        self.area.base
    }

    /// The first address after it.
    pub fn end(&self) -> u64
        ensures end { result ≡ end_of self.now }
        ensures some { self.now.base < result }
    {
        self.area.base + self.area.size
    }

    /// Whether it doesn't lie in one window.
    pub fn is_outside(&self, memory: &Memory) -> bool
        ensures { result ≡ spec.is_outside memory.now self.now }
    {
        !memory.inside(Addr(self.area.base), self.area.size)
    }

    /// Whether the two share a byte, and one of them is written.
    pub fn clashes(&self, other: &Stretch) -> bool
        ensures { result ≡ spec.clash self.now other.now }
    {
        (self.is_written() || other.is_written())
            && self.base() < other.end()
            && other.base() < self.end()
    }
}
