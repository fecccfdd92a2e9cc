//! The limits that the calls of a pass keep to, as rules for its ports.
use cmd_engine::MapRule;
use guest_port::PageRule;
use guest_windows::Memory;
use its_command::Command;
use its_maps::Maps;
use its_migrate::SaveRule;
use its_numbers::{GuestLimits, has_room, missing, missing_in};
use its_types::Addr;
use owned_parts::InPlace;
use std::alloc::{AllocError, Global};
use table_save::written_tables;

/// As much as the limits say, and no more.
#[derive(Clone, Copy)]
pub struct Within(pub GuestLimits);

impl MapRule for Within {
    ghost use Rattle.its_numbers.specs.Limits.{forbids};

    ghost forbidden = { λ w m c. forbids w.0 m c };

    fn forbids(&self, maps: &Maps, command: &Command) -> bool {
        self.0.forbids(maps, command)
    }
}

impl PageRule for Within {
    ghost use Rattle.std.specs.Prelude.{◌≢◌};
    ghost use Rattle.its_numbers.specs.Limits.{no_limit};

    ghost is_limit = { λ w. w.0.memory ≢ no_limit };

    // Bytes that no window has want no page.
    fn allows(&self, memory: &Memory, addr: Addr, len: u64) -> bool {
        let limit = self.0.memory;
        limit == u64::MAX
            || !memory.inside(addr, len)
            || has_room(memory, limit, missing(memory, addr.0, len))
    }
}

impl SaveRule for Within {
    ghost use Rattle.std.specs.Prelude.{◌≢◌};
    ghost use Rattle.its_numbers.specs.Limits.{no_limit};

    // no clause says how many pages are held
    ghost is_allowed = { λ _ _. Unit {0} };

    ghost is_forbidden = { λ w _. w.0.memory ≢ no_limit };

    fn allows(&self, alloc: Global, parts: &InPlace<'_>) -> Result<bool, AllocError> {
        let limit = self.0.memory;
        if limit == u64::MAX {
            return Ok(true);
        }
        let tables = written_tables(alloc, parts)?;
        Ok(has_room(parts.memory, limit, missing_in(parts.memory, &tables)))
    }
}
