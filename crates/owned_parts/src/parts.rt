//! All parts of a machine, by value.
use crate::in_place::{InPlace, TranslatorRef};
use dirty_log::Tracked;
use gits_regs::Regs;
use guest_windows::Memory;
use its_maps::Maps;
use its_plain::Layout;
use lpi_pending::Redists;

/// The registers and maps of a translator.
#[derive(Drop)]
pub struct Translator {
    /// Its registers.
    pub regs: Regs,
    /// Its devices, events and collections.
    pub maps: Maps,
}

/// Everything that a machine of one or two translators has. The redistributors of all its virtual
/// processors are in hand.
#[derive(Drop)]
pub struct Parts {
    /// What no call changes.
    pub layout: Layout,
    /// Translator 0.
    pub first: Translator,
    /// Translator 1, if there is one.
    pub second: Option<Translator>,
    /// Guest memory.
    pub memory: Memory,
    /// The copy of guest memory and its dirty pages, if the machine has them.
    pub track: Option<Tracked>,
    /// Those of all virtual processors, in hand.
    pub redists: Redists,
}

impl Translator {
    ghost use Rattle.std.specs.Prelude.{◌≡◌};
    ghost use Rattle.owned_parts.specs.Owned.{translator_of, translator_at};

    /// The translator where it stands.
    pub fn in_place(&self) -> TranslatorRef<'_>
        ensures { translator_at result ≡ translator_of self.now }
    {
        TranslatorRef {
            regs: &self.regs,
            maps: &self.maps,
        }
    }
}

impl Parts {
    ghost use Rattle.std.specs.Prelude.{◌≡◌};
    ghost use Rattle.owned_parts.specs.Owned.{state_of_parts, state_in_place};

    /// The parts where they stand.
    pub fn in_place(&self) -> InPlace<'_>
        ensures state { state_in_place result ≡ state_of_parts self.now }
        ensures layout { result.layout.now ≡ self.now.layout }
        ensures memory { result.memory.now ≡ self.now.memory }
        ensures redists { result.redists.now ≡ self.now.redists }
    {
        InPlace {
            layout: &self.layout,
            first: self.first.in_place(),
            second: match &self.second {
                Some(second) => Some(second.in_place()),
                None => None,
            },
            memory: &self.memory,
            track: self.track.as_ref(),
            redists: &self.redists,
        }
    }
}
