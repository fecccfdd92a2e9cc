//! The parts of a machine, each where it stands.
use dirty_log::Tracked;
use gits_regs::Regs;
use guest_windows::Memory;
use its_maps::Maps;
use its_plain::Layout;
use lpi_pending::Redists;

/// A translator where it stands.
#[derive(Clone, Copy)]
pub struct TranslatorRef<'a> {
    /// Its registers.
    pub regs: &'a Regs,
    /// Its devices, events and collections.
    pub maps: &'a Maps,
}

/// All parts of a machine, each where it stands.
#[derive(Clone, Copy)]
pub struct InPlace<'a> {
    /// What no call changes.
    pub layout: &'a Layout,
    /// Translator 0.
    pub first: TranslatorRef<'a>,
    /// Translator 1, if there is one.
    pub second: Option<TranslatorRef<'a>>,
    /// Guest memory.
    pub memory: &'a Memory,
    /// The copy of guest memory and its dirty pages, if the machine has them.
    pub track: Option<&'a Tracked>,
    /// Those of all virtual processors, in hand.
    pub redists: &'a Redists,
}

impl<'a> InPlace<'a> {
    ghost use Rattle.std.specs.Prelude.{◌≡◌, map, slice_get};
    ghost use Rattle.std.specs.Option.{option_map};
    ghost use Rattle.owned_parts.specs.Owned.{state_in_place, translator_at};

    /// A translator by its number, if there is one.
    pub fn translator(&self, its: u8) -> Option<TranslatorRef<'a>>
        ensures { option_map translator_at result
            ≡ slice_get (state_in_place self.now).translators its }
    {
        match its {
            0 => Some(self.first),
            1 => self.second,
            _ => None,
        }
    }
}
