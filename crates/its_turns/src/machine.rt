//! The machine and its passes.
ghost use Rattle.std.specs.Prelude.{◌≡◌, ◌+◌, ◌*◌, ◌^◌, ◌<◌, ◌≤◌, true, [], length};
ghost use Rattle.its_types.specs.Ranges.{most_vcpus};
ghost use Rattle.its_plain.specs.Machine.{layout_of};
ghost use Rattle.its_steps.specs.Parts.{part_count, translator_count, vcpu_count};
ghost use Rattle.its_steps.specs.Parts.{HasVcpus};
ghost use Rattle.its_steps.specs.declared.standing.Standing.TheVariants as standing;
ghost use Rattle.its_turns.specs.Contents.{emptied};
ghost use Rattle.its_turns.specs.Opening.{kept_of};
ghost use Rattle.its_turns.specs.Rule.{setup_of};
ghost use Rattle.its_turns.specs.Told.{are_joined};
ghost use Rattle.its_turns.specs.Words.{HaveRoom, packing_of};

use crate::law::{Known, Law, Origin};
use crate::value::Value;
use crate::word::Packing;
use atomic_table::{Seat, Table};
use its_plain::{Desc, Layout};
use std::alloc::Global;

/// A machine that threads share: the word that commits exchange, and for each part a turn and a
/// slot.
#[derive(Drop)]
pub struct Machine {
    pub(crate) table: Table<Value, Known, Origin, Law, Global>,
    pub(crate) desc: Desc,
    pub(crate) layout: Layout,
    // How many translators there are.
    pub(crate) translators: u8,
    // The number of the first shard among the parts, that of the first configuration, and that of
    // what is pending first.
    pub(crate) first_shard: usize,
    pub(crate) first_conf: usize,
    pub(crate) first_pend: usize,
    // How far above its lowest bit the word's stamp has that of translator 0.
    pub(crate) first_shift: u8,
    // How stamp and place share the word.
    pub(crate) packing: Packing,
    pub ghost described: { desc ≡ kept_of table.shared.key.desc.value },
    pub ghost built: { (layout ≡ (setup_of table.shared.key).start.layout)
        × (layout_of desc ≡ layout) },
    pub ghost sized: { (table.shared.table_id.slots ≡ 8 * part_count (setup_of table.shared.key))
        × (16 * part_count (setup_of table.shared.key) < table.shared.table_id.words) },
    pub ghost laid: { (translator_count (setup_of table.shared.key) ≡ length desc.translators)
        × HasVcpus (setup_of table.shared.key) },
    pub ghost paired: { (1 ≤ translators) × (translators ≤ 2)
        × (translators ≡ 2 → desc.limits.stamp_last < 4096) },
    pub ghost ordered: { (translators ≡ translator_count (setup_of table.shared.key))
        × (first_shard ≡ translators + 1)
        × (first_conf + vcpu_count (setup_of table.shared.key) ≡ first_pend)
        × (first_pend + vcpu_count (setup_of table.shared.key)
        ≡ part_count (setup_of table.shared.key)) × (first_conf ≤ 131) },
    pub ghost shifted: { first_shift + 12 ≡ 12 * translators },
    pub ghost small: { (1 ≤ desc.shards) × (desc.shards ≤ 64) × (desc.shape.vcpus ≤ most_vcpus) },
    pub ghost room: { HaveRoom desc.limits (length desc.translators) },
    pub ghost packed: { packing ≡ packing_of desc.limits },
}

/// The token with which one thread makes calls. The root is the pass numbered 0.
#[derive(Drop)]
pub struct Pass {
    pub(crate) number: u32,
    // Of the root: how many numbers were given, its own among them, and how many passes are out.
    pub(crate) made: u64,
    pub(crate) out: u64,
    pub(crate) seat: Seat<Value, Known>,
    pub ghost live: { seat.me.0.standing ≡ standing.Pass },
    pub ghost numbered: { (seat.me.0.number ≡ number) × (seat.me.0.root.made ≡ made) },
    pub ghost joined: { are_joined seat.me.0.root.made seat.me.0.root.ended ≡ true },
    pub ghost counted: { number ≡ 0 → out + length seat.me.0.root.ended + 1 ≡ made },
    pub ghost empty: { seat.me.1 ≡ emptied seat.me.0.setup seat.me.0.held },
}

/// The pass numbered 0, with which a machine begins.
pub type Root = Pass;

/// What a pass had seen when it made the note.
#[derive(Drop)]
pub struct Note {
    pub(crate) seat: Seat<Value, Known>,
    pub ghost note: { seat.me.0.standing ≡ standing.Note },
    pub ghost empty: { seat.me.1 ≡ [] },
}
