//! How a machine is made.
ghost use Rattle.std.specs.Prelude.{◌≡◌, ◌+◌, ◌^◌, ◌<◌, ◌≤◌, ◌++◌, ◌∷◌, [], map, replicate, length};
ghost use Rattle.std.specs.Prelude.{IfOk};
ghost use Rattle.std.specs.Prelude.{OnOk};
ghost use Rattle.its_types.specs.Ranges.{most_vcpus};
ghost use Rattle.owned_parts.specs.Owned.{AreAllInHand, translators_of};
ghost use Rattle.its_plain.specs.Machine.{layout_of};
ghost use Rattle.its_plain.specs.Sound.{IsSound};
ghost use Rattle.its_steps.specs.Parts.{HasStamps};
ghost use Rattle.its_steps.specs.World.{first_view};
ghost use Rattle.its_turns.specs.Opening.{setup_from, kept_its, kept_of, apart, AreFirst, AreMaps};
ghost use Rattle.its_turns.specs.Opening.{AreSlots};
ghost use Rattle.its_turns.specs.Rule.{Kept, setup_of};
ghost use Rattle.atomic_table.specs.Table.{opening};
ghost use Rattle.its_turns.specs.Machines.{setup, view, IsOf};
ghost use Rattle.its_turns.specs.Words.{IsLong};
ghost use Rattle.its_turns.specs.declared.value.Value.TheVariants.{Vacant};

use crate::law::{Known, Law, Origin};
use crate::machine::{Machine, Pass, Root};
use crate::value::{GuestMemory, Value};
use crate::word::packing_of;
use atomic_table::{Seat, Table};
use gicr_regs::GicrValues;
use guest_windows::Spare;
use its_plain::{Desc, Its, Layout, LpiTables, RequesterRanges};
use its_types::{Listed, Vcpu};
use lpi_pending::Redists;
use owned_parts::{Parts, Translator};
use std::alloc::{AllocError, Global};
use std::snapshot::Snapshot;
use xlate_cache::Shard;

impl Machine {
    /// A machine with an empty history, stamp and place at 0 and every part in its slot, and its
    /// root. The shards are empty. Where memory runs out the parts are dropped.
    ///
    /// ```
    /// let parts = owned_machine::Machine::new(alloc, &desc)?.into_parts();
    /// let (machine, mut root) = Machine::new(alloc, &desc, parts)?;
    /// ```
    pub fn new(alloc: Global, desc: &Desc, parts: Parts) -> Result<(Machine, Root), AllocError>
        requires some_shards { 1 ≤ desc.now.shards }
        requires most_shards { desc.now.shards ≤ 64 }
        requires vcpus { desc.now.shape.vcpus ≤ most_vcpus }
        requires stamps { desc.now.limits.stamp_last < 2 ^ 24 }
        requires places { desc.now.limits.place_last < 2 ^ 56 }
        requires few_stamps { IsLong desc.now.limits → desc.now.limits.stamp_last < 2 ^ 8 }
        requires alone { IsLong desc.now.limits → length desc.now.translators ≡ 1 }
        requires translators { length desc.now.translators
            ≡ length (translators_of parts.first parts.second) }
        requires apart { HasStamps (setup_from desc.now parts) }
        requires layout { parts.layout ≡ layout_of desc.now }
        requires hand { AreAllInHand parts.layout.shape parts.redists }
        requires sound { IsSound (setup_from desc.now parts).start }
        ensures of { IfOk result (λ r. IsOf r.0 r.1) }
        ensures setup { IfOk result (λ r. setup r.0 ≡ setup_from desc.now parts) }
        ensures desc { IfOk result (λ r. r.0.desc ≡ kept_of desc.now) }
        ensures view { IfOk result (λ r. view r.1 ≡ first_view (setup r.0)) }
    {
        let origin = Origin {
            desc: Snapshot::of(desc),
            parts: Snapshot::of(&parts),
        };
        let translators = desc.translators.len() as u8;
        let first_shard = usize::from(translators) + 1;
        let first_conf = first_shard + usize::from(translators) * desc.shards as usize;
        let first_pend = first_conf + usize::from(desc.shape.vcpus);
        let words = 16 * (first_pend + usize::from(desc.shape.vcpus) + 1);
        let frame = Frame::of(alloc, desc, &parts.layout, words)?;
        let slots = slots_of(alloc, desc, parts)?;
        let (table, seat) = table_of(alloc, frame.words.as_slice(), slots, &origin)?;
        Ok((
            Machine {
                table,
                desc: frame.desc,
                layout: frame.layout,
                translators,
                first_shard,
                first_conf,
                first_pend,
                first_shift: 12 * (translators - 1),
                packing: packing_of(desc.limits),
            },
            Pass {
                number: 0,
                made: 1,
                out: 0,
                seat,
            },
        ))
    }
}

// What a machine keeps beside its table, and the words that the table begins with.
#[derive(Drop)]
struct Frame {
    words: Vec<u64>,
    desc: Desc,
    layout: Layout,
}

impl Frame {
    // With so many words, which are all 0.
    fn of(alloc: Global, desc: &Desc, layout: &Layout, words: usize) -> Result<Frame, AllocError>
        ensures words { IfOk result (λ f. f.words.items ≡ replicate words 0) }
        ensures count { IfOk result (λ f. length f.words.items ≡ words) }
        ensures desc { IfOk result (λ f. f.desc ≡ kept_of desc.now) }
        ensures layout { IfOk result (λ f. f.layout ≡ layout.now) }
    {
        let words = vec![in alloc; 0; words]?;
        let desc = copy_of(alloc, desc)?;
        let layout = layout.copy(alloc)?;
        Ok(Frame {
            words,
            desc,
            layout,
        })
    }
}

// A table with these words and values, and its first seat.
fn table_of(
    alloc: Global,
    words: &[u64],
    slots: Vec<Value>,
    origin: &Origin,
) -> Result<(Table<Value, Known, Origin, Law, Global>, Seat<Value, Known>), AllocError>
    requires { Kept (setup_of origin.now)
        (opening words.now slots.items (first_view (setup_of origin.now))) }
    ensures words { IfOk result (λ t. t.0.shared.table_id.words ≡ length words.now) }
    ensures slots { IfOk result (λ t. t.0.shared.table_id.slots ≡ length slots.items) }
    ensures key { IfOk result (λ t. t.0.shared.key ≡ origin.now) }
    ensures table { IfOk result (λ t. t.1.table_id ≡ t.0.shared.table_id) }
    ensures seat { IfOk result (λ t. t.1.id ≡ 0) }
    ensures view { IfOk result (λ t. t.1.me ≡ (first_view (setup_of origin.now), [])) }
{
    match Table::new(alloc, words, slots, origin) {
        Ok(made) => Ok(made),
        Err(_) => Err(AllocError),
    }
}

// What the machine keeps of its description.
fn copy_of(alloc: Global, desc: &Desc) -> Result<Desc, AllocError>
    ensures { IfOk result (λ d. d ≡ kept_of desc.now) }
{
    let windows = Vec::from_slice(alloc, desc.windows.as_slice())?;
    let requesters = RequesterRanges::from_slice(alloc, desc.requesters.as_slice())?;
    let translators = kept_translators(alloc, desc.translators.as_slice())?;
    Ok(Desc {
        shape: desc.shape,
        shards: desc.shards,
        limits: desc.limits,
        windows: Listed::from_vec(windows),
        memory_limit: desc.memory_limit,
        tables: tables_of(alloc, &desc.tables)?,
        fills: Listed::new(alloc),
        translators: Listed::from_vec(translators),
        requesters,
        from_kvm: false,
        track: desc.track,
    })
}

fn kept_translators(alloc: Global, translators: &[Its]) -> Result<Vec<Its>, AllocError>
    ensures { IfOk result (λ v. v.items ≡ map kept_its translators.now) }
{
    translators
        .iter()
        .map(|its| Its {
            restore: None,
            frames: its.frames,
        })
        .collect(alloc)
}

fn tables_of(alloc: Global, tables: &LpiTables) -> Result<LpiTables, AllocError>
    ensures { IfOk result (λ t. t ≡ tables.now) }
{
    match tables {
        LpiTables::Described { config, pending } => {
            let pending = Vec::from_slice(alloc, pending.as_slice())?;
            Ok(LpiTables::Described {
                config: *config,
                pending: Listed::from_vec(pending),
            })
        }
        LpiTables::Registers(values) => {
            let registers = Vec::from_slice(alloc, values.registers.as_slice())?;
            Ok(LpiTables::Registers(GicrValues {
                registers: Listed::from_vec(registers),
            }))
        }
    }
}

// The values of all parts, each in its slot.
fn slots_of(alloc: Global, desc: &Desc, parts: Parts) -> Result<Vec<Value>, AllocError>
    requires vcpus { parts.layout.shape.vcpus ≤ most_vcpus }
    requires hand { AreAllInHand parts.layout.shape parts.redists }
    ensures { IfOk result (λ v. AreSlots (setup_from desc.now parts) v.items) }
{
    let values = first_values(alloc, desc, parts)?;
    let slots = spread(alloc, values)?;
    Ok(slots)
}

// The values of all parts.
fn first_values(alloc: Global, desc: &Desc, parts: Parts) -> Result<Vec<Value>, AllocError>
    requires vcpus { parts.layout.shape.vcpus ≤ most_vcpus }
    requires hand { AreAllInHand parts.layout.shape parts.redists }
    ensures { IfOk result (λ v. AreFirst (setup_from desc.now parts) v.items) }
{
    let Parts {
        layout,
        first,
        second,
        memory,
        track,
        mut redists,
    } = parts;
    let mut values = first_maps(alloc, first, second)?;
    let shards = values.len() * desc.shards as usize;
    let places = Redists::with_room(alloc, layout.shape.vcpus)?;
    let memory = GuestMemory {
        memory,
        spare: Spare::new(),
        track,
        redists: places,
    };
    values.push(Value::Mem(Box::new(alloc, memory)?))?;
    for _shard in 0..shards {
        values.push(Value::Shard(Shard::new(alloc)?))?;
    }
    for vcpu in 0..layout.shape.vcpus {
        values.push(Value::Conf(redists.take_conf(Vcpu(vcpu))))?;
    }
    for vcpu in 0..layout.shape.vcpus {
        values.push(Value::Pend(redists.take_pend(Vcpu(vcpu))))?;
    }
    Ok(values)
}

// The values of one or two translators.
fn first_maps(
    alloc: Global,
    first: Translator,
    second: Option<Translator>,
) -> Result<Vec<Value>, AllocError>
    ensures { IfOk result (λ v. AreMaps (translators_of first second) v.items) }
{
    let mut values = Vec::new(alloc);
    values.push(Value::Maps(Box::new(alloc, first)?))?;
    if let Some(second) = second {
        values.push(Value::Maps(Box::new(alloc, second)?))?;
    }
    Ok(values)
}

// Each value with seven empty slots after it.
fn spread(alloc: Global, values: Vec<Value>) -> Result<Vec<Value>, AllocError>
    ensures { IfOk result (λ v. v.items ≡ apart values.items) }
{
    let mut slots = Vec::new(alloc);
    for value in values {
        push_apart(&mut slots, value)?;
    }
    Ok(slots)
}

fn push_apart(slots: &mut Vec<Value>, value: Value) -> Result<(), AllocError>
    ensures { OnOk result (slots.new.items ≡ slots.old.items ++ value ∷ replicate 7 Vacant) }
{
    slots.push(value)?;
    for _ in 0..7u8 {
        slots.push(Value::Vacant)?;
    }
    Ok(())
}
