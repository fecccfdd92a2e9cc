//! The stretches of guest memory that the next step of a translator reads, seen through a pass.
ghost use Rattle.std.specs.Prelude.{◌≡◌, ◌<◌, ◌∷◌, [], OnErr};
ghost use Rattle.guest_windows.specs.Fields.{pairs};
ghost use Rattle.held_parts.specs.Redists.{AreBeforeConfs};
ghost use Rattle.held_parts.specs.Wholes.{maps_held};
ghost use Rattle.its_steps.specs.Contents as content;
ghost use Rattle.its_steps.specs.Parts.{translator_count, vcpu_count};
ghost use Rattle.its_steps.specs.World.{View, out, took};
ghost use Rattle.its_turns.specs.Machines.{setup, view, IsOf};
ghost use Rattle.its_types.specs.declared.machine.Part.TheVariants as part;
ghost use Rattle.lpi_pending.specs.InHand.{AreEmpty};
ghost use Rattle.owned_parts.specs.Owned.{translator_of};
ghost use Rattle.its_shared.specs.Besides.{configs_of, stretches, needed as all};
ghost use Rattle.step_views.specs.Reads.{reads as reads_of};
ghost use Rattle.its_shared.specs.Seeing.{ListsAll, Sees, SeesBeside};

use crate::besides::Besides;
use crate::needed::needed;
use crate::step_reads::{StepReads, step_reads};
use crate::unseen::Unseen;
use held_parts::{once_confs, put_confs};
use its_numbers::{StretchOut, put_tables};
use its_turns::{GuestMemory, Machine, Pass, Value, look, put, try_take_maps, try_take_memory};
use its_types::{Addr, Part, Placed, Shape};
use lpi_pending::Redists;
use owned_parts::{RedistSet, Translator};
use std::alloc::Global;

/// The stretches of guest memory that the next step of a translator reads: as many as the list
/// takes, whose rest stays, and how many there are. Takes the maps and guest memory, and where the
/// step reads configurations all of these, each at the first try.
pub fn try_needs(
    alloc: Global,
    machine: &Machine,
    pass: &mut Pass,
    its: u8,
    list: &mut [StretchOut],
) -> Result<Placed<u64>, Unseen>
    requires of { IsOf machine.now pass.old }
    requires its { its < translator_count (setup machine.now) }
    requires free { (view pass.old).held ≡ [] }
    ensures of { IsOf machine.now pass.new }
    ensures free { (view pass.new).held ≡ [] }
    ensures seen { Sees (Unit {0}) (λ u n. ListsAll (all its u) list.old list.new n)
        (view pass.old) (view pass.new) result }
    ensures only { OnErr result (list.new ≡ list.old) }
{
    let maps = match try_take_maps(machine, pass, its) {
        Ok(maps) => maps,
        Err(_) => return Err(Unseen::Busy),
    };
    let memory = match try_take_memory(machine, pass) {
        Ok(memory) => memory,
        Err(_) => {
            put(machine, pass, Part::Maps(its), Value::Maps(maps));
            return Err(Unseen::Busy);
        }
    };
    match seen_with(alloc, machine, pass, its, maps, memory) {
        Ok(told) => {
            put_tables(&told.reply, list);
            Ok(Placed {
                place: told.place,
                reply: told.reply.len() as u64,
            })
        }
        Err(unseen) => Err(unseen),
    }
}

// The maps and memory are in hand, and go home in the end.
fn seen_with(
    alloc: Global,
    machine: &Machine,
    pass: &mut Pass,
    its: u8,
    maps: Box<Translator>,
    memory: Box<GuestMemory>,
) -> Result<Placed<Vec<(Addr, u64)>>, Unseen>
    requires of { IsOf machine.now pass.old }
    requires its { its < translator_count (setup machine.now) }
    requires held { (view pass.old).held
        ≡ out part.Mem (content.Mem memory.value.memory memory.value.track)
        ∷ maps_held its maps.value ∷ [] }
    requires room { AreEmpty (vcpu_count (setup machine.now)) memory.value.redists }
    ensures of { IsOf machine.now pass.new }
    ensures free { (view pass.new).held ≡ [] }
    ensures seen { (v : View) → v.held ≡ [] →
        view pass.old ≡ took (took v (part.Maps its) (content.Maps (translator_of maps.value)))
        part.Mem (content.Mem memory.value.memory memory.value.track) →
        Sees (Unit {0}) (λ u xs. pairs xs.items ≡ reads_of u its) v (view pass.new) result }
{
    let mut memory = memory;
    let shape = machine.desc().shape;
    let reads = step_reads(&maps.regs, &maps.maps, &memory.memory, shape);
    let redists = &mut memory.redists;
    let told = seen_beside(alloc, machine, pass, reads, shape, redists);
    put(machine, pass, Part::Mem, Value::Mem(memory));
    put(machine, pass, Part::Maps(its), Value::Maps(maps));
    told
}

// The configurations too that say what is read, for as long as the state is looked at.
fn seen_beside(
    alloc: Global,
    machine: &Machine,
    pass: &mut Pass,
    reads: StepReads,
    shape: Shape,
    redists: &mut Redists,
) -> Result<Placed<Vec<(Addr, u64)>>, Unseen>
    requires of { IsOf machine.now pass.old }
    requires shape { shape ≡ (setup machine.now).start.layout.shape }
    requires order { AreBeforeConfs (view pass.old).held }
    requires room { AreEmpty (vcpu_count (setup machine.now)) redists.old }
    ensures of { IsOf machine.now pass.new }
    ensures room { AreEmpty (vcpu_count (setup machine.now)) redists.new }
    ensures seen { SeesBeside (Unit {0})
        (λ u xs. pairs xs.items ≡ stretches shape u.redistributors reads)
        (view pass.old) (view pass.new) result }
{
    let set = configs_read(reads.besides, shape.vcpus);
    match once_confs(machine, pass, set, redists) {
        Ok(()) => {}
        Err(_) => return Err(Unseen::Busy),
    }
    let word = look(machine, pass);
    let told = needed(alloc, reads, redists, shape);
    put_confs(machine, pass, set, redists);
    match told {
        Ok(reply) => Ok(Placed {
            place: word.place,
            reply,
        }),
        Err(_) => Err(Unseen::NoMemory),
    }
}

fn configs_read(besides: Besides, vcpus: u16) -> RedistSet
    ensures { result ≡ configs_of vcpus besides }
{
    match besides {
        Besides::Nothing | Besides::Entry(_) => RedistSet::Nothing,
        Besides::Byte(_) | Besides::Tables => RedistSet::First(vcpus),
    }
}
