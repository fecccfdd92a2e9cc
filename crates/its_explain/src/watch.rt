//! What the maps answered before a call that may change it, to be compared with what they answer
//! after it.
ghost use Rattle.std.specs.Prelude.{◌≡◌, ◌++◌, ◌∷◌, [], slice_get, IfOk, OnOk};
ghost use Rattle.std.specs.FinMap.{entries};
ghost use Rattle.std.specs.Option.{option_map};
ghost use Rattle.its_explain.specs.Watched as spec;
ghost use Rattle.its_plain.specs.Plain.{Translator};

use crate::facts::Taken;
use crate::replayed::Replayed;
use call_facts::{Answer, Key, answer_of};
use its_command::Command;
use its_maps::Maps;
use its_plain::Call;
use its_types::DeviceId;
use std::alloc::{AllocError, Global};

/// What the maps of a translator answered.
#[derive(Drop)]
pub struct Watch {
    /// The number of the translator.
    pub its: u8,
    answers: Vec<Watched>,
}

/// An answer, and of what.
#[derive(Clone, Copy)]
struct Watched {
    key: Key,
    answer: Answer,
}

impl Watch {
    /// What a call may change. The step takes this command, if it takes one.
    pub fn before(
        alloc: Global,
        machine: &Replayed,
        call: &Call,
        taken: Option<&Taken>,
    ) -> Result<Watch, AllocError>
        ensures its { IfOk result (λ w. w.its ≡ spec.its_of call.now) }
        ensures answers { IfOk result (λ w. w.answers.items ≡ spec.answers_in
            (option_map (λ (t : Translator). t.maps)
            (slice_get machine.now.translators (spec.its_of call.now)))
            call.now (option_map (λ t. t.now.command) taken.entry)) }
    {
        let mut watch = Watch {
            its: its_of(call),
            answers: Vec::new(alloc),
        };
        if let Some(translator) = machine.translator(watch.its) {
            watch.watch_call(translator.maps, call, taken)?;
        }
        Ok(watch)
    }

    fn watch_call(
        &mut self,
        maps: &Maps,
        call: &Call,
        taken: Option<&Taken>,
    ) -> Result<(), AllocError>
        ensures its { OnOk result (self.new.its ≡ self.old.its) }
        ensures answers { OnOk result (self.new.answers.items ≡ self.old.answers.items
            ++ spec.call_answers maps.now.maps call.now
            (option_map (λ t. t.now.command) taken.entry)) }
    {
        match *call {
            Call::Step { .. } => match taken {
                Some(taken) => self.watch_command(maps, &taken.command),
                None => Ok(()),
            },
            Call::WriteReg { off, .. } => self.watch_register(maps, off),
            _ => Ok(()),
        }
    }

    fn watch_command(&mut self, maps: &Maps, command: &Command) -> Result<(), AllocError>
        ensures its { OnOk result (self.new.its ≡ self.old.its) }
        ensures answers { OnOk result (self.new.answers.items ≡ self.old.answers.items
            ++ spec.command_answers maps.now.maps command.now) }
    {
        match *command {
            Command::Mapd { dev, .. } => self.watch_device(maps, dev),
            Command::Mapc { icid, .. } => self.add(maps, Key::Collection(icid)),
            Command::Mapti { dev, ev, .. }
            | Command::Mapi { dev, ev, .. }
            | Command::Movi { dev, ev, .. }
            | Command::Discard { dev, ev } => self.add(maps, Key::Event(dev, ev)),
            _ => Ok(()),
        }
    }

    /// A write of GITS_BASER0 or GITS_BASER1 may unmap all.
    fn watch_register(&mut self, maps: &Maps, off: u32) -> Result<(), AllocError>
        ensures its { OnOk result (self.new.its ≡ self.old.its) }
        ensures answers { OnOk result (self.new.answers.items ≡ self.old.answers.items
            ++ spec.register_answers maps.now.maps off) }
    {
        match off {
            0x100 | 0x104 => self.watch_devices(maps),
            0x108 | 0x10c => self.watch_collections(maps),
            _ => Ok(()),
        }
    }

    fn watch_devices(&mut self, maps: &Maps) -> Result<(), AllocError>
        ensures its { OnOk result (self.new.its ≡ self.old.its) }
        ensures answers { OnOk result (self.new.answers.items ≡ self.old.answers.items
            ++ spec.devices_answers maps.now.maps (entries maps.now.maps.devices)) }
    {
        for (dev, _) in maps.devices() {
            self.watch_device(maps, dev)?;
        }
        Ok(())
    }

    fn watch_collections(&mut self, maps: &Maps) -> Result<(), AllocError>
        ensures its { OnOk result (self.new.its ≡ self.old.its) }
        ensures answers { OnOk result (self.new.answers.items ≡ self.old.answers.items
            ++ spec.collections_answers maps.now.maps (entries maps.now.maps.collections)) }
    {
        for (icid, _) in maps.collections() {
            self.add(maps, Key::Collection(icid))?;
        }
        Ok(())
    }

    #[tactic(auto, unfolding(crate::specs::Watched::device_answers))]
    fn watch_device(&mut self, maps: &Maps, dev: DeviceId) -> Result<(), AllocError>
        ensures its { OnOk result (self.new.its ≡ self.old.its) }
        ensures answers { OnOk result (self.new.answers.items ≡ self.old.answers.items
            ++ spec.device_answers maps.now.maps dev) }
    {
        self.add(maps, Key::Device(dev))?;
        for (ev, _) in maps.events(dev) {
            self.add(maps, Key::Event(dev, ev))?;
        }
        Ok(())
    }

    fn add(&mut self, maps: &Maps, key: Key) -> Result<(), AllocError>
        ensures its { OnOk result (self.new.its ≡ self.old.its) }
        ensures answers { OnOk result (self.new.answers.items
            ≡ self.old.answers.items ++ spec.watched maps.now.maps key ∷ []) }
    {
        let answer = answer_of(maps, key);
        self.answers.push(Watched { key, answer })?;
        Ok(())
    }

    /// Of what the maps answer something else now.
    pub fn changes(&self, alloc: Global, machine: &Replayed) -> Result<Vec<Key>, AllocError>
        ensures { IfOk result (λ keys. keys.items ≡ spec.changed_in
            (option_map (λ (t : Translator). t.maps)
            (slice_get machine.now.translators self.now.its)) self.now.answers.items) }
    {
        match machine.translator(self.its) {
            Some(translator) => changed(alloc, translator.maps, self.answers.as_slice()),
            None => Ok(Vec::new(alloc)),
        }
    }
}

fn changed(alloc: Global, maps: &Maps, answers: &[Watched]) -> Result<Vec<Key>, AllocError>
    ensures { IfOk result (λ keys. keys.items ≡ spec.changed_keys maps.now.maps answers.now) }
{
    let mut keys = Vec::new(alloc);
    for watched in answers {
        if answer_of(maps, watched.key) != watched.answer {
            keys.push(watched.key)?;
        }
    }
    Ok(keys)
}

/// The translator whose maps a call may change.
fn its_of(call: &Call) -> u8
    ensures { result ≡ spec.its_of call.now }
{
    match *call {
        Call::Step { its } | Call::WriteReg { its, .. } => its,
        _ => 0,
    }
}
