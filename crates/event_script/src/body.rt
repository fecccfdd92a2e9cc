//! The lines of a script's body.
ghost use Rattle.std.specs.Prelude.{◌≡◌, [], map, OnOk};
ghost use Rattle.event_script.specs.Outcome.{Gives};
ghost use Rattle.event_script.specs.Body as spec;

use crate::call_list::Calls;
use crate::draft::{Draft, MOST_CALLS, MOST_LEGS, MOST_PHASES, MOST_THREADS, Stage};
use crate::fault::{Kind, LineError, ensure};
use crate::fields::arg;
use crate::script::Move;
use crate::words::{CallWord, Keyword, call_word_of};
use its_plain::Call;
use its_types::Listed;
use std::alloc::{AllocError, Global};
use std::mem;

impl Draft {
    fn has_tables(&self) -> bool
        ensures { result ≡ spec.has_tables self.now }
    {
        self.gicr || self.config.is_some() && self.pending.all_given()
    }

    fn is_described(&self) -> bool
        ensures { result ≡ spec.is_described self.now }
    {
        self.shards.is_some() && !self.windows.is_empty() && self.has_tables()
    }

    fn is_whole(&self) -> bool
        ensures { result ≡ spec.is_whole self.now }
    {
        self.is_described() && self.stage != Stage::Phase
    }

    fn may_go_on(&self) -> bool
        ensures { result ≡ spec.may_go_on self.now }
    {
        self.stage != Stage::Start && self.stage != Stage::Ended
    }

    /// Closes the thread that is open.
    fn close_thread(&mut self, alloc: Global) -> Result<(), AllocError>
        ensures { OnOk result
            (self.new ≡ record self.old { threads = spec.threads_so_far self.old; calls = [] }) }
    {
        let calls = mem::replace(&mut self.calls, Calls::new(alloc));
        if self.stage == Stage::Thread {
            self.threads.push(calls)?;
        }
        Ok(())
    }

    /// Closes the phase that is open.
    fn close_phase(&mut self, alloc: Global) -> Result<(), AllocError>
        ensures { OnOk result (self.new
            ≡ record self.old
            { phases = spec.phases_so_far self.old; threads = []; calls = [] }) }
    {
        self.close_thread(alloc)?;
        let threads = mem::replace(&mut self.threads, Listed::new(alloc));
        if self.stage == Stage::Thread {
            self.phases.push(threads)?;
        }
        Ok(())
    }

    /// Closes the leg that is open.
    fn close_leg(&mut self, alloc: Global) -> Result<(), AllocError>
        ensures { OnOk result (self.new
            ≡ record self.old
            { legs = spec.legs_so_far self.old; phases = []; threads = []; calls = [] }) }
    {
        self.close_phase(alloc)?;
        let phases = mem::replace(&mut self.phases, Listed::new(alloc));
        self.legs.push(phases)?;
        Ok(())
    }

    #[tactic(auto, unfolding(crate::specs::Body::phase_line))]
    fn phase_line(&mut self, alloc: Global, fields: &[&[u8]]) -> Result<(), LineError>
        ensures { Gives (λ _. self.new) result
            (spec.phase_line self.old (map (λ f. f.now) fields.now)) }
    {
        ensure(self.may_go_on(), Kind::Order)?;
        ensure(self.is_whole(), Kind::Missing)?;
        ensure(fields.len() == 1, Kind::Fields)?;
        self.close_phase(alloc)?;
        ensure(self.phases.len() < MOST_PHASES, Kind::Many)?;
        self.stage = Stage::Phase;
        Ok(())
    }

    #[tactic(auto, unfolding(crate::specs::Body::thread_line))]
    fn thread_line(&mut self, alloc: Global, fields: &[&[u8]]) -> Result<(), LineError>
        ensures { Gives (λ _. self.new) result
            (spec.thread_line self.old (map (λ f. f.now) fields.now)) }
    {
        let opens = self.stage == Stage::Phase || self.stage == Stage::Thread;
        ensure(opens, Kind::Order)?;
        ensure(fields.len() == 1, Kind::Fields)?;
        self.close_thread(alloc)?;
        ensure(self.threads.len() < MOST_THREADS, Kind::Many)?;
        self.stage = Stage::Thread;
        Ok(())
    }

    /// Whether the machine can be moved in this way.
    fn may_move(&self, how: Move) -> bool
        ensures { result ≡ spec.may_move self.now.track how }
    {
        match how {
            Move::Migrate => true,
            Move::Precopy => self.track,
        }
    }

    #[tactic(auto, unfolding(crate::specs::Body::move_line))]
    fn move_line(&mut self, alloc: Global, how: Move, fields: &[&[u8]]) -> Result<(), LineError>
        ensures { Gives (λ _. self.new) result
            (spec.move_line self.old how (map (λ f. f.now) fields.now)) }
    {
        ensure(self.may_go_on() && self.may_move(how), Kind::Order)?;
        ensure(self.is_whole(), Kind::Missing)?;
        ensure(fields.len() == 1, Kind::Fields)?;
        self.close_leg(alloc)?;
        ensure(self.legs.len() < MOST_LEGS, Kind::Many)?;
        self.moves.push(how)?;
        self.stage = Stage::Leg;
        Ok(())
    }

    #[tactic(auto, unfolding(crate::specs::Body::end_line))]
    fn end_line(&mut self, alloc: Global, fields: &[&[u8]]) -> Result<(), LineError>
        ensures { Gives (λ _. self.new) result
            (spec.end_line self.old (map (λ f. f.now) fields.now)) }
    {
        ensure(self.may_go_on(), Kind::Order)?;
        ensure(self.is_whole(), Kind::Missing)?;
        ensure(fields.len() == 1, Kind::Fields)?;
        self.close_leg(alloc)?;
        self.stage = Stage::Ended;
        Ok(())
    }

    /// Whether the machine has what a call is for.
    fn may_call(&self, word: CallWord) -> bool
        ensures { result ≡ spec.may_call self.now word }
    {
        match word {
            CallWord::Rread | CallWord::Rwrite => self.gicr,
            CallWord::Copy => self.track,
            _ => true,
        }
    }

    /// Whether a call may stand here.
    fn takes_call(&self, word: CallWord) -> bool
        ensures { result ≡ spec.takes_call self.now word }
    {
        self.stage == Stage::Thread && self.may_call(word)
    }

    /// Whether a call of the second translator may stand here.
    fn takes_second(&self) -> bool
        ensures { result ≡ spec.takes_second self.now }
    {
        self.stage == Stage::Thread && self.pair
    }

    /// Adds a call to the open thread.
    #[tactic(auto, unfolding(crate::specs::Body::with_call))]
    fn push_call(&mut self, call: Call) -> Result<(), LineError>
        ensures { Gives (λ _. self.new) result (spec.with_call self.old call) }
    {
        ensure(self.calls.len() < MOST_CALLS, Kind::Many)?;
        self.calls.push(call)?;
        Ok(())
    }

    #[tactic(auto, unfolding(crate::specs::Body::call_line))]
    fn call_line(&mut self, word: CallWord, fields: &[&[u8]]) -> Result<(), LineError>
        ensures { Gives (λ _. self.new) result
            (spec.call_line self.old word (map (λ f. f.now) fields.now)) }
    {
        ensure(self.takes_call(word), Kind::Order)?;
        let call = self.call_of(0, word, fields)?;
        self.push_call(call)
    }

    /// A call of the second translator, from the line's second field on.
    #[tactic(auto, unfolding(crate::specs::Body::second_line))]
    fn second_line(&mut self, fields: &[&[u8]]) -> Result<(), LineError>
        ensures { Gives (λ _. self.new) result
            (spec.second_line self.old (map (λ f. f.now) fields.now)) }
    {
        ensure(self.takes_second(), Kind::Order)?;
        ensure(fields.len() > 1, Kind::Fields)?;
        let word = call_word_of(arg(fields, 1)).ok_or(Kind::Order)?;
        ensure(is_translators(word), Kind::Order)?;
        let call = self.call_of(1, word, &fields[1..])?;
        self.push_call(call)
    }

    /// Reads the line with a number, which begins with the word of a call.
    #[tactic(auto, unfolding(crate::specs::Body::call_word_line))]
    pub fn call_word_line(
        &mut self,
        alloc: Global,
        number: u64,
        word: CallWord,
        fields: &[&[u8]],
    ) -> Result<(), LineError>
        ensures { Gives (λ _. self.new) result
            (spec.call_word_line self.old number word (map (λ f. f.now) fields.now)) }
    {
        if self.describes() && word == CallWord::Word {
            self.word_fill_line(alloc, number, fields)
        } else {
            self.call_line(word, fields)
        }
    }

    /// Reads the line with a number, by its first word.
    #[tactic(auto, unfolding(crate::specs::Body::keyword_line))]
    pub fn keyword_line(
        &mut self,
        alloc: Global,
        number: u64,
        keyword: Keyword,
        fields: &[&[u8]],
    ) -> Result<(), LineError>
        ensures { Gives (λ _. self.new) result
            (spec.keyword_line self.old number keyword (map (λ f. f.now) fields.now)) }
    {
        match keyword {
            Keyword::Vcpus => self.vcpus_line(alloc, fields),
            Keyword::Processors => self.processors_line(alloc, fields),
            Keyword::Shards => self.shards_line(fields),
            Keyword::Limits => self.limits_line(fields),
            Keyword::Ids => self.ids_line(fields),
            Keyword::Profile => self.profile_line(fields),
            Keyword::Window => self.window_line(fields),
            Keyword::Config => self.config_line(fields),
            Keyword::Pending => self.pending_line(fields),
            Keyword::Bytes => self.bytes_line(alloc, number, fields),
            Keyword::Restore => self.restore_line(fields),
            Keyword::Gicr => self.gicr_line(fields),
            Keyword::Rrestore => self.rrestore_line(fields),
            Keyword::FromKvm => self.from_kvm_line(fields),
            Keyword::Linux => self.linux_line(fields),
            Keyword::Track => self.track_line(fields),
            Keyword::Pair => self.pair_line(fields),
            Keyword::Brestore => self.brestore_line(fields),
            Keyword::ItsBase => self.its_base_line(fields),
            Keyword::BBase => self.b_base_line(fields),
            Keyword::Requester => self.requester_line(number, fields),
            Keyword::Phase => self.phase_line(alloc, fields),
            Keyword::Thread => self.thread_line(alloc, fields),
            Keyword::Migrate => self.move_line(alloc, Move::Migrate, fields),
            Keyword::Precopy => self.move_line(alloc, Move::Precopy, fields),
            Keyword::End => self.end_line(alloc, fields),
            Keyword::Trace => Err(Kind::Order.into()),
            Keyword::Second => self.second_line(fields),
        }
    }
}

/// Whether each translator has such calls of its own.
fn is_translators(word: CallWord) -> bool
    ensures { result ≡ spec.is_translators word }
{
    match word {
        CallWord::Signal | CallWord::Read | CallWord::Write | CallWord::Step => true,
        _ => false,
    }
}
