//! What a pass counts of its own calls.
ghost use Rattle.std.specs.Prelude.{◌≡◌};

use crate::answer::Answer;
use crate::port::Port;
use cmd_engine::Stepped;
use device_port::Dma;
use its_numbers::{Counters, is_no_table, next_count, step_leaves_maps};
use its_plain::Signal;

impl Port {
    ghost use Rattle.std.specs.Prelude.{◌≡◌, ℕ, List};
    ghost use Rattle.cmd_engine.specs.Concern.{step_said};
    ghost use Rattle.device_port.specs.Dmas.{reply_of};
    ghost use Rattle.its_numbers.specs.Counters.{count_reply};
    ghost use Rattle.its_numbers.specs.Routes.{counted};
    ghost use Rattle.its_plain.specs.declared.call.Reply.TheVariants as reply;
    ghost use Rattle.its_shared.specs.Asked as asked;
    ghost use Rattle.its_shared.specs.Counting.{counted_so};

    /// How often a translation may have ended by its calls.
    pub fn routes(&self) -> u64
        ensures { result ≡ self.now.routes }
    {
        self.routes
    }

    /// How often its signals went where, and its commands were refused.
    pub fn counters(&self) -> Counters
        ensures { result ≡ self.now.counters }
    {
        self.counters
    }

    /// Counts a message that was answered so.
    pub fn count_signal(&mut self, answer: &Answer<Signal>)
        ensures { (its device event : ℕ) → self.new
            ≡ counted_so (asked.signal its device event) reply.Signal answer.now self.old }
    {
        match *answer {
            Answer::Made(placed) => self.counters.count_signal(placed.reply),
            Answer::Busy | Answer::Spent | Answer::NoMemory | Answer::Full => {}
        }
    }

    /// Counts a write by address that was answered so: a message counts.
    pub fn count_dma(&mut self, answer: &Answer<Dma>)
        ensures { (requester address : ℕ) (bytes : List ℕ) → self.new
            ≡ counted_so (asked.dma self.old requester address bytes) reply_of answer.now
            self.old }
    {
        match *answer {
            Answer::Made(placed) => self.count_write_by_address(placed.reply),
            Answer::Busy | Answer::Spent | Answer::NoMemory | Answer::Full => {}
        }
    }

    fn count_write_by_address(&mut self, reply: Dma)
        ensures { self.new ≡ record self.old {
          counters = count_reply (reply_of reply) self.old.counters;
        } }
    {
        match reply {
            Dma::Signal(signal) => self.counters.count_signal(signal),
            Dma::NoRequester | Dma::Ok | Dma::Outside => {}
        }
    }

    /// Counts a step that was answered so.
    pub fn count_step(&mut self, answer: &Answer<Stepped>)
        ensures { (its : ℕ) → self.new
            ≡ counted_so (asked.step its) step_said answer.now self.old }
    {
        match *answer {
            Answer::Made(placed) => {
                let reply = placed.reply.reply;
                self.count_routes(step_leaves_maps(&reply));
                self.counters.count_step(reply);
            }
            Answer::Busy | Answer::Spent | Answer::NoMemory | Answer::Full => {}
        }
    }

    /// Counts a write of a translator's control frame that was answered so.
    pub fn count_write(&mut self, offset: u32, answer: &Answer<()>)
        ensures { (its size value : ℕ) → self.new
            ≡ counted_so (asked.write_register its offset size value) (λ _. reply.Ok) answer.now
            self.old }
    {
        match *answer {
            Answer::Made(_) => self.count_routes(is_no_table(offset)),
            Answer::Busy | Answer::Spent | Answer::NoMemory | Answer::Full => {}
        }
    }

    // Counts a call, unless it left the maps.
    fn count_routes(&mut self, leaves_maps: bool)
        ensures { self.new
            ≡ record self.old { routes = counted leaves_maps self.old.routes } }
    {
        if !leaves_maps {
            self.routes = next_count(self.routes);
        }
    }
}
